// What the slots of a table stand for in the search: records of the job's transition system.
#![tactic(auto)]
