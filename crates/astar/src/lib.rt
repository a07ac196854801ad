// A* over any transition system with an estimate: its definition as a function on lists, and the theorem that it answers as `model` defines.
#![tactic(auto)]
