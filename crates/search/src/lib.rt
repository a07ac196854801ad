// The search for a job's plan, on bytes that a caller lends.
#![tactic(auto)]

mod goals; // goals.rt: the goals of a key, and whether a node was cut
mod turns; // turns.rt: the turns of the search
mod start; // start.rt: the start node, and the workspace
mod result; // result.rt: what is handed back to the caller

ghost use Rattle.std.specs.Prelude.{◌≡◌};
ghost use Rattle.model.specs.calls.Search.{search_end, SearchEnds};
ghost use Rattle.model.specs.calls.Numbers.{search_numbers, PartGiven};
ghost use Rattle.search.specs.Given.{runs_out};

use model::{Planned, Reason, Refusal};
use rights::Call;

// What a search in a table comes to: the slot of the answer; or that the table is too small, or that there is no plan.
type Ended = Result<usize, Reason>;

// Searches for the job's plan by the steps that the caller may use, and writes it to the front of the plan buffer. Bytes that are no job, and a list of
// needed rights of another length, are refused with nothing touched; on every other way out each byte of the table is zero.
pub fn search(call: &Call, table: &mut [u8], plan: &mut [u8]) -> Result<Planned, Refusal>
    ensures { SearchEnds runs_out call.now table.old plan.old (search_end result table.new plan.new) }
{
    let query = call.accept()?;
    let end = result::answer(&query, table, plan);
    table::clear(table);
    end
}

// The result of a search as three numbers for C: 0, the cost and the number of steps, or a refusal's number, its place and 0.
#[tactic(auto, unfolding(model::specs::calls::Numbers::search_numbers))]
pub fn numbers(end: Result<Planned, Refusal>) -> [u64; 3]
    ensures { result ≡ search_numbers end }
{
    match end {
        Ok(plan) => [0, plan.cost, plan.steps as u64],
        Err(refusal) => [u64::from(refusal.number()), refusal.place() as u64, 0],
    }
}

// What a search gives, and the front part of the plan buffer that holds the steps. The part is there on a refusal, too, and empty: that is asked for
// (docs/DECISIONS.md).
#[derive(Drop)]
pub struct Given<'a> {
    pub result: Result<Planned, Refusal>,
    pub steps: &'a mut [u8],
}

// The same search, which hands the steps back. The two cases are written out, since a proof does not yet cover a Result that is read and then handed on.
pub fn planned<'a>(call: &Call, table: &mut [u8], plan: &'a mut [u8]) -> Given<'a>
    ensures { PartGiven runs_out call.now table.old plan.entry.now table.new result.steps.now result.result
        × (result.steps.ref_ptr ≡ plan.entry.ref_ptr) }
{
    match search(call, table, plan) {
        Ok(found) => Given {
            result: Ok(found),
            steps: &mut plan[..found.steps],
        },
        Err(refusal) => Given {
            result: Err(refusal),
            steps: &mut plan[..0],
        },
    }
}
