// The turns of the search. Each takes the open slot of the least rank, until a goal has that rank as its key or no slot is open. The workspace and the table
// are lent side by side: a struct of both would only be taken apart again, since most functions need one of the two, or change one while they read the other.
// `Idle` is about the query and the table at once, so it is an invariant of neither.
ghost use Rattle.std.specs.Prelude.{◌≡◌, suc, length};
ghost use Rattle.model.specs.logic.Formula.{choose};
ghost use Rattle.model.specs.Reason.{number_of};
ghost use Rattle.astar.specs.Search.{turns};
ghost use Rattle.held.specs.Held.{sys, held_in};
ghost use Rattle.held.specs.Running.{Idle};
ghost use Rattle.search.specs.GoalSlots.{any_cut};
ghost use Rattle.search.specs.Outcome.{EndsAs, Turned, Took, Least, Taking};

use super::{Ended, goals};
use job::Job;
use model::Reason;
use progression::Work;
use table::Table;

// What a turn comes to: the slot of the answer, or that the search goes on; or why it ends without one.
type Turn = Result<Option<usize>, Reason>;

// Why there is no plan where no slot is open: some node was cut, or none.
fn no_plan(job: &Job, t: &Table) -> Reason
    ensures { number_of result ≡ choose (any_cut job.now t.now.slots) 11 12 }
{
    if goals::some_cut(job, t) {
        Reason::NoPlanCut
    } else {
        Reason::NoPlan
    }
}

// Takes the slot i, and follows its actions unless it is cut. A full table ends the search.
fn take(work: &mut Work, t: &mut Table, i: usize) -> Result<(), Reason>
    requires { Taking work.old t.old i }
    ensures { Took work.old t.old t.new result × (work.new ≡ work.old) }
{
    let cut = goals::slot_cut(work.job(), t, i);
    t.mark(i);
    if !cut {
        expansion::expand(work, t, i)?;
    }
    Ok(())
}

// A turn at the slot i, the open one of the least rank; the estimate of a goal is 0, so its key is its rank.
fn turn_at(work: &mut Work, t: &mut Table, i: usize) -> Turn
    requires { Idle work.old t.old × Least work.old t.old i }
    ensures { Turned work.old t.old t.new result × (work.new ≡ work.old) }
{
    let key = t.in_use().rank(i);
    if let Some(g) = goals::first_goal(work.job(), t, key) {
        return Ok(Some(g));
    }
    take(work, t, i)?;
    Ok(None)
}

// One turn.
fn turn(work: &mut Work, t: &mut Table) -> Turn
    requires { Idle work.old t.old }
    ensures { Turned work.old t.old t.new result × (work.new ≡ work.old) }
{
    match t.in_use().least() {
        Some(i) => turn_at(work, t, i),
        None => Err(no_plan(work.job(), t)),
    }
}

// All turns, from a table with the start node as its one slot. Each takes one slot, so one turn more than there is room for slots is enough.
pub fn run(work: &mut Work, t: &mut Table) -> Ended
    requires { Idle work.old t.old × (length t.old.slots ≡ 1) }
    ensures { EndsAs t.new result (turns (sys work.old) t.old.room (suc t.old.room) (held_in work.old.bytes t.old.slots)) }
{
    for _ in 0..t.room() + 1 {
        if let Some(g) = turn(work, t)? {
            return Ok(g);
        }
    }
    Err(Reason::TableTooSmall)
}
