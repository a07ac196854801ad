// The start of the search: the start node in slot 0, if it is reached and there is a slot. It is reached if no constraint is dead there and it has an
// estimate. `Starts` is about the query, the table, the node and its estimate, and no one value holds them.
ghost use Rattle.std.specs.Prelude.{◌≡◌, []};
ghost use Rattle.astar.specs.Search.{search_in};
ghost use Rattle.held.specs.Held.{sys};
ghost use Rattle.search.specs.Outcome.{EndsAs, Starts, Begun};

use super::{Ended, turns};
use job::Query;
use model::{NODE, Reason};
use progression::Work;
use table::{Slot, Table};
use task::Key;

// Writes the start node to slot 0. It has no parent; its steps are 0, so that none is followed.
fn begin(work: &mut Work, t: &mut Table, node: [u64; NODE], estimate: u64)
    requires { Starts work.old node estimate t.old }
    ensures { Begun work.old.bytes node estimate t.old t.new × (work.new ≡ work.old) }
{
    let hints = nodes::start_hints(work.job());
    let goal = nodes::is_goal(work, node);
    t.push(Slot {
        node,
        hints,
        key: Key::ZERO,
        estimate,
        parent: 0,
        action: 0,
        taken: false,
        goal,
    });
}

// The search from the start node.
fn from_start(work: &mut Work, t: &mut Table, node: [u64; NODE], estimate: u64) -> Ended
    requires { Starts work.old node estimate t.old }
    ensures { EndsAs t.new result (search_in (sys work.old) t.old.room) }
{
    begin(work, t, node, estimate);
    turns::run(work, t)
}

// The same in a workspace of its own, which has a memo where that pays. The read-through has such a function, too. One for both would be lent what is done
// in the workspace as a closure, and a contract says nothing of what this one would borrow and change: the table.
fn in_workspace(q: &Query, t: &mut Table, node: [u64; NODE], estimate: u64) -> Ended
    requires { Starts q.now node estimate t.old }
    ensures { EndsAs t.new result (search_in (sys q.now) t.old.room) }
{
    if progression::pays(q.job(), t.room()) {
        let mut words = [0; progression::WORDS];
        return from_start(&mut Work::new(q, &mut words), t, node, estimate);
    }
    from_start(&mut Work::new(q, &mut []), t, node, estimate)
}

// The search in an empty table.
pub fn searched(q: &Query, t: &mut Table) -> Ended
    requires { t.old.slots ≡ [] }
    ensures { EndsAs t.new result (search_in (sys q.now) t.old.room) }
{
    let node = nodes::start(q.job()).ok_or(Reason::NoPlan)?;
    let left = nodes::estimate_of(q, node).ok_or(Reason::NoPlan)?;
    if t.room() == 0 {
        return Err(Reason::TableTooSmall);
    }
    // The count also says that the job is accepted, which is asked of each turn.
    prove!(q.job().action_count() <= 64);
    in_workspace(q, t, node, left)
}
