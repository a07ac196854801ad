// The goals of a key: the one whose path comes first. And whether any node was cut. The job and the table are lent side by side, as in the turns.
ghost use Rattle.std.specs.Prelude.{◌≡◌, ◌+◌, ◌<◌, length};
ghost use Rattle.table.specs.Slots.{slot_in};
ghost use Rattle.task.specs.Meaning.{key_is};
ghost use Rattle.paths.specs.Chain.{Chained};
ghost use Rattle.search.specs.GoalSlots.{slot_cut, any_cut, due, chosen, first_due, After};

use job::Job;
use table::Table;
use task::Key;

// Whether the slot i is an uncut goal of a key. Most slots are no goal, or have another key, which one word tells.
#[tactic(auto, using(task::proofs::KeyLaws::eq_is_same), unfolding(crate::specs::GoalSlots::due))]
fn is_due(job: &Job, t: &Table, i: usize, key: Key) -> bool
    requires { i < length t.now.slots }
    ensures { result ≡ due job.now (key_is key) (slot_in t.now.slots i) }
{
    let slots = t.in_use();
    slots.is_goal(i) && slots.key(i) == key && !slot_cut(job, t, i)
}

// Of the slot i, if it is due, and the one found after it, the one whose path comes first.
#[tactic(auto, using(crate::proofs::GoalLaws::comparable), unfolding(crate::specs::GoalSlots::chosen))]
fn choose(job: &Job, t: &Table, found: Option<usize>, i: usize, key: Key) -> Option<usize>
    requires { (i < length t.now.slots) × Chained t.now.slots × After t.now.slots (i + 1) (key_is key) found }
    ensures { result ≡ chosen t.now.slots (due job.now (key_is key) (slot_in t.now.slots i)) i found }
{
    if !is_due(job, t, i, key) {
        return found;
    }
    match found {
        Some(b) if paths::before(&t.in_use(), b, i) => Some(b),
        _ => Some(i),
    }
}

// The uncut goal of a key whose path comes first. It is a loop: two slots can be compared only where both are due, and the closure of
// `min_by` is not told what a `filter` before it tested.
pub fn first_goal(job: &Job, t: &Table, key: Key) -> Option<usize>
    requires { Chained t.now.slots }
    ensures { result ≡ first_due job.now (key_is key) t.now.slots t.now.slots 0 }
{
    let mut found = None;
    for i in (0..t.len()).rev() {
        found = choose(job, t, found, i, key);
    }
    found
}

// Whether the node of the slot i is cut.
#[tactic(auto, unfolding(crate::specs::GoalSlots::slot_cut))]
pub fn slot_cut(job: &Job, t: &Table, i: usize) -> bool
    requires { i < length t.now.slots }
    ensures { result ≡ slot_cut job.now (slot_in t.now.slots i) }
{
    nodes::is_cut(job, t.in_use().load(i).hints)
}

// Whether any slot is cut.
pub fn some_cut(job: &Job, t: &Table) -> bool
    ensures { result ≡ any_cut job.now t.now.slots }
{
    (0..t.len()).any(|i| slot_cut(job, t, i))
}
