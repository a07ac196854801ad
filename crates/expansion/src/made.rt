// The slots that arrivals make: of a new node, and in place of the slot of a node that is held. What is asked of an arrival (`Extends`) is no promise of its
// type, since it is about the job, too, which the arrival does not hold.
ghost use Rattle.std.specs.Prelude.{◌≡◌, ◌<◌};
ghost use Rattle.model.specs.job.Layout.{constraint_count, hint_count};
ghost use Rattle.nodes.specs.Meaning.{Clean, Carries};
ghost use Rattle.table.specs.Slots.{Narrow};
ghost use Rattle.held.specs.Held.{Formed, FitsSlot};
ghost use Rattle.expansion.specs.Arrivals.{Extends, Reaches, Makes, key_by, hints_by, newcomer, Joins, joined};

use job::Job;
use model::NODE;
use progression::Work;
use table::{Slot, Table};
use task::Key;

// An arrival: the slot that is expanded, what it holds, the action that is followed, and the node that it leads to.
#[derive(Clone, Copy, Debug, PartialEq, Eq)]
pub struct Arrival {
    pub slot: usize,
    pub from: Slot,
    pub action: u8,
    pub node: [u64; NODE],
}

// The key of an arrival: the sum fits, since costs are sums of as many 16-bit numbers as there are steps.
pub fn key_of(job: &Job, x: &Arrival) -> Key
    requires { Extends job.now x.now.from x.now.action }
    ensures { Reaches (key_by job.now x.now.from x.now.action) result }
{
    x.from.key.extended(nodes::cost_of(job, x.action))
}

// The hint residuals of an arrival at its node.
fn hints_of(work: &mut Work, x: &Arrival) -> [u64; 8]
    requires { Extends work.old.bytes x.now.from x.now.action }
    ensures { Carries (hint_count work.old.bytes) (hints_by work.old.bytes x.now.from x.now.action x.now.node) result × (work.new ≡ work.old) }
{
    nodes::next_hints(work, x.from.hints, x.node, x.action)
}

// The slot of a new node, which has an estimate.
pub fn fresh(work: &mut Work, x: &Arrival, estimate: u64) -> Slot
    requires { Extends work.old.bytes x.now.from x.now.action × (x.now.slot < 65536) × Clean (constraint_count work.old.bytes) x.now.node
        × FitsSlot estimate }
    ensures { Makes work.old.bytes (newcomer work.old.bytes x.now.slot x.now.from x.now.action x.now.node x.now.node) estimate result
        × (work.new ≡ work.old) }
{
    let key = key_of(work.job(), x);
    let hints = hints_of(work, x);
    let goal = nodes::is_goal(work, x.node);
    let parent = x.slot;
    Slot {
        node: x.node,
        hints,
        key,
        estimate,
        parent,
        action: x.action,
        taken: false,
        goal,
    }
}

// The slot of a node that is reached by a lesser key: the node is the old one, so it is a goal if that was, and has its estimate.
pub fn replaced(work: &mut Work, x: &Arrival, key: Key, old: &Slot) -> Slot
    requires { Extends work.old.bytes x.now.from x.now.action × (x.now.slot < 65536)
        × Reaches (key_by work.old.bytes x.now.from x.now.action) key × Formed work.old.bytes old.now × Narrow old.now }
    ensures { Makes work.old.bytes (newcomer work.old.bytes x.now.slot x.now.from x.now.action x.now.node old.now.node) old.now.estimate result
        × (work.new ≡ work.old) }
{
    let hints = hints_of(work, x);
    Slot {
        hints,
        key,
        parent: x.slot,
        action: x.action,
        taken: false,
        ..*old
    }
}

// The slot of a node that is reached by an equal key: both ways' hints hold, and the way whose path comes first is kept.
pub fn merged(work: &mut Work, t: &Table, x: &Arrival, old: &Slot) -> Slot
    requires { Extends work.old.bytes x.now.from x.now.action × Joins work.old.bytes t.now.slots x.now.slot old.now }
    ensures { Makes work.old.bytes (joined work.old.bytes t.now.slots x.now.slot x.now.from x.now.action x.now.node old.now) old.now.estimate result
        × (work.new ≡ work.old) }
{
    let hints = progression::met(old.hints, hints_of(work, x));
    let ours = u64::from(x.action);
    let theirs = u64::from(old.action);
    if paths::comes_first(&t.in_use(), x.slot, ours, old.parent, theirs) {
        Slot {
            hints,
            parent: x.slot,
            action: x.action,
            taken: false,
            ..*old
        }
    } else {
        Slot {
            hints,
            taken: false,
            ..*old
        }
    }
}
