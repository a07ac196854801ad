// All arrivals from one slot of the table: each action is followed in order, and what it leads to is held.
// The workspace and the table are lent side by side, since a struct of both would only be taken apart again. `Arriving` is about the query and the table, too,
// which an arrival does not hold.
#![tactic(auto)]

mod made; // made.rt: the slots that arrivals make

ghost use Rattle.std.specs.Prelude.{◌≡◌, ◌<◌, length};
ghost use Rattle.model.specs.search.Query.{job_for};
ghost use Rattle.nodes.specs.Meaning.{Applies};
ghost use Rattle.held.specs.Held.{node_for};
ghost use Rattle.held.specs.Running.{Busy};
ghost use Rattle.expansion.specs.Arrivals.{Arriving, LeadsTo, Relaxes};
ghost use Rattle.expansion.specs.Growth.{Follows, Expands};

use made::Arrival;
use model::Reason;
use progression::Work;
use table::{Slot, Table};

// One slot more was wanted than there is room for.
#[derive(Clone, Copy, Debug, PartialEq, Eq)]
pub struct Full;

// A search passes it on by `?` as its reason.
impl From<Full> for Reason {
    ghost use Rattle.std.specs.Prelude.{◌≡◌};
    ghost use Rattle.model.specs.declared.Reason.TheVariants.{TableTooSmall};

    ghost from_gives = { λ _ reason. reason ≡ TableTooSmall };

    fn from(_: Full) -> Reason {
        Reason::TableTooSmall
    }
}

// An arrival at the node of slot j, which is held. A taken slot stays; a lesser key replaces, an equal one merges.
fn relax(work: &mut Work, t: &mut Table, x: &Arrival, j: usize)
    requires { Arriving work.old t.old x.now.slot x.now.from x.now.action × (j < length t.old.slots) }
    ensures { Relaxes work.old t.old x.now.slot x.now.from x.now.action x.now.node j t.new × (work.new ≡ work.old) }
{
    let slots = t.in_use();
    if slots.is_taken(j) {
        return;
    }
    let old = slots.load(j);
    let key = made::key_of(work.job(), x);
    if key < old.key {
        let s = made::replaced(work, x, key, &old);
        t.store(j, s);
    } else if key == old.key {
        let s = made::merged(work, t, x, &old);
        t.store(j, s);
    }
}

// An arrival at its node, which is looked up. A new node that has no estimate is not reached.
fn arrive(work: &mut Work, t: &mut Table, x: &Arrival) -> Result<(), Full>
    requires { Arriving work.old t.old x.now.slot x.now.from x.now.action × LeadsTo work.old x.now.from x.now.action x.now.node }
    ensures { Follows work.old t.old x.now.slot x.now.from x.now.action result t.new × (work.new ≡ work.old) }
{
    if let Some(j) = t.in_use().find(x.node) {
        relax(work, t, x, j);
        return Ok(());
    }
    let Some(left) = nodes::estimate_of(work.query(), x.node) else {
        return Ok(());
    };
    if t.len() == t.room() {
        return Err(Full);
    }
    let s = made::fresh(work, x, left);
    t.push(s);
    Ok(())
}

// One action that is applicable, from slot i, whose record is that of `from`. That slot is taken, so an arrival at its own node changes nothing.
fn follow(work: &mut Work, t: &mut Table, i: usize, from: Slot, a: u8) -> Result<(), Full>
    requires { Arriving work.old t.old i from a × Applies (job_for work.old) (node_for work.old.bytes from.node) a }
    ensures { Follows work.old t.old i from a result t.new × (work.new ≡ work.old) }
{
    match nodes::next(work, from.node, a) {
        Some(node) if node != from.node => arrive(
            work,
            t,
            &Arrival {
                slot: i,
                from,
                action: a,
                node,
            },
        ),
        _ => Ok(()),
    }
}

// All actions in order that are applicable and that the caller may use. The slot is read once: being taken, it does not change while it is expanded.
// Whether an action was chosen is tested here and not in follow, so that nothing is copied for one that was not.
pub fn expand(work: &mut Work, t: &mut Table, i: usize) -> Result<(), Full>
    requires { Busy work.old t.old i 0 }
    ensures { Expands work.old t.old i result t.new × (work.new ≡ work.old) }
{
    let from = t.in_use().load(i);
    let choices = nodes::choices(work.query(), from.node);
    for a in 0..work.job().action_count() {
        if bits::bit_at(choices, a) {
            follow(work, t, i, from, a)?;
        }
    }
    Ok(())
}
