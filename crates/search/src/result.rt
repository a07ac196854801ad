// What a search hands back to its caller: the plan with its cost and length, or a refusal.
ghost use Rattle.std.specs.Prelude.{◌≡◌, ◌<◌, length};
ghost use Rattle.model.specs.calls.Search.{search_end, slots_in, cleared};
ghost use Rattle.astar.specs.Search.{search_in};
ghost use Rattle.table.specs.Slots.{slot_in};
ghost use Rattle.paths.specs.Chain.{steps_at, slot_path, Chained};
ghost use Rattle.held.specs.Held.{sys};
ghost use Rattle.search.specs.Given.{end_of, HandsOver};

use super::start;
use job::Query;
use model::{Planned, Reason, Refusal};
use table::Table;

// Writes the path of slot g to the plan buffer, unless that is shorter.
fn hand_over(t: &Table, g: usize, plan: &mut [u8]) -> Result<Planned, Refusal>
    requires { Chained t.now.slots × (g < length t.now.slots) }
    ensures { HandsOver (slot_in t.now.slots g).key.cost (slot_path t.now.slots (steps_at t.now.slots g) g)
        plan.old result plan.new }
{
    let slots = t.in_use();
    let key = slots.key(g);
    let steps = key.steps as usize;
    model::unless(steps <= plan.len(), Reason::BufferTooShort, steps)?;
    paths::write(&slots, g, plan);
    Ok(Planned {
        cost: key.cost,
        steps,
    })
}

// The answer to what is asked. The table's bytes are left as the search used them.
pub fn answer(q: &Query, bytes: &mut [u8], plan: &mut [u8]) -> Result<Planned, Refusal>
    ensures { search_end result (cleared bytes.old) plan.new ≡ end_of (search_in (sys q.now) (slots_in bytes.old)) bytes.old plan.old }
{
    let mut table = Table::new(bytes);
    let goal = start::searched(q, &mut table).map_err(|reason| Refusal::new(reason, 0))?;
    hand_over(&table, goal, plan)
}
