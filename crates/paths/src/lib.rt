// The paths that the slots of a table stand for, followed from parent to parent: two of them compared, and one written out.
// That slots are chained is asked by each function, and is no promise of `InUse`: that takes any bytes, and only a search keeps slots so.
#![tactic(auto)]

ghost use Rattle.std.specs.Prelude.{◌≡◌, ◌++◌, ◌≤◌, ◌<◌, length, drop};
ghost use Rattle.paths.specs.Chain.{steps_at, slot_path, order, order_by, Chained, Level};

use table::InUse;

// Whether the path of the slot x comes before that of y, another slot with equally many steps. The order is decided where the two paths
// part, so both are followed back until their parents are one.
pub fn before(t: &InUse, x: usize, y: usize) -> bool
    requires { Chained t.now × Level t.now x y }
    ensures { result ≡ order t.now x y }
{
    let mut i = x;
    let mut j = y;
    let mut p = t.parent(x);
    let mut q = t.parent(y);
    // Parents are followed, and no index is counted.
    while p != q {
        i = p;
        j = q;
        p = t.parent(i);
        q = t.parent(j);
    }
    t.action(i) < t.action(j)
}

// Whether the path of the slot i and on by action a comes before that of the slot j and on by b, where i and j have equally many steps.
pub fn comes_first(t: &InUse, i: usize, a: u64, j: usize, b: u64) -> bool
    requires { Chained t.now × (i < length t.now) × (j < length t.now) × (steps_at t.now i ≡ steps_at t.now j) }
    ensures { result ≡ order_by t.now i a j b }
{
    if i == j {
        return a < b;
    }
    before(t, i, j)
}

// Writes the path of the slot i to the front of a plan, from its last action to its first.
pub fn write(t: &InUse, i: usize, plan: &mut [u8])
    requires { Chained t.now × (i < length t.now) × (steps_at t.now i ≤ length plan.old) }
    ensures { plan.new ≡ slot_path t.now (steps_at t.now i) i ++ drop (steps_at t.now i) plan.old }
{
    let mut at = i;
    for k in (0..t.key(i).steps as usize).rev() {
        plan[k] = t.action(at);
        at = t.parent(at);
    }
}
