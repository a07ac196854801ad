// What stands where in a job. Each function asks only that the bytes that it reads are there: while a job is checked, a little more of it is known
// after each check, and a type for each of these stages would say no more than the clauses do. `Job` promises it of an accepted job. Functions of one line
// that differ in a number have a name each, since a number at each call would say less.
#![tactic(auto, unfolding(model::specs::job::Layout::pair_count, model::specs::job::Layout::job_of))]

ghost use Rattle.std.specs.Prelude.{◌≡◌, ◌+◌, ◌*◌, ◌≤◌, ◌<◌, length};
ghost use Rattle.model.specs.Bits.{number_at};
ghost use Rattle.model.specs.job.Layout.{set_bytes, all_sets, action_bytes, fact_count, action_count, constraint_count, hint_count};
ghost use Rattle.model.specs.job.Layout.{pair_count, pair_offset, pair_length};
ghost use Rattle.model.specs.job.Layout.{task_bytes, forbids, set_count, action_offset, set_offset, action_at, job_of};
ghost use Rattle.job.specs.Laid.{HeadThere, ActionThere};

// A set of facts has 64 bits.
pub const SET: usize = 8;

// An action has the needed, the added and the deleted facts.
pub const PLAIN_SETS: usize = 3;

// In a longer task it has the forbidden facts as well.
pub const ALL_SETS: usize = 4;

// A cost has 16 bits.
const COST: usize = 2;

// Offsets and lengths have 16 bits.
const PAIR: usize = 2;

// The start and the goal stand before the actions.
const TASK_HEAD: usize = 16;

pub fn fact_count(bytes: &[u8]) -> u8
    requires { 4 ≤ length bytes.now }
    ensures { result ≡ fact_count bytes.now }
{
    bytes[0]
}

pub fn action_count(bytes: &[u8]) -> u8
    requires { 4 ≤ length bytes.now }
    ensures { result ≡ action_count bytes.now }
{
    bytes[1]
}

pub fn constraint_count(bytes: &[u8]) -> u8
    requires { 4 ≤ length bytes.now }
    ensures { result ≡ constraint_count bytes.now }
{
    bytes[2]
}

pub fn hint_count(bytes: &[u8]) -> u8
    requires { 4 ≤ length bytes.now }
    ensures { result ≡ hint_count bytes.now }
{
    bytes[3]
}

// How many sections hold a formula.
pub fn formula_count(bytes: &[u8]) -> usize
    requires { 4 ≤ length bytes.now }
    ensures { (result ≡ constraint_count bytes.now + hint_count bytes.now) × (result < 512) }
{
    usize::from(constraint_count(bytes)) + usize::from(hint_count(bytes))
}

pub fn pair_count(bytes: &[u8]) -> usize
    requires { 4 ≤ length bytes.now }
    ensures { (result ≡ pair_count bytes.now) × (result < 513) }
{
    1 + formula_count(bytes)
}

pub fn section_offset(bytes: &[u8], i: usize) -> usize
    requires { 8 + 4 * i ≤ length bytes.now }
    ensures { (result ≡ pair_offset bytes.now i) × (result < 65536) }
{
    words::get::<PAIR>(bytes, 4 + 4 * i) as usize
}

pub fn section_length(bytes: &[u8], i: usize) -> usize
    requires { 8 + 4 * i ≤ length bytes.now }
    ensures { (result ≡ pair_length bytes.now i) × (result < 65536) }
{
    words::get::<PAIR>(bytes, 6 + 4 * i) as usize
}

// How many bytes an action of so many sets has.
fn action_bytes(sets: usize) -> usize
    requires { sets ≤ all_sets }
    ensures { (result ≡ action_bytes sets) × (result ≤ action_bytes all_sets) }
{
    SET * sets + COST
}

// How many bytes the task section has where each action has so many sets.
pub fn task_bytes(bytes: &[u8], sets: usize) -> usize
    requires { (4 ≤ length bytes.now) × (sets ≤ all_sets) }
    ensures { result ≡ task_bytes bytes.now sets }
{
    TASK_HEAD + action_bytes(sets) * usize::from(action_count(bytes))
}

// Whether each action has a set of forbidden facts, which the task section's length tells.
fn forbids(bytes: &[u8]) -> bool
    requires { 8 ≤ length bytes.now }
    ensures { result ≡ forbids bytes.now }
{
    section_length(bytes, 0) == task_bytes(bytes, ALL_SETS)
}

// How many sets each action has.
pub fn set_count(bytes: &[u8]) -> usize
    requires { 8 ≤ length bytes.now }
    ensures { (result ≡ set_count bytes.now) × (result ≤ all_sets) }
{
    if forbids(bytes) { ALL_SETS } else { PLAIN_SETS }
}

// What follows is read of accepted jobs alone. It stands here since each function asks only that its bytes are there, which `Job` shows of all at once.

// The facts that are true at the start.
pub fn start(bytes: &[u8]) -> u64
    requires { HeadThere bytes.now }
    ensures { result ≡ (job_of bytes.now).start }
{
    words::get::<SET>(bytes, section_offset(bytes, 0))
}

// The facts that are to be true at the end.
pub fn goal(bytes: &[u8]) -> u64
    requires { HeadThere bytes.now }
    ensures { result ≡ (job_of bytes.now).goal }
{
    words::get::<SET>(bytes, section_offset(bytes, 0) + SET)
}

// Where action i begins.
fn action_offset(bytes: &[u8], i: usize) -> usize
    requires { ActionThere bytes.now i }
    ensures { result ≡ action_offset bytes.now i }
{
    section_offset(bytes, 0) + TASK_HEAD + action_bytes(set_count(bytes)) * i
}

// Where set k of action i stands; after the last one stands the cost.
pub fn set_offset(bytes: &[u8], i: usize, k: usize) -> usize
    requires { ActionThere bytes.now i × (k ≤ set_count bytes.now) }
    ensures { result ≡ set_offset bytes.now i k }
{
    action_offset(bytes, i) + SET * k
}

// Set k of action i.
fn action_set(bytes: &[u8], i: usize, k: usize) -> u64
    requires { ActionThere bytes.now i × (k < set_count bytes.now) }
    ensures { result ≡ number_at set_bytes bytes.now (set_offset bytes.now i k) }
{
    words::get::<SET>(bytes, set_offset(bytes, i, k))
}

// The facts that action i needs.
pub fn action_pre(bytes: &[u8], i: usize) -> u64
    requires { ActionThere bytes.now i }
    ensures { result ≡ (action_at bytes.now i).pre }
{
    action_set(bytes, i, 0)
}

// The facts that action i adds.
pub fn action_add(bytes: &[u8], i: usize) -> u64
    requires { ActionThere bytes.now i }
    ensures { result ≡ (action_at bytes.now i).add }
{
    action_set(bytes, i, 1)
}

// The facts that action i deletes.
pub fn action_del(bytes: &[u8], i: usize) -> u64
    requires { ActionThere bytes.now i }
    ensures { result ≡ (action_at bytes.now i).del }
{
    action_set(bytes, i, 2)
}

// The facts that must not be true for action i.
pub fn action_forbidden(bytes: &[u8], i: usize) -> u64
    requires { ActionThere bytes.now i }
    ensures { result ≡ (action_at bytes.now i).forbidden }
{
    if forbids(bytes) {
        action_set(bytes, i, 3)
    } else {
        0
    }
}

pub fn action_cost(bytes: &[u8], i: usize) -> u64
    requires { ActionThere bytes.now i }
    ensures { (result ≡ (action_at bytes.now i).cost) × (result < 65536) }
{
    words::get::<COST>(bytes, set_offset(bytes, i, set_count(bytes)))
}
