// Whole slots in bytes and their parts, read and written. A part is read in one line, and has a name, where one function for all would have
// a word, a divisor and a modulus.
// Here a promise is about the bytes, and in `InUse` and `Table` about the list in use: one method for both would be proved against both at once.
// Each asks only that the bytes of its own slot are there; a type for bytes with such a slot would say no more.
#![tactic(auto, using(crate::proofs::SlotLaws::in_rows))]

ghost use Rattle.std.specs.Prelude.{◌≡◌, ◌+◌, ◌*◌, ◌≤◌, ◌<◌, length, set, replicate};
ghost use Rattle.model.specs.calls.Search.{slots_in, slot_bytes};
ghost use Rattle.model.specs.search.Node.{same_numbers};
ghost use Rattle.table.specs.Slots.{slots, slot_at, taken_slot, Narrow};

use super::cells::{ROW, SLOT};
use super::{Slot, cells, rows};
use model::NODE;
use task::Key;

// How many slots a table has: its whole ones, at most 65,536.
pub fn capacity(t: &[u8]) -> usize
    ensures { (result ≡ slots_in t.now) × (result * slot_bytes ≤ length t.now) × (result ≤ 65536) }
{
    (t.len() / SLOT).min(65536)
}

// Makes every byte zero.
pub fn clear(t: &mut [u8])
    ensures { t.new ≡ replicate (length t.old) 0 }
{
    t.fill(0);
}

// The slot i.
pub fn load(t: &[u8], i: usize) -> Slot
    requires { i * slot_bytes + slot_bytes ≤ length t.now }
    ensures { (result ≡ slot_at t.now i) × Narrow result }
{
    rows::unpack(cells::get_row(t, i))
}

// Sets the slot i to s.
pub fn store(t: &mut [u8], i: usize, s: Slot)
    requires { (i * slot_bytes + slot_bytes ≤ length t.old) × Narrow s }
    ensures { slots t.new ≡ set (slots t.old) i s }
{
    cells::put_row(t, i, rows::pack(s));
}

// Marks the slot i as taken.
pub fn mark(t: &mut [u8], i: usize)
    requires { i * slot_bytes + slot_bytes ≤ length t.old }
    ensures { slots t.new ≡ set (slots t.old) i (taken_slot (slot_at t.old i)) }
{
    let w = cells::get(t, i * ROW + 18);
    let flags = rows::flag_word(rows::action_in(w), true, rows::goal_in(w));
    cells::put(t, i * ROW + 18, flags);
}

// The key of the slot i.
pub fn key(t: &[u8], i: usize) -> Key
    requires { i * slot_bytes + slot_bytes ≤ length t.now }
    ensures { (result ≡ (slot_at t.now i).key) × (result.cost < 4294967296) × (result.steps < 65536) }
{
    rows::key_in(cells::get(t, i * ROW + 17))
}

// The estimate of the slot i.
pub fn estimate(t: &[u8], i: usize) -> u64
    requires { i * slot_bytes + slot_bytes ≤ length t.now }
    ensures { (result ≡ (slot_at t.now i).estimate) × (result < 1073741824) }
{
    rows::estimate_in(cells::get(t, i * ROW + 19))
}

// The parent of the slot i.
pub fn parent(t: &[u8], i: usize) -> usize
    requires { i * slot_bytes + slot_bytes ≤ length t.now }
    ensures { (result ≡ (slot_at t.now i).parent) × (result < 65536) }
{
    rows::parent_in(cells::get(t, i * ROW + 17))
}

// The action of the slot i.
pub fn action(t: &[u8], i: usize) -> u8
    requires { i * slot_bytes + slot_bytes ≤ length t.now }
    ensures { result ≡ (slot_at t.now i).action }
{
    rows::action_in(cells::get(t, i * ROW + 18))
}

// Whether the slot i is a goal.
pub fn is_goal(t: &[u8], i: usize) -> bool
    requires { i * slot_bytes + slot_bytes ≤ length t.now }
    ensures { result ≡ (slot_at t.now i).goal }
{
    rows::goal_in(cells::get(t, i * ROW + 18))
}

// Whether the slot i was taken.
pub fn is_taken(t: &[u8], i: usize) -> bool
    requires { i * slot_bytes + slot_bytes ≤ length t.now }
    ensures { result ≡ (slot_at t.now i).taken }
{
    rows::taken_in(cells::get(t, i * ROW + 18))
}

// Whether the slot i is that of a node: an array against words in bytes, which nothing derives.
pub fn is_node(t: &[u8], i: usize, node: [u64; NODE]) -> bool
    requires { i * slot_bytes + slot_bytes ≤ length t.now }
    ensures { result ≡ same_numbers node (slot_at t.now i).node }
{
    (0..NODE).all(|j| node[j] == cells::get(t, i * ROW + j))
}
