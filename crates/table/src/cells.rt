// Words of 64 bits in bytes, and rows of them.
#![tactic(auto, unfolding(crate::specs::Cells::word, crate::specs::Cells::with_word))]

ghost use Rattle.std.specs.Prelude.{◌≡◌, ◌+◌, ◌*◌, ◌^◌, ◌≤◌, ◌<◌, length};
ghost use Rattle.model.specs.calls.Search.{slot_bytes};
ghost use Rattle.table.specs.Cells.{word, with_word, row, RowSet};

use std::array;

// The bytes of a slot, which is a row.
pub const SLOT: usize = 160;

// The words of a row.
pub const ROW: usize = SLOT / 8;

// The word k.
pub fn get(t: &[u8], k: usize) -> u64
    requires { k * 8 + 8 ≤ length t.now }
    ensures { result ≡ word t.now k }
{
    words::get::<8>(t, k * 8)
}

// Sets the word k to v.
pub fn put(t: &mut [u8], k: usize, v: u64)
    requires { k * 8 + 8 ≤ length t.old }
    ensures { (v < 2 ^ 64) × (t.new ≡ with_word t.old k v) }
{
    words::put::<8>(t, k * 8, v);
}

// The words of row i.
pub fn get_row(t: &[u8], i: usize) -> [u64; ROW]
    requires { i * slot_bytes + slot_bytes ≤ length t.now }
    ensures { result ≡ row t.now i }
{
    array::from_fn(|j| get(t, i * ROW + j))
}

// Writes the words of row i. The index is also the word's place in the row.
pub fn put_row(t: &mut [u8], i: usize, a: [u64; ROW])
    requires { i * slot_bytes + slot_bytes ≤ length t.old }
    ensures { RowSet t.old t.new i a }
{
    for j in 0..ROW {
        put(t, i * ROW + j, a[j]);
    }
}
