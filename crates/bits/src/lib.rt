// Sets of numbers below 64, and truth tables of six unknowns for all settings at once, each in 64 bits.
#![tactic(auto)]

ghost use Rattle.std.specs.Prelude.{◌≡◌, ℕ, ◌≤◌, ◌<◌, ◌^◌};
ghost use Rattle.model.specs.logic.Parts.{most_parts};
ghost use Rattle.model.specs.Bits.{bit};
ghost use Rattle.bits.specs.Tables.{unknown, everywhere, fixed, selected, Upward, substituted};

use model::MOST_PARTS;

// Whether bit i of x is set.
#[tactic(auto, unfolding(model::specs::Bits::bit))]
pub fn bit_at(x: u64, i: u8) -> bool
    requires { i < 64 }
    ensures { result ≡ bit x i }
{
    (x >> i) % 2 == 1
}

// The set of those below n of which f holds, one bit each. The last one's bit comes first, so that each next one is bit 0.
#[tactic(auto, using(crate::proofs::SetLaws::sets))]
pub fn set_of<F: Fn(usize) -> bool>(n: usize, f: F) -> u64
    requires few { n ≤ 64 }
    requires callable { (i : ℕ) → i < n → F.pre f i }
    ensures below { result < 2 ^ n }
    ensures bits { (i : ℕ) → i < n → F.post f i (bit result i) }
{
    let mut set = 0;
    for i in (0..n).rev() {
        set = u64::from(f(i)) + 2 * set;
    }
    set
}

// The table that is the same at every setting.
pub fn everywhere(b: bool) -> u64
    ensures { result ≡ everywhere most_parts b }
{
    if b { u64::MAX } else { 0 }
}

// The table of an unknown.
pub fn unknown(i: usize) -> u64
    ensures { result ≡ unknown most_parts i }
{
    match i {
        0 => 0xaaaa_aaaa_aaaa_aaaa,
        1 => 0xcccc_cccc_cccc_cccc,
        2 => 0xf0f0_f0f0_f0f0_f0f0,
        3 => 0xff00_ff00_ff00_ff00,
        4 => 0xffff_0000_ffff_0000,
        5 => 0xffff_ffff_0000_0000,
        _ => 0,
    }
}

// The table r where unknown i has a value. The settings that differ in it alone lie 2 ^ i bits apart.
fn fixed(r: u64, i: usize, value: bool) -> u64
    requires { i < most_parts }
    ensures { result ≡ fixed most_parts i value r }
{
    let apart = 1u32 << i;
    if value {
        let t = r & unknown(i);
        t | (t >> apart)
    } else {
        let f = r & !unknown(i);
        f | (f << apart)
    }
}

// The table r with the table p put for unknown i.
pub fn select(r: u64, p: u64, i: usize) -> u64
    requires { i < most_parts }
    ensures { result ≡ selected most_parts i p r }
{
    (p & fixed(r, i, true)) | (!p & fixed(r, i, false))
}

// The table r with each unknown replaced by its own table. A table has only the unknowns from its own number on, so replacing from the last
// to the first puts in each just once.
pub fn substitute(r: u64, t: [u64; MOST_PARTS]) -> u64
    requires { Upward most_parts t }
    ensures { result ≡ substituted most_parts t r }
{
    let mut left = r;
    for i in (0..MOST_PARTS).rev() {
        left = select(left, t[i], i);
    }
    left
}
