// The truths of a formula's fact codes in a state, read in a pass of their own.
ghost use Rattle.std.specs.Prelude.{◌≡◌, ◌*◌, ◌^◌, ◌<◌};
ghost use Rattle.model.specs.Bits.{bit, digit};
ghost use Rattle.model.specs.logic.Parts.{most_bytes};
ghost use Rattle.model.specs.logic.Reading.{parsed};
ghost use Rattle.residual.specs.Facts.{truth_bit, fact_truths};
ghost use Rattle.residual.specs.Pass.{Legible, read_code};
ghost use Rattle.residual.specs.Residual.{Ready, formula_of};

use model::Code;

// How far the pass is: the truths that were read, and the position of the next code.
#[derive(Clone, Copy)]
struct Reading {
    truths: u64,
    at: usize,
}

// The truth of a fact, as the bit of its code at a position.
fn truth_at(state: u64, number: u8, at: usize) -> u64
    requires { (number < 64) × (at < most_bytes) }
    ensures { result ≡ digit (bit state number) * 2 ^ truth_bit at }
{
    ((state >> number) % 2) << (at / 2)
}

// One code more.
fn read_code(s: &[u8], state: u64, r: Reading) -> Reading
    requires { Legible s.now r.at }
    ensures { result ≡ read_code s.now state r }
{
    let at = r.at;
    let b = at + 1;
    match Code::from(s[at]) {
        Code::Fact => Reading {
            truths: r.truths | truth_at(state, s[b], at),
            at: b + 1,
        },
        Code::Action => Reading { at: b + 1, ..r },
        _ => Reading { at: b, ..r },
    }
}

// The truths of the formula's fact codes.
pub fn read(s: &[u8], state: u64) -> u64
    requires { Ready s.now (parsed 64 64 s.now 0) }
    ensures { result ≡ fact_truths (formula_of (parsed 64 64 s.now 0)) 0 state }
{
    let mut r = Reading { truths: 0, at: 0 };
    // A code takes one byte or two, so the positions are no range.
    while r.at < s.len() {
        r = read_code(s, state, r);
    }
    r.truths
}
