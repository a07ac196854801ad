// Writes a rule back in positive normal form. A formula is gone through byte by byte: a node's heading, the bytes that stand before its
// operands in the normal form, and then the operands. `plain` is the sign: whether the formula is written, or its negation.
#![tactic(auto)]

pub mod heading;

ghost use Rattle.std.specs.Prelude.{◌≡◌, true, false, length, get_or};
ghost use Rattle.model.specs.logic.Reading.{parsed};
ghost use Rattle.model.specs.calls.WriteBack.{write_end, rule_verdict, written_back};
ghost use Rattle.normal.specs.Writing.{Room, ends_of, Stored};

use formula::Reader;
use model::{Code, Reason, Refusal, Verdict, unless};

// The position after what was read, and the position after what is written of it. The buffer `out` and the position `to` in it stand side by side, since
// what is promised is about the bytes before and from the position on, and would have to name both as fields of a struct, too.
#[derive(Clone, Copy, Debug, PartialEq, Eq)]
pub struct Ends {
    pub next: usize,
    pub to: usize,
}

// The byte at a position, or 0 past the end.
fn byte_at(s: &[u8], at: usize) -> u8
    ensures { result ≡ get_or s.now at 0 }
{
    s.get(at).copied().unwrap_or(0)
}

// Where the formula at a position ends, and where its normal form would end: as the two writers below, without writing. A rule has at most 128 bytes, and
// its normal form at most three times as many, 384. A formula was read at the position, so that its first byte is there and `Unknown` is not met.
#[tactic(auto, using(crate::proofs::Nodes::inside))]
fn measure(s: &[u8], at: usize, to: usize, plain: bool) -> Ends
    requires { Room (parsed 64 64 s.now at) plain to 384 }
    ensures { result ≡ ends_of (parsed 64 64 s.now at) plain to }
{
    let code = Code::from(s[at]);
    let b = at + 1;
    let k = heading::pass_head(to, code, byte_at(s, b), plain);
    match code {
        Code::Leaf(_) | Code::Unknown => Ends { next: b, to: k },
        Code::Fact | Code::Action => Ends { next: b + 1, to: k },
        Code::One(o) => measure(s, b, k, heading::sign_of(o, plain)),
        Code::Two(_) => {
            let p = measure(s, b, k, plain);
            measure(s, p.next, p.to, plain)
        }
    }
}

// Writes the normal form of the formula at a position. Here and in `write_negated` a formula was read there, so that its first byte is
// there and `Unknown` is not met. The two differ in the sign alone; that they are two which call each other is asked for (docs/DECISIONS.md).
#[cycle(write_write_negated)]
#[tactic(auto, using(crate::proofs::Nodes::inside))]
pub fn write(s: &[u8], at: usize, out: &mut [u8], to: usize) -> Ends
    requires { Room (parsed 64 64 s.now at) true to (length out.old) }
    ensures { Stored (parsed 64 64 s.now at) true to out.old result out.new }
{
    let code = Code::from(s[at]);
    let b = at + 1;
    let k = heading::put_head(out, to, code, byte_at(s, b), true);
    match code {
        Code::Leaf(_) | Code::Unknown => Ends { next: b, to: k },
        Code::Fact | Code::Action => Ends { next: b + 1, to: k },
        Code::One(o) => if heading::sign_of(o, true) {
            write(s, b, out, k)
        } else {
            write_negated(s, b, out, k)
        },
        Code::Two(_) => {
            let p = write(s, b, out, k);
            write(s, p.next, out, p.to)
        }
    }
}

// Writes the normal form of the negation of the formula at a position.
#[cycle(write_write_negated)]
#[tactic(auto, using(crate::proofs::Nodes::inside))]
pub fn write_negated(s: &[u8], at: usize, out: &mut [u8], to: usize) -> Ends
    requires { Room (parsed 64 64 s.now at) false to (length out.old) }
    ensures { Stored (parsed 64 64 s.now at) false to out.old result out.new }
{
    let code = Code::from(s[at]);
    let b = at + 1;
    let k = heading::put_head(out, to, code, byte_at(s, b), false);
    match code {
        Code::Leaf(_) | Code::Unknown => Ends { next: b, to: k },
        Code::Fact | Code::Action => Ends { next: b + 1, to: k },
        Code::One(o) => if heading::sign_of(o, false) {
            write(s, b, out, k)
        } else {
            write_negated(s, b, out, k)
        },
        Code::Two(_) => {
            let p = write_negated(s, b, out, k);
            write_negated(s, p.next, out, p.to)
        }
    }
}

// Refusals 1 and 2, and then 4 and 5 counted from the rule's start.
#[tactic(auto, unfolding(model::specs::calls::WriteBack::rule_verdict))]
fn check_rule(facts: u8, actions: u8, rule: &[u8]) -> Verdict
    ensures { result ≡ rule_verdict facts actions rule.now }
{
    unless(formula::counts_in_range(facts, actions), Reason::BadHead, 0)?;
    unless(formula::length_in_range(rule.len()), Reason::BadPair, 0)?;
    let reader = Reader {
        bytes: rule,
        facts,
        actions,
    };
    reader.check(0)
}

// Writes a rule back into a buffer, and gives how many bytes it has. It is measured first, so that the buffer is untouched if it is too short. It is not
// written aside and copied, since then the library for C would need `memcpy` from outside.
#[tactic(auto, using(crate::proofs::WritingBack::fits))]
pub fn write_back(facts: u8, actions: u8, rule: &[u8], out: &mut [u8]) -> Result<usize, Refusal>
    ensures { write_end result out.new ≡ written_back facts actions rule.now out.old }
{
    check_rule(facts, actions, rule)?;
    let needed = measure(rule, 0, 0, true).to;
    unless(needed <= out.len(), Reason::BufferTooShort, needed)?;
    write(rule, 0, out, 0);
    Ok(needed)
}
