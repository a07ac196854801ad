// Reads formulas: where one ends or which byte of it is wrong, and how many carried parts it has.
#![tactic(auto)]

ghost use Rattle.std.specs.Prelude.{◌≡◌, ◌+◌, ◌≤◌, ◌<◌, leb, length, get_or, IfOk, IfErr, ◌&&◌, ◌||◌};
ghost use Rattle.model.specs.logic.Parts.{most_bytes};
ghost use Rattle.model.specs.logic.Reading.{parsed, section};
ghost use Rattle.model.specs.job.Decoding.{counts_in_range, formula_verdict};
ghost use Rattle.formula.specs.Extent.{extent, number_extent, carries, note, note_if};

use model::{Binary, Code, MOST_PARTS, Reason, Refusal, Unary, Verdict, unless};

// The carried parts on the way: how many, up to six, and the position of the seventh, if there is one.
#[derive(Clone, Copy, Debug, PartialEq, Eq)]
pub struct Seen {
    pub parts: usize,
    pub seventh: Option<usize>,
}

// Whether a number of facts and one of actions are in their ranges.
#[tactic(auto, unfolding(model::specs::job::Decoding::counts_in_range))]
pub fn counts_in_range(facts: u8, actions: u8) -> bool
    ensures { result ≡ counts_in_range facts actions }
{
    (1..=64).contains(&facts) && actions <= 64
}

// Whether a formula may have n bytes.
pub fn length_in_range(n: usize) -> bool
    ensures { result ≡ leb 1 n && leb n most_bytes }
{
    (1..=128).contains(&n)
}

// The position after a formula, with the parts seen up to there.
#[derive(Clone, Copy, Debug, PartialEq, Eq)]
pub struct End {
    pub next: usize,
    pub seen: Seen,
}

// The position of the first byte that is wrong.
#[derive(Clone, Copy, Debug, PartialEq, Eq)]
pub struct WrongAt(pub usize);

// Whether a formula that begins with a code is a carried part wherever it stands.
pub fn is_carried(code: Code) -> bool
    ensures { result ≡ carries code }
{
    matches!(
        code,
        Code::One(Unary::Eventually | Unary::Always) | Code::Two(Binary::Until | Binary::Release)
    )
}

// Whether the formula that begins with a code is a carried part where it stands; `under` says that it is the operand of a next.
pub fn is_part(code: Code, under: bool) -> bool
    ensures { result ≡ under || carries code }
{
    under || is_carried(code)
}

impl Seen {
    // No part yet.
    const NONE: Seen = Seen {
        parts: 0,
        seventh: None,
    };

    // One part more, at a position.
    fn with(self, at: usize) -> Seen
        ensures { result ≡ note self at }
    {
        if self.parts < MOST_PARTS {
            Seen {
                parts: self.parts + 1,
                ..self
            }
        } else {
            Seen {
                seventh: self.seventh.or(Some(at)),
                ..self
            }
        }
    }

    // The parts seen, with the formula at a position where it is a part.
    fn with_if(self, part: bool, at: usize) -> Seen
        ensures { result ≡ note_if part self at }
    {
        if part { self.with(at) } else { self }
    }
}

// The bytes of a section, and how many facts and actions there are.
#[derive(Clone, Copy)]
pub struct Reader<'a> {
    pub bytes: &'a [u8],
    pub facts: u8,
    pub actions: u8,
}

impl<'a> Reader<'a> {
    // The byte at a position. Past the last byte the end is what is wrong.
    fn byte(&self, at: usize) -> Result<u8, WrongAt>
        ensures there { IfOk result (λ b. (at < length self.now.bytes.now) × (b ≡ get_or self.now.bytes.now at 0)) }
        ensures past { IfErr result (λ w. (length self.now.bytes.now ≤ at) × (w.0 ≡ length self.now.bytes.now)) }
    {
        self.bytes.get(at).copied().ok_or(WrongAt(self.bytes.len()))
    }

    // The number of a fact or an action, which has to be below a bound.
    #[tactic(auto, using(std::proofs::lemmas::Bool::Decides::nat_tests), unfolding(crate::specs::Extent::number_extent))]
    fn number(&self, at: usize, bound: u8, seen: Seen) -> Result<End, WrongAt>
        ensures { result ≡ number_extent bound self.now.bytes.now seen at }
    {
        if self.byte(at)? < bound {
            Ok(End { next: at + 1, seen })
        } else {
            Err(WrongAt(at))
        }
    }

    // The formula at a position; `under` says that it is the operand of a next.
    pub fn read(&self, at: usize, under: bool, seen: Seen) -> Result<End, WrongAt>
        ensures { result ≡ extent under seen at (parsed self.now.facts self.now.actions self.now.bytes.now at) }
    {
        let code = Code::from(self.byte(at)?);
        let here = seen.with_if(is_part(code, under), at);
        let b = at + 1;
        match code {
            Code::Leaf(_) => Ok(End {
                next: b,
                seen: here,
            }),
            Code::Fact => self.number(b, self.facts, here),
            Code::Action => self.number(b, self.actions, here),
            Code::One(o) => self.read(b, o == Unary::Next, here),
            Code::Two(_) => {
                let first = self.read(b, false, here)?;
                self.read(first.next, false, first.seen)
            }
            Code::Unknown => Err(WrongAt(at)),
        }
    }

    // Refusals 4 and 5 of the section, whose bytes begin at an offset of the job.
    #[tactic(auto, using(crate::proofs::Checking::verdicts))]
    pub fn check(&self, offset: usize) -> Verdict
        requires { offset + length self.now.bytes.now ≤ 131070 }
        ensures { result ≡ formula_verdict offset (section self.now.facts self.now.actions self.now.bytes.now) }
    {
        let end = self
            .read(0, false, Seen::NONE)
            .map_err(|wrong| Refusal::new(Reason::BadFormula, offset + wrong.0))?;
        let all_read = self.bytes.len() <= end.next;
        unless(all_read, Reason::BadFormula, offset + end.next)?;
        match end.seen.seventh {
            Some(at) => Err(Refusal::new(Reason::ManyParts, offset + at)),
            None => Ok(()),
        }
    }
}
