// The types and the sizes that the definitions in specs/ and the code of all crates share.
#![tactic(auto)]

ghost use Rattle.std.specs.Prelude.{◌≡◌};
ghost use Rattle.model.specs.Reason.{number_of};
ghost use Rattle.model.specs.Verdict.{unless};

use std::fmt;
use std::marker::Model;

// A formula has at most this many carried parts.
pub const MOST_PARTS: usize = 6;

// The words of a node: a state and the residuals of eight constraints. It is an array, since a slot begins with these words, and a lookup compares them as
// they stand.
pub const NODE: usize = 9;

// A formula with no operand and no number.
#[derive(Clone, Copy, Debug, PartialEq, Eq)]
pub enum Constant {
    False,
    True,
    Last,
}

#[derive(Clone, Copy, Debug, PartialEq, Eq)]
pub enum Unary {
    Not,
    Next,
    Eventually,
    Always,
}

#[derive(Clone, Copy, Debug, PartialEq, Eq)]
pub enum Binary {
    And,
    Or,
    Until,
    Release,
}

// What a byte of a formula stands for; a fact's and an action's number follows in the next byte.
#[derive(Clone, Copy, Debug, PartialEq, Eq)]
pub enum Code {
    Leaf(Constant),
    Fact,
    Action,
    One(Unary),
    Two(Binary),
    // A byte that begins no formula. A variant and not an error: but for `formula::Reader` and `numbers::after`, those who read a code read formulas, where it
    // is not met.
    Unknown,
}

impl From<u8> for Code {
    ghost use Rattle.std.specs.Prelude.{◌≡◌};
    ghost use Rattle.model.specs.logic.Formula.{code_of};

    ghost from_gives = { λ byte code. code ≡ code_of byte };

    fn from(byte: u8) -> Code {
        match byte {
            0x00 => Code::Leaf(Constant::False),
            0x01 => Code::Leaf(Constant::True),
            0x02 => Code::Leaf(Constant::Last),
            0x03 => Code::Fact,
            0x04 => Code::Action,
            0x10 => Code::One(Unary::Not),
            0x11 => Code::Two(Binary::And),
            0x12 => Code::Two(Binary::Or),
            0x20 => Code::One(Unary::Next),
            0x21 => Code::One(Unary::Eventually),
            0x22 => Code::One(Unary::Always),
            0x23 => Code::Two(Binary::Until),
            0x24 => Code::Two(Binary::Release),
            _ => Code::Unknown,
        }
    }
}

// Why a call is refused, with the number that document 01's table and the cards give it.
#[derive(Clone, Copy, Debug, PartialEq, Eq)]
pub enum Reason {
    BadHead = 1,
    BadPair = 2,
    BadTask = 3,
    BadFormula = 4,
    ManyParts = 5,
    BadStep = 6,
    NotApplicable = 7,
    GoalMissing = 8,
    RuleNotMet = 9,
    TableTooSmall = 10,
    NoPlanCut = 11,
    NoPlan = 12,
    BufferTooShort = 13,
    BadNeeds = 14,
    NoRight = 15,
}

// A refusal: its number and its one place. A clause sees both.
#[derive(Clone, Copy, Debug)]
pub struct Refusal {
    number: u8,
    place: usize,
}

impl Model for Refusal {
    ghost use Rattle.model.specs.Refusal.{refusal};
    ghost use Rattle.model.specs.Refusal.{Refusal as Numbered};

    ghost Value = { Numbered };

    ghost view = { λ r. refusal r.number r.place };

    ghost inverse = { λ r. record { number = r.number; place = r.place } };
}

impl Refusal {
    ghost use Rattle.std.specs.Prelude.{◌≡◌};
    ghost use Rattle.model.specs.Refusal.{refusal};
    ghost use Rattle.model.specs.Reason.{number_of};

    // The refusal for a reason.
    pub fn new(reason: Reason, place: usize) -> Refusal
        ensures { result ≡ refusal (number_of reason) place }
    {
        Refusal {
            number: reason as u8,
            place,
        }
    }

    // A refusal of any number, for who got it as numbers.
    pub fn numbered(number: u8, place: usize) -> Refusal
        ensures { result ≡ refusal number place }
    {
        Refusal { number, place }
    }

    pub fn number(self) -> u8
        ensures { result ≡ self.number }
    {
        self.number
    }

    pub fn place(self) -> usize
        ensures { result ≡ self.place }
    {
        self.place
    }
}

// As the programs print it: `refused 12 0`.
impl fmt::Display for Refusal {
    fn fmt<W: fmt::Write>(&self, f: &mut fmt::Formatter<W>) -> fmt::Result {
        write!(f, "refused {} {}", self.number, self.place)
    }
}

// What one check of the table of refusals says.
pub type Verdict = Result<(), Refusal>;

// A plan's cost and number of actions.
#[derive(Clone, Copy, Debug, PartialEq, Eq)]
pub struct Planned {
    pub cost: u64,
    pub steps: usize,
}

// The cost of a step list that a read-through passed, and a bit for each hint.
#[derive(Clone, Copy, Debug, PartialEq, Eq)]
pub struct Passed {
    pub cost: u64,
    pub hints: u8,
}

// Refused with a reason and a place unless a test is true.
#[tactic(auto, unfolding(crate::specs::Verdict::unless))]
pub fn unless(ok: bool, reason: Reason, place: usize) -> Verdict
    ensures { result ≡ unless ok (number_of reason) place }
{
    if ok {
        Ok(())
    } else {
        Err(Refusal::new(reason, place))
    }
}
