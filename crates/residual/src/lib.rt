// What a formula leaves after a world: a truth table of its carried parts. One pass over the formula's bytes reads the
// truths of its fact codes; a walk over them, which is given these truths and no state, makes the table.
#![tactic(auto)]

ghost use Rattle.std.specs.Prelude.{◌≡◌, false, ◌+◌, ◌<◌, ◌≤◌, IfSome};
ghost use Rattle.std.specs.Bool.{then_some};
ghost use Rattle.model.specs.logic.Parts.{most_parts, count, parts_of};
ghost use Rattle.model.specs.logic.Progression.{residual, progressed, closing};
ghost use Rattle.model.specs.logic.Reading.{parsed};
ghost use Rattle.model.specs.logic.Truth.{is_made};
ghost use Rattle.bits.specs.Tables.{everywhere, Upward};
ghost use Rattle.formula.specs.Extent.{carries};
ghost use Rattle.residual.specs.Node.{is_closing, made_in, truth0, of_nothing1, of_nothing2, after, ahead_table, table1, table2, valuation_of};
ghost use Rattle.residual.specs.Walk.{starts, put, numbers_of, Few, evaluated, filled_by, leaf, one, two};
ghost use Rattle.residual.specs.Residual.{Ready, formula_of, IsTables};

use model::{Binary, Code, Constant, MOST_PARTS, Unary};
use std::marker::Model;

mod facts; // facts.rt: the truths of a formula's fact codes

// Which world is meant: one after an action, or the closing one. `After(None)`: no action was made, or (in a memo) one that the formula does not name.
#[derive(Clone, Copy, Debug, PartialEq, Eq)]
pub enum World {
    After(Option<u8>),
    Closing,
}

impl World {
    fn is_closing(self) -> bool
        ensures { result ≡ is_closing self }
    {
        self == World::Closing
    }

    #[tactic(auto, using(crate::proofs::Nodes::compared_action))]
    fn has_made(self, action: u8) -> bool
        ensures { result ≡ is_made (made_in self) action }
    {
        self == World::After(Some(action))
    }
}

// A formula's bytes in a world: what is known of it are the truths of the formula's fact codes, and which one it is.
#[derive(Clone, Copy)]
struct Moment<'a> {
    bytes: &'a [u8],
    truths: u64,
    world: World,
}

// What a formula comes to: its truth table, the position after it, and the number of the first carried part after it.
#[derive(Clone, Copy)]
struct Value {
    table: u64,
    next: usize,
    parts: usize,
}

fn truth_of(c: Constant, closing: bool) -> bool
    ensures { result ≡ truth0 closing c }
{
    match c {
        Constant::False => false,
        Constant::True => true,
        Constant::Last => closing,
    }
}

// An operator's truth where no world follows.
fn of_nothing_one(o: Unary) -> bool
    ensures { result ≡ of_nothing1 o }
{
    o == Unary::Always
}

// Operators of one and of two operands are two types, so each has its function, here and below.
fn of_nothing_two(o: Binary) -> bool
    ensures { result ≡ of_nothing2 o }
{
    o == Binary::Release
}

// The table of the worlds ahead: an unknown, or a constant in the closing world.
fn ahead(closing: bool, nothing: bool, own: usize) -> u64
    ensures { result ≡ ahead_table closing nothing own }
{
    if closing {
        bits::everywhere(nothing)
    } else {
        bits::unknown(own)
    }
}

fn table_one(o: Unary, p: u64, rest: u64) -> u64
    ensures { result ≡ table1 o p rest }
{
    match o {
        Unary::Not => !p,
        Unary::Next => rest,
        Unary::Eventually => p | rest,
        Unary::Always => p & rest,
    }
}

fn table_two(o: Binary, p: u64, q: u64, rest: u64) -> u64
    ensures { result ≡ table2 o p q rest }
{
    match o {
        Binary::And => p & q,
        Binary::Or => p | q,
        Binary::Until => q | (p & rest),
        Binary::Release => q & (p | rest),
    }
}

// The number that a formula's own unknown has, or the first part in it if it has none. `under` and `n` are new at each operand, so a struct of both would be
// built at each call.
fn own_number(under: bool, carried: bool, n: usize) -> usize
    requires { n ≤ most_parts }
    ensures { (result ≡ starts under carried n) × (result ≤ most_parts + 1) }
{
    if under && !carried { n + 1 } else { n }
}

// The number of the first part inside.
fn inner_number(carried: bool, own: usize) -> usize
    requires { own ≤ most_parts + 1 }
    ensures { result ≡ after carried own }
{
    if carried { own + 1 } else { own }
}

// How a formula counts among the parts: the number under which its table is kept, if it is one, the number of its own
// unknown, and that of the first part inside.
#[derive(Clone, Copy)]
struct Numbering {
    part: Option<usize>,
    own: usize,
    inner: usize,
}

fn numbers_of(code: Code, under: bool, n: usize) -> Numbering
    requires { n ≤ most_parts }
    ensures { result ≡ numbers_of under (carries code) n }
{
    let carried = formula::is_carried(code);
    let own = own_number(under, carried, n);
    Numbering {
        part: formula::is_part(code, under).then_some(n),
        own,
        inner: inner_number(carried, own),
    }
}

// A formula with no operand.
fn with_none(truth: bool, next: usize, parts: usize) -> Value
    ensures { result ≡ leaf truth next parts }
{
    Value {
        table: bits::everywhere(truth),
        next,
        parts,
    }
}

// A formula with one operand.
fn with_one(o: Unary, p: Value, own: usize, closing: bool) -> Value
    ensures { result ≡ one closing o own p }
{
    let rest = ahead(closing, of_nothing_one(o), own);
    Value {
        table: table_one(o, p.table, rest),
        next: p.next,
        parts: p.parts,
    }
}

// A formula with two operands.
fn with_two(o: Binary, p: Value, q: Value, own: usize, closing: bool) -> Value
    ensures { result ≡ two closing o own p q }
{
    let rest = ahead(closing, of_nothing_two(o), own);
    Value {
        table: table_two(o, p.table, q.table, rest),
        next: q.next,
        parts: q.parts,
    }
}

// Keeps the table of a formula that is a carried part.
fn keep(tables: &mut [u64; MOST_PARTS], part: Option<usize>, v: Value) -> Value
    requires { IfSome part (λ i. i < most_parts) }
    ensures { (result ≡ v) × (tables.new ≡ put part v.table tables.old) }
{
    if let Some(i) = part {
        tables[i] = v.table;
    }
    v
}

// A formula with no operand, kept if it is the operand of a next.
fn leaf(tables: &mut [u64; MOST_PARTS], truth: bool, next: usize, under: bool, n: usize) -> Value
    requires { starts under false n ≤ most_parts }
    ensures { (result ≡ leaf truth next (starts under false n))
        × (tables.new ≡ put (then_some under n) (everywhere most_parts truth) tables.old) }
{
    let v = with_none(truth, next, own_number(under, false, n));
    keep(tables, under.then_some(n), v)
}

impl<'a> Moment<'a> {
    // The formula at a position, and the tables of its carried parts; `under` says that it is the operand of a next, n numbers
    // the first part.
    fn evaluate(&self, at: usize, under: bool, n: usize, tables: &mut [u64; MOST_PARTS]) -> Value
        requires { Few (parsed 64 64 self.now.bytes.now at) under n }
        ensures { (result ≡ evaluated (is_closing self.now.world) (valuation_of self.now) (parsed 64 64 self.now.bytes.now at) at under n)
            × (tables.new ≡ filled_by (is_closing self.now.world) (valuation_of self.now) (parsed 64 64 self.now.bytes.now at) at under n tables.old) }
    {
        let code = Code::from(self.bytes[at]);
        let b = at + 1;
        let closing = self.world.is_closing();
        match code {
            Code::Leaf(c) => leaf(tables, truth_of(c, closing), b, under, n),
            Code::Fact => {
                let truth = bits::bit_at(self.truths, (at / 2) as u8);
                leaf(tables, truth, b + 1, under, n)
            }
            Code::Action => {
                let made = self.world.has_made(self.bytes[b]);
                leaf(tables, made, b + 1, under, n)
            }
            Code::One(o) => {
                let k = numbers_of(code, under, n);
                let p = self.evaluate(b, o == Unary::Next, k.inner, tables);
                keep(tables, k.part, with_one(o, p, k.own, closing))
            }
            Code::Two(o) => {
                let k = numbers_of(code, under, n);
                let p = self.evaluate(b, false, k.inner, tables);
                let q = self.evaluate(p.next, false, p.parts, tables);
                keep(tables, k.part, with_two(o, p, q, k.own, closing))
            }
            Code::Unknown => with_none(false, at, n),
        }
    }
}

// The formula's own table in a world, and the tables of its carried parts.
#[derive(Clone, Copy)]
struct Tables {
    own: u64,
    parts: [u64; MOST_PARTS],
}

// The formula that a section's bytes stand for. A clause sees the model's formula.
#[derive(Drop)]
pub struct Formula<'a> {
    bytes: &'a [u8],
}

impl<'a> Model for Formula<'a> {
    ghost use Rattle.model.specs.logic.Formula.{Formula as Rule};
    ghost use Rattle.model.specs.logic.Reading.{parsed};
    ghost use Rattle.model.specs.logic.Truth.{is_made};
    ghost use Rattle.residual.specs.Stored.{formula_code};
    ghost use Rattle.residual.specs.Residual.{Ready, formula_of};

    ghost Value = { Rule };

    ghost coded = { formula_code };

    ghost view = { λ f. formula_of (parsed 64 64 f.bytes.now 0) };

    ghost invariant = { λ f. Ready f.bytes.now (parsed 64 64 f.bytes.now 0) };
}

#[tactic(auto, using(crate::proofs::AnswerLaws::answers))]
impl<'a> Formula<'a> {
    // Of bytes that are known to be a formula, which has no more carried parts and no more bytes than it may.
    pub fn new(bytes: &'a [u8]) -> Formula<'a>
        requires { Ready bytes.now (parsed 64 64 bytes.now 0) }
        ensures { result ≡ formula_of (parsed 64 64 bytes.now 0) }
    {
        Formula { bytes }
    }

    // What the three answers below share. An invariant is known only where a field is opened, so it says how many parts there are.
    fn tables(&self, state: u64, world: World) -> Tables
        ensures tables { IsTables self.now state world result }
        ensures upward { Upward most_parts result.parts }
        ensures few { count self.now ≤ most_parts }
    {
        let mut parts = [0; MOST_PARTS];
        let m = Moment {
            bytes: self.bytes,
            truths: facts::read(self.bytes, state),
            world,
        };
        let own = m.evaluate(0, false, 0, &mut parts).table;
        Tables { own, parts }
    }

    // What the formula leaves after the first world, in which no action was made.
    pub fn first(&self, state: u64) -> u64
        ensures { result ≡ residual most_parts self.now (record { state = state; made = None }) }
    {
        self.tables(state, World::After(None)).own
    }

    // What a residual leaves after a world.
    pub fn next(&self, r: u64, state: u64, action: Option<u8>) -> u64
        ensures { result ≡ progressed most_parts (parts_of self.now) r (record { state = state; made = action }) }
    {
        bits::substitute(r, self.tables(state, World::After(action)).parts)
    }

    // Whether a residual is true of the closing world.
    pub fn closing(&self, r: u64, state: u64) -> bool
        ensures { result ≡ closing (parts_of self.now) r (record { state = state; made = None }) }
    {
        let table = bits::substitute(r, self.tables(state, World::Closing).parts);
        bits::bit_at(table, 0)
    }
}
