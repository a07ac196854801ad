// The bytes that stand before a node's operands in positive normal form. `plain` is the sign: whether the formula is written, or its negation. The
// bytes of codes are written out here, since a variant of `Code` holds its operator and so has no byte as discriminant; the other way is `Code::from`.
ghost use Rattle.std.specs.Prelude.{◌≡◌, ◌+◌, ◌≤◌, length};
ghost use Rattle.std.proofs.lemmas.List.Edits.{sets};
ghost use Rattle.normal.specs.Heading.{bytes_in, head0, head1, head2, head_number, head_of, heading, sign};

use model::{Binary, Code, Constant, Unary};

// The bytes of a heading. Two of the three bytes may be read from the rule, so no slice of a constant holds them.
#[derive(Clone, Copy, Debug, PartialEq, Eq)]
pub enum Head {
    Nothing,
    Single(u8),
    Pair(u8, u8),
    Triple(u8, u8, u8),
}

fn put(out: &mut [u8], to: usize, h: Head) -> usize
    requires { to + length (bytes_in h) ≤ length out.old }
    ensures { (result ≡ to + length (bytes_in h)) × (out.new ≡ sets out.old to (bytes_in h)) }
{
    match h {
        Head::Nothing => to,
        Head::Single(a) => {
            out[to] = a;
            to + 1
        }
        Head::Pair(a, b) => {
            out[to] = a;
            out[to + 1] = b;
            to + 2
        }
        Head::Triple(a, b, c) => {
            out[to] = a;
            out[to + 1] = b;
            out[to + 2] = c;
            to + 3
        }
    }
}

// The number of bytes of a heading.
fn count(h: Head) -> usize
    ensures { (result ≡ length (bytes_in h)) × (result ≤ 3) }
{
    match h {
        Head::Nothing => 0,
        Head::Single(_) => 1,
        Head::Pair(_, _) => 2,
        Head::Triple(_, _, _) => 3,
    }
}

// Operators of none, one and two operands are three types, so each has its function.
fn head_leaf(c: Constant, plain: bool) -> Head
    ensures { result ≡ head0 c plain }
{
    match (c, plain) {
        (Constant::False, true) | (Constant::True, false) => Head::Single(0x00),
        (Constant::False, false) | (Constant::True, true) => Head::Single(0x01),
        (Constant::Last, true) => Head::Single(0x02),
        (Constant::Last, false) => Head::Pair(0x10, 0x02),
    }
}

fn head_one(o: Unary, plain: bool) -> Head
    ensures { result ≡ head1 o plain }
{
    match (o, plain) {
        (Unary::Not, _) => Head::Nothing,
        (Unary::Next, true) => Head::Single(0x20),
        (Unary::Next, false) => Head::Triple(0x12, 0x02, 0x20),
        (Unary::Eventually, true) | (Unary::Always, false) => Head::Single(0x21),
        (Unary::Eventually, false) | (Unary::Always, true) => Head::Single(0x22),
    }
}

fn head_two(o: Binary, plain: bool) -> Head
    ensures { result ≡ head2 o plain }
{
    match (o, plain) {
        (Binary::And, true) | (Binary::Or, false) => Head::Single(0x11),
        (Binary::And, false) | (Binary::Or, true) => Head::Single(0x12),
        (Binary::Until, true) | (Binary::Release, false) => Head::Single(0x23),
        (Binary::Until, false) | (Binary::Release, true) => Head::Single(0x24),
    }
}

fn head_number(code: u8, n: u8, plain: bool) -> Head
    ensures { result ≡ head_number code n plain }
{
    if plain {
        Head::Pair(code, n)
    } else {
        Head::Triple(0x10, code, n)
    }
}

// The heading of a node with a code; `n` is the byte after the code.
fn head_of(code: Code, n: u8, plain: bool) -> Head
    ensures { result ≡ head_of code n plain }
{
    match code {
        Code::Leaf(c) => head_leaf(c, plain),
        Code::Fact => head_number(0x03, n, plain),
        Code::Action => head_number(0x04, n, plain),
        Code::One(o) => head_one(o, plain),
        Code::Two(o) => head_two(o, plain),
        Code::Unknown => Head::Nothing,
    }
}

// The sign of an operator's one operand: a not turns it over.
pub fn sign_of(o: Unary, plain: bool) -> bool
    ensures { result ≡ sign o plain }
{
    if o == Unary::Not { !plain } else { plain }
}

// Writes the heading of a node.
pub fn put_head(out: &mut [u8], to: usize, code: Code, n: u8, plain: bool) -> usize
    requires { to + length (heading code n plain) ≤ length out.old }
    ensures { (result ≡ to + length (heading code n plain)) × (out.new ≡ sets out.old to (heading code n plain)) }
{
    put(out, to, head_of(code, n, plain))
}

// Goes past the heading of a node without writing.
pub fn pass_head(to: usize, code: Code, n: u8, plain: bool) -> usize
    requires { to + length (heading code n plain) ≤ 384 }
    ensures { result ≡ to + length (heading code n plain) }
{
    to + count(head_of(code, n, plain))
}
