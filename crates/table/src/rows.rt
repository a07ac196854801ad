// A slot as a row of twenty words: 0 to 8 the node, 9 to 16 the hints, 17 cost, steps and parent, 18 action, taken and goal, 19 the estimate.
// They are packed by hand: no derive packs fields into words, and the layout is that of document TABLE.md.
ghost use Rattle.std.specs.Prelude.{◌≡◌, ◌<◌, length};
ghost use Rattle.model.specs.search.Node.{node_words};
ghost use Rattle.table.specs.Slots.{slot_of, row_of, key_in, parent_in, action_in, taken_in, goal_in, estimate_in, key_word, flag_word, Narrow};

use super::Slot;
use super::cells::ROW;
use model::NODE;
use task::Key;

// Word 17 is the cost and the steps and the parent, so many times.
const STEPS: u64 = 4294967296;

const PARENT: u64 = 281474976710656;

// Word 18 is the action and the bits taken and goal, so many times.
const TAKEN: u64 = 256;

const GOAL: u64 = 512;

// Word 19 has the estimate in its lowest 30 bits.
const ESTIMATE: u64 = 1073741824;

// The key in word 17.
pub fn key_in(word: u64) -> Key
    ensures { (result ≡ key_in word) × (result.cost < 4294967296) × (result.steps < 65536) }
{
    Key {
        cost: word % STEPS,
        steps: word / STEPS % 65536,
    }
}

// The parent in word 17.
pub fn parent_in(word: u64) -> usize
    ensures { (result ≡ parent_in word) × (result < 65536) }
{
    (word / PARENT % 65536) as usize
}

// The action in word 18.
pub fn action_in(word: u64) -> u8
    ensures { result ≡ action_in word }
{
    (word % TAKEN) as u8
}

// Whether word 18 says taken.
pub fn taken_in(word: u64) -> bool
    ensures { result ≡ taken_in word }
{
    word / TAKEN % 2 == 1
}

// Whether word 18 says goal.
pub fn goal_in(word: u64) -> bool
    ensures { result ≡ goal_in word }
{
    word / GOAL % 2 == 1
}

// The estimate in word 19.
pub fn estimate_in(word: u64) -> u64
    ensures { (result ≡ estimate_in word) × (result < 1073741824) }
{
    word % ESTIMATE
}

// The slot of a row. Each word of the node and of the hints is written out.
#[tactic(auto, unfolding(crate::specs::Slots::slot_of, model::specs::job::Job::list_of))]
pub fn unpack(a: [u64; ROW]) -> Slot
    ensures { result ≡ slot_of a }
{
    Slot {
        node: [a[0], a[1], a[2], a[3], a[4], a[5], a[6], a[7], a[8]],
        hints: [a[9], a[10], a[11], a[12], a[13], a[14], a[15], a[16]],
        key: key_in(a[17]),
        estimate: estimate_in(a[19]),
        parent: parent_in(a[17]),
        action: action_in(a[18]),
        taken: taken_in(a[18]),
        goal: goal_in(a[18]),
    }
}

// Word 17.
fn key_word(key: Key, parent: u64) -> u64
    requires { (key.cost < 4294967296) × (key.steps < 65536) × (parent < 65536) }
    ensures { result ≡ key_word key.cost key.steps parent }
{
    key.cost + key.steps * STEPS + parent * PARENT
}

// Word 18.
#[tactic(auto, using(crate::proofs::RowLaws::byte_digit))]
pub fn flag_word(action: u8, taken: bool, goal: bool) -> u64
    ensures { result ≡ flag_word action taken goal }
{
    u64::from(action) + u64::from(taken) * TAKEN + u64::from(goal) * GOAL
}

// A row of its parts, which have the lengths that their types say. Written out it is proved without an answer, and compiled to plain moves.
#[tactic(auto, unfolding(crate::specs::Slots::row_of, model::specs::job::Job::list_of))]
fn line(node: [u64; NODE], hints: [u64; 8], key: u64, flags: u64, estimate: u64) -> [u64; ROW]
    ensures { (result ≡ row_of node hints key flags estimate) × (length node ≡ node_words) × (length hints ≡ 8) }
{
    [
        node[0], node[1], node[2], node[3], node[4], node[5], node[6], node[7], node[8], hints[0],
        hints[1], hints[2], hints[3], hints[4], hints[5], hints[6], hints[7], key, flags, estimate,
    ]
}

// A row of a slot.
pub fn pack(s: Slot) -> [u64; ROW]
    requires { Narrow s }
    ensures { slot_of result ≡ s }
{
    let node = s.node;
    let hints = s.hints;
    let key = key_word(s.key, s.parent as u64);
    let flags = flag_word(s.action, s.taken, s.goal);
    line(node, hints, key, flags, s.estimate)
}
