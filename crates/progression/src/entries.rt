// The entries of a memo: four words each, used in pairs from word 32 of a workspace on. Each function asks that there is room for two entries, or for its own:
// `Work` has words of any length, and a type for words with room would be made in two methods and opened in the next call.
ghost use Rattle.std.specs.Prelude.{◌≡◌, ◌+◌, ◌*◌, ◌≤◌, ◌<◌, length};
ghost use Rattle.progression.specs.Workspace.{written, asks, Recalls, Remembers};

// What is asked: a section and an action in one number, a residual, and of the state the facts that the formula names.
#[derive(Clone, Copy, Debug, PartialEq, Eq)]
pub struct Question {
    pub key: u64,
    pub residual: u64,
    pub facts: u64,
}

// A number that differs for most questions: halves times odd numbers of 32 bits, so that no product overflows.
// Std's `Hash` would need a hasher with a state, and this is five products.
fn hash(q: Question) -> usize
    ensures { result < 65536 }
{
    let a = (q.residual % 4294967296) * 2654435769;
    let b = (q.residual >> 32) * 2246822519;
    let c = (q.facts % 4294967296) * 3266489917;
    let d = (q.facts >> 32) * 668265263;
    let e = (q.key % 4294967296) * 2869860233;
    let h = a ^ b ^ c ^ d ^ e;
    ((h >> 16) % 65536) as usize
}

// The first of the two entries that a question may be kept in, of those that so many words have room for.
fn entry_of(count: usize, q: Question) -> usize
    requires { (40 ≤ count) × (count ≤ 65536) }
    ensures { 40 + 4 * result ≤ count }
{
    let pairs = (count - 32) / 8;
    2 * (hash(q) * pairs / 65536)
}

// The question of the entry at a place.
fn question_at(words: &[u64], at: usize) -> Question
    requires { at + 4 ≤ length words.now }
    ensures { asks words.now at result }
{
    Question {
        key: words[at],
        residual: words[at + 1],
        facts: words[at + 2],
    }
}

// What one of a question's two entries says to it. They are written out: a loop over two places would need an invariant, and no line fewer.
pub fn recall(words: &[u64], q: Question) -> Option<u64>
    requires { (40 ≤ length words.now) × (length words.now ≤ 65536) }
    ensures { Recalls words.now q result }
{
    let e = entry_of(words.len(), q);
    let first = 32 + 4 * e;
    if question_at(words, first) == q {
        return Some(words[first + 3]);
    }
    let second = 36 + 4 * e;
    if question_at(words, second) == q {
        return Some(words[second + 3]);
    }
    None
}

fn put(words: &mut [u64], at: usize, q: Question, x: u64)
    requires { at + 4 ≤ length words.old }
    ensures { words.new ≡ written words.old at q x }
{
    words[at] = q.key;
    words[at + 1] = q.residual;
    words[at + 2] = q.facts;
    words[at + 3] = x;
}

// Keeps the answer to a question in the first of its entries. What was there goes to the second, so that two questions which meet are both kept.
pub fn remember(words: &mut [u64], q: Question, x: u64)
    requires { (40 ≤ length words.old) × (length words.old ≤ 65536) }
    ensures { Remembers words.old q x words.new }
{
    let e = entry_of(words.len(), q);
    let at = 32 + 4 * e;
    let old = question_at(words, at);
    let answer = words[at + 3];
    put(words, at + 4, old, answer);
    put(words, at, q, x);
}
