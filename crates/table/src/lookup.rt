// The slots in use at the front of lent bytes, to read: one of them, the first of a node, and the open one of the least rank.
use super::{Slot, slots};
use model::NODE;
use std::marker::Model;
use task::Key;

// The bytes, which may hold more, and how many of their first slots are in use. A clause sees the list of these. That a slot is one of them is asked
// as a slice asks of an index.
#[derive(Clone, Drop)]
pub struct InUse<'a> {
    bytes: &'a [u8],
    used: usize,
}

impl<'a> Model for InUse<'a> {
    ghost use Rattle.std.specs.Prelude.{List, take};
    ghost use Rattle.table.specs.declared.Slot.{Slot};
    ghost use Rattle.table.specs.Slots.{slots};
    ghost use Rattle.table.specs.Tables.{Front};

    ghost Value = { List Slot };

    ghost view = { λ t. take t.used (slots t.bytes.now) };

    ghost invariant = { λ t. Front t.used t.bytes.now };
}

// An open slot, and its rank.
#[derive(Clone, Copy, Debug, PartialEq, Eq)]
pub struct Candidate {
    slot: usize,
    rank: Key,
}

#[tactic(auto, using(crate::proofs::TableLaws::in_front))]
impl<'a> InUse<'a> {
    ghost use Rattle.std.specs.Prelude.{◌≡◌, ◌*◌, ◌≤◌, ◌<◌, length, take};
    ghost use Rattle.model.specs.calls.Search.{slot_bytes};
    ghost use Rattle.model.specs.search.Node.{same_numbers};
    ghost use Rattle.table.specs.Slots.{slots, slot_in, Narrow};
    ghost use Rattle.table.specs.Lookup.{find_in, rank_at, better, least_in, slot_of_best};
    ghost use Rattle.task.specs.Meaning.{key_is};

    // The first `used` slots of lent bytes, which hold that many.
    pub fn new(bytes: &'a [u8], used: usize) -> InUse<'a>
        requires { used * slot_bytes ≤ length bytes.now }
        ensures { result ≡ take used (slots bytes.now) }
    {
        InUse { bytes, used }
    }

    // How many slots are in use.
    pub fn len(&self) -> usize
        ensures { result ≡ length self.now }
    {
        self.used
    }

    // The slot i.
    pub fn load(&self, i: usize) -> Slot
        requires { i < length self.now }
        ensures { (result ≡ slot_in self.now i) × Narrow result }
    {
        slots::load(self.bytes, i)
    }

    // The key of the least path so far to the node of the slot i.
    pub fn key(&self, i: usize) -> Key
        requires { i < length self.now }
        ensures { (result ≡ (slot_in self.now i).key) × (result.steps < 65536) }
    {
        slots::key(self.bytes, i)
    }

    // The slot that the slot i came from.
    pub fn parent(&self, i: usize) -> usize
        requires { i < length self.now }
        ensures { result ≡ (slot_in self.now i).parent }
    {
        slots::parent(self.bytes, i)
    }

    // The action that the slot i came by.
    pub fn action(&self, i: usize) -> u8
        requires { i < length self.now }
        ensures { result ≡ (slot_in self.now i).action }
    {
        slots::action(self.bytes, i)
    }

    // Whether the slot i is a goal.
    pub fn is_goal(&self, i: usize) -> bool
        requires { i < length self.now }
        ensures { result ≡ (slot_in self.now i).goal }
    {
        slots::is_goal(self.bytes, i)
    }

    // Whether the slot i was taken.
    pub fn is_taken(&self, i: usize) -> bool
        requires { i < length self.now }
        ensures { result ≡ (slot_in self.now i).taken }
    {
        slots::is_taken(self.bytes, i)
    }

    // Whether the slot i is that of a node.
    fn is_node(&self, i: usize, node: [u64; NODE]) -> bool
        requires { i < length self.now }
        ensures { result ≡ same_numbers node (slot_in self.now i).node }
    {
        slots::is_node(self.bytes, i, node)
    }

    // The first slot that is that of a node.
    pub fn find(&self, node: [u64; NODE]) -> Option<usize>
        ensures { result ≡ find_in node self.now 0 }
    {
        (0..self.used).find(|i| self.is_node(*i, node))
    }

    // The rank of the slot i: its cost plus its estimate, then its steps.
    pub fn rank(&self, i: usize) -> Key
        requires { i < length self.now }
        ensures { key_is result ≡ rank_at (slot_in self.now i) }
    {
        let key = slots::key(self.bytes, i);
        Key {
            cost: key.cost + slots::estimate(self.bytes, i),
            steps: key.steps,
        }
    }

    // The better of the slot i and the best after it; of equal ranks the first.
    fn choose(&self, best: Option<Candidate>, i: usize) -> Option<Candidate>
        requires { i < length self.now }
        ensures { result ≡ better (slot_in self.now i) i best }
    {
        if self.is_taken(i) {
            return best;
        }
        let rank = self.rank(i);
        match best {
            Some(b) if b.rank < rank => best,
            _ => Some(Candidate { slot: i, rank }),
        }
    }

    // The first open slot of the least rank. It is a loop: the library's `min_by_key` promises one of the least rank, but of the first one it says no more
    // than what each call answered.
    pub fn least(&self) -> Option<usize>
        ensures { result ≡ slot_of_best (least_in self.now 0) }
    {
        let mut best = None;
        for i in (0..self.used).rev() {
            best = self.choose(best, i);
        }
        best.map(|b: Candidate| b.slot)
    }
}
