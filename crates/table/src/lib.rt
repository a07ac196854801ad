// A table of slots in bytes that a caller lends. Every operation is an equation on the list of its slots.
#![tactic(auto)]

ghost use Rattle.std.specs.Prelude.{◌≡◌, [], ◌≤◌, ◌<◌, length, take};
ghost use Rattle.model.specs.calls.Search.{slots_in};

use model::NODE;
use std::marker::Model;
use task::Key;

mod cells; // cells.rt: words of 64 bits, and rows of them
mod rows; // rows.rt: a slot as a row
pub mod slots; // slots.rt: whole slots and their parts, in bytes
mod lookup; // lookup.rt: the slots in use, to read

pub use lookup::InUse;
pub use slots::clear;

// What a slot holds: a node, the state and then the residual of each constraint; the residuals of the hints; the key of the least path so
// far; the estimate of the cost that is left; the slot and the action that it came from; whether it was taken, and whether it is a goal.
// The parent is a number, since memory is fixed and lent, and a slot in bytes cannot hold a reference. That the parts fit their bits (`Narrow`) is asked where
// a slot is written, and is no invariant: slots are made field by field, and by struct update.
#[derive(Clone, Copy, Debug, PartialEq, Eq)]
pub struct Slot {
    pub node: [u64; NODE],
    pub hints: [u64; 8],
    pub key: Key,
    pub estimate: u64,
    pub parent: usize,
    pub action: u8,
    pub taken: bool,
    pub goal: bool,
}

// The bytes, how many slots they have room for, and how many are in use. A clause sees the room and the list of the slots in use.
// A slot is read by `in_use`. That a slot is in use is asked as a slice asks of an index.
#[derive(Drop)]
pub struct Table<'a> {
    bytes: &'a mut [u8],
    room: usize,
    used: usize,
}

impl<'a> Model for Table<'a> {
    ghost use Rattle.table.specs.Tables.{Table as Slotted};
    ghost use Rattle.table.specs.Tables.{table_in, Within};

    ghost Value = { Slotted };

    ghost view = { λ t. table_in t.room t.used t.bytes.now };

    ghost invariant = { λ t. Within t.room t.used t.bytes.now };
}

#[tactic(auto, using(crate::proofs::TableLaws::in_table))]
impl<'a> Table<'a> {
    ghost use Rattle.table.specs.Slots.{slots, Narrow};
    ghost use Rattle.table.specs.Tables.{table, pushed, stored, marked};

    // A table in lent bytes, whatever they are, with no slot in use.
    pub fn new(bytes: &'a mut [u8]) -> Table<'a>
        ensures { result ≡ table (slots_in bytes.old) [] }
    {
        Table::kept(bytes, 0)
    }

    // A table in bytes whose first `used` slots are in use. Who wants room for fewer slots than the bytes have lends fewer bytes.
    pub fn kept(bytes: &'a mut [u8], used: usize) -> Table<'a>
        requires { used ≤ slots_in bytes.now }
        ensures { result ≡ table (slots_in bytes.old) (take used (slots bytes.old)) }
    {
        let room = slots::capacity(bytes);
        Table { bytes, room, used }
    }

    // The bytes back: their first slots are those in use.
    pub fn into_bytes(self) -> &'a mut [u8]
        ensures { table (slots_in result.now) (take (length self.entry.slots) (slots result.now)) ≡ self.entry }
    {
        self.bytes
    }

    // How many slots there is room for.
    pub fn room(&self) -> usize
        ensures { (result ≡ self.now.room) × (result ≤ 65536) }
    {
        self.room
    }

    // How many slots are in use.
    pub fn len(&self) -> usize
        ensures { (result ≡ length self.now.slots) × (result ≤ self.now.room) }
    {
        self.used
    }

    // The slots in use, to read.
    pub fn in_use(&self) -> InUse<'_>
        ensures { result ≡ self.now.slots }
    {
        InUse::new(self.bytes, self.used)
    }

    // One slot more.
    pub fn push(&mut self, s: Slot)
        requires { (length self.old.slots < self.old.room) × Narrow s }
        ensures { self.new ≡ pushed self.old s }
    {
        slots::store(self.bytes, self.used, s);
        self.used += 1;
    }

    // Sets the slot i to s.
    pub fn store(&mut self, i: usize, s: Slot)
        requires { (i < length self.old.slots) × Narrow s }
        ensures { self.new ≡ stored self.old i s }
    {
        slots::store(self.bytes, i, s);
    }

    // Marks the slot i as taken.
    pub fn mark(&mut self, i: usize)
        requires { i < length self.old.slots }
        ensures { self.new ≡ marked self.old i }
    {
        slots::mark(self.bytes, i);
    }
}
