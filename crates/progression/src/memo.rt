// The memo of a workspace: what a residual leaves is worked out only where no entry has it.
ghost use Rattle.std.specs.Prelude.{◌≡◌, ◌+◌, ◌*◌, ◌-◌, ◌≤◌, ◌<◌, length, get_or};
ghost use Rattle.std.specs.Int.Bits.{bit_and};
ghost use Rattle.model.specs.logic.Parts.{most_parts, parts_of};
ghost use Rattle.model.specs.logic.Progression.{progressed, closing};
ghost use Rattle.model.specs.job.Layout.{pair_count, formula_at};
ghost use Rattle.model.specs.search.Query.{Query as Asked};
ghost use Rattle.progression.specs.Workspace.{Blank, Kept, named_of, made_code};

use super::entries::Question;
use super::{entries, section};
use job::{Job, Query};
use residual::World;
use std::marker::Model;

// Under so many words there is no room for two entries.
const LEAST: usize = 40;

// A query, and the words in which what its residuals leave is kept. A clause sees the query. That the query stays is said by each function that is lent
// a `Work`: an invariant is about one moment, and not about before and after.
#[derive(Drop)]
pub struct Work<'q, 'w> {
    query: &'q Query<'q>,
    words: &'w mut [u64],
}

impl<'q, 'w> Model for Work<'q, 'w> {
    ghost Value = { Asked };

    ghost view = { λ w. w.query.now };

    ghost invariant = { λ w. Kept w.query.now.bytes w.words.now };
}

// The world as a number, since an entry is words: the action's, 255 for one that the formula does not name, 254 for the closing world.
fn code_of(world: World) -> u64
    ensures { result ≡ made_code world }
{
    match world {
        World::After(Some(action)) => u64::from(action),
        World::After(None) => 255,
        World::Closing => 254,
    }
}

// The action, if the formula in section i names it.
fn named_action(words: &[u64], i: usize, action: u8) -> Option<u8>
    requires { (40 ≤ length words.now) × (1 ≤ i) × (i < 17) × (action < 64) }
    ensures { result ≡ named_of (get_or words.now (2 * i - 1) 0) action }
{
    bits::bit_at(words[2 * i - 1], action).then_some(action)
}

// What is asked of the formula in section i.
fn asked(words: &[u64], i: usize, world: World, r: u64, state: u64) -> Question
    requires { (40 ≤ length words.now) × (1 ≤ i) × (i < 17) }
    ensures { result ≡ record { key = 256 * i + made_code world; residual = r; facts = bit_and state (get_or words.now (2 * i - 2) 0) } }
{
    Question {
        key: 256 * (i as u64) + code_of(world),
        residual: r,
        facts: state & words[2 * i - 2],
    }
}

// Writes down what each formula names, if there is room for entries.
pub fn prepare(job: &Job, words: &mut [u64])
    requires { Blank words.old }
    ensures { Kept job.now words.new }
{
    let count = job.pair_count();
    if words.len() < LEAST {
        return;
    }
    for i in 1..count {
        let n = section::names(job, i);
        words[2 * i - 2] = n.facts;
        words[2 * i - 1] = n.actions;
    }
}

impl<'q, 'w> Work<'q, 'w> {
    // A workspace in zeros, any number up to 65,536 of them. Where a caller lends few words or none, each residual is worked out anew.
    pub fn new(query: &'q Query<'q>, words: &'w mut [u64]) -> Work<'q, 'w>
        requires { Blank words.now }
        ensures { result ≡ query.now }
    {
        prepare(query.job(), words);
        Work::kept(query, words)
    }

    // In words that are known to be a workspace of the query's job.
    pub fn kept(query: &'q Query<'q>, words: &'w mut [u64]) -> Work<'q, 'w>
        requires { Kept query.now.bytes words.now }
        ensures { result ≡ query.now }
    {
        Work { query, words }
    }

    // The words back: they are a workspace of the query's job still, so they may be lent for another query of that job.
    pub fn into_words(self) -> &'w mut [u64]
        ensures { Kept self.entry.bytes result.now }
    {
        self.words
    }

    pub fn query(&self) -> &'q Query<'q>
        ensures { result.now ≡ self.now }
    {
        self.query
    }

    pub fn job(&self) -> &'q Job<'q>
        ensures { result.now ≡ self.now.bytes }
    {
        self.query.job()
    }

    // What a residual of the formula in section i leaves after a world.
    pub fn next(&mut self, i: usize, r: u64, state: u64, action: u8) -> u64
        requires { (1 ≤ i) × (i < pair_count self.old.bytes) × (action < 64) }
        ensures { (result ≡ progressed most_parts (parts_of (formula_at self.old.bytes i)) r (record { state = state; made = Some action }))
            × (self.new ≡ self.old) }
    {
        // A variable, since of a field that is lent out several times a proof knows no more than the length.
        let words = &mut *self.words;
        if section::is_settled(r) {
            return r;
        }
        if words.len() < LEAST {
            return section::formula(self.query.job(), i).next(r, state, Some(action));
        }
        let made = named_action(words, i, action);
        let q = asked(words, i, World::After(made), r, state);
        if let Some(x) = entries::recall(words, q) {
            return x;
        }
        let x = section::formula(self.query.job(), i).next(r, state, Some(action));
        entries::remember(words, q, x);
        x
    }

    // Whether a residual of the formula in section i is true of the closing world. `next` has the same steps; a function for both would take a closure,
    // and would have to ask of it all that these two contracts say.
    pub fn closing(&mut self, i: usize, r: u64, state: u64) -> bool
        requires { (1 ≤ i) × (i < pair_count self.old.bytes) }
        ensures { (result ≡ closing (parts_of (formula_at self.old.bytes i)) r (record { state = state; made = None }))
            × (self.new ≡ self.old) }
    {
        let words = &mut *self.words;
        if section::is_settled(r) || words.len() < LEAST {
            return section::closes(self.query.job(), i, r, state);
        }
        let q = asked(words, i, World::Closing, r, state);
        if let Some(x) = entries::recall(words, q) {
            return x == 1;
        }
        let b = section::formula(self.query.job(), i).closing(r, state);
        entries::remember(words, q, u64::from(b));
        b
    }
}
