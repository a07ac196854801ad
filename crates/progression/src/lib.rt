// The residuals of an accepted job's formulas, progressed together: those of the constraints in one array, those of the hints in another.
// Formula i stands in section 1 + i, constraints first; entries after the last formula are 0, so that equal residuals are equal arrays.
#![tactic(auto)]

ghost use Rattle.std.specs.Prelude.{◌≡◌, ◌+◌, ◌≤◌, ◌<◌, take};
ghost use Rattle.model.specs.logic.Parts.{parts_of};
ghost use Rattle.model.specs.logic.Progression.{closing};
ghost use Rattle.model.specs.job.Layout.{constraint_count, hint_count, pair_count, formula_at, job_of};
ghost use Rattle.model.specs.search.Node.{residuals, progressed_all, closing_all, some_dead, meet_all};
ghost use Rattle.progression.specs.Padded.{padded, formulas_from, formulas_of, count_of, AreSections};
ghost use Rattle.progression.specs.Workspace.{pays};

use job::Job;

mod section; // section.rt: the formula in one section
mod numbers; // numbers.rt: the numbers after a code
mod entries; // entries.rt: the entries of a memo
mod memo; // memo.rt: what residuals leave, worked out once

pub use memo::{Work, prepare};

// The words of a workspace with a memo: 32, and 2,048 entries of four.
pub const WORDS: usize = 8224;

// Which of a job's formulas are meant.
#[derive(Clone, Copy, Debug, PartialEq, Eq)]
pub enum Group {
    Constraints,
    Hints,
}

// The first section of neighbouring ones, and how many there are: residuals are counted from the first on, so a range of sections would be no plainer.
#[derive(Clone, Copy, Debug, PartialEq, Eq)]
struct Sections {
    from: usize,
    count: usize,
}

// The sections of a group's formulas.
fn sections_of(job: &Job, group: Group) -> Sections
    ensures { AreSections job.now group result }
{
    let constraints = job.constraint_count();
    match group {
        Group::Constraints => Sections {
            from: 1,
            count: constraints,
        },
        Group::Hints => Sections {
            from: 1 + constraints,
            count: job.hint_count(),
        },
    }
}

// What a group's formulas leave after the first world, in which no action was made.
pub fn first(job: &Job, group: Group, state: u64) -> [u64; 8]
    ensures { result ≡ padded (residuals (formulas_of group (job_of job.now)) (record { state = state; made = None })) }
{
    let at = sections_of(job, group);
    let mut left = [0; 8];
    for i in 0..at.count {
        left[i] = section::formula(job, at.from + i).first(state);
    }
    left
}

// Whether a memo pays where the formulas go through so many worlds. Clearing it takes as long as walking some 300 bytes of formulas, so all worlds
// together must have a multiple of that. Either answer is right: only time depends on it.
pub fn pays(job: &Job, worlds: usize) -> bool
    ensures { result ≡ pays job.now worlds }
{
    let bytes = job.formula_bytes();
    bytes != 0 && 4096 / bytes <= worlds
}

// What the residuals of the formulas in sections leave after a world. A residual, a state and an action stay three values, here and below: the residual
// differs at each call, and a struct would be built in one function and opened in the next. It stays a call of its own, so that `next` is no more than a
// test.
#[inline(never)]
fn next_in(work: &mut Work, at: Sections, rs: [u64; 8], state: u64, action: u8) -> [u64; 8]
    requires { (1 ≤ at.from) × (at.from + at.count ≤ pair_count work.old.bytes) × (at.from + at.count ≤ 17) × (at.count ≤ 8) × (action < 64) }
    ensures { (result ≡ padded (progressed_all (formulas_from work.old.bytes at.from at.count) (take at.count rs)
        (record { state = state; made = Some action }))) × (work.new ≡ work.old) }
{
    let mut left = [0; 8];
    for i in 0..at.count {
        left[i] = work.next(at.from + i, rs[i], state, action);
    }
    left
}

// What the residuals of a group leave after a world. Most groups have no formula: for those no residual is copied, and nothing is called.
#[inline(always)]
pub fn next(work: &mut Work, group: Group, rs: [u64; 8], state: u64, action: u8) -> [u64; 8]
    requires { action < 64 }
    ensures { (result ≡ padded (progressed_all (formulas_of group (job_of work.old.bytes)) (take (count_of group work.old.bytes) rs)
        (record { state = state; made = Some action }))) × (work.new ≡ work.old) }
{
    let at = sections_of(work.job(), group);
    if at.count == 0 {
        return [0; 8];
    }
    next_in(work, at, rs, state, action)
}

// Whether a residual of formula i, constraints before hints, is true of the closing world.
// No memo is asked: each residual is asked about once, at the end of a read-through.
#[tactic(auto, unfolding(model::specs::job::Layout::pair_count))]
pub fn closes(job: &Job, i: usize, r: u64, state: u64) -> bool
    requires { i < constraint_count job.now + hint_count job.now }
    ensures { result ≡ closing (parts_of (formula_at job.now (1 + i))) r (record { state = state; made = None }) }
{
    // The number of sections fits a word, so the section's number does.
    prove!(i < job.pair_count());
    section::closes(job, 1 + i, r, state)
}

// Whether the residuals of all constraints are true of the closing world.
pub fn constraints_close(work: &mut Work, rs: [u64; 8], state: u64) -> bool
    ensures { (result ≡ closing_all (job_of work.old.bytes).constraints (take (constraint_count work.old.bytes) rs)
        (record { state = state; made = None })) × (work.new ≡ work.old) }
{
    // A closure that `all` is lent would have to say of the work what `closing` says, so a loop is plainer.
    for i in 0..work.job().constraint_count() {
        if !work.closing(1 + i, rs[i], state) {
            return false;
        }
    }
    true
}

// Whether one of the first so many residuals is dead.
pub fn some_dead(rs: [u64; 8], count: usize) -> bool
    requires { count ≤ 8 }
    ensures { result ≡ some_dead (take count rs) }
{
    rs[..count].contains(&0)
}

// The conjunction, entry by entry.
pub fn met(a: [u64; 8], b: [u64; 8]) -> [u64; 8]
    ensures { result ≡ meet_all a b }
{
    std::array::from_fn(|i| a[i] & b[i])
}
