// The formula in section i of an accepted job. The range of a section's number is asked, since a type for it would have to hold its job.
ghost use Rattle.std.specs.Prelude.{◌≡◌, ◌≤◌, ◌<◌};
ghost use Rattle.model.specs.logic.Parts.{most_parts, parts_of};
ghost use Rattle.model.specs.logic.Names.{Names};
ghost use Rattle.model.specs.logic.Progression.{settled, closing};
ghost use Rattle.model.specs.job.Layout.{pair_count, formula_at};

use super::numbers;
use job::Job;
use model::Code;
use residual::Formula;

// Whether a residual is the same at every setting of its carried parts: such a one stays as it is.
pub fn is_settled(r: u64) -> bool
    ensures { result ≡ settled most_parts r }
{
    r == 0 || r == u64::MAX
}

// The formula, as the evaluator takes it.
pub fn formula<'a>(job: &Job<'a>, i: usize) -> Formula<'a>
    requires { (1 ≤ i) × (i < pair_count job.now) }
    ensures { result ≡ formula_at job.now i }
{
    Formula::new(job.section(i))
}

// Whether a residual is true of the closing world. A settled one decides without a walk.
pub fn closes(job: &Job, i: usize, r: u64, state: u64) -> bool
    requires { (1 ≤ i) × (i < pair_count job.now) }
    ensures { result ≡ closing (parts_of (formula_at job.now i)) r (record { state = state; made = None }) }
{
    // The call also says that the job is accepted: so a settled residual decides.
    prove!(i < job.pair_count());
    if is_settled(r) {
        return r != 0;
    }
    formula(job, i).closing(r, state)
}

// The facts and the actions that a formula names, as sets.
#[derive(Clone, Copy, Debug, PartialEq, Eq)]
pub struct Named {
    pub facts: u64,
    pub actions: u64,
}

// What the formula names, and perhaps more.
pub fn names(job: &Job, i: usize) -> Named
    requires { (1 ≤ i) × (i < pair_count job.now) }
    ensures { Names result.facts result.actions (formula_at job.now i) }
{
    let s = job.section(i);
    Named {
        facts: numbers::after(s, Code::Fact),
        actions: numbers::after(s, Code::Action),
    }
}
