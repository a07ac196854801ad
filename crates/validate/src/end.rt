// The checks after the last step: the goal, the constraints in turn, and which hints are met.
ghost use Rattle.std.specs.Prelude.{◌≡◌};
ghost use Rattle.model.specs.Verdict.{unless, in_turn};
ghost use Rattle.model.specs.job.Layout.{constraint_count, hint_count, job_of};
ghost use Rattle.validate.specs.Walk.{closed_at, bits_from, end_verdict, judged};

use super::walk::Walk;
use job::Job;
use model::{Passed, Reason, Refusal, Verdict, unless};
use task::State;

// The constraints in turn, each by what it has left.
fn check_constraints(job: &Job, w: &Walk) -> Verdict
    ensures { result ≡ in_turn (constraint_count job.now) (λ i. unless (closed_at (job_of job.now).constraints w.now.constraints w.now.facts i) 9 i) }
{
    let count = job.constraint_count();
    for i in 0..count {
        let met = progression::closes(job, i, w.constraints[i], w.facts);
        unless(met, Reason::RuleNotMet, i)?;
    }
    Ok(())
}

// The goal, and then the constraints.
fn check_end(job: &Job, w: &Walk) -> Verdict
    ensures { result ≡ end_verdict (job_of job.now) w.now.constraints w.now.facts }
{
    let state = State { facts: w.facts };
    unless(state.has(job.goal()), Reason::GoalMissing, 0)?;
    check_constraints(job, w)
}

// A bit for each hint, set if the hint is met by what it has left.
fn hint_bits(job: &Job, w: &Walk) -> u8
    ensures { result ≡ bits_from (closed_at (job_of job.now).hints w.now.hints w.now.facts) 0 (hint_count job.now) }
{
    let from = job.constraint_count();
    let met = bits::set_of(
        job.hint_count(),
        |i| progression::closes(job, from + i, w.hints[i], w.facts),
    );
    met as u8
}

// The answer for a walk that came to the end of its step list.
pub fn judged(job: &Job, w: Walk) -> Result<Passed, Refusal>
    ensures { result ≡ judged (job_of job.now) w }
{
    check_end(job, &w)?;
    Ok(Passed {
        cost: w.cost,
        hints: hint_bits(job, &w),
    })
}
