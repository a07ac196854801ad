// The read-through: refuses a step list that is no allowed plan of a job for its caller, or gives its cost and which hints it meets.
#![tactic(auto)]

ghost use Rattle.std.specs.Prelude.{◌≡◌, ◌≤◌, length};
ghost use Rattle.model.specs.Verdict.{in_turn};
ghost use Rattle.model.specs.job.Layout.{job_of};
ghost use Rattle.model.specs.calls.Validate.{step_verdict, validated};
ghost use Rattle.validate.specs.Answer.{answer};
ghost use Rattle.validate.specs.Walk.{walk_of, judged};

use job::Query;
use model::{Passed, Reason, Refusal, unless};
use progression::Work;
use rights::Call;

mod walk; // walk.rt: what the steps made so far lead to
mod end; // end.rt: the checks after the last step

// Checks and makes the steps in turn, and judges where they lead.
fn through(work: &mut Work, steps: &[u8]) -> Result<Passed, Refusal>
    requires { length steps.now ≤ 65535 }
    ensures { result ≡ answer (in_turn (length steps.now) (step_verdict (job_of work.old.bytes) steps.now work.old.usable))
        (judged (job_of work.old.bytes) (walk_of (job_of work.old.bytes) steps.now)) }
{
    let mut w = walk::start(work.job());
    for (i, step) in steps.iter().enumerate() {
        walk::check_step(work.query(), w.facts, *step, i)?;
        w = walk::make(work, w, *step);
    }
    end::judged(work.job(), w)
}

// The same in a workspace of its own, which has a memo where that pays. The search has such a function, too. One for both would be lent what is done in the
// workspace as a closure, and a contract says nothing of what the search's closure would borrow and change: the table.
fn in_workspace(q: &Query, steps: &[u8]) -> Result<Passed, Refusal>
    requires { length steps.now ≤ 65535 }
    ensures { result ≡ answer (in_turn (length steps.now) (step_verdict (job_of q.now.bytes) steps.now q.now.usable))
        (judged (job_of q.now.bytes) (walk_of (job_of q.now.bytes) steps.now)) }
{
    if progression::pays(q.job(), steps.len()) {
        let mut words = [0; progression::WORDS];
        return through(&mut Work::new(q, &mut words), steps);
    }
    through(&mut Work::new(q, &mut []), steps)
}

// The first refusal that applies to the job, to the list of needed rights or to the step list, or the cost and the hints that are met. Any bytes may be lent.
pub fn validate(call: &Call, steps: &[u8]) -> Result<Passed, Refusal>
    ensures { result ≡ validated call.now steps.now }
{
    let query = call.accept()?;
    unless(steps.len() <= 65535, Reason::BadStep, 65535)?;
    in_workspace(&query, steps)
}
