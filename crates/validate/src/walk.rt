// The walk along a step list: where it starts, the checks of a step, and a step that is made.
ghost use Rattle.std.specs.Prelude.{◌≡◌, ◌+◌, ◌*◌, ◌≤◌, ◌<◌, ltb, length};
ghost use Rattle.model.specs.Bits.{bit};
ghost use Rattle.model.specs.Verdict.{unless, or_else};
ghost use Rattle.model.specs.job.Job.{action_of};
ghost use Rattle.model.specs.job.Layout.{action_count, job_of};
ghost use Rattle.model.specs.task.State.{applicable};
ghost use Rattle.validate.specs.Walk.{started, stepped};

use job::{Job, Query};
use model::{Reason, Verdict, unless};
use progression::{Group, Work};
use task::State;

// What the steps made so far lead to: the facts, the summed cost, and what constraints and hints have left.
#[derive(Clone, Copy, Debug, PartialEq, Eq)]
pub struct Walk {
    pub facts: u64,
    pub cost: u64,
    pub constraints: [u64; 8],
    pub hints: [u64; 8],
}

// Where no step is made yet.
pub fn start(job: &Job) -> Walk
    ensures { result ≡ started (job_of job.now) }
{
    let facts = job.start();
    Walk {
        facts,
        cost: 0,
        constraints: progression::first(job, Group::Constraints, facts),
        hints: progression::first(job, Group::Hints, facts),
    }
}

// That step i of a list is one of the job's actions, then that the caller may use it, and then that it is applicable.
pub fn check_step(q: &Query, facts: u64, step: u8, i: usize) -> Verdict
    ensures { result ≡ or_else (unless (ltb step (length (job_of q.now.bytes).actions)) 6 i)
        (or_else (unless (bit q.now.usable step) 15 i) (unless (applicable (action_of (job_of q.now.bytes) step) facts) 7 i)) }
{
    unless(step < q.job().action_count(), Reason::BadStep, i)?;
    unless(q.may_use(step), Reason::NoRight, i)?;
    let action = nodes::action_of(q.job(), step);
    let state = State { facts };
    unless(state.applicable(action), Reason::NotApplicable, i)
}

// One step further.
pub fn make(work: &mut Work, w: Walk, step: u8) -> Walk
    requires { (step < action_count work.old.bytes) × (w.cost ≤ 65535 * 65535) }
    ensures { (result ≡ stepped (job_of work.old.bytes) w step) × (result.cost ≤ w.cost + 65535) × (work.new ≡ work.old) }
{
    // The count also says that the job is accepted: so a step's number is below 64.
    prove!(step < work.job().action_count());
    let action = nodes::action_of(work.job(), step);
    let before = State { facts: w.facts };
    let facts = before.after(action).facts;
    let cost = w.cost + action.cost;
    let constraints = progression::next(work, Group::Constraints, w.constraints, facts, step);
    let hints = progression::next(work, Group::Hints, w.hints, facts, step);
    Walk {
        facts,
        cost,
        constraints,
        hints,
    }
}
