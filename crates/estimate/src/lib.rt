// The max estimate of what is left to pay from a state (card 2, after Bonet and Geffner 2001). The facts that can be built from the state are found at a
// rising level of cost: an action is ready at the level at which all its needed facts are built, and ends its cost after that. Each turn goes on to the
// soonest end of an action that adds a fact which is not built. Only the actions that the caller may use are counted (card 4).
#![tactic(auto)]

ghost use Rattle.std.specs.Prelude.{◌≡◌, ◌≤◌, ◌<◌, length, get_or, set, None};
ghost use Rattle.model.specs.job.Layout.{action_count, job_of};
ghost use Rattle.model.specs.search.Query.{job_for};
ghost use Rattle.model.specs.search.Estimate.{end_of, sooner, gain_of};
ghost use Rattle.estimate.specs.Meaning.{highest, Estimates};
ghost use Rattle.estimate.specs.Turns.{StaysLow, Passed};

use job::{Job, Query};
use std::marker::Model;
use task::State;

// No job has more actions.
const ACTIONS: usize = 64;

// The end of an action that adds facts which are not built, and the facts that it adds. A clause sees the gain of the model.
#[derive(Clone, Copy, Debug, PartialEq, Eq)]
struct Gain {
    level: u64,
    adds: u64,
}

impl Model for Gain {
    ghost use Rattle.model.specs.search.Estimate.{Gain as Gained};

    ghost Value = { Gained };

    ghost view = { λ g. record { level = g.level; adds = g.adds } };

    ghost inverse = { λ g. record { level = g.level; adds = g.adds } };
}

// The end of action i at a level: as it was, or its cost after the level where its needed facts are built and were not before. Only a new end is written,
// since most are known. The values that this function and the next one share stay apart: a struct of them would be built anew for each action.
#[tactic(auto, using(job::proofs::Accepted::action_of_lem, crate::proofs::PassLaws::same_end), unfolding(model::specs::search::Estimate::end_of))]
fn end_of(
    job: &Job,
    built: u64,
    level: u64,
    ends: &mut [Option<u64>; ACTIONS],
    i: usize,
) -> Option<u64>
    requires { (i < action_count job.now) × (i < 64) × (level ≤ highest) }
    ensures is { result ≡ end_of (job_of job.now) built level (get_or ends.old i None) i }
    ensures low { StaysLow level (get_or ends.old i None) result }
    ensures written { ends.new ≡ set ends.old i result }
{
    if ends[i].is_some() {
        return ends[i];
    }
    let state = State { facts: built };
    if !state.has(job.action_pre(i)) {
        return None;
    }
    let end = Some(level + job.action_cost(i));
    ends[i] = end;
    end
}

// The sooner of the best gain so far and that of action i, which ends at `end`; the best so far where both are as soon. What the action adds is read only if
// it ends sooner, which few do.
#[tactic(auto, using(job::proofs::Accepted::action_of_lem), unfolding(model::specs::search::Estimate::sooner, model::specs::search::Estimate::gain_of))]
fn sooner(job: &Job, built: u64, end: Option<u64>, i: usize, best: Option<Gain>) -> Option<Gain>
    requires { i < action_count job.now }
    ensures { result ≡ sooner best (gain_of (job_of job.now) built end i) }
{
    let Some(level) = end else {
        return best;
    };
    match best {
        Some(b) if b.level <= level => best,
        _ => {
            let adds = job.action_add(i);
            let state = State { facts: built };
            if state.has(adds) {
                return best;
            }
            Some(Gain { level, adds })
        }
    }
}

// Writes the ends of the actions at a level, and finds the soonest gain, if there is one. Only the actions that the caller may use are counted.
#[tactic(auto, using(crate::proofs::PassLaws::counted, crate::proofs::PassLaws::passed_none))]
fn pass(q: &Query, built: u64, level: u64, ends: &mut [Option<u64>; ACTIONS]) -> Option<Gain>
    requires { level ≤ highest }
    ensures { Passed (job_for q.now) built level ends.old ends.new (length (job_for q.now).actions) result }
{
    let job = q.job();
    let mut best = None;
    for action in 0..job.action_count() {
        let counted = q.may_use(action);
        if counted {
            let i = usize::from(action);
            let end = end_of(job, built, level, ends, i);
            best = sooner(job, built, end, i, best);
        }
    }
    best
}

// The max estimate of the state with these facts, of an accepted job; only the actions that the caller may use are counted. There is none where a goal fact
// cannot be built from the state. After each turn one action more has nothing left to add, so one turn more than there are actions is enough.
pub fn estimate(q: &Query, facts: u64) -> Option<u64>
    ensures { Estimates (job_for q.now) facts result }
{
    let goal = q.job().goal();
    let mut ends = [None; ACTIONS];
    let mut built = facts;
    let mut level = 0;
    for _ in 0..=q.job().action_count() {
        let state = State { facts: built };
        if state.has(goal) {
            return Some(level);
        }
        // Written out in place of `?`, so that the edit `unbuilt_at_zero` can answer 0 here (docs/MUST-FAIL.md).
        let Some(gain) = pass(q, built, level, &mut ends) else {
            return None;
        };
        built |= gain.adds;
        level = gain.level;
    }
    None
}
