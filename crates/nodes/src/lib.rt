// The nodes of an accepted job as values, for the search. A node is nine numbers: the state, then the residual of each constraint, and 0 after the
// last. The residuals of the hints, which a path carries beside its node, are eight numbers.
#![tactic(auto)]

ghost use Rattle.std.specs.Prelude.{◌≡◌, ◌∷◌, map, ◌+◌, ◌≤◌, ◌<◌, drop};
ghost use Rattle.model.specs.job.Job.{action_of};
ghost use Rattle.model.specs.job.Layout.{action_count, constraint_count, hint_count, job_of};
ghost use Rattle.model.specs.search.Node.{some_dead};
ghost use Rattle.model.specs.search.JobSystem.{start_node, next_node, is_goal, start_hints, carry_hints};
ghost use Rattle.model.specs.search.Query.{job_for};
ghost use Rattle.task.specs.Meaning.{action_is};
ghost use Rattle.estimate.specs.Meaning.{Estimates};
ghost use Rattle.nodes.specs.Meaning.{node_is, hints_is, actions_from, Chooses, Acts, Costs, Applies, Made, Leads, Carries};

use job::{Job, Query};
use model::NODE;
use progression::{Group, Work};
use task::{Action, State};

pub fn action_of(job: &Job, i: u8) -> Action
    requires { i < action_count job.now }
    ensures { Acts (job_of job.now) i result }
{
    let k = usize::from(i);
    Action {
        pre: job.action_pre(k),
        add: job.action_add(k),
        del: job.action_del(k),
        forbidden: job.action_forbidden(k),
        cost: job.action_cost(k),
    }
}

// Action i, or after the last one an action that does nothing: eight are looked up at once, and the model's `action_of` says the same.
fn action_or_none(job: &Job, i: u8) -> Action
    ensures { action_is result ≡ action_of (job_of job.now) i }
{
    if i < job.action_count() {
        return action_of(job, i);
    }
    Action {
        pre: 0,
        add: 0,
        del: 0,
        forbidden: 0,
        cost: 0,
    }
}

// Eight actions in order, written out and not stored by a loop, so that the compiler builds no array in memory (docs/PERFORMANCE.md, "The lookup of
// applicable actions").
fn eight_from(job: &Job, first: u8) -> [Action; 8]
    requires { first + 8 ≤ 64 }
    ensures { map action_is result ≡ actions_from (job_of job.now) first 8 }
{
    [
        action_or_none(job, first),
        action_or_none(job, first + 1),
        action_or_none(job, first + 2),
        action_or_none(job, first + 3),
        action_or_none(job, first + 4),
        action_or_none(job, first + 5),
        action_or_none(job, first + 6),
        action_or_none(job, first + 7),
    ]
}

// The actions that are applicable at a node and that the caller may use: bit i is action i, and bits of no action of the job mean nothing. The last eight
// are looked up first, so that each next eight are the lowest bits.
pub fn choices(q: &Query, node: [u64; NODE]) -> u64
    ensures { Chooses (job_for q.now) (node_is (constraint_count q.now.bytes) node).state result }
{
    let job = q.job();
    let facts = node[0];
    let mut set = 0;
    for eight in (0..job.action_count().div_ceil(8)).rev() {
        set = task::applicable_set(eight_from(job, 8 * eight), facts) + 256 * set;
    }
    set & q.usable()
}

pub fn cost_of(job: &Job, i: u8) -> u64
    requires { i < action_count job.now }
    ensures { Costs (job_of job.now) i result }
{
    job.action_cost(usize::from(i))
}

// A state in front of residuals. Written out it is proved and compiled as it stands, as the other arrays of this file are.
fn node_of(facts: u64, rs: [u64; 8]) -> [u64; NODE]
    ensures { result ≡ facts ∷ rs }
{
    [
        facts, rs[0], rs[1], rs[2], rs[3], rs[4], rs[5], rs[6], rs[7],
    ]
}

// What stands after the state.
fn residuals_of(node: [u64; NODE]) -> [u64; 8]
    ensures { result ≡ drop 1 node }
{
    [
        node[1], node[2], node[3], node[4], node[5], node[6], node[7], node[8],
    ]
}

// The node of a state and residuals, unless one of the constraints is dead.
fn unless_dead(job: &Job, facts: u64, rs: [u64; 8]) -> Option<[u64; NODE]>
    ensures { Made (constraint_count job.now) facts rs result }
{
    let count = job.constraint_count();
    if progression::some_dead(rs, count) {
        return None;
    }
    Some(node_of(facts, rs))
}

// The start node, unless one of the constraints is dead there.
pub fn start(job: &Job) -> Option<[u64; NODE]>
    ensures { Leads (constraint_count job.now) (start_node (job_of job.now)) result }
{
    let facts = job.start();
    let rs = progression::first(job, Group::Constraints, facts);
    unless_dead(job, facts, rs)
}

// The node that action i, which is applicable, leads to, unless one of the constraints is dead there. The constraints see the state after the action;
// where there are none, no residual is copied.
pub fn next(work: &mut Work, node: [u64; NODE], i: u8) -> Option<[u64; NODE]>
    requires { (i < action_count work.old.bytes) × Applies (job_of work.old.bytes) (node_is (constraint_count work.old.bytes) node) i }
    ensures { Leads (constraint_count work.old.bytes)
        (next_node (job_of work.old.bytes) (node_is (constraint_count work.old.bytes) node) i) result × (work.new ≡ work.old) }
{
    let job = work.job();
    let action = action_of(job, i);
    let state = State { facts: node[0] };
    let facts = state.after(action).facts;
    if job.constraint_count() == 0 {
        return Some([facts, 0, 0, 0, 0, 0, 0, 0, 0]);
    }
    let rs = progression::next(work, Group::Constraints, residuals_of(node), facts, i);
    unless_dead(job, facts, rs)
}

// Whether a path may end at a node: the goal is true, and so is each constraint's residual, of the closing world.
pub fn is_goal(work: &mut Work, node: [u64; NODE]) -> bool
    ensures { (result ≡ is_goal (job_of work.old.bytes) (node_is (constraint_count work.old.bytes) node))
        × (work.new ≡ work.old) }
{
    let facts = node[0];
    let state = State { facts };
    if !state.has(work.job().goal()) {
        return false;
    }
    progression::constraints_close(work, residuals_of(node), facts)
}

// The estimate of the cost that is left from a node by actions that the caller may use, which is that of its state; a node that has none is not reached.
#[tactic(auto, unfolding(crate::specs::Meaning::node_is))]
pub fn estimate_of(q: &Query, node: [u64; NODE]) -> Option<u64>
    ensures { Estimates (job_for q.now) (node_is (constraint_count q.now.bytes) node).state result }
{
    estimate::estimate(q, node[0])
}

pub fn start_hints(job: &Job) -> [u64; 8]
    ensures { Carries (hint_count job.now) (start_hints (job_of job.now)) result }
{
    progression::first(job, Group::Hints, job.start())
}

// What the hints leave at the node that action i led to.
pub fn next_hints(work: &mut Work, hints: [u64; 8], node: [u64; NODE], i: u8) -> [u64; 8]
    requires { i < action_count work.old.bytes }
    ensures { Carries (hint_count work.old.bytes)
        (carry_hints (job_of work.old.bytes) (hints_is (hint_count work.old.bytes) hints) (node_is (constraint_count work.old.bytes) node) i) result
        × (work.new ≡ work.old) }
{
    // The count also says that the job is accepted: so an action's number is below 64.
    prove!(i < work.job().action_count());
    progression::next(work, Group::Hints, hints, node[0], i)
}

// Whether a hint residual is dead. It is the conjunction over all arrivals of the least key, so a plan by one of them may still meet the hint.
pub fn is_cut(job: &Job, hints: [u64; 8]) -> bool
    ensures { result ≡ some_dead (hints_is (hint_count job.now) hints) }
{
    let count = job.hint_count();
    progression::some_dead(hints, count)
}
