// Refusal 3: a set of the task that has a fact which the job does not have.
#![tactic(auto, using(crate::proofs::Bounds::head_there, crate::proofs::SetLaws::none_above), unfolding(model::specs::job::Decoding::task_verdict))]

ghost use Rattle.std.specs.Prelude.{◌≡◌, ◌+◌, ◌^◌, ◌≤◌, ◌<◌, ltb, length};
ghost use Rattle.model.specs.Verdict.{in_turn};
ghost use Rattle.model.specs.job.Layout.{set_bytes, action_count};
ghost use Rattle.model.specs.job.Decoding.{set_verdict, action_verdict, task_verdict};
ghost use Rattle.job.specs.Laid.{Laid};

use super::access;
use super::access::SET;
use model::{Reason, Verdict, unless};

// Whether x has no bit n or above.
fn fits_in(x: u64, n: u8) -> bool
    requires { n ≤ 64 }
    ensures { result ≡ ltb x (2 ^ n) }
{
    n == 64 || x >> n == 0
}

// That the set at an offset has no fact that the job does not have.
fn check_set(bytes: &[u8], offset: usize) -> Verdict
    requires { Laid bytes.now × (offset + set_bytes ≤ length bytes.now) }
    ensures { result ≡ set_verdict bytes.now offset }
{
    let set = words::get::<SET>(bytes, offset);
    unless(
        fits_in(set, access::fact_count(bytes)),
        Reason::BadTask,
        offset,
    )
}

// The sets of action i in turn.
#[tactic(auto, using(crate::proofs::TurnLaws::turns, crate::proofs::Bounds::task_pair), unfolding(model::specs::job::Decoding::action_verdict))]
fn check_action(bytes: &[u8], i: usize) -> Verdict
    requires { Laid bytes.now × (i < action_count bytes.now) }
    ensures { result ≡ action_verdict bytes.now i }
{
    for k in 0..access::set_count(bytes) {
        check_set(bytes, access::set_offset(bytes, i, k))?;
    }
    Ok(())
}

// The actions in turn.
#[tactic(auto, using(crate::proofs::TurnLaws::turns))]
fn check_actions(bytes: &[u8]) -> Verdict
    requires { Laid bytes.now }
    ensures { result ≡ in_turn (action_count bytes.now) (action_verdict bytes.now) }
{
    for i in 0..usize::from(access::action_count(bytes)) {
        check_action(bytes, i)?;
    }
    Ok(())
}

// The start, the goal and the actions.
pub fn check_task(bytes: &[u8]) -> Verdict
    requires { Laid bytes.now }
    ensures { result ≡ task_verdict bytes.now }
{
    let offset = access::section_offset(bytes, 0);
    check_set(bytes, offset)?;
    check_set(bytes, offset + SET)?;
    check_actions(bytes)
}
