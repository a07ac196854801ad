// What a caller may use. Refuses a call whose bytes are no job or whose list of needed rights does not fit the job, and gives the job with the steps
// whose needed rights the caller holds.
#![tactic(auto)]

ghost use Rattle.std.specs.Prelude.{◌≡◌, ◌≤◌, length};
ghost use Rattle.model.specs.task.State.{within};
ghost use Rattle.model.specs.calls.Call.{call, usable_in};
ghost use Rattle.rights.specs.Acceptance.{accepted};

use job::{Job, Query};
use model::{Reason, Refusal, unless};
use std::marker::Model;

// What a search or a read-through is called with: the bytes of a job, the rights that its steps need, and the rights of the caller. Any bytes may be lent.
// A clause sees the call of the model.
#[derive(Drop)]
pub struct Call<'a> {
    job: &'a [u8],
    needs: &'a [u8],
    rights: u8,
}

impl<'a> Model for Call<'a> {
    ghost use Rattle.model.specs.calls.Call.{call};
    ghost use Rattle.model.specs.calls.Call.{Call as Called};

    ghost Value = { Called };

    ghost view = { λ c. call c.job.now c.needs.now c.rights };
}

// Whether the caller holds every right that a step needs. By `State::has` both bytes would be widened, and rights be called facts.
#[tactic(auto, unfolding(model::specs::task::State::within))]
fn all_held(needed: u8, rights: u8) -> bool
    ensures { result ≡ within needed rights }
{
    needed & rights == needed
}

impl<'a> Call<'a> {
    pub fn new(job: &'a [u8], needs: &'a [u8], rights: u8) -> Call<'a>
        ensures { result ≡ call job.now needs.now rights }
    {
        Call { job, needs, rights }
    }

    // Bit i is set if the caller may use step i.
    fn usable(&self) -> u64
        requires { length self.now.needs ≤ 64 }
        ensures { result ≡ usable_in self.now }
    {
        bits::set_of(self.needs.len(), |i| all_held(self.needs[i], self.rights))
    }

    // Checks the job, and then that the list of needed rights has one element a step.
    #[tactic(auto, unfolding(crate::specs::Acceptance::accepted, job::specs::Accepted::decoded))]
    pub fn accept(&self) -> Result<Query<'a>, Refusal>
        ensures { result ≡ accepted self.now }
    {
        let job = Job::decode(self.job)?;
        let steps = usize::from(job.action_count());
        let listed = self.needs.len();
        unless(listed == steps, Reason::BadNeeds, listed)?;
        Ok(Query::new(job, self.usable()))
    }
}
