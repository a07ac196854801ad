// A job that is accepted: none of refusals 1 to 5 applies to its bytes.
#![tactic(auto, using(crate::proofs::Accepted::reading))]

ghost use Rattle.std.specs.Prelude.{◌≡◌, ◌+◌, ◌≤◌, ◌<◌, List, ℕ};
ghost use Rattle.model.specs.Verdict.{no_refusal};
ghost use Rattle.model.specs.job.Layout.{action_count, constraint_count, hint_count, pair_count, section_bytes, action_at, job_of};
ghost use Rattle.model.specs.job.Decoding.{job_verdict};
ghost use Rattle.job.specs.Accepted.{decoded, formula_bytes};

use super::access;
use model::Refusal;
use std::marker::Model;

// A clause sees the bytes. An invariant is known only inside these functions, so each promises it again, as `accepted`. That a number is one of an action or
// a section is asked as a slice asks of an index: a type for it would have to hold its job.
#[derive(Clone, Drop)]
pub struct Job<'a> {
    bytes: &'a [u8],
}

impl<'a> Model for Job<'a> {
    ghost Value = { List ℕ };

    ghost view = { λ j. j.bytes.now };

    ghost invariant = { λ j. job_verdict j.bytes.now ≡ no_refusal };
}

impl<'a> Job<'a> {
    // The job that the bytes are, or the first refusal that applies to them.
    #[tactic(auto, unfolding(crate::specs::Accepted::decoded))]
    pub fn decode(bytes: &'a [u8]) -> Result<Job<'a>, Refusal>
        ensures { result ≡ decoded bytes.now }
    {
        super::decode(bytes)?;
        Ok(Job { bytes })
    }

    // The job of bytes that are known to be accepted.
    pub fn accepted(bytes: &'a [u8]) -> Job<'a>
        requires { job_verdict bytes.now ≡ no_refusal }
        ensures { result ≡ bytes.now }
    {
        Job { bytes }
    }

    pub fn action_count(&self) -> u8
        ensures count { (result ≡ action_count self.now) × (result ≤ 64) }
        ensures accepted { job_verdict self.now ≡ no_refusal }
    {
        access::action_count(self.bytes)
    }

    pub fn constraint_count(&self) -> usize
        ensures count { (result ≡ constraint_count self.now) × (result ≤ 8) }
        ensures accepted { job_verdict self.now ≡ no_refusal }
    {
        usize::from(access::constraint_count(self.bytes))
    }

    pub fn hint_count(&self) -> usize
        ensures count { (result ≡ hint_count self.now) × (result ≤ 8) }
        ensures accepted { job_verdict self.now ≡ no_refusal }
    {
        usize::from(access::hint_count(self.bytes))
    }

    // How many sections there are, that of the task and those of the formulas.
    pub fn pair_count(&self) -> usize
        ensures count { (result ≡ pair_count self.now) × (result ≤ 17) }
        ensures accepted { job_verdict self.now ≡ no_refusal }
    {
        access::pair_count(self.bytes)
    }

    // The bytes of the formula in section i.
    #[tactic(auto, using(crate::proofs::Accepted::reading), unfolding(model::specs::job::Layout::section_bytes))]
    pub fn section(&self, i: usize) -> &'a [u8]
        requires { (1 ≤ i) × (i < pair_count self.now) }
        ensures bytes { result.now ≡ section_bytes self.now i }
        ensures accepted { job_verdict self.now ≡ no_refusal }
    {
        let start = access::section_offset(self.bytes, i);
        let end = start + access::section_length(self.bytes, i);
        &self.bytes[start..end]
    }

    // How many bytes the formulas have together: those after the task.
    pub fn formula_bytes(&self) -> usize
        ensures count { result ≡ formula_bytes self.now }
        ensures accepted { job_verdict self.now ≡ no_refusal }
    {
        let task = access::section_offset(self.bytes, 0) + access::section_length(self.bytes, 0);
        self.bytes.len() - task
    }

    // The facts that are true at the start.
    pub fn start(&self) -> u64
        ensures set { result ≡ (job_of self.now).start }
        ensures accepted { job_verdict self.now ≡ no_refusal }
    {
        access::start(self.bytes)
    }

    // The facts that are to be true at the end.
    pub fn goal(&self) -> u64
        ensures set { result ≡ (job_of self.now).goal }
        ensures accepted { job_verdict self.now ≡ no_refusal }
    {
        access::goal(self.bytes)
    }

    // The facts that action i needs.
    pub fn action_pre(&self, i: usize) -> u64
        requires { i < action_count self.now }
        ensures set { result ≡ (action_at self.now i).pre }
        ensures accepted { job_verdict self.now ≡ no_refusal }
    {
        access::action_pre(self.bytes, i)
    }

    // The facts that action i adds.
    pub fn action_add(&self, i: usize) -> u64
        requires { i < action_count self.now }
        ensures set { result ≡ (action_at self.now i).add }
        ensures accepted { job_verdict self.now ≡ no_refusal }
    {
        access::action_add(self.bytes, i)
    }

    // The facts that action i deletes.
    pub fn action_del(&self, i: usize) -> u64
        requires { i < action_count self.now }
        ensures set { result ≡ (action_at self.now i).del }
        ensures accepted { job_verdict self.now ≡ no_refusal }
    {
        access::action_del(self.bytes, i)
    }

    // The facts that must not be true for action i.
    pub fn action_forbidden(&self, i: usize) -> u64
        requires { i < action_count self.now }
        ensures set { result ≡ (action_at self.now i).forbidden }
        ensures accepted { job_verdict self.now ≡ no_refusal }
    {
        access::action_forbidden(self.bytes, i)
    }

    pub fn action_cost(&self, i: usize) -> u64
        requires { i < action_count self.now }
        ensures cost { (result ≡ (action_at self.now i).cost) × (result < 65536) }
        ensures accepted { job_verdict self.now ≡ no_refusal }
    {
        access::action_cost(self.bytes, i)
    }
}
