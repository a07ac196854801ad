// Reads jobs: refuses bytes that are no job, and gives what stands where in one that is accepted. `Laid` and `4 ≤ length` are clauses: what is known of the
// bytes grows with each check, and a type for each stage would say no more. Checks in turn are a `for` with `?`: `try_for_each` would be lent the body as a
// closure, whose contract would say again what the invariant says.
#![tactic(auto)]

ghost use Rattle.std.specs.Prelude.{◌≡◌};
ghost use Rattle.model.specs.job.Decoding.{job_verdict};

use model::Verdict;

pub mod access; // access.rt: what stands where
pub mod head; // head.rt: refusal 1
mod pairs; // pairs.rt: refusal 2
mod task; // task.rt: refusal 3
mod formulas; // formulas.rt: refusals 4 and 5
mod decoded; // decoded.rt: a job that is accepted
mod query; // query.rt: a job and what its caller may use

pub use decoded::Job;
pub use query::Query;

// The first refusal that applies to the bytes, or that they are a job.
#[tactic(auto, using(crate::proofs::Bounds::laid), unfolding(model::specs::job::Decoding::job_verdict))]
pub fn decode(bytes: &[u8]) -> Verdict
    ensures { result ≡ job_verdict bytes.now }
{
    head::check_head(bytes)?;
    pairs::check_pairs(bytes)?;
    task::check_task(bytes)?;
    formulas::check_formulas(bytes)
}
