// Refusal 1: a head of under 4 bytes, or a count out of range.
#![tactic(auto, unfolding(model::specs::job::Decoding::head_verdict))]

ghost use Rattle.std.specs.Prelude.{◌≡◌};
ghost use Rattle.model.specs.job.Decoding.{head_verdict};
ghost use Rattle.job.specs.Checks.{head_fits};

use super::access;
use model::{Reason, Verdict, unless};

// Whether the head is there, with all four counts in their ranges.
fn head_fits(bytes: &[u8]) -> bool
    ensures { result ≡ head_fits bytes.now }
{
    4 <= bytes.len()
        && formula::counts_in_range(access::fact_count(bytes), access::action_count(bytes))
        && access::constraint_count(bytes) <= 8
        && access::hint_count(bytes) <= 8
}

pub fn check_head(bytes: &[u8]) -> Verdict
    ensures { result ≡ head_verdict bytes.now }
{
    unless(head_fits(bytes), Reason::BadHead, 0)
}
