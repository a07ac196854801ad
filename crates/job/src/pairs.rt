// Refusal 2: the pairs of offset and length, in turn, and bytes after the last section.
#![tactic(auto, unfolding(model::specs::job::Decoding::pairs_verdict))]

ghost use Rattle.std.specs.Prelude.{◌≡◌, ◌+◌, ◌*◌, ◌≤◌, ◌<◌, length};
ghost use Rattle.model.specs.Verdict.{in_turn};
ghost use Rattle.model.specs.job.Layout.{pair_count};
ghost use Rattle.model.specs.job.Decoding.{section_start, right_length, pair_verdict, pairs_verdict};
ghost use Rattle.job.specs.Checks.{pair_fits};

use super::access;
use model::{Reason, Verdict, unless};

// Where section i is to begin: after the pairs, or where the section before it ends.
fn section_start(bytes: &[u8], i: usize) -> usize
    requires { 4 + 4 * i ≤ length bytes.now }
    ensures { result ≡ section_start bytes.now i }
{
    if i == 0 {
        4 + 4 * access::pair_count(bytes)
    } else {
        access::section_offset(bytes, i - 1) + access::section_length(bytes, i - 1)
    }
}

// Whether the task section may have n bytes: its actions have forbidden facts or not.
fn task_length(bytes: &[u8], n: usize) -> bool
    requires { 4 ≤ length bytes.now }
    ensures { result ≡ right_length bytes.now 0 n }
{
    n == access::task_bytes(bytes, access::PLAIN_SETS)
        || n == access::task_bytes(bytes, access::ALL_SETS)
}

// Whether section i may have n bytes.
fn right_length(bytes: &[u8], i: usize, n: usize) -> bool
    requires { 4 ≤ length bytes.now }
    ensures { result ≡ right_length bytes.now i n }
{
    if i == 0 {
        task_length(bytes, n)
    } else {
        formula::length_in_range(n)
    }
}

// Whether pair i and its section are whole, adjoin what is before, and have the right length.
fn pair_fits(bytes: &[u8], i: usize) -> bool
    requires { (4 ≤ length bytes.now) × (i < 513) }
    ensures { result ≡ pair_fits bytes.now i }
{
    8 + 4 * i <= bytes.len()
        && access::section_offset(bytes, i) == section_start(bytes, i)
        && right_length(bytes, i, access::section_length(bytes, i))
        && access::section_offset(bytes, i) + access::section_length(bytes, i) <= bytes.len()
}

fn check_pair(bytes: &[u8], i: usize) -> Verdict
    requires { (4 ≤ length bytes.now) × (i < 513) }
    ensures { result ≡ pair_verdict bytes.now i }
{
    unless(pair_fits(bytes, i), Reason::BadPair, i)
}

// The pairs in turn.
#[tactic(auto, using(crate::proofs::TurnLaws::turns))]
fn check_each_pair(bytes: &[u8]) -> Verdict
    requires { 4 ≤ length bytes.now }
    ensures { result ≡ in_turn (pair_count bytes.now) (pair_verdict bytes.now) }
{
    for i in 0..access::pair_count(bytes) {
        check_pair(bytes, i)?;
    }
    Ok(())
}

// The pairs, and then that no byte follows the last section.
pub fn check_pairs(bytes: &[u8]) -> Verdict
    requires { 4 ≤ length bytes.now }
    ensures { result ≡ pairs_verdict bytes.now }
{
    check_each_pair(bytes)?;
    let n = access::pair_count(bytes);
    let end = section_start(bytes, n);
    unless(end == bytes.len(), Reason::BadPair, n - 1)
}
