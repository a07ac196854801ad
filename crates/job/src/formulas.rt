// Refusals 4 and 5: each section that holds a formula is lent on to the reader of formulas.
ghost use Rattle.std.specs.Prelude.{◌≡◌, ◌+◌, ◌<◌};
ghost use Rattle.model.specs.job.Layout.{pair_count, pair_offset, formula_in};
ghost use Rattle.model.specs.job.Decoding.{formula_verdict, formulas_verdict};
ghost use Rattle.job.specs.Laid.{Laid};

use super::access;
use formula::Reader;
use model::Verdict;

// The formula in section i.
#[tactic(auto, unfolding(model::specs::job::Layout::formula_in))]
fn check_formula(bytes: &[u8], i: usize) -> Verdict
    requires { Laid bytes.now × (i < pair_count bytes.now) }
    ensures { result ≡ formula_verdict (pair_offset bytes.now i) (formula_in bytes.now i) }
{
    let offset = access::section_offset(bytes, i);
    let end = offset + access::section_length(bytes, i);
    let reader = Reader {
        bytes: &bytes[offset..end],
        facts: access::fact_count(bytes),
        actions: access::action_count(bytes),
    };
    reader.check(offset)
}

// The formulas in turn, constraints and then hints.
#[tactic(auto, using(crate::proofs::TurnLaws::turns), unfolding(model::specs::job::Layout::pair_count, model::specs::job::Decoding::formulas_verdict))]
pub fn check_formulas(bytes: &[u8]) -> Verdict
    requires { Laid bytes.now }
    ensures { result ≡ formulas_verdict bytes.now }
{
    for i in 0..access::formula_count(bytes) {
        check_formula(bytes, 1 + i)?;
    }
    Ok(())
}
