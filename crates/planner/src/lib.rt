// The planner's functions for C: bytes in, numbers out. include/dagzhimo.h declares them.
#![tactic(auto)]

ghost use Rattle.std.specs.Prelude.{◌≡◌, ◌∷◌, leb};
ghost use Rattle.model.specs.logic.Formula.{choose};
ghost use Rattle.model.specs.calls.Call.{call};
ghost use Rattle.model.specs.calls.Validate.{validated};
ghost use Rattle.model.specs.calls.WriteBack.{written_back};
ghost use Rattle.model.specs.calls.Numbers.{refusal_numbers, validate_numbers, SearchAnswers, WriteAnswers};
ghost use Rattle.search.specs.Given.{runs_out};

use model::Refusal;
use rights::Call;

// Looks for the job's plan by the steps that the caller may use: 0 with its cost and its number of steps, or the number of a refusal with its place.
#[unsafe(no_mangle)]
pub extern "C" fn dagzhimo_search(
    job: &[u8],
    needs: &[u8],
    rights: u8,
    table: &mut [u8],
    plan: &mut [u8],
    out: &mut [u64; 2],
) -> u64
    ensures { SearchAnswers runs_out (call job.now needs.now rights) table.old plan.old
        table.new plan.new (result ∷ out.new) }
{
    let call = Call::new(job, needs, rights);
    let told = search::numbers(search::search(&call, table, plan));
    *out = [told[1], told[2]];
    told[0]
}

// A refusal's number, with its place in `out`.
#[tactic(auto, unfolding(model::specs::calls::Numbers::refusal_numbers))]
fn refused(refusal: Refusal, out: &mut [u64; 2]) -> u64
    ensures { result ∷ out.new ≡ refusal_numbers refusal }
{
    *out = [refusal.place() as u64, 0];
    u64::from(refusal.number())
}

// Walks a step list of a job, for a caller: 0 with the cost and the hint bits, or the number of a refusal with its place.
#[unsafe(no_mangle)]
pub extern "C" fn dagzhimo_validate(
    job: &[u8],
    needs: &[u8],
    rights: u8,
    steps: &[u8],
    out: &mut [u64; 2],
) -> u64
    ensures { result ∷ out.new
        ≡ validate_numbers (validated (call job.now needs.now rights) steps.now) }
{
    match validate::validate(&Call::new(job, needs, rights), steps) {
        Ok(passed) => {
            *out = [passed.cost, u64::from(passed.hints)];
            0
        }
        Err(refusal) => refused(refusal, out),
    }
}

// A count as a byte. All counts over 64 are out of range, so one of them may stand for the others.
fn count(x: u64) -> u8
    ensures { result ≡ choose (leb x 64) x 65 }
{
    x.min(65) as u8
}

// Writes a rule back: 0 with the number of bytes written, or the number of a refusal with its place.
#[unsafe(no_mangle)]
pub extern "C" fn dagzhimo_write_back(
    facts: u64,
    steps: u64,
    rule: &[u8],
    buffer: &mut [u8],
    out: &mut [u64; 2],
) -> u64
    ensures { WriteAnswers (written_back facts steps rule.now buffer.old) buffer.new (result ∷ out.new) }
{
    match normal::write_back(count(facts), count(steps), rule, buffer) {
        Ok(n) => {
            *out = [n as u64, 0];
            0
        }
        Err(refusal) => refused(refusal, out),
    }
}
