// The numbers that stand after codes in the bytes of a formula.
ghost use Rattle.progression.specs.Numbers.{After};

use model::Code;

// The numbers right after the bytes of a code, as a set. A number may look like a code: then the set has more than a formula names.
pub fn after(s: &[u8], code: Code) -> u64
    ensures { After code s.now result }
{
    let mut found = 0;
    for pair in s.windows(2) {
        if Code::from(pair[0]) == code {
            found |= 1 << (pair[1] % 64);
        }
    }
    found
}
