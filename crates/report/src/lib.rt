// Prints what a call gave, as `plan 3 16` with one step number a line after it, or as `refused 12 0`.
#![tactic(auto)]

use model::{Passed, Planned, Refusal};
use std::io;

// The steps of a plan, one a line.
fn steps(to: &impl Print, plan: &[u8]) -> io::Result<()> {
    for step in plan {
        println!(to; "{step}")?;
    }
    Ok(())
}

// What a search gave, and the part of the plan buffer that holds the steps.
pub fn planned(to: &impl Print, end: Result<Planned, Refusal>, part: &[u8]) -> io::Result<()> {
    match end {
        Ok(plan) => {
            println!(to; "plan {} {}", plan.steps, plan.cost)?;
            steps(to, part)
        }
        Err(refusal) => println!(to; "{refusal}"),
    }
}

// What a read-through gave: `passed 16 1`, the cost and the hint bits, or a refusal.
pub fn validated(to: &impl Print, end: Result<Passed, Refusal>) -> io::Result<()> {
    match end {
        Ok(passed) => println!(to; "passed {} {}", passed.cost, passed.hints),
        Err(refusal) => println!(to; "{refusal}"),
    }
}

// What writing a rule back gave: `written 6:` and the bytes in hexadecimal, each after a space, or a refusal. The count and the buffer come as
// `normal::write_back` gives them.
pub fn rewritten(to: &impl Print, end: Result<usize, Refusal>, buffer: &[u8]) -> io::Result<()> {
    let n = match end {
        Ok(n) => n,
        Err(refusal) => return println!(to; "{refusal}"),
    };
    print!(to; "written {n}:")?;
    for byte in buffer.iter().take(n) {
        print!(to; " {byte:02x}")?;
    }
    println!(to)
}
