// Plans the job on standard input, of which it reads at most the first 8,192 bytes, and prints the plan or the refusal.
#![tactic(auto)]

use job::access;
use rights::Call;
use std::io;

// Searches, and prints what comes of it.
fn plan(to: &impl Print, call: &Call) -> io::Result<()> {
    let mut table = [0u8; 65536];
    let mut steps = [0u8; 1024];
    let given = search::planned(call, &mut table, &mut steps);
    report::planned(to, given.result, given.steps)
}

// The caller is one without rights. A zero is lent for each step as the list of needed rights, so that every step may be used; fewer than four bytes are no
// job, and are refused before that list is looked at.
fn main(rt: HostRuntime) -> io::Result<()> {
    let mut job = [0u8; 8192];
    let n = input::read_full(&mut rt.stdin(), &mut job)?;
    let needs = [0u8; 256];
    let steps = usize::from(access::action_count(&job));
    plan(&rt, &Call::new(&job[..n], &needs[..steps], 0))
}
