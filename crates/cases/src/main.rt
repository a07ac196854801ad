// Runs the cases on standard input, of which it reads at most the first 16,384 bytes, one after the other, and prints what each gives.
// A case is a letter and five bytes, then its bytes:
//   s  N K R L L  a search by a caller with rights R, with a plan buffer of N bytes (2, 3 or 64): the K needed rights, then the job of L bytes (low byte first)
//   v  N K R L L  a read-through for such a caller: the K needed rights, then the N steps, then the job of L bytes
//   w  N K 0 V A  the rule of N bytes after the next K bytes, written back for V facts and A steps
#![tactic(auto)]

ghost use Rattle.std.specs.Prelude.{◌≤◌, ◌<◌, IfOk, length};

use rights::Call;
use std::io;

// The letter and the five bytes after it.
type Head = [u8; 6];

// A search with a table of 65,536 bytes.
fn search(to: &impl Print, call: &Call, plan: &mut [u8]) -> io::Result<()> {
    let mut table = [0u8; 65536];
    let given = search::planned(call, &mut table, plan);
    report::planned(to, given.result, given.steps)
}

// A search with a plan buffer of 2 or 3 bytes, or of 64.
fn search_in(to: &impl Print, call: &Call, room: u8) -> io::Result<()> {
    let room = if room == 2 || room == 3 { room } else { 64 };
    let mut plan = [255u8; 64];
    search(to, call, &mut plan[..usize::from(room)])
}

fn write_back(to: &impl Print, rule: &[u8], facts: u8, actions: u8) -> io::Result<()> {
    let mut out = [255u8; 512];
    let end = normal::write_back(facts, actions, rule, &mut out);
    report::rewritten(to, end, &out)
}

// The length of a case's job.
fn job_length(head: Head) -> usize
    ensures { result < 65536 }
{
    words::get::<2>(&head, 4) as usize
}

// A search by what follows the head of its case, and the rest of the input, as `run` gives it.
fn search_case<'a>(to: &impl Print, head: Head, input: &'a [u8]) -> io::Result<&'a [u8]>
    ensures { IfOk result (λ rest. length rest.now ≤ length input.now) }
{
    let [_, room, listed, rights, _, _] = head;
    let listed = usize::from(listed);
    let Some((case, rest)) = input.split_at_checked(listed + job_length(head)) else {
        return Ok(&[]);
    };
    let (needs, job) = case.split_at(listed);
    search_in(to, &Call::new(job, needs, rights), room)?;
    Ok(rest)
}

// A read-through by what follows the head of its case, and the rest of the input, as `run` gives it.
fn read_through_case<'a>(to: &impl Print, head: Head, input: &'a [u8]) -> io::Result<&'a [u8]>
    ensures { IfOk result (λ rest. length rest.now ≤ length input.now) }
{
    let [_, steps, listed, rights, _, _] = head;
    let listed = usize::from(listed);
    let end = listed + usize::from(steps);
    let Some((case, rest)) = input.split_at_checked(end + job_length(head)) else {
        return Ok(&[]);
    };
    let (lists, job) = case.split_at(end);
    let (needs, steps) = lists.split_at(listed);
    let read = validate::validate(&Call::new(job, needs, rights), steps);
    report::validated(to, read)?;
    Ok(rest)
}

// A rule written back that follows the head of its case, and the rest of the input, as `run` gives it.
fn write_back_case<'a>(to: &impl Print, head: Head, input: &'a [u8]) -> io::Result<&'a [u8]>
    ensures { IfOk result (λ rest. length rest.now ≤ length input.now) }
{
    let [_, length, before, _, facts, actions] = head;
    let before = usize::from(before);
    let Some((case, rest)) = input.split_at_checked(before + usize::from(length)) else {
        return Ok(&[]);
    };
    write_back(to, &case[before..], facts, actions)?;
    Ok(rest)
}

// The case at the front of the input, and the rest of the input: none where the case is cut off.
fn run<'a>(to: &impl Print, input: &'a [u8]) -> io::Result<&'a [u8]>
    requires { 0 < length input.now }
    ensures { IfOk result (λ rest. length rest.now < length input.now) }
{
    let Some((head, after)) = input.split_first_chunk::<6>() else {
        return Ok(&[]);
    };
    match head[0] {
        b's' => search_case(to, *head, after),
        b'w' => write_back_case(to, *head, after),
        _ => read_through_case(to, *head, after),
    }
}

fn run_all(to: &impl Print, input: &[u8]) -> io::Result<()> {
    let mut rest = input;
    // A case tells how long it is, so no iterator goes over the cases.
    while !rest.is_empty() {
        rest = run(to, rest)?;
    }
    Ok(())
}

fn main(rt: HostRuntime) -> io::Result<()> {
    let mut input = [0u8; 16384];
    let n = input::read_full(&mut rt.stdin(), &mut input)?;
    run_all(&rt, &input[..n])
}
