// A run of a plan, call by call.

use crate::call_lines::call_of;
use crate::refused;
use planner::plan::Plan;
use planner::plan_run::PlanRun;
use std::io;
use std::io::{BufRead, BufReader, Read, Stdin};

// More bytes than any call has: of a longer line no more is kept.
const MOST_LINE: usize = 64;

// Reads the next line without its line end. Answers whether there was one.
fn next_line(input: &mut BufReader<Stdin>, line: &mut Vec<u8>) -> io::Result<bool> {
    line.clear();
    let count = input
        .by_ref()
        .take(MOST_LINE as u64)
        .read_until(b'\n', line)?;
    if line.last() == Some(&b'\n') {
        line.pop();
    } else if count == MOST_LINE {
        input.skip_until(b'\n')?;
    }
    Ok(count > 0)
}

// Answers line `number` of the input.
fn answer(rt: &HostRuntime, run: &mut PlanRun<'_>, line: &[u8], number: u64) -> io::Result<()> {
    let Some(call) = call_of(line) else {
        return println!(rt; "line {number} is no call: start A, finish A, order A B or round");
    };
    match run.call(call) {
        Ok(()) => println!(rt; "ok"),
        Err(fault) => println!(rt; "{}", fault.report()),
    }
}

// Prints where object x lies.
fn print_homes(rt: &HostRuntime, plan: &Plan, x: u32) -> anyhow::Result<()> {
    let size = plan.object(x).map_err(refused)?.size;
    for bank in 0..plan.bank_count() {
        if let Some(at) = plan.place_of(x, bank).map_err(refused)? {
            println!(rt; "object {x} is live in bank {bank} at {at}, {size} bytes")?;
        }
    }
    Ok(())
}

// Prints what is live, and how many bytes of each bank that takes.
fn print_live(rt: &HostRuntime, run: &PlanRun<'_>) -> anyhow::Result<()> {
    let plan = run.plan();
    for x in 0..plan.object_count() {
        if run.is_live(x).map_err(refused)? {
            print_homes(rt, plan, x)?;
        }
    }
    for bank in 0..plan.bank_count() {
        let footprint = plan.footprint(bank).map_err(refused)?;
        let live = run.live_bytes_in(bank).map_err(refused)?;
        println!(rt; "bank {bank} has {live} of {footprint} bytes live")?;
    }
    Ok(())
}

// Answers the calls that the lines of standard input ask for, each as it comes, and then prints what is live.
pub fn rehearse(rt: &HostRuntime, plan: &Plan) -> anyhow::Result<()> {
    let mut run = plan.run();
    let mut input = BufReader::new(rt.alloc(), rt.stdin())?;
    let mut line = Vec::new(rt.alloc());
    // kept: a loop has to end, and no input has more lines than this
    for number in 1..u64::MAX {
        if !next_line(&mut input, &mut line)? {
            break;
        }
        answer(rt, &mut run, line.as_slice(), number)?;
    }
    print_live(rt, &run)
}
