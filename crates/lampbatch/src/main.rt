// `lampbatch`: many sheets on standard input, what `lampmap` prints of each on standard output.
// A sheet comes as its length in decimal digits, byte 10, and its bytes; each answer ends with a line `.`.
#![tactic(auto)]

ghost use Rattle.std.specs.Prelude.{◌<◌, length, IfSome};

use graph::objects::MOST_OBJECTS;
use layout::turns::Candidate;
use map::writing::MOST_MAP;
use planner::plan::Plan;
use std::io;
use std::io::{Read, Write};
use text::numbers::number;

// The next sheet, and what follows it.
fn next_sheet(input: &[u8]) -> Option<(&[u8], &[u8])>
    ensures { IfSome result (λ p. length p.1.now < length input.now) }
{
    let (length, rest) = number(input)?;
    rest.strip_prefix(b"\n")?.split_at_checked(length as usize)
}

// Prints what one sheet gives.
fn print_answer(rt: &HostRuntime, plan: &mut Plan, sheet: &[u8], out: &mut [u8]) -> io::Result<()> {
    // kept: a plan takes no memory of its own; its caller lends room for 256 candidates
    let mut memory = [Candidate::default(); MOST_OBJECTS];
    match plan.answer(sheet, &mut memory, out) {
        Ok(end) => rt.stdout().write_all(&out[0..end])?,
        Err(fault) => {
            println!(rt; "{}", fault.report())?;
        }
    }
    println!(rt; ".")
}

fn main(rt: HostRuntime) -> anyhow::Result<()> {
    let mut input = Vec::new(rt.alloc());
    rt.stdin().read_to_end(&mut input)?;
    let mut plan = Plan::new(rt.alloc())?;
    let mut out = vec![in rt.alloc(); 0; MOST_MAP]?;
    let mut rest = input.as_slice();
    // kept: each turn takes a sheet off the front of the rest; an iterator over sheets would need a type and laws of its own
    while let Some((sheet, more)) = next_sheet(rest) {
        print_answer(&rt, &mut plan, sheet, out.as_mut_slice())?;
        rest = more;
    }
    Ok(())
}
