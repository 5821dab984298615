// `lampmap`: a sheet on standard input, its map or its fault on standard output.
#![tactic(auto)]

use anyhow::anyhow;
use graph::objects::MOST_OBJECTS;
use layout::turns::Candidate;
use map::writing::MOST_MAP;
use planner::plan::Plan;
use std::io;
use std::io::{Read, Write};

// One byte more than a sheet may have: of a longer input no more is read.
const MOST_READ: u64 = 65_537;

// The first bytes of the input.
fn read_sheet(rt: &HostRuntime) -> io::Result<Vec<u8>> {
    let mut text = Vec::new(rt.alloc());
    rt.stdin().take(MOST_READ).read_to_end(&mut text)?;
    Ok(text)
}

// A refused sheet ends the program with status 1, after its fault line.
fn main(rt: HostRuntime) -> anyhow::Result<()> {
    let text = read_sheet(&rt)?;
    let mut plan = Plan::new(rt.alloc())?;
    // kept: a plan takes no memory of its own; its caller lends room for 256 candidates
    let mut memory = [Candidate::default(); MOST_OBJECTS];
    let mut out = vec![in rt.alloc(); 0; MOST_MAP]?;
    match plan.answer(text.as_slice(), &mut memory, out.as_mut_slice()) {
        Ok(end) => {
            rt.stdout().write_all(&out.as_slice()[0..end])?;
            Ok(())
        }
        Err(fault) => {
            println!(rt; "{}", fault.report())?;
            Err(anyhow!("the sheet is refused"))
        }
    }
}
