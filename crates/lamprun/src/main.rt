// `lamprun`: a rehearsal of a sheet's run, its calls on standard input; or the sheet's lean order.
#![tactic(auto)]

mod call_lines;
mod lean_table;
mod rehearsal;
#[cfg(test)]
mod tests;

use anyhow::anyhow;
use graph::objects::MOST_OBJECTS;
use layout::turns::Candidate;
use planner::faults::JobFault;
use planner::plan::Plan;
use std::io::Read;
use std::process::ExitCode;
use std::{env, fs, io};

// One byte more than a sheet may have: of a longer file no more is read.
const MOST_READ: u64 = 65_537;

// The status where no sheet could be asked for or read; 1 is that of a refused sheet.
const NO_SHEET: u8 = 2;

// The first bytes of the file.
fn read_sheet(rt: &HostRuntime, path: &str) -> io::Result<Vec<u8>> {
    let mut text = Vec::new(rt.alloc());
    fs::open(rt, path)?.take(MOST_READ).read_to_end(&mut text)?;
    Ok(text)
}

// A refused question as an error of the program.
pub(crate) fn refused(fault: JobFault) -> anyhow::Error {
    anyhow!("{}", fault.report())
}

// Prints why the sheet is refused.
fn print_refusal(rt: &HostRuntime, fault: JobFault) -> anyhow::Result<ExitCode> {
    println!(rt; "{}", fault.report())?;
    Ok(ExitCode::FAILURE)
}

// Plans the sheet by its own rule on its own fabric, and rehearses a run of it.
fn rehearse(rt: &HostRuntime, sheet: &[u8]) -> anyhow::Result<ExitCode> {
    let mut plan = Plan::new(rt.alloc())?;
    // kept: a plan takes no memory of its own; its caller lends room for 256 candidates
    let mut memory = [Candidate::default(); MOST_OBJECTS];
    if let Err(fault) = plan.plan(sheet, &mut memory) {
        return print_refusal(rt, fault);
    }
    rehearsal::rehearse(rt, &plan)?;
    Ok(ExitCode::SUCCESS)
}

// Reads the sheet, and prints its lean order.
fn list(rt: &HostRuntime, sheet: &[u8]) -> anyhow::Result<ExitCode> {
    let mut plan = Plan::new(rt.alloc())?;
    if let Err(fault) = plan.read(sheet) {
        return print_refusal(rt, fault);
    }
    lean_table::print_lean_order(rt, &plan)?;
    Ok(ExitCode::SUCCESS)
}

fn main(rt: HostRuntime) -> anyhow::Result<ExitCode> {
    let words: Vec<String> = env::args(&rt)?.collect(rt.alloc())?;
    let (path, is_lean) = match words.as_slice() {
        [_, path] => (path.as_str(), false),
        [_, option, path] if option.as_str() == "--lean" => (path.as_str(), true),
        _ => {
            eprintln!(rt; "usage: lamprun SHEET\n       lamprun --lean SHEET")?;
            return Ok(ExitCode::from(NO_SHEET));
        }
    };
    let sheet = match read_sheet(&rt, path) {
        Ok(sheet) => sheet,
        Err(error) => {
            eprintln!(rt; "{path} cannot be read: {error}")?;
            return Ok(ExitCode::from(NO_SHEET));
        }
    };
    if is_lean {
        list(&rt, sheet.as_slice())
    } else {
        rehearse(&rt, sheet.as_slice())
    }
}
