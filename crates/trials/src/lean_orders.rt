// Lean orders of worked sheets, and their peaks.

use lean::ready::ReadyActor;
use planner::plan::Plan;
use std::alloc::{AllocError, Global};
use std::test::Fail;

// The actors and FIFOs of sample A.
const LINES_A: &str = "A 0 0\nA 0 0\nA 1 0\nA 1 4\nF 0 1 10\nF 1 2 6\nF 2 3 8\nF 0 2 5\n";

// The answer for a sheet, and what an output of five nines then holds.
fn listed(heap: Global, lines: &str, memory: &mut [ReadyActor]) -> Result<String, AllocError> {
    let mut plan = Plan::new(heap)?;
    let text = format!(in heap; "LGM 1\nM U 2 64 0 1\nP F\n{lines}")?;
    let _ = plan.read(text.as_bytes());
    let mut out = [9; 5];
    let answer = plan.lean_order(memory, &mut out);
    let [a, b, c, d, e] = out;
    let list = format!(in heap; "{a} {b} {c} {d} {e}")?;
    match answer {
        Ok(found) => format!(in heap; "{list}, {} actors, peak {}", found.actors, found.peak),
        Err(fault) => format!(in heap; "{list}, {}", fault.report()),
    }
}

#[test]
fn lean_orders(rt: HostRuntime) -> Result<(), Fail> {
    let heap = rt.alloc();
    let cases = [
        (LINES_A, "0 1 2 3 9, 4 actors, peak 21"),
        // net changes 7, 4, -4 and -7
        (
            "A 0 0\nA 0 0\nA 0 0\nA 0 0\nF 0 3 7\nF 1 2 4\n",
            "1 2 0 3 9, 4 actors, peak 7",
        ),
        // a FIFO with initial tokens is live all the time
        ("A 0 3\nA 0 0\nD 1 0 5\n", "0 1 9 9 9, 2 actors, peak 8"),
        ("", "9 9 9 9 9, E 4 4 - - -"),
    ];
    for (lines, expected) in cases {
        let mut memory = [ReadyActor::default(); 4];
        let found = listed(heap, lines, &mut memory)?;
        assert_eq!(rt; found.as_str(), expected, "{}", lines);
    }
    let mut short = [ReadyActor::default(); 3];
    let found = listed(heap, LINES_A, &mut short)?;
    assert_eq!(rt; found.as_str(), "9 9 9 9 9, E 16 5 - - -");
    Ok(())
}
