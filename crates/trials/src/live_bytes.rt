// A run of a placed sheet.

use layout::turns::Candidate;
use planner::plan::Plan;
use planner::plan_run::PlanRun;
use run::call::Call;
use std::alloc::{AllocError, Global};
use std::test::Fail;

// Sample A on another machine: objects 2 and 4 have their home in bank 0, object 1 in bank 1, and objects 0 and 3 in bank 2.
const SHEET: &str =
    "LGM 1\nM H 2 64 64 1\nP F\nA 0 0\nA 0 0\nA 1 0\nA 1 4\nF 0 1 10\nF 1 2 6\nF 2 3 8\nF 0 2 5\n";

// The live bytes of a bank, or the line of the fault.
fn live_bytes_in(heap: Global, run: &PlanRun<'_>, bank: u32) -> Result<String, AllocError> {
    match run.live_bytes_in(bank) {
        Ok(bytes) => format!(in heap; "{bytes}"),
        Err(fault) => format!(in heap; "{}", fault.report()),
    }
}

// The live bytes of a run, in all and in its first four banks.
fn live_bytes(heap: Global, run: &PlanRun<'_>) -> Result<String, AllocError> {
    let shared = live_bytes_in(heap, run, 0)?;
    let first = live_bytes_in(heap, run, 1)?;
    let second = live_bytes_in(heap, run, 2)?;
    let none = live_bytes_in(heap, run, 3)?;
    format!(in heap;
        "{} = {shared} + {first} + {second}, {none}",
        run.live_bytes()
    )
}

#[test]
fn live_bytes_of_a_run(rt: HostRuntime) -> Result<(), Fail> {
    let heap = rt.alloc();
    let mut plan = Plan::new(heap)?;
    let mut memory = [Candidate::default(); 5];
    assert!(rt; plan.plan(SHEET.as_bytes(), &mut memory).is_ok());
    let mut run = plan.run();
    let cases = [
        (Call::Start(0), "15 = 5 + 10 + 0, E 6 4 - - -"),
        (Call::Finish(0), "15 = 5 + 10 + 0, E 6 4 - - -"),
        (Call::Start(1), "21 = 11 + 10 + 0, E 6 4 - - -"),
        (Call::Finish(1), "11 = 11 + 0 + 0, E 6 4 - - -"),
        (Call::Start(2), "19 = 11 + 0 + 8, E 6 4 - - -"),
        (Call::Finish(2), "8 = 0 + 0 + 8, E 6 4 - - -"),
        (Call::Start(3), "12 = 0 + 0 + 12, E 6 4 - - -"),
        (Call::Finish(3), "0 = 0 + 0 + 0, E 6 4 - - -"),
        (Call::Round, "0 = 0 + 0 + 0, E 6 4 - - -"),
    ];
    for (call, expected) in cases {
        assert!(rt; run.call(call).is_ok());
        let found = live_bytes(heap, &run)?;
        assert_eq!(rt; found.as_str(), expected);
    }
    Ok(())
}

#[test]
fn live_bytes_of_a_plan_that_is_not_placed(rt: HostRuntime) -> Result<(), Fail> {
    let heap = rt.alloc();
    let mut plan = Plan::new(heap)?;
    assert!(rt; plan.read(SHEET.as_bytes()).is_ok());
    let mut run = plan.run();
    assert!(rt; run.start(0).is_ok());
    assert_eq!(rt; run.live_bytes(), 15);
    let found = live_bytes_in(heap, &run, 0)?;
    assert_eq!(rt; found.as_str(), "E 6 4 - - -");
    Ok(())
}
