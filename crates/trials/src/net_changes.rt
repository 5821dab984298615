// The net changes of a worked sheet, and the refusal of an actor that it has not.

use planner::faults::JobFault;
use planner::plan::Plan;
use std::test::Fail;

// Sample A.
const TEXT_A: &str =
    "LGM 1\nM U 2 64 0 1\nP F\nA 0 0\nA 0 0\nA 1 0\nA 1 4\nF 0 1 10\nF 1 2 6\nF 2 3 8\nF 0 2 5\n";

#[test]
fn net_changes(rt: HostRuntime) -> Result<(), Fail> {
    let heap = rt.alloc();
    let mut plan = Plan::new(heap)?;
    assert_eq!(rt; plan.net_change(0), Err(JobFault::Unknown));
    let _ = plan.read(TEXT_A.as_bytes());
    let expected = [
        (0, Ok(15)),
        (1, Ok(-4)),
        (2, Ok(-3)),
        (3, Ok(-8)),
        (4, Err(JobFault::Unknown)),
    ];
    for (actor, answer) in expected {
        assert_eq!(rt; plan.net_change(actor), answer, "{}", actor);
    }
    Ok(())
}
