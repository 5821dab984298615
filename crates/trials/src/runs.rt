// Runs of worked sheets, call by call.

use planner::faults::JobFault;
use planner::plan::Plan;
use run::call::Call;
use run::faults::RunFault;
use run::phase::Phase;
use std::test::Fail;

// Sample A.
const TEXT_A: &str =
    "LGM 1\nM U 2 64 0 1\nP F\nA 0 0\nA 0 0\nA 1 0\nA 1 4\nF 0 1 10\nF 1 2 6\nF 2 3 8\nF 0 2 5\n";

const TEXT_B: &str = "LGM 1\nM U 2 64 0 1\nP F\nA 0 4\nA 0 6\n";

// Every refusal of a call, and what a refused call leaves.
#[test]
fn calls_on_sample_b(rt: HostRuntime) -> Result<(), Fail> {
    let mut plan = Plan::new(rt.alloc())?;
    let _ = plan.read(TEXT_B.as_bytes());
    assert_eq!(rt; plan.ask_run(), Ok(()));
    let mut run = plan.run();
    let calls = [
        (Call::Order(0, 2), Err(RunFault::Unknown)),
        (Call::Order(1, 1), Err(RunFault::EqualEnds)),
        (Call::Order(0, 1), Ok(())),
        (Call::Start(1), Err(RunFault::Early)),
        (Call::Order(1, 0), Err(RunFault::Against)),
        (Call::Finish(0), Err(RunFault::NotRunning)),
        (Call::Start(0), Ok(())),
        (Call::Start(0), Err(RunFault::AlreadyStarted)),
        (Call::Start(2), Err(RunFault::Unknown)),
        (Call::Start(1), Err(RunFault::Early)),
        (Call::Finish(0), Ok(())),
        (Call::Round, Err(RunFault::RoundEarly)),
        (Call::Start(1), Ok(())),
        (Call::Finish(1), Ok(())),
        (Call::Round, Ok(())),
        // the added ordering holds in the new round too
        (Call::Start(1), Err(RunFault::Early)),
    ];
    for (call, answer) in calls {
        assert_eq!(rt; run.call(call), answer.map_err(JobFault::Run), "{:?}", call);
    }
    assert_eq!(rt; run.phase(0), Ok(Phase::Waiting));
    assert_eq!(rt; run.phase(2), Err(JobFault::Unknown));
    Ok(())
}

// An ordering comes late where its second actor has started and its first is unfinished.
#[test]
fn late_orderings(rt: HostRuntime) -> Result<(), Fail> {
    let mut plan = Plan::new(rt.alloc())?;
    let _ = plan.read(TEXT_B.as_bytes());
    let mut run = plan.run();
    assert_eq!(rt; run.start(1), Ok(()));
    assert_eq!(rt; run.order(0, 1), Err(JobFault::Run(RunFault::Late)));
    assert_eq!(rt; run.start(0), Ok(()));
    assert_eq!(rt; run.order(0, 1), Err(JobFault::Run(RunFault::Late)));
    assert_eq!(rt; run.finish(0), Ok(()));
    assert_eq!(rt; run.order(0, 1), Ok(()));
    Ok(())
}

// Objects 1 and 2 of sample A are FIFOs of actor 1, and object 4 waits for actor 2.
#[test]
fn live_while_actor_1_runs(rt: HostRuntime) -> Result<(), Fail> {
    let mut plan = Plan::new(rt.alloc())?;
    let _ = plan.read(TEXT_A.as_bytes());
    let calls = [Call::Start(0), Call::Finish(0), Call::Start(1)];
    let mut answers = [Err(RunFault::Unknown); 3];
    match plan.replay(&calls, &mut answers) {
        Ok(run) => {
            let live = [false, true, true, false, true];
            for (x, expected) in live.into_iter().enumerate() {
                assert_eq!(rt; run.is_live(x as u32), Ok(expected), "{}", x);
            }
            assert_eq!(rt; run.is_live(5), Err(JobFault::Unknown));
        }
        Err(fault) => assert_eq!(rt; Err(fault), Ok(())),
    }
    assert_eq!(rt; answers, [Ok(()); 3]);
    Ok(())
}

// An empty plan has a run without actors.
#[test]
fn runs_of_an_empty_plan(rt: HostRuntime) -> Result<(), Fail> {
    let plan = Plan::new(rt.alloc())?;
    assert_eq!(rt; plan.ask_run(), Err(JobFault::NoSheet));
    let mut run = plan.run();
    assert_eq!(rt; run.start(0), Err(JobFault::Run(RunFault::Unknown)));
    assert_eq!(rt; run.finish(0), Err(JobFault::Run(RunFault::Unknown)));
    assert_eq!(rt; run.order(0, 1), Err(JobFault::Run(RunFault::Unknown)));
    assert_eq!(rt; run.round(), Ok(()));
    assert_eq!(rt; run.live_bytes(), 0);
    Ok(())
}
