// Whole runs.

ghost use Rattle.std.specs.Prelude.{◌≡◌, ◌≤◌, length, take, drop};
ghost use Rattle.run.specs.Replayed.{Replayed, Replays};

use crate::call::Call;
use crate::faults::RunFault;
use crate::sheet_run::Run;
use graph::sheet_graph::Graph;

// Makes the calls on a fresh run, granted or refused, and writes the answer to each. Refused where there is no room for them.
pub fn replay<'p>(
    graph: &'p Graph,
    calls: &[Call],
    answers: &mut [Result<(), RunFault>],
) -> Result<Run<'p>, RunFault>
    ensures { Replays graph.now calls.now answers.old answers.new result }
{
    if answers.len() < calls.len() {
        return Err(RunFault::ShortMemory);
    }
    Ok(replay_into(graph, calls, answers))
}

fn replay_into<'p>(
    graph: &'p Graph,
    calls: &[Call],
    answers: &mut [Result<(), RunFault>],
) -> Run<'p>
    requires room { length calls.now ≤ length answers.old }
    ensures run { Replayed graph.now calls.now (take (length calls.now) answers.new) result }
    ensures rest { drop (length calls.now) answers.new ≡ drop (length calls.now) answers.old }
{
    let mut run = Run::new(graph);
    for (i, call) in calls.iter().enumerate() {
        answers[i] = run.call(*call);
    }
    run
}
