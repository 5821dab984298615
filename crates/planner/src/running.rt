// Runs of a plan, and the calls on them.

ghost use Rattle.std.specs.Prelude.{◌≡◌};
ghost use Rattle.planner.specs.Replies.{AsksRun, sheet_of};
ghost use Rattle.planner.specs.Running.{CalledOn, ReplaysOn};
ghost use Rattle.rules.specs.Runs.{finish as finishing, fresh, order as ordering, round as rounding, start as starting};
ghost use Rattle.run.specs.Called.{InState};
ghost use Rattle.run.specs.Replayed.{as_call};

use crate::faults::JobFault;
use crate::plan::Plan;
use crate::plan_run::PlanRun;
use run::call::Call;
use run::faults::RunFault;
use run::replaying::replay;
use run::sheet_run::Run;

impl Plan {
    // Whether a run may be made: refused where the plan holds no sheet.
    pub fn ask_run(&self) -> Result<(), JobFault>
        ensures { AsksRun self.now result }
    {
        self.graph.head().ok_or(JobFault::NoSheet)?;
        Ok(())
    }

    // A fresh run of the plan; without a sheet it has no actors.
    pub fn run(&self) -> PlanRun<'_>
        ensures plan { result.plan.now ≡ self.now }
        ensures state { InState result.run (fresh (sheet_of self.now)) }
    {
        PlanRun {
            plan: self,
            run: Run::new(&self.graph),
        }
    }

    // Makes the calls on a fresh run, granted or refused, and writes the answer to each. Refused where there is no room for them.
    pub fn replay(
        &self,
        calls: &[Call],
        answers: &mut [Result<(), RunFault>],
    ) -> Result<PlanRun<'_>, JobFault>
        ensures { ReplaysOn self.now calls.now answers.old answers.new result }
    {
        let run = replay(&self.graph, calls, answers)?;
        Ok(PlanRun { plan: self, run })
    }
}

impl<'p> PlanRun<'p> {
    // The plan that is run.
    pub fn plan(&self) -> &'p Plan
        ensures { result.now ≡ self.now.plan.now }
    {
        self.plan
    }

    // Makes a call; its fault is the run's.
    pub fn call(&mut self, call: Call) -> Result<(), JobFault>
        ensures { CalledOn self.old (as_call call) self.new result }
    {
        self.run.call(call)?;
        Ok(())
    }

    // Actor a starts.
    pub fn start(&mut self, a: u32) -> Result<(), JobFault>
        ensures { CalledOn self.old (starting a) self.new result }
    {
        self.call(Call::Start(a))
    }

    // Actor a finishes.
    pub fn finish(&mut self, a: u32) -> Result<(), JobFault>
        ensures { CalledOn self.old (finishing a) self.new result }
    {
        self.call(Call::Finish(a))
    }

    // Puts actor a before actor b in this run.
    pub fn order(&mut self, a: u32, b: u32) -> Result<(), JobFault>
        ensures { CalledOn self.old (ordering a b) self.new result }
    {
        self.call(Call::Order(a, b))
    }

    // Begins a new round: every actor waits again, and the orderings stay.
    pub fn round(&mut self) -> Result<(), JobFault>
        ensures { CalledOn self.old rounding self.new result }
    {
        self.call(Call::Round)
    }
}
