// Questions to a run of a plan.

ghost use Rattle.std.specs.Prelude.{◌≡◌, ◌<◌, ◌&&◌, is_some};
ghost use Rattle.planner.specs.Plans.{places_of};
ghost use Rattle.planner.specs.Replies.{Replies, sheet_of};
ghost use Rattle.planner.specs.Running.{HasBank, InPhase, IsTotal, IsTotalIn, SaysIfLive};
ghost use Rattle.rules.specs.Lean.{is_live as lives};
ghost use Rattle.rules.specs.Objects.{object_count};
ghost use Rattle.rules.specs.Runs.{State};
ghost use Rattle.rules.specs.Sheets.{actor_count};
ghost use Rattle.run.specs.Called.{InState};

use crate::faults::JobFault;
use crate::plan_run::PlanRun;
use graph::object_set::ObjectSet;
use run::phase::Phase;

impl PlanRun<'_> {
    // The phase of actor a.
    pub fn phase(&self, a: u32) -> Result<Phase, JobFault>
        ensures { Replies (a < actor_count (sheet_of self.now.plan.now)) (InPhase self.now a) result }
    {
        self.run.phase(a).ok_or(JobFault::Unknown)
    }

    // Whether object x is live.
    pub fn is_live(&self, x: u32) -> Result<bool, JobFault>
        ensures { Replies (x < object_count (sheet_of self.now.plan.now)) (SaysIfLive self.now x) result }
    {
        self.run.is_live(x).ok_or(JobFault::Unknown)
    }

    // The total size of the live objects.
    pub fn live_bytes(&self) -> u64
        ensures { IsTotal self.now result }
    {
        self.run.live_bytes()
    }

    // The total size of the live objects that have a place in the bank. A plan that is not placed has no banks.
    pub fn live_bytes_in(&self, bank: u32) -> Result<u64, JobFault>
        ensures { Replies (HasBank self.now.plan.now bank) (IsTotalIn self.now bank) result }
    {
        let layout = &self.plan.layout;
        if !layout.is_placed() || bank as usize >= layout.banks().len() {
            return Err(JobFault::Unknown);
        }
        // kept: a closure that captures a struct with a lifetime tells its caller nothing, so no `filter`.
        let mut sum = 0;
        for x in 0..self.plan.object_count() {
            if self.lives_in(x, bank) {
                sum += self.plan.graph.size(x) as u64;
            }
        }
        Ok(sum)
    }

    // Whether object x is live and has a place in the bank.
    fn lives_in(&self, x: u32, bank: u32) -> bool
        requires known { x < object_count (sheet_of self.now.plan.now) }
        ensures { (st : State) → InState self.now.run st → result ≡ (lives (sheet_of self.now.plan.now) st x && is_some (places_of self.now.plan.now bank x)) }
    {
        self.run.is_live(x).unwrap_or(false) && self.plan.layout.place(x, bank).is_some()
    }
}
