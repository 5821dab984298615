// Questions to a run.

ghost use Rattle.std.specs.Prelude.{◌≡◌};
ghost use Rattle.rules.specs.Objects.{object_count};
ghost use Rattle.rules.specs.Runs.{finished as is-over, running as is-on, waiting as is-idle};
ghost use Rattle.rules.specs.Sheets.{actor_count};
ghost use Rattle.run.specs.Called.{SaysBytes, SaysLive, SaysPhase, sheet_of};
ghost use Rattle.run.specs.Records.{as_phase, phase_in};
ghost use Rattle.run.specs.Views.{Free, Late, Lives, Over, Tells};

use crate::phase::{Phase, are_done};
use crate::sheet_run::Run;
use graph::order::MOST_ACTORS;
use rules::memory::Object;

impl Run<'_> {
    // How many actors the run has.
    pub fn actor_count(&self) -> u32
        ensures { result ≡ actor_count (sheet_of self.now) }
    {
        self.graph.actor_count()
    }

    // How many objects there are.
    pub fn object_count(&self) -> u32
        ensures { result ≡ object_count (sheet_of self.now) }
    {
        self.graph.object_count()
    }

    // The phase of actor a; none where there is no such actor.
    pub fn phase(&self, a: u32) -> Option<Phase>
        ensures { SaysPhase self.now a result }
    {
        // kept: a closure that captures a struct with a lifetime tells its caller nothing, so no `then`.
        if a >= self.graph.actor_count() {
            return None;
        }
        Some(self.phase_of(a))
    }

    // Whether object x is live; none where there is no such object.
    pub fn is_live(&self, x: u32) -> Option<bool>
        ensures { SaysLive self.now x result }
    {
        let object = self.graph.object(x)?;
        Some(self.lives(object))
    }

    // The total size of the live objects.
    pub fn live_bytes(&self) -> u64
        ensures { SaysBytes self.now result }
    {
        // kept: a closure that captures a struct with a lifetime tells its caller nothing, so no `filter`.
        let mut sum = 0;
        for object in self.graph.objects() {
            if self.lives(*object) {
                sum += object.size as u64;
            }
        }
        sum
    }

    // Whether an object with these actors is live: always, or from the start of its first to the finish of its last.
    fn lives(&self, object: Object) -> bool
        ensures { Tells result (Lives (sheet_of self.now) self.now.records object) }
    {
        object.delayed || !self.is_waiting(object.producer) && !self.is_finished(object.consumer)
    }

    // The phase of actor a; one that is unknown waits.
    pub(crate) fn phase_of(&self, a: u32) -> Phase
        ensures { as_phase result ≡ phase_in (sheet_of self.now) self.now.records a }
    {
        if a < self.graph.actor_count() {
            self.records[a as usize].phase
        } else {
            Phase::Waiting
        }
    }

    pub(crate) fn is_waiting(&self, a: u32) -> bool
        ensures { Tells result (phase_in (sheet_of self.now) self.now.records a ≡ is-idle) }
    {
        matches!(self.phase_of(a), Phase::Waiting)
    }

    pub(crate) fn is_running(&self, a: u32) -> bool
        ensures { Tells result (phase_in (sheet_of self.now) self.now.records a ≡ is-on) }
    {
        matches!(self.phase_of(a), Phase::Running)
    }

    pub(crate) fn is_finished(&self, a: u32) -> bool
        ensures { Tells result (phase_in (sheet_of self.now) self.now.records a ≡ is-over) }
    {
        matches!(self.phase_of(a), Phase::Finished)
    }

    // Whether every actor before a is finished.
    pub(crate) fn is_free(&self, a: u32) -> bool
        ensures { Free (sheet_of self.now) self.now.records self.now.order.rows a result }
    {
        // kept: a closure that captures a struct with a lifetime tells its caller nothing, so no `all`.
        for b in 0..MOST_ACTORS as u32 {
            if self.order.before(b, a) && !self.is_finished(b) {
                return false;
            }
        }
        true
    }

    // Whether every actor is finished.
    pub(crate) fn is_over(&self) -> bool
        ensures { Over (sheet_of self.now) self.now.records result }
    {
        let count = self.graph.actor_count() as usize;
        are_done(&self.records[..count])
    }

    // Whether b has started while a is unfinished.
    pub(crate) fn comes_late(&self, a: u32, b: u32) -> bool
        ensures { Late (phase_in (sheet_of self.now) self.now.records a) (phase_in (sheet_of self.now) self.now.records b) result }
    {
        !self.is_waiting(b) && !self.is_finished(a)
    }
}
