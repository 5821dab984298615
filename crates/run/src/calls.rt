// The calls on a run.

ghost use Rattle.std.specs.Prelude.{◌≡◌};
ghost use Rattle.graph.specs.Held.{sheet_held};
ghost use Rattle.rules.specs.Runs.{finish as finishing, fresh, order as ordering, round as rounding, start as starting};
ghost use Rattle.run.specs.Called.{Called, InState};
ghost use Rattle.run.specs.Replayed.{as_call};

use crate::call::Call;
use crate::faults::RunFault;
use crate::phase::IDLE;
use crate::sheet_run::Run;
use graph::order::MOST_ACTORS;
use graph::sheet_graph::Graph;

impl<'p> Run<'p> {
    // A fresh run of the sheet that the graph holds: every actor waits, and no ordering is added.
    pub fn new(graph: &'p Graph) -> Run<'p>
        ensures graph { result.graph.now ≡ graph.now }
        ensures state { InState result (fresh (sheet_held graph.now.sheet)) }
    {
        Run {
            graph,
            order: graph.order_table(),
            records: [IDLE; MOST_ACTORS],
        }
    }

    // Actor a starts.
    pub fn start(&mut self, a: u32) -> Result<(), RunFault>
        ensures { Called self.old (starting a) result self.new }
    {
        if a >= self.graph.actor_count() {
            return Err(RunFault::Unknown);
        }
        if !self.is_waiting(a) {
            return Err(RunFault::AlreadyStarted);
        }
        if !self.is_free(a) {
            return Err(RunFault::Early);
        }
        let record = &mut self.records[a as usize];
        record.begin();
        Ok(())
    }

    // Actor a finishes.
    pub fn finish(&mut self, a: u32) -> Result<(), RunFault>
        ensures { Called self.old (finishing a) result self.new }
    {
        if a >= self.graph.actor_count() {
            return Err(RunFault::Unknown);
        }
        if !self.is_running(a) {
            return Err(RunFault::NotRunning);
        }
        let record = &mut self.records[a as usize];
        record.end();
        Ok(())
    }

    // Puts actor a before actor b in this run.
    pub fn order(&mut self, a: u32, b: u32) -> Result<(), RunFault>
        ensures { Called self.old (ordering a b) result self.new }
    {
        let count = self.graph.actor_count();
        if a >= count || b >= count {
            return Err(RunFault::Unknown);
        }
        if a == b {
            return Err(RunFault::EqualEnds);
        }
        let order = self.order.adding(a, b).ok_or(RunFault::Against)?;
        if self.comes_late(a, b) {
            return Err(RunFault::Late);
        }
        self.order = order;
        Ok(())
    }

    // Begins a new round: every actor waits again, and the orderings stay.
    pub fn round(&mut self) -> Result<(), RunFault>
        ensures { Called self.old rounding result self.new }
    {
        if !self.is_over() {
            return Err(RunFault::RoundEarly);
        }
        let records = [IDLE; MOST_ACTORS];
        self.records = records;
        Ok(())
    }

    // Makes any of the calls.
    pub fn call(&mut self, call: Call) -> Result<(), RunFault>
        ensures { Called self.old (as_call call) result self.new }
    {
        match call {
            Call::Start(a) => self.start(a),
            Call::Finish(a) => self.finish(a),
            Call::Order(a, b) => self.order(a, b),
            Call::Round => self.round(),
        }
    }
}
