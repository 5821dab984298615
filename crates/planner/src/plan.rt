// A plan: a sheet that is read, then placed.

ghost use Rattle.std.specs.Prelude.{◌≡◌, ◌≤◌, true, false, length, IfOk, OnErr};
ghost use Rattle.map.specs.Maps.{map_of};
ghost use Rattle.rules.specs.Refusals.{Prints};

use crate::faults::JobFault;
use fabric::{Fabric, SheetFabric};
use fit::{FitRule, SheetRule};
use graph::object_set::ObjectSet;
use graph::sheet_graph::Graph;
use layout::asking::Grain;
use layout::plan_layout::Layout;
use layout::turns::Candidate;
use map::writing::{map_len, write_map};
use std::alloc::{AllocError, Global};

// The sheet that was read, and where its objects lie. All memory is reserved when it is made.
#[derive(Drop)]
pub struct Plan {
    pub(crate) graph: Graph,
    pub(crate) layout: Layout,
}

impl Plan {
    ghost use Rattle.planner.specs.Plans.{HasNone, PlacesBy, PlacesOwn, PlansBy, PlansOwn, ReadsInto};
    ghost use Rattle.planner.specs.Printed.{printed};
    ghost use Rattle.planner.specs.Replies.{AnswersText, MapsInto, RepliesPlaced};

    // An empty plan.
    pub fn new(heap: Global) -> Result<Plan, AllocError>
        ensures { IfOk result (λ p. HasNone p × (p.layout.placed ≡ false)) }
    {
        let graph = Graph::new(heap)?;
        let layout = Layout::new(heap)?;
        Ok(Plan { graph, layout })
    }

    // Reads a sheet in place of the one before; after a refusal the plan is empty.
    pub fn read(&mut self, text: &[u8]) -> Result<(), JobFault>
        ensures read { ReadsInto text.now self.new result }
        ensures unplaced { self.new.layout.placed ≡ false }
    {
        self.layout.clear();
        self.graph.read(text)?;
        Ok(())
    }

    // Places the objects by any rule on any fabric. The memory lent needs a candidate for each object.
    pub fn place_with<R: FitRule, F: Fabric>(
        &mut self,
        rule: &R,
        fabric: &F,
        memory: &mut [Candidate],
    ) -> Result<(), JobFault>
        ensures { PlacesBy (F.Fabric.means fabric.now) (R.FitRule.answers rule.now) (length memory.old) self.old self.new result }
    {
        let (machine, _) = self.graph.head().ok_or(JobFault::Empty)?;
        if memory.len() < self.graph.len() as usize {
            return Err(JobFault::ShortMemory);
        }
        if !self.graph.fits_on(fabric.cores()) {
            return Err(JobFault::LacksCore);
        }
        let grain = Grain {
            bytes: machine.grain,
        };
        self.layout.fill(&self.graph, rule, fabric, grain, memory)?;
        Ok(())
    }

    // Places the objects by the sheet's own rule on its own fabric.
    pub fn place(&mut self, memory: &mut [Candidate]) -> Result<(), JobFault>
        ensures { PlacesOwn (length memory.old) self.old self.new result }
    {
        let (machine, fit) = self.graph.head().ok_or(JobFault::Empty)?;
        let rule = SheetRule::of(fit, self.graph.layers());
        let fabric = SheetFabric::of(&machine);
        self.place_with(&rule, &fabric, memory)
    }

    // Reads a sheet and places it by any rule on any fabric.
    pub fn plan_with<R: FitRule, F: Fabric>(
        &mut self,
        text: &[u8],
        rule: &R,
        fabric: &F,
        memory: &mut [Candidate],
    ) -> Result<(), JobFault>
        ensures { PlansBy text.now (F.Fabric.means fabric.now) (R.FitRule.answers rule.now) (length memory.old) self.new result }
    {
        self.read(text)?;
        self.place_with(rule, fabric, memory)
    }

    // Reads a sheet and places it by its own rule on its own fabric.
    pub fn plan(&mut self, text: &[u8], memory: &mut [Candidate]) -> Result<(), JobFault>
        ensures { PlansOwn text.now (length memory.old) self.new result }
    {
        self.read(text)?;
        self.place(memory)
    }

    // Reads a sheet, places it by its own rule on its own fabric, and writes its map.
    // Where there is memory for any sheet and any map, what is to be printed then is what the rules say.
    // kept: the caller lends the memory.
    pub fn answer(
        &mut self,
        text: &[u8],
        memory: &mut [Candidate],
        out: &mut [u8],
    ) -> Result<usize, JobFault>
        ensures answer { AnswersText text.now (length memory.old) self.new out.old out.new result }
        ensures within { IfOk result (λ end. end ≤ length out.new) }
        ensures printed { 256 ≤ length memory.old → 82358 ≤ length out.old → Prints text.now (printed result out.new) }
    {
        self.plan(text, memory)?;
        self.write_map(out)
    }

    // How many bytes the map has.
    pub fn map_len(&self) -> Result<usize, JobFault>
        ensures { RepliesPlaced self.now (Unit {0}) (length (map_of self.now.layout)) result }
    {
        if !self.layout.is_placed() {
            return Err(JobFault::Unplaced);
        }
        Ok(map_len(&self.layout))
    }

    // Writes the map into the caller's memory, and answers its length; a map that does not fit is not written.
    // kept: the caller lends the memory.
    pub fn write_map(&self, out: &mut [u8]) -> Result<usize, JobFault>
        ensures map { MapsInto self.now out.old out.new result }
        ensures within { IfOk result (λ end. end ≤ length out.new) }
        ensures refused { OnErr result (out.new ≡ out.old) }
        ensures few { self.now.layout.placed ≡ true → length (map_of self.now.layout) ≤ 82358 }
    {
        if !self.layout.is_placed() {
            return Err(JobFault::Unplaced);
        }
        write_map(&self.layout, out).ok_or(JobFault::ShortMemory)
    }
}
