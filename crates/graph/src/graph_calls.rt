// The calls on a graph.

ghost use Rattle.graph.specs.Readings.{Empty, ReadAs};
ghost use Rattle.std.specs.Prelude.{IfOk};

use crate::exclusions::Exclusions;
use crate::faults::GraphFault;
use crate::read_sheet::ReadSheet;
use crate::sheet_graph::Graph;
use std::alloc::{AllocError, Global};

impl Graph {
    // A graph without a sheet. All memory is reserved here.
    pub fn new(heap: Global) -> Result<Graph, AllocError>
        ensures { IfOk result (λ g. Empty g.sheet) }
    {
        let sheet = ReadSheet::new(heap)?;
        let mut exclusions = Exclusions::new(heap)?;
        exclusions.settle(&sheet.objects, &sheet.links.order);
        Ok(Graph { sheet, exclusions })
    }

    // Reads a sheet in place of the one before; after a refusal there is none.
    pub fn read(&mut self, text: &[u8]) -> Result<(), GraphFault>
        ensures { ReadAs text.now self.new.sheet result }
    {
        let outcome = self.sheet.read(text);
        let sheet = &self.sheet;
        self.exclusions.settle(&sheet.objects, &sheet.links.order);
        outcome
    }
}
