// A run of the sheet that a graph holds.

ghost use Rattle.std.specs.Prelude.{◌≡◌, length};
ghost use Rattle.graph.specs.Held.{sheet_held};
ghost use Rattle.run.specs.Views.{Reachable};

use crate::phase::ActorRecord;
use graph::order::{MOST_ACTORS, Order};
use graph::sheet_graph::Graph;

// The graph is only read. The order is the sheet's, joined with the orderings added in this run.
// Some list of calls leads from a fresh run to the state that the run is in.
#[derive(Drop)]
pub struct Run<'p> {
    pub(crate) graph: &'p Graph,
    pub(crate) order: Order,
    pub(crate) records: [ActorRecord; MOST_ACTORS],
    ghost long: { length records ≡ 64 },
    ghost reached: { ∥ Reachable (sheet_held graph.now.sheet) records order.rows ∥₁ },
}
