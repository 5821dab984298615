// The counts and the order of the sheet that is held; where nothing was read, there are no actors and no objects.

ghost use Rattle.std.specs.Prelude.{◌≡◌, ℕ, ◌≤◌, true, ◌↔◌};
ghost use Rattle.graph.specs.Held.{sheet_held};
ghost use Rattle.graph.specs.Readings.{Empty};
ghost use Rattle.graph.specs.Rows.{before};
ghost use Rattle.rules.specs.Objects.{object_count};
ghost use Rattle.rules.specs.Order.{Before};
ghost use Rattle.rules.specs.Sheets.{actor_count};

use crate::order::Order;
use crate::sheet_graph::Graph;

impl Graph {
    // How many actors there are.
    pub fn actor_count(&self) -> u32
        ensures value { result ≡ actor_count (sheet_held self.now.sheet) }
        ensures few { result ≤ 64 }
        ensures nobody { Empty self.now.sheet → result ≡ 0 }
    {
        self.sheet.actors.len() as u32
    }

    // How many objects there are.
    pub fn object_count(&self) -> u32
        ensures value { result ≡ object_count (sheet_held self.now.sheet) }
        ensures few { result ≤ 256 }
    {
        self.sheet.objects.len() as u32
    }

    // The order of the actors, as a table that may be joined with more.
    pub fn order_table(&self) -> Order
        ensures { (a b : ℕ) → (before result.rows a b ≡ true) ↔ Before (sheet_held self.now.sheet) a b }
    {
        self.sheet.links.order
    }
}
