// What the lean order is made from.

ghost use Rattle.std.specs.Prelude.{◌≡◌, ◌≤◌, length, vec_len};
ghost use Rattle.rules.specs.Drafts.{fifo_count};

use crate::order::Order;
use crate::sheet_graph::Graph;
use rules::memory::Object;
use rules::sheet::{Actor, Link};

impl Graph {
    // The actors in the order of their lines.
    pub fn actors(&self) -> &[Actor]
        ensures len { length result.now ≡ vec_len self.now.sheet.actors }
        ensures items { result.now ≡ self.now.sheet.actors.items }
        ensures few { length result.now ≤ 64 }
    {
        self.sheet.actors.as_slice()
    }

    // The links in the order of their lines.
    pub fn links(&self) -> &[Link]
        ensures items { result.now ≡ self.now.sheet.links.list.items }
        ensures few { fifo_count result.now ≤ 192 }
    {
        self.sheet.links.list.as_slice()
    }

    // Which actor is before which.
    pub fn order(&self) -> &Order
        ensures { result.now ≡ self.now.sheet.links.order }
    {
        &self.sheet.links.order
    }

    // The objects in the order of their lines.
    pub fn objects(&self) -> &[Object]
        ensures items { result.now ≡ self.now.sheet.objects.list.items }
        ensures few { length result.now ≤ 256 }
    {
        self.sheet.objects.as_slice()
    }
}
