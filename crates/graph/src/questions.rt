// Questions to a sheet that was read.

ghost use Rattle.std.specs.Prelude.{◌≡◌, true, ◌&&◌, nat_lt, IfSome};
ghost use Rattle.graph.specs.Held.{sheet_held};
ghost use Rattle.graph.specs.Questions.{IsObject, SaysBefore, SaysExcludes, Touch};
ghost use Rattle.graph.specs.Seats.{all_on};
ghost use Rattle.graph.specs.Stages.{head_of};
ghost use Rattle.rules.specs.Fitting.{is_grain};

use crate::object_set::ObjectSet;
use crate::sheet_graph::Graph;
use crate::stage::Stage;
use rules::memory::Object;
use rules::sheet::{Fit, Layer, Machine};

// Whether both numbers are below a count.
fn are_below(x: u32, y: u32, count: usize) -> bool
    ensures { result ≡ (nat_lt x count && nat_lt y count) }
{
    (x as usize) < count && (y as usize) < count
}

impl Graph {
    // The machine and the fit rule of the sheet; none where no sheet was read.
    pub fn head(&self) -> Option<(Machine, Fit)>
        ensures head { result ≡ head_of self.now.sheet.stage }
        ensures grain { IfSome result (λ h. is_grain h.0.grain ≡ true) }
    {
        match self.sheet.stage {
            Stage::Ruled(machine, fit) => Some((machine, fit)),
            _ => None,
        }
    }

    // The layers in the order of their lines.
    pub fn layers(&self) -> &[Layer]
        ensures { result.now ≡ self.now.sheet.layers.items }
    {
        self.sheet.layers.as_slice()
    }

    // Whether every actor's core is one of so many.
    pub fn fits_on(&self, cores: u32) -> bool
        ensures { result ≡ all_on cores self.now.sheet.actors.items }
    {
        self.sheet.actors.iter().all(|actor| actor.core < cores)
    }

    // Whether actor a is before actor b; none where the sheet has no such actor.
    pub fn is_before(&self, a: u32, b: u32) -> Option<bool>
        ensures { SaysBefore (sheet_held self.now.sheet) a b result }
    {
        are_below(a, b, self.sheet.actors.len()).then(|| self.sheet.links.order.before(a, b))
    }

    // Whether objects x and y exclude each other; none where the sheet has no such object.
    pub fn are_excluding(&self, x: u32, y: u32) -> Option<bool>
        ensures { SaysExcludes (sheet_held self.now.sheet) x y result }
    {
        are_below(x, y, self.sheet.objects.len()).then(|| self.exclusions.excludes(x, y))
    }

    // Object x: its first and last actor, its size, and whether it has initial tokens.
    pub fn object(&self, x: u32) -> Option<Object>
        ensures { IsObject (sheet_held self.now.sheet) x result }
    {
        let objects = self.sheet.objects.as_slice();
        objects.get(x as usize).copied()
    }

    // The cores that touch object x, as a set; none where the sheet has no such object.
    pub fn cores_touching(&self, x: u32) -> Option<u64>
        ensures { Touch (sheet_held self.now.sheet) x result }
    {
        ((x as usize) < self.sheet.objects.len()).then(|| self.touching(x))
    }
}
