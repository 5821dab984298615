// Which objects exclude each other.

ghost use Rattle.std.specs.Prelude.{◌≡◌, ℕ, ◌<◌, ◌≤◌, length, vec_len, vec_capacity};
ghost use Rattle.graph.specs.Excluding.{apart, excluding, object_at};
ghost use Rattle.graph.specs.RowBits.{row_bit};
ghost use Rattle.graph.specs.Rows.{in_row};

use crate::objects::{MOST_OBJECTS, Objects};
use crate::order::Order;
use crate::row::Row;
use rules::memory::Object;
use std::alloc::{AllocError, Global};

// Whether the lives of two objects never meet: none is always live,
// and the last actor of one is before the first of the other.
fn are_apart(order: &Order, x: Object, y: Object) -> bool
    ensures { result ≡ apart order.now.rows x y }
{
    !x.delayed
        && !y.delayed
        && (order.before(x.consumer, y.producer) || order.before(y.consumer, x.producer))
}

// The objects that exclude object x of the list.
fn row_of(objects: &[Object], order: &Order, x: usize, object: Object) -> Row
    requires few { length objects.now ≤ 256 }
    requires known { x < length objects.now }
    requires itself { object ≡ object_at objects.now x }
    ensures { (y : ℕ) → in_row result.words y ≡ excluding order.now.rows objects.now x y }
{
    let mut row = Row::default();
    // kept: a fold over a filter is longer, as both closures take the number and the object.
    for (y, other) in objects.iter().enumerate() {
        if y != x && !are_apart(order, object, *other) {
            row = row.adding(y);
        }
    }
    row
}

// A row for each object: those that exclude it.
#[derive(Drop)]
pub struct Exclusions {
    pub(crate) rows: Vec<Row>,
    ghost space: { 256 ≤ vec_capacity rows },
}

impl Exclusions {
    pub(crate) fn new(heap: Global) -> Result<Exclusions, AllocError> {
        let rows = Vec::with_capacity(heap, MOST_OBJECTS)?;
        Ok(Exclusions { rows })
    }

    pub(crate) fn clear(&mut self)
        ensures { vec_len self.new.rows ≡ 0 }
    {
        self.rows.clear();
    }

    // Works the rows out anew.
    pub(crate) fn settle(&mut self, objects: &Objects, order: &Order)
        ensures { (x y : ℕ) → row_bit self.new.rows.items x y ≡ excluding order.now.rows objects.now.list.items x y }
    {
        self.rows.clear();
        let list = objects.as_slice();
        for (x, object) in list.iter().enumerate() {
            self.rows.push_reserved(row_of(list, order, x, *object));
        }
    }

    // Whether x and y exclude each other.
    pub fn excludes(&self, x: u32, y: u32) -> bool
        ensures { result ≡ row_bit self.now.rows.items x y }
    {
        self.rows
            .get(x as usize)
            .is_some_and(|row| row.holds(y as usize))
    }
}
