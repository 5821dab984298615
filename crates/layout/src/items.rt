// What is placed.

ghost use Rattle.std.specs.Prelude.{◌≡◌, ℕ, ◌+◌, ◌<◌, ◌≤◌, [], length, IfOk, vec_len, vec_capacity};
ghost use Rattle.std.specs.List.Sorted.{IsNonDecreasingBy};

use graph::objects::MOST_OBJECTS;
use rules::memory::Stretch;
use std::alloc::{AllocError, Global};

// An object and the bytes that it takes.
#[derive(Clone, Copy, Debug, PartialEq, Eq)]
pub struct Item {
    pub object: u32,
    pub on: Stretch,
    ghost known: { object < 256 },
    ghost filled: { on.start < on.end },
}

// What lies in a bank, in the order of the places.
#[derive(Debug, PartialEq, Eq, Drop)]
pub(crate) struct Items {
    list: Vec<Item>,
    ghost room: { 256 ≤ vec_capacity list },
    ghost few: { vec_len list ≤ 256 },
    ghost sorted: { IsNonDecreasingBy (λ it. it.on.start) list.items },
}

impl Items {
    ghost use Rattle.layout.specs.Banks.{Highest};
    ghost use Rattle.std.specs.List.{insert};

    pub(crate) fn new(heap: Global) -> Result<Items, AllocError>
        ensures { IfOk result (λ items. items.list.items ≡ []) }
    {
        let list = Vec::with_capacity(heap, MOST_OBJECTS)?;
        Ok(Items { list })
    }

    pub(crate) fn clear(&mut self)
        ensures { self.new.list.items ≡ [] }
    {
        self.list.clear();
    }

    pub(crate) fn as_slice(&self) -> &[Item]
        ensures value { result.now ≡ self.now.list.items }
        ensures len { length result.now ≡ vec_len self.now.list }
    {
        self.list.as_slice()
    }

    // Puts the item behind those that do not start beyond it.
    pub(crate) fn insert(&mut self, item: Item)
        requires room { vec_len self.old.list < 256 }
        ensures items { (at : ℕ) × (self.new.list.items ≡ insert self.old.list.items at item) }
        ensures len { vec_len self.new.list ≡ vec_len self.old.list + 1 }
    {
        let at = self
            .list
            .partition_point(|other| other.on.start <= item.on.start);
        // there is room
        let _ = self.list.insert(at, item);
    }

    // The highest end.
    pub(crate) fn footprint(&self) -> u32
        ensures { Highest self.now.list.items result }
    {
        self.list.iter().map(|item| item.on.end).max().unwrap_or(0)
    }
}
