// The memory objects of a sheet.

ghost use Rattle.std.specs.Prelude.{◌≡◌, ℕ, ◌+◌, ◌<◌, ◌≤◌, [], ◌∷◌, ◌++◌, length, IfOk, vec_len, vec_capacity};
ghost use Rattle.graph.specs.Sizes.{size_at};

use rules::memory::Object;
use std::alloc::{AllocError, Global};

pub const MOST_OBJECTS: usize = 256;

// The largest size of an object, in bytes.
pub const MOST_BYTES: u32 = 16_777_216;

// The objects in the order of their lines, each of 1 to 16,777,216 bytes.
#[derive(Drop)]
pub struct Objects {
    pub(crate) list: Vec<Object>,
    ghost space: { 256 ≤ vec_capacity list },
    ghost few: { vec_len list ≤ 256 },
    ghost filled: { (x : ℕ) → x < vec_len list → 0 < size_at list.items x },
    ghost small: { (x : ℕ) → x < vec_len list → size_at list.items x ≤ 16777216 },
}

impl Objects {
    pub(crate) fn new(heap: Global) -> Result<Objects, AllocError>
        ensures { IfOk result (λ o. o.list.items ≡ []) }
    {
        let list = Vec::with_capacity(heap, MOST_OBJECTS)?;
        Ok(Objects { list })
    }

    pub(crate) fn clear(&mut self)
        ensures { self.new.list.items ≡ [] }
    {
        self.list.clear();
    }

    pub fn len(&self) -> usize
        ensures value { result ≡ vec_len self.now.list }
        ensures few { result ≤ 256 }
    {
        self.list.len()
    }

    pub fn as_slice(&self) -> &[Object]
        ensures value { result.now ≡ self.now.list.items }
        ensures len { length result.now ≡ vec_len self.now.list }
    {
        self.list.as_slice()
    }

    pub(crate) fn push(&mut self, object: Object)
        requires room { vec_len self.old.list < 256 }
        requires filled { 0 < object.size }
        requires small { object.size ≤ 16777216 }
        ensures items { self.new.list.items ≡ self.old.list.items ++ object ∷ [] }
        ensures len { vec_len self.new.list ≡ vec_len self.old.list + 1 }
    {
        self.list.push_reserved(object);
    }
}
