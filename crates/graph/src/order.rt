// Which actor is before which.

ghost use Rattle.std.specs.Prelude.{◌≡◌, ℕ, true, false, length, is_some, IfSome};
ghost use Rattle.graph.specs.Rows.{Irreflexive, Transitive, before, joined, may_join, up_to};

use words::{has, with};

pub const MOST_ACTORS: usize = 64;

// Bit b of row a says that actor a is before actor b. The table is transitive, and puts no actor before itself.
#[derive(Clone, Copy, Debug, PartialEq, Eq)]
pub struct Order {
    pub(crate) rows: [u64; MOST_ACTORS],
    ghost long: { length rows ≡ 64 },
    ghost irreflexive: { Irreflexive rows },
    ghost transitive: { Transitive rows },
}

impl Order {
    // No actor is before another.
    pub fn none() -> Order
        ensures { (a b : ℕ) → before result.rows a b ≡ false }
    {
        Order {
            rows: [0; MOST_ACTORS],
        }
    }

    // Whether actor a is before actor b.
    // kept: a pair of actors in a struct would be taken apart in each body.
    pub fn before(&self, a: u32, b: u32) -> bool
        ensures { result ≡ before self.now.rows a b }
    {
        self.rows.get(a as usize).is_some_and(|row| has(*row, b))
    }

    // Whether actor x is actor a or before it.
    fn at_or_before(&self, x: u32, a: u32) -> bool
        ensures { result ≡ up_to (before self.now.rows) x a }
    {
        x == a || self.before(x, a)
    }

    // Whether a may come before b: that puts no actor before itself.
    pub(crate) fn allows(&self, a: u32, b: u32) -> bool
        ensures { result ≡ may_join self.now.rows a b }
    {
        (a as usize) < MOST_ACTORS && (b as usize) < MOST_ACTORS && !self.at_or_before(b, a)
    }

    // The order in which a is before b too, and all up to a before all from b on;
    // none where that would put an actor before itself.
    pub fn adding(&self, a: u32, b: u32) -> Option<Order>
        ensures refused { is_some result ≡ may_join self.now.rows a b }
        ensures joined { IfSome result (λ o. (x y : ℕ) → before o.rows x y ≡ joined (before self.now.rows) a b x y) }
    {
        self.allows(a, b).then(|| self.joined(a, b))
    }

    // The order with the pair.
    fn joined(mut self, a: u32, b: u32) -> Order
        requires allowed { may_join self.rows a b ≡ true }
        ensures { (x y : ℕ) → before result.rows x y ≡ joined (before self.rows) a b x y }
    {
        self.join(a, b);
        self
    }

    // Puts a before b too, and all up to a before all from b on.
    pub(crate) fn join(&mut self, a: u32, b: u32)
        requires allowed { may_join self.old.rows a b ≡ true }
        ensures { (x y : ℕ) → before self.new.rows x y ≡ joined (before self.old.rows) a b x y }
    {
        let gained = with(self.rows[b as usize], b);
        for (x, row) in self.rows.iter_mut().enumerate() {
            if x as u32 == a || has(*row, a) {
                *row |= gained;
            }
        }
    }
}
