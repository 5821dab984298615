// What placing asks of the objects of a plan.

ghost use Rattle.std.specs.Prelude.{◌≡◌, ℕ, ◌<◌, ◌≤◌, Bool, vec_len};
ghost use Rattle.graph.specs.Excluding.{excluding as excluding-by};
ghost use Rattle.graph.specs.Seats.{touching_in};
ghost use Rattle.graph.specs.Sizes.{size_at};
ghost use Rattle.rules.specs.Sheets.{core_in};

use crate::sheet_graph::Graph;
use words::pair;

pub trait ObjectSet {
    // how many objects there are
    ghost count: { Self → ℕ };

    // the size of each
    ghost sizes: { Self → ℕ → ℕ };

    // whether two exclude each other
    ghost excluding: { Self → ℕ → ℕ → Bool };

    // the set of cores that touch each
    ghost touched: { Self → ℕ → ℕ };

    fn len(&self) -> u32
        ensures { result ≡ count self.now };

    fn size(&self, x: u32) -> u32
        requires known { x < count self.now }
        ensures { result ≡ sizes self.now x };

    // Whether x and y exclude each other.
    fn excludes(&self, x: u32, y: u32) -> bool
        ensures { result ≡ excluding self.now x y };

    // The cores that touch x: those of its producer and consumer.
    fn touching(&self, x: u32) -> u64
        ensures { result ≡ touched self.now x };

    ghost few: { (s : Self) → count s ≤ 256 };

    ghost filled: { (s : Self) (x : ℕ) → x < count s → 0 < sizes s x };

    ghost small: { (s : Self) (x : ℕ) → x < count s → sizes s x ≤ 16777216 };
}

impl ObjectSet for Graph {
    ghost count = { λ g. vec_len g.sheet.objects.list };

    ghost sizes = { λ g. size_at g.sheet.objects.list.items };

    ghost excluding = { λ g. excluding-by g.sheet.links.order.rows g.sheet.objects.list.items };

    ghost touched = { λ g. touching_in g.sheet.actors.items g.sheet.objects.list.items };

    ghost few = { λ g. g.sheet.objects.few };

    ghost filled = { λ g. g.sheet.objects.filled };

    ghost small = { λ g. g.sheet.objects.small };

    fn len(&self) -> u32 {
        self.sheet.objects.len() as u32
    }

    fn size(&self, x: u32) -> u32 {
        self.sheet.objects.list[x as usize].size
    }

    fn excludes(&self, x: u32, y: u32) -> bool {
        self.exclusions.excludes(x, y)
    }

    fn touching(&self, x: u32) -> u64 {
        let objects = self.sheet.objects.as_slice();
        objects.get(x as usize).map_or(0, |object| {
            pair(self.core_of(object.producer), self.core_of(object.consumer))
        })
    }
}

impl Graph {
    // The core of an actor; 0 where there is no such actor.
    fn core_of(&self, actor: u32) -> u32
        ensures { result ≡ core_in self.now.sheet.actors.items actor }
    {
        let actors = self.sheet.actors.as_slice();
        actors.get(actor as usize).map_or(0, |known| known.core)
    }
}
