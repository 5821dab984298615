// Sets of objects.

ghost use Rattle.std.specs.Prelude.{◌≡◌, ℕ, false, ◌&&◌, ◌||◌, length, ◌==◌, nat_lt};
ghost use Rattle.graph.specs.Rows.{in_row};

use crate::objects::MOST_OBJECTS;
use words::{has, with};

// A set of object numbers below 256, as words of 64 bits.
#[derive(Clone, Copy, Debug, PartialEq, Eq)]
pub struct Row {
    pub(crate) words: [u64; 4],
    ghost long: { length words ≡ 4 },
}

// kept: a Default over a ghost field is not derived.
impl Default for Row {
    // The empty set.
    fn default() -> Row
        ensures { (y : ℕ) → in_row result.words y ≡ false }
    {
        Row { words: [0; 4] }
    }
}

impl Row {
    // Whether object y is in the set.
    pub(crate) fn holds(&self, y: usize) -> bool
        ensures { result ≡ in_row self.now.words y }
    {
        self.words
            .get(y / 64)
            .is_some_and(|word| has(*word, (y % 64) as u32))
    }

    // The set with object y.
    pub(crate) fn adding(&self, y: usize) -> Row
        ensures { (z : ℕ) → in_row result.words z ≡ (in_row self.now.words z || (nat_lt y 256 && y == z)) }
    {
        let mut words = self.words;
        // kept: tried get_mut: a match on what a slice lends says nothing of the slice behind it.
        if y < MOST_OBJECTS {
            words[y / 64] = with(words[y / 64], (y % 64) as u32);
        }
        Row { words }
    }
}
