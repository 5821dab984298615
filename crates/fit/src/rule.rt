// The trait of fit rules.
ghost use Rattle.std.specs.Prelude.{◌≡◌};
ghost use Rattle.rules.specs.Fitting.{IsFitRule, Rule};

use crate::question::Question;

// A fit rule: the place of an object and the bytes left over behind it, or absent.
pub trait FitRule {
    // what the rule answers
    ghost answers: { Self → Rule };

    fn fit(&self, q: Question<'_>) -> Option<(u32, u32)>
        ensures { result ≡ answers self.now q.entry.gaps.now q.entry.size q.entry.grain };

    // its answer to a proper question takes a gap that holds the object, and is absent only where none does
    ghost lawful: { (r : Self) → IsFitRule (answers r) };
}
