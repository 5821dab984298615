// Asking a rule first about some of the gaps.
ghost use Rattle.std.specs.Prelude.{◌≡◌, ℕ, Bool};
ghost use Rattle.rules.specs.declared.memory.Stretch.{Stretch};
ghost use Rattle.rules.specs.Fitting.{asks_first};

use crate::question::{MOST_GAPS, Question};
use crate::rule::FitRule;
use arrayvec::ArrayVec;
use rules::memory::Stretch;

// Which gaps to ask about first.
pub trait Preference {
    // whether a gap is preferred for a size and a grain
    ghost preferred: { Self → Stretch → ℕ → ℕ → Bool };

    fn prefers(&self, gap: Stretch, q: Question<'_>) -> bool
        ensures { result ≡ preferred self.now gap q.entry.size q.entry.grain };
}

// Asks the rule about the preferred gaps, and if the answer is absent, about all.
pub fn ask_first<P: Preference, R: FitRule>(
    preference: &P,
    rule: &R,
    q: Question<'_>,
) -> Option<(u32, u32)>
    ensures { result ≡ asks_first (P.Preference.preferred preference.now) (R.FitRule.answers rule.now) q.entry.gaps.now q.entry.size q.entry.grain }
{
    let mut kept = ArrayVec::<Stretch, MOST_GAPS>::new();
    // kept: to collect from a filter answers a Result for want of room, which there is
    for gap in q.gaps {
        if preference.prefers(*gap, q) {
            kept.push(*gap);
        }
    }
    let preferred = Question {
        gaps: kept.as_slice(),
        size: q.size,
        grain: q.grain,
    };
    // kept: tried with or_else, whose closure calls through a bound and tells nothing of the result
    match rule.fit(preferred) {
        None => rule.fit(q),
        found => found,
    }
}
