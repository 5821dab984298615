// Layers: fit rules over any fit rule.
ghost use Rattle.rules.specs.Fitting.{ends_below, is_snug, low, snug};
ghost use Rattle.fit.specs.Lawful.{low_lawful, snug_lawful};

use crate::preference::{Preference, ask_first};
use crate::question::Question;
use crate::rule::FitRule;
use rules::memory::Stretch;

// kept: two structs, since callers write their fields, and one impl of FitRule for every Preference would overlap those of the other rules

// Asks the rule below about the gaps that end at or below the line, then about all.
#[derive(Clone, Copy, Debug, PartialEq, Eq)]
pub struct Low<R: FitRule> {
    pub line: u32,
    pub rule: R,
}

impl<R: FitRule> Preference for Low<R> {
    ghost preferred = { λ l g size grain. ends_below l.line g };

    fn prefers(&self, gap: Stretch, _q: Question<'_>) -> bool {
        gap.end <= self.line
    }
}

impl<R: FitRule> FitRule for Low<R> {
    ghost answers = { λ l. low l.line (R.FitRule.answers l.rule) };

    ghost lawful = { λ r. low_lawful r.line (R.FitRule.answers r.rule) (R.FitRule.lawful r.rule) };

    fn fit(&self, q: Question<'_>) -> Option<(u32, u32)> {
        ask_first(self, &self.rule, q)
    }
}

// Asks the rule below about the gaps that hold the object with at most `limit` bytes left over, then about all.
#[derive(Clone, Copy, Debug, PartialEq, Eq)]
pub struct Snug<R: FitRule> {
    pub limit: u32,
    pub rule: R,
}

impl<R: FitRule> Preference for Snug<R> {
    ghost preferred = { λ s. is_snug s.limit };

    fn prefers(&self, gap: Stretch, q: Question<'_>) -> bool {
        q.place_in(gap).is_some_and(|(_, left)| left <= self.limit)
    }
}

impl<R: FitRule> FitRule for Snug<R> {
    ghost answers = { λ s. snug s.limit (R.FitRule.answers s.rule) };

    ghost lawful = { λ r. snug_lawful r.limit (R.FitRule.answers r.rule) (R.FitRule.lawful r.rule) };

    fn fit(&self, q: Question<'_>) -> Option<(u32, u32)> {
        ask_first(self, &self.rule, q)
    }
}
