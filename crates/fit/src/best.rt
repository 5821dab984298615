// Best fit.
ghost use Rattle.rules.specs.Choosing.{best_of};
ghost use Rattle.rules.specs.declared.sheet.Fit.TheVariants.{Best};
ghost use Rattle.fit.specs.Lawful.{by_fit_lawful};

use crate::question::Question;
use crate::rule::FitRule;

// Takes the gap with the fewest bytes of those that hold the object, the lowest of equals.
#[derive(Clone, Copy, Debug, PartialEq, Eq)]
pub struct BestFit;

impl FitRule for BestFit {
    ghost answers = { λ _. best_of };

    ghost lawful = { λ r. by_fit_lawful Best };

    fn fit(&self, q: Question<'_>) -> Option<(u32, u32)> {
        let tightest = q
            .gaps
            .iter()
            .filter(|gap| q.place_in(**gap).is_some())
            .min_by_key(|gap| gap.end.saturating_sub(gap.start))?;
        q.place_in(*tightest)
    }
}
