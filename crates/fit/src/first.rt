// First fit.
ghost use Rattle.rules.specs.Choosing.{first_of};
ghost use Rattle.rules.specs.declared.sheet.Fit.TheVariants.{First};
ghost use Rattle.fit.specs.Lawful.{by_fit_lawful};

use crate::question::Question;
use crate::rule::FitRule;

// Takes the lowest gap that holds the object.
#[derive(Clone, Copy, Debug, PartialEq, Eq)]
pub struct FirstFit;

impl FitRule for FirstFit {
    ghost answers = { λ _. first_of };

    ghost lawful = { λ r. by_fit_lawful First };

    fn fit(&self, q: Question<'_>) -> Option<(u32, u32)> {
        q.gaps.iter().find_map(|gap| q.place_in(*gap))
    }
}
