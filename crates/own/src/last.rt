// Last fit.
ghost use Rattle.own.specs.Lasting.{IsLastFit, last_of};
ghost use Rattle.own.specs.Highest.{last_fit_is_a_fit_rule};

use fit::{FitRule, Question};

// Takes the highest gap that holds the object.
#[derive(Clone, Copy, Debug, PartialEq, Eq)]
pub struct LastFit;

impl FitRule for LastFit {
    ghost answers = { λ _. last_of };

    ghost lawful = { λ r. last_fit_is_a_fit_rule };

    fn fit(&self, q: Question<'_>) -> Option<(u32, u32)> {
        q.gaps.iter().rev().find_map(|gap| q.place_in(*gap))
    }
}

// Last fit takes the highest gap that holds the object.
pub fn last_fit_takes_the_highest()
    ensures { IsLastFit last_of }
{}
