// What is in range.
ghost use Rattle.std.specs.Prelude.{◌≡◌};
ghost use Rattle.rules.specs.Fitting.{ascend_from};
ghost use Rattle.fit.specs.Asking.{filled, in_range};

use crate::question::MOST_SIZE;
use rules::memory::{Stretch, may_be_grain};

// Whether size, grain and every gap are in range.
pub(crate) fn is_in_range(gaps: &[Stretch], size: u32, grain: u32) -> bool
    ensures { result ≡ in_range gaps.now size grain }
{
    (1..=MOST_SIZE).contains(&size) && may_be_grain(grain) && are_ascending(gaps)
}

// Whether no gap is empty and none starts below the end of the one before it.
fn are_ascending(gaps: &[Stretch]) -> bool
    ensures { result ≡ ascend_from 0 gaps.now }
{
    gaps.first().is_none_or(|gap| is_filled(*gap))
        && gaps.is_sorted_by(|gap, next| gap.end <= next.start && is_filled(*next))
}

// Whether a gap has a byte.
fn is_filled(gap: Stretch) -> bool
    ensures { result ≡ filled gap }
{
    gap.start < gap.end
}
