// Asking a fit rule from outside.
ghost use Rattle.std.specs.Prelude.{◌≡◌};
ghost use Rattle.fit.specs.Asking.{Outcome, asked};

use crate::faults::AskFault;
use crate::question::Question;
use crate::rule::FitRule;
use rules::memory::Stretch;

// The rule's answer to a proper question; any other question is refused.
// kept: the three are what a caller has before there is a Question
pub fn ask<R: FitRule>(
    rule: &R,
    gaps: &[Stretch],
    size: u32,
    grain: u32,
) -> Result<Option<(u32, u32)>, AskFault>
    ensures value { result ≡ asked (R.FitRule.answers rule.now) gaps.now size grain }
    ensures outcome { Outcome (R.FitRule.answers rule.now) gaps.now size grain result }
{
    Ok(rule.fit(Question::new(gaps, size, grain)?))
}
