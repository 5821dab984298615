// What a fit rule is asked.
ghost use Rattle.std.specs.Prelude.{◌≡◌, ◌<◌, ◌≤◌, true, length};
ghost use Rattle.rules.specs.Fitting.{ascend_from, is_grain};

use crate::faults::AskFault;
use crate::place::place_in;
use crate::range::is_in_range;
use rules::memory::Stretch;

// The most gaps that a rule is asked about.
pub const MOST_GAPS: usize = 256;

// The most bytes that an object has.
pub const MOST_SIZE: u32 = 16_777_216;

// A proper question: which of the gaps takes an object of the size, at a multiple of the grain.
#[derive(Clone, Copy, Debug, PartialEq, Eq)]
pub struct Question<'a> {
    pub gaps: &'a [Stretch],
    pub size: u32,
    pub grain: u32,
    ghost sized: { 0 < size },
    ghost limited: { size ≤ 16777216 },
    ghost positive: { 0 < grain },
    ghost grained: { is_grain grain ≡ true },
    ghost few: { length gaps.now ≤ 256 },
    ghost ascending: { ascend_from 0 gaps.now ≡ true },
}

impl<'a> Question<'a> {
    ghost use Rattle.std.specs.Prelude.{IfOk};
    ghost use Rattle.std.specs.Result.{result_err};
    ghost use Rattle.rules.specs.Choosing.{offer};
    ghost use Rattle.fit.specs.Asking.{refusal};

    // The question of these gaps, this size and this grain, or why it is refused.
    pub fn new(gaps: &'a [Stretch], size: u32, grain: u32) -> Result<Question<'a>, AskFault>
        ensures refused { result_err result ≡ refusal gaps.now size grain }
        ensures asked { IfOk result (λ q. (q.gaps.now ≡ gaps.now) × (q.size ≡ size) × (q.grain ≡ grain)) }
    {
        if !is_in_range(gaps, size, grain) {
            return Err(AskFault::OffRange);
        }
        if gaps.len() > MOST_GAPS {
            return Err(AskFault::TooMany);
        }
        Ok(Question { gaps, size, grain })
    }

    // The answer that takes this gap, if the gap holds the object.
    pub fn place_in(&self, gap: Stretch) -> Option<(u32, u32)>
        ensures { result ≡ offer gap self.now.size self.now.grain }
    {
        place_in(gap, self.size, self.grain)
    }
}
