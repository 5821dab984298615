// Places on the grain.
ghost use Rattle.std.specs.Prelude.{◌≡◌, ◌+◌, ◌≤◌};
ghost use Rattle.rules.specs.Stretches.{rounded_up};
ghost use Rattle.rules.specs.Choosing.{offer};

use rules::memory::Stretch;

// The least multiple of the grain at or above `start`, which may pass 32 bits; 0 is the only multiple of 0.
pub fn round_up(start: u32, grain: u32) -> u64
    ensures value { result ≡ rounded_up grain start }
    ensures near { result ≤ start + grain }
{
    if grain == 0 {
        return 0;
    }
    let step = u64::from(grain);
    u64::from(start).div_ceil(step) * step
}

// The answer that takes this gap, if the gap holds the object.
pub fn place_in(gap: Stretch, size: u32, grain: u32) -> Option<(u32, u32)>
    ensures { result ≡ offer gap size grain }
{
    let place = round_up(gap.start, grain);
    let end = place + u64::from(size);
    (end <= u64::from(gap.end)).then(|| (place as u32, gap.end - end as u32))
}
