// The largest total size that is live while the actors run one after the other.

ghost use Rattle.std.specs.Prelude.{◌≡◌, ◌≤◌, length};
ghost use Rattle.lean.specs.Totals.{highest, live_in, lives, totals};
ghost use Rattle.words.specs.Words.{bit};

use rules::memory::Object;
use words::{has, with};

// Whether an object is live, where these actors have started and those have finished.
fn is_live(object: &Object, started: u64, finished: u64) -> bool
    ensures { result ≡ lives (bit started) (bit finished) object.now }
{
    object.delayed || (has(started, object.producer) && !has(finished, object.consumer))
}

// The total size of the live objects.
fn live_bytes(objects: &[Object], started: u64, finished: u64) -> u64
    requires few { length objects.now ≤ 256 }
    ensures { result ≡ live_in objects.now (bit started) (bit finished) }
{
    let mut sum = 0;
    for object in objects {
        if is_live(object, started, finished) {
            sum += object.size as u64;
        }
    }
    sum
}

// The largest total after any call, where each of the listing starts, then finishes.
pub(crate) fn peak_of(objects: &[Object], listing: &[u32]) -> u64
    requires few { length objects.now ≤ 256 }
    ensures { result ≡ highest 0 (totals objects.now (bit 0) listing.now) }
{
    let mut peak: u64 = 0;
    let mut finished = 0;
    for actor in listing {
        let started = with(finished, *actor);
        let running = live_bytes(objects, started, finished);
        let left = live_bytes(objects, started, started);
        peak = peak.max(running).max(left);
        finished = started;
    }
    peak
}
