// The gaps that items leave.

ghost use Rattle.std.specs.Prelude.{◌≡◌, ◌<◌, ◌≤◌, true, List, []};
ghost use Rattle.std.specs.Iterator.{AlwaysYields, IsFinite, size};
ghost use Rattle.layout.specs.Items.{spans};
ghost use Rattle.layout.specs.Starts.{ByStart};
ghost use Rattle.rules.specs.Fitting.{ascend_from};
ghost use Rattle.rules.specs.Stretches.{Blocked, Every, Gaps};

use crate::items::Item;
use arrayvec::ArrayVec;
use fit::MOST_GAPS;
use rules::memory::Stretch;

// Finds the gaps below the capacity that the items leave.
// The items come in the order of their places, and may overlap.
pub(crate) fn find_gaps<'a, I: Iterator<Item = &'a Item>>(
    items: I,
    capacity: u32,
    gaps: &mut ArrayVec<Stretch, MOST_GAPS>,
)
    requires can { I.can_next items }
    requires ends { IsFinite (I.remaining items) }
    requires few { size (I.remaining items) < 256 }
    requires empty { gaps.old.items ≡ [] }
    ensures gaps { (xs : List Item) → AlwaysYields I.next_gives (λ x. x.now) items xs → ByStart (spans xs) → Gaps capacity (Blocked (spans xs)) gaps.new.items }
    ensures ascending { ascend_from 0 gaps.new.items ≡ true }
    ensures within { Every (λ g. g.end ≤ capacity) gaps.new.items }
{
    let mut free = 0;
    for item in items {
        let end = item.on.start.min(capacity);
        if free < end {
            gaps.push(Stretch { start: free, end });
        }
        free = free.max(item.on.end);
    }
    if free < capacity {
        gaps.push(Stretch {
            start: free,
            end: capacity,
        });
    }
}
