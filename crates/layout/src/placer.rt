// Asking the fit rule.

ghost use Rattle.std.specs.Prelude.{◌≡◌, ◌+◌, ◌<◌, ◌≤◌, length, None, Some, IfOk, MatchResult};
ghost use Rattle.std.specs.List.Sorted.{IsNonDecreasingBy};
ghost use Rattle.layout.specs.Banks.{Asked};
ghost use Rattle.layout.specs.declared.faults.LayoutFault.TheVariants.{NoGap};

use crate::asking::Space;
use crate::faults::LayoutFault;
use crate::gaps::find_gaps;
use crate::items::Item;
use arrayvec::ArrayVec;
use fit::{FitRule, Question};
use graph::object_set::ObjectSet;
use rules::memory::Stretch;

// What decides where an object lies in a bank.
#[derive(Drop)]
pub(crate) struct Placer<'a, W: ObjectSet, R: FitRule> {
    pub(crate) world: &'a W,
    pub(crate) rule: &'a R,
    pub(crate) bank: u32,
    pub(crate) space: Space,
    ghost numbered: { bank < 16 },
}

impl<W: ObjectSet, R: FitRule> Placer<'_, W, R> {
    // The item of x where the rule puts it, beside the items that exclude it.
    pub(crate) fn place(&self, x: u32, items: &[Item]) -> Result<Item, LayoutFault>
        requires known { x < W.ObjectSet.count self.now.world.now }
        requires few { length items.now < 256 }
        requires sorted { IsNonDecreasingBy (λ it. it.on.start) items.now }
        ensures answer { MatchResult result
            (λ item. Asked (W.ObjectSet.excluding self.now.world.now) (R.FitRule.answers self.now.rule.now) self.now.space.capacity self.now.space.grain.bytes (W.ObjectSet.sizes self.now.world.now x) x items.now (Some item.on.start))
            (λ e. (e ≡ NoGap x self.now.bank) × Asked (W.ObjectSet.excluding self.now.world.now) (R.FitRule.answers self.now.rule.now) self.now.space.capacity self.now.space.grain.bytes (W.ObjectSet.sizes self.now.world.now x) x items.now None) }
        ensures object { IfOk result (λ item. item.object ≡ x) }
        ensures bytes { IfOk result (λ item. item.on.end ≡ item.on.start + W.ObjectSet.sizes self.now.world.now x) }
        ensures within { IfOk result (λ item. item.on.end ≤ self.now.space.capacity) }
    {
        let world = self.world;
        let blocking = items.iter().filter(
            |item|
                ensures { result ≡ W.ObjectSet.excluding world.entry.now item.now.now.object x }
            { world.excludes(item.object, x) },
        );
        let mut gaps = ArrayVec::new();
        find_gaps(blocking, self.space.capacity, &mut gaps);
        let size = self.world.size(x);
        let question = Question {
            gaps: gaps.as_slice(),
            size,
            grain: self.space.grain.bytes,
        };
        let (start, _) = self.rule.fit(question).ok_or(LayoutFault::NoGap {
            object: x,
            bank: self.bank,
        })?;
        let end = start + size;
        Ok(Item {
            object: x,
            on: Stretch { start, end },
        })
    }
}
