// Where the objects of a plan lie.

ghost use Rattle.std.specs.Prelude.{◌≡◌, ◌+◌, ◌<◌, ◌≤◌, false, length, None, IfOk, MatchResult, OnErr, is_ok, vec_len, vec_capacity};

use crate::asking::{Grain, Space};
use crate::faults::LayoutFault;
use crate::items::Items;
use crate::placer::Placer;
pub use crate::spots::MOST_BANKS;
use crate::spots::Spot;
use crate::turns::{Candidate, waiting_for};
use fabric::Fabric;
use fit::FitRule;
use graph::object_set::ObjectSet;
use graph::objects::MOST_OBJECTS;
use std::alloc::{AllocError, Global};

// A bank's size, and the highest end in it.
#[derive(Clone, Copy, Debug, PartialEq, Eq)]
pub struct BankUse {
    pub capacity: u32,
    pub footprint: u32,
}

// The spots of the objects, in the order of their numbers, and the banks.
#[derive(Debug, PartialEq, Eq, Drop)]
pub struct Layout {
    spots: Vec<Spot>,
    banks: Vec<BankUse>,
    // what lies in the bank that is being placed
    items: Items,
    // kept: the memory of the tables is reserved once and stays with them, so that no Option holds them
    placed: bool,
    ghost spotting: { 256 ≤ vec_capacity spots },
    ghost spotted: { vec_len spots ≤ 256 },
    ghost banking: { 16 ≤ vec_capacity banks },
    ghost banked: { vec_len banks ≤ 16 },
}

impl Layout {
    ghost use Rattle.layout.specs.Banks.{Asked, Turn, bank_over};
    ghost use Rattle.layout.specs.Spots.{homes_of, place_in, spot_at};
    ghost use Rattle.layout.specs.Turns.{objects_at};
    ghost use Rattle.layout.specs.Worlds.{AllSettled, Next, NotSettled, Unsettled, homes_below, seen};
    ghost use Rattle.layout.specs.declared.faults.LayoutFault.TheVariants.{NoGap};

    // Nothing is placed.
    pub fn new(heap: Global) -> Result<Layout, AllocError>
        ensures { IfOk result (λ l. (l.placed ≡ false) × (vec_len l.spots ≡ 0) × (vec_len l.banks ≡ 0)) }
    {
        let spots = Vec::with_capacity(heap, MOST_OBJECTS)?;
        let banks = Vec::with_capacity(heap, MOST_BANKS)?;
        let items = Items::new(heap)?;
        Ok(Layout {
            spots,
            banks,
            items,
            placed: false,
        })
    }

    // Takes everything out.
    pub fn clear(&mut self)
        ensures spots { vec_len self.new.spots ≡ 0 }
        ensures banks { vec_len self.new.banks ≡ 0 }
        ensures items { vec_len self.new.items.list ≡ 0 }
        ensures placed { self.new.placed ≡ false }
    {
        self.placed = false;
        self.spots.clear();
        self.banks.clear();
        self.items.clear();
    }

    // Finds the homes of every object.
    // kept: world and fabric are arguments of `fill`, and a struct of them would serve its two steps alone
    fn settle_homes<W: ObjectSet, F: Fabric>(&mut self, world: &W, fabric: &F)
        ensures homes { homes_of self.new.spots.items ≡ homes_below (seen (W.ObjectSet.count world.now) (W.ObjectSet.sizes world.now) (W.ObjectSet.excluding world.now) (W.ObjectSet.touched world.now)) (F.Fabric.means fabric.now) (W.ObjectSet.count world.now) }
        ensures spots { vec_len self.new.spots ≡ W.ObjectSet.count world.now }
        ensures banks { self.new.banks ≡ self.old.banks }
    {
        self.spots.clear();
        // kept: a trait's objects are numbers and no slice, and `extend` may take memory
        for x in 0..world.len() {
            self.spots.push_reserved(Spot {
                homes: fabric.homes(world.touching(x)),
                places: [0; MOST_BANKS],
            });
        }
    }

    // Places the object whose turn it is.
    fn take_turn<W: ObjectSet, R: FitRule>(
        &mut self,
        placer: &Placer<'_, W, R>,
        x: u32,
    ) -> Result<(), LayoutFault>
        requires known { x < W.ObjectSet.count placer.now.world.now }
        requires spotted { vec_len self.old.spots ≡ W.ObjectSet.count placer.now.world.now }
        requires room { vec_len self.old.items.list < 256 }
        ensures outcome { MatchResult result
            (λ _. Turn (W.ObjectSet.excluding placer.now.world.now) (R.FitRule.answers placer.now.rule.now) placer.now.space.capacity placer.now.space.grain.bytes (W.ObjectSet.sizes placer.now.world.now x) placer.now.bank x self.old.items.list.items self.new.items.list.items self.old.spots.items self.new.spots.items)
            (λ e. (e ≡ NoGap x placer.now.bank) × Asked (W.ObjectSet.excluding placer.now.world.now) (R.FitRule.answers placer.now.rule.now) placer.now.space.capacity placer.now.space.grain.bytes (W.ObjectSet.sizes placer.now.world.now x) x self.old.items.list.items None) }
        ensures spots { vec_len self.new.spots ≡ vec_len self.old.spots }
        ensures banks { self.new.banks ≡ self.old.banks }
        ensures items { vec_len self.new.items.list ≤ vec_len self.old.items.list + 1 }
    {
        let item = placer.place(x, self.items.as_slice())?;
        self.items.insert(item);
        self.spots[x as usize].put(placer.bank, item.on.start);
        Ok(())
    }

    // Places the objects of the next bank in their turns.
    fn place_next<W: ObjectSet, R: FitRule>(
        &mut self,
        placer: &Placer<'_, W, R>,
        memory: &mut [Candidate],
    ) -> Result<(), LayoutFault>
        requires next { vec_len self.old.banks < 16 }
        requires spotted { vec_len self.old.spots ≡ W.ObjectSet.count placer.now.world.now }
        ensures outcome { MatchResult result
            (λ _. Next (bank_over (W.ObjectSet.sizes placer.now.world.now) (W.ObjectSet.excluding placer.now.world.now) placer.now.space.capacity placer.now.space.grain.bytes (objects_at (homes_of self.old.spots.items) placer.now.bank)) (R.FitRule.answers placer.now.rule.now) (length memory.old) placer.now.bank self.old.banks.items self.old.spots.items self.new.banks.items self.new.spots.items)
            (λ e. Unsettled (bank_over (W.ObjectSet.sizes placer.now.world.now) (W.ObjectSet.excluding placer.now.world.now) placer.now.space.capacity placer.now.space.grain.bytes (objects_at (homes_of self.old.spots.items) placer.now.bank)) (R.FitRule.answers placer.now.rule.now) (length memory.old) placer.now.bank e) }
        ensures spots { vec_len self.new.spots ≡ vec_len self.old.spots }
        ensures banks { vec_len self.new.banks ≤ vec_len self.old.banks + 1 }
    {
        let mut queue = waiting_for(placer.world, self.spots.as_slice(), placer.bank, memory)?;
        self.items.clear();
        // kept: each turn takes what the heap serves next; a queue is no iterator
        while let Some(next) = queue.pop() {
            self.take_turn(placer, next.object)?;
        }
        self.banks.push_reserved(BankUse {
            capacity: placer.space.capacity,
            footprint: self.items.footprint(),
        });
        Ok(())
    }

    // Places the objects of all banks, bank 0 first.
    fn place_all<W: ObjectSet, R: FitRule, F: Fabric>(
        &mut self,
        world: &W,
        rule: &R,
        fabric: &F,
        grain: Grain,
        memory: &mut [Candidate],
    ) -> Result<(), LayoutFault>
        requires empty { vec_len self.old.banks ≡ 0 }
        requires spotted { vec_len self.old.spots ≡ W.ObjectSet.count world.now }
        requires homes { homes_of self.old.spots.items ≡ homes_below (seen (W.ObjectSet.count world.now) (W.ObjectSet.sizes world.now) (W.ObjectSet.excluding world.now) (W.ObjectSet.touched world.now)) (F.Fabric.means fabric.now) (W.ObjectSet.count world.now) }
        ensures outcome { MatchResult result
            (λ _. AllSettled (seen (W.ObjectSet.count world.now) (W.ObjectSet.sizes world.now) (W.ObjectSet.excluding world.now) (W.ObjectSet.touched world.now)) (F.Fabric.means fabric.now) (R.FitRule.answers rule.now) grain.bytes (length memory.old) self.new.banks.items self.new.spots.items)
            (λ e. NotSettled (seen (W.ObjectSet.count world.now) (W.ObjectSet.sizes world.now) (W.ObjectSet.excluding world.now) (W.ObjectSet.touched world.now)) (F.Fabric.means fabric.now) (R.FitRule.answers rule.now) grain.bytes (length memory.old) e) }
    {
        // kept: a fabric's banks are numbers and no slice
        for bank in 0..fabric.banks() {
            let space = Space {
                capacity: fabric.capacity(bank),
                grain,
            };
            let placer = Placer {
                world,
                rule,
                bank,
                space,
            };
            self.place_next(&placer, memory)?;
        }
        Ok(())
    }

    // Places every object in each of its homes, bank 0 first; after a fault nothing is placed.
    pub fn fill<W: ObjectSet, R: FitRule, F: Fabric>(
        &mut self,
        world: &W,
        rule: &R,
        fabric: &F,
        grain: Grain,
        memory: &mut [Candidate],
    ) -> Result<(), LayoutFault>
        ensures outcome { MatchResult result
            (λ _. AllSettled (seen (W.ObjectSet.count world.now) (W.ObjectSet.sizes world.now) (W.ObjectSet.excluding world.now) (W.ObjectSet.touched world.now)) (F.Fabric.means fabric.now) (R.FitRule.answers rule.now) grain.bytes (length memory.old) self.new.banks.items self.new.spots.items)
            (λ e. NotSettled (seen (W.ObjectSet.count world.now) (W.ObjectSet.sizes world.now) (W.ObjectSet.excluding world.now) (W.ObjectSet.touched world.now)) (F.Fabric.means fabric.now) (R.FitRule.answers rule.now) grain.bytes (length memory.old) e) }
        ensures placed { self.new.placed ≡ is_ok result }
        ensures cleared { OnErr result ((vec_len self.new.spots ≡ 0) × (vec_len self.new.banks ≡ 0)) }
    {
        self.clear();
        self.settle_homes(world, fabric);
        let outcome = self.place_all(world, rule, fabric, grain, memory);
        match outcome {
            Ok(()) => self.placed = true,
            Err(_) => self.clear(),
        }
        outcome
    }

    // Whether every object has its places.
    pub fn is_placed(&self) -> bool
        ensures { result ≡ self.now.placed }
    {
        self.placed
    }

    // The banks, in the order of their numbers.
    pub fn banks(&self) -> &[BankUse]
        ensures value { result.now ≡ self.now.banks.items }
        ensures few { length result.now ≤ 16 }
    {
        self.banks.as_slice()
    }

    // How many objects there are.
    pub fn len(&self) -> u32
        ensures { result ≡ vec_len self.now.spots }
    {
        self.spots.len() as u32
    }

    // The banks in which object x has its homes, as a set; none where x is unknown.
    pub fn homes(&self, x: u32) -> u64
        ensures { result ≡ (spot_at self.now.spots.items x).homes }
    {
        self.spots.get(x as usize).map_or(0, |spot| spot.homes)
    }

    // The place of object x in the bank; absent where the bank is not its home.
    pub fn place(&self, x: u32, bank: u32) -> Option<u32>
        ensures { result ≡ place_in self.now.spots.items bank x }
    {
        self.spots.get(x as usize)?.place(bank)
    }
}
