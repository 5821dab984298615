// Questions to a plan.

ghost use Rattle.std.specs.Prelude.{◌≡◌, ◌<◌, true, false, length};
ghost use Rattle.layout.specs.Spots.{spot_at};
ghost use Rattle.layout.specs.Worlds.{use_at};
ghost use Rattle.planner.specs.Plans.{HasNone, HasRead, footprint_of, places_of};
ghost use Rattle.planner.specs.Replies.{Replies, RepliesPlaced, Whether, sheet_of};
ghost use Rattle.planner.specs.Running.{HasBank};
ghost use Rattle.rules.specs.Exclusion.{Excludes};
ghost use Rattle.rules.specs.Objects.{object, object_count, touching};
ghost use Rattle.rules.specs.Order.{Before};
ghost use Rattle.rules.specs.Sheets.{Sheet, actor_count};

use crate::faults::JobFault;
use crate::plan::Plan;
use rules::memory::Object;

impl Plan {
    // How many actors the sheet has; none where no sheet was read.
    pub fn actor_count(&self) -> u32
        ensures value { result ≡ actor_count (sheet_of self.now) }
        ensures held { (s : Sheet) → HasRead self.now s → sheet_of self.now ≡ s }
        ensures nobody { HasNone self.now → result ≡ 0 }
    {
        self.graph.actor_count()
    }

    // How many objects the sheet has; none where no sheet was read.
    pub fn object_count(&self) -> u32
        ensures value { result ≡ object_count (sheet_of self.now) }
        ensures nothing { HasNone self.now → result ≡ 0 }
    {
        self.graph.object_count()
    }

    // How many banks the layout has; none where the plan is not placed.
    pub fn bank_count(&self) -> u32
        ensures placed { self.now.layout.placed ≡ true → result ≡ length self.now.layout.banks.items }
        ensures unplaced { self.now.layout.placed ≡ false → result ≡ 0 }
    {
        if !self.layout.is_placed() {
            return 0;
        }
        self.layout.banks().len() as u32
    }

    // Whether actor a is before actor b.
    pub fn is_before(&self, a: u32, b: u32) -> Result<bool, JobFault>
        ensures { Replies ((a < actor_count (sheet_of self.now)) × (b < actor_count (sheet_of self.now))) (Whether (Before (sheet_of self.now) a b)) result }
    {
        self.graph.is_before(a, b).ok_or(JobFault::Unknown)
    }

    // Whether objects x and y exclude each other.
    pub fn are_excluding(&self, x: u32, y: u32) -> Result<bool, JobFault>
        ensures { Replies ((x < object_count (sheet_of self.now)) × (y < object_count (sheet_of self.now))) (Whether (Excludes (sheet_of self.now) x y)) result }
    {
        self.graph.are_excluding(x, y).ok_or(JobFault::Unknown)
    }

    // Object x: its first and last actor, its size, and whether it has initial tokens.
    pub fn object(&self, x: u32) -> Result<Object, JobFault>
        ensures { Replies (x < object_count (sheet_of self.now)) (λ o. o ≡ object (sheet_of self.now) x) result }
    {
        self.graph.object(x).ok_or(JobFault::Unknown)
    }

    // The cores that touch object x, as a set.
    pub fn cores_touching(&self, x: u32) -> Result<u64, JobFault>
        ensures { Replies (x < object_count (sheet_of self.now)) (λ set. set ≡ touching (sheet_of self.now) x) result }
    {
        self.graph.cores_touching(x).ok_or(JobFault::Unknown)
    }

    // The place of object x in the bank; absent where the bank is not its home.
    pub fn place_of(&self, x: u32, bank: u32) -> Result<Option<u32>, JobFault>
        ensures { RepliesPlaced self.now ((x < length self.now.layout.spots.items) × (bank < length self.now.layout.banks.items)) (places_of self.now bank x) result }
    {
        if !self.layout.is_placed() {
            return Err(JobFault::Unplaced);
        }
        if x >= self.layout.len() || bank as usize >= self.layout.banks().len() {
            return Err(JobFault::NoSuchPlace);
        }
        Ok(self.layout.place(x, bank))
    }

    // The banks in which object x has its homes, as a set. A plan that is not placed knows no homes.
    pub fn homes_of(&self, x: u32) -> Result<u64, JobFault>
        ensures { Replies ((self.now.layout.placed ≡ true) × (x < length self.now.layout.spots.items)) (λ set. set ≡ (spot_at self.now.layout.spots.items x).homes) result }
    {
        if !self.layout.is_placed() || x >= self.layout.len() {
            return Err(JobFault::Unknown);
        }
        Ok(self.layout.homes(x))
    }

    // The highest end in the bank.
    pub fn footprint(&self, bank: u32) -> Result<u32, JobFault>
        ensures { RepliesPlaced self.now (bank < length self.now.layout.banks.items) (footprint_of self.now bank) result }
    {
        if !self.layout.is_placed() {
            return Err(JobFault::Unplaced);
        }
        match self.layout.banks().get(bank as usize) {
            Some(used) => Ok(used.footprint),
            None => Err(JobFault::NoSuchPlace),
        }
    }

    // The bytes of the bank. A plan that is not placed knows no banks.
    pub fn capacity(&self, bank: u32) -> Result<u32, JobFault>
        ensures { Replies (HasBank self.now bank) (λ bytes. bytes ≡ (use_at self.now.layout.banks.items bank).capacity) result }
    {
        if !self.layout.is_placed() {
            return Err(JobFault::Unknown);
        }
        match self.layout.banks().get(bank as usize) {
            Some(used) => Ok(used.capacity),
            None => Err(JobFault::Unknown),
        }
    }
}
