// Where one object lies.

ghost use Rattle.std.specs.Prelude.{◌≡◌, ◌<◌, ◌&&◌, Some, None, length, if◌then◌else◌, nat_lt, slice_index, slice_set};
ghost use Rattle.rules.specs.Fabrics.{member};

use words::has;

pub const MOST_BANKS: usize = 16;

// An object's homes as a set of banks, and its place in each bank that is one of them.
#[derive(Clone, Copy, Debug, Default, PartialEq, Eq)]
pub(crate) struct Spot {
    pub(crate) homes: u64,
    pub(crate) places: [u32; MOST_BANKS],
}

impl Spot {
    // Writes the place in the bank.
    pub(crate) fn put(&mut self, bank: u32, place: u32)
        requires { bank < 16 }
        ensures homes { self.new.homes ≡ self.old.homes }
        ensures places { self.new.places ≡ slice_set self.old.places bank place }
        ensures wide { length self.old.places ≡ 16 }
    {
        self.places[bank as usize] = place;
    }

    // The place in the bank; absent where the bank is not a home.
    pub(crate) fn place(&self, bank: u32) -> Option<u32>
        ensures { result ≡ (if nat_lt bank 16 && member self.now.homes bank then Some (slice_index self.now.places bank) else None) }
    {
        self.places
            .get(bank as usize)
            .filter(|_| has(self.homes, bank))
            .copied()
    }
}
