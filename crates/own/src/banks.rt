// Two shared banks.
ghost use Rattle.std.specs.Prelude.{◌≡◌, ◌^◌, ◌<◌, ◌==◌};
ghost use Rattle.own.specs.Twins.{twin};
ghost use Rattle.own.specs.Reached.{twin_homely};
ghost use Rattle.std.proofs.Common.{lit≤};
ghost use Rattle.std.proofs.lemmas.Bool.{cond_both};

use fabric::Fabric;
use words::count;

// Two banks that every core reaches. Bank 0 is the home of what one core touches, bank 1 of what two cores touch.
#[derive(Clone, Copy, Debug, PartialEq, Eq)]
pub struct TwinBanks {
    pub cores: u32,
    pub lone: u32,
    pub joint: u32,
    ghost fits: { (lone < 2 ^ 32) × (joint < 2 ^ 32) },
}

impl TwinBanks {
    // The fabric with these cores and the capacities of its banks.
    pub fn new(cores: u32, lone: u32, joint: u32) -> TwinBanks
        ensures cores { result.cores ≡ cores }
        ensures capacities { (result.lone ≡ lone) × (result.joint ≡ joint) }
    {
        TwinBanks { cores, lone, joint }
    }
}

impl Fabric for TwinBanks {
    const MAX_BANKS: u32 = 2;

    ghost MAX_BANKS = { 2 };

    ghost means = { λ f. twin f.cores f.lone f.joint };

    ghost few = { lit≤ tt };

    ghost within = { λ f. lit≤ tt };

    ghost fits = { λ f bank below. cond_both (bank == 0) f.lone f.joint (λ n. n < 2 ^ 32) (λ e. f.fits.0) (λ e. f.fits.1) };

    ghost homely = { λ f touching set. twin_homely f.cores f.lone f.joint touching set };

    fn cores(&self) -> u32 {
        self.cores
    }

    fn banks(&self) -> u32 {
        2
    }

    fn capacity(&self, bank: u32) -> u32 {
        if bank == 0 { self.lone } else { self.joint }
    }

    fn reaches(&self, _core: u32, bank: u32) -> bool {
        bank < 2
    }

    fn homes(&self, touching: u64) -> u64 {
        if count(touching) == 1 { 0b01 } else { 0b10 }
    }
}
