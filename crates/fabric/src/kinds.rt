// What the fabrics of the sheet mean.
ghost use Rattle.rules.specs.Fabrics.{hybrid, separate, unified};
ghost use Rattle.rules.proofs.Homes.{unified_homely, separate_homely, hybrid_homely};
ghost use Rattle.std.specs.Prelude.{◌^◌, ◌<◌, ◌==◌};
ghost use Rattle.std.proofs.Common.{lit≤, le_refl, add-le-add};
ghost use Rattle.std.proofs.lemmas.Bool.{cond_both};

use crate::boards::{HybridBanks, PrivateBanks, SharedBank};
use crate::fabric::Fabric;
use words::count;

impl Fabric for SharedBank {
    const MAX_BANKS: u32 = 1;

    ghost MAX_BANKS = { 1 };

    ghost means = { λ f. unified f.cores f.capacity };

    ghost few = { lit≤ tt };

    ghost within = { λ f. lit≤ tt };

    ghost fits = { λ f bank below. f.fits };

    ghost homely = { λ f touching set. unified_homely f.cores touching set f.capacity };

    fn cores(&self) -> u32 {
        self.cores
    }

    fn banks(&self) -> u32 {
        1
    }

    fn capacity(&self, _bank: u32) -> u32 {
        self.capacity
    }

    fn reaches(&self, _core: u32, bank: u32) -> bool {
        bank == 0
    }

    fn homes(&self, _touching: u64) -> u64 {
        1
    }
}

impl Fabric for PrivateBanks {
    const MAX_BANKS: u32 = 8;

    ghost MAX_BANKS = { 8 };

    ghost means = { λ f. separate f.cores f.capacity };

    ghost few = { lit≤ tt };

    ghost within = { λ f. f.few };

    ghost fits = { λ f bank below. f.fits };

    ghost homely = { λ f touching set. separate_homely f.cores touching set f.capacity };

    fn cores(&self) -> u32 {
        self.cores
    }

    fn banks(&self) -> u32 {
        self.cores
    }

    fn capacity(&self, _bank: u32) -> u32 {
        self.capacity
    }

    fn reaches(&self, core: u32, bank: u32) -> bool {
        core == bank
    }

    fn homes(&self, touching: u64) -> u64 {
        touching
    }
}

impl Fabric for HybridBanks {
    const MAX_BANKS: u32 = 9;

    ghost MAX_BANKS = { 9 };

    ghost means = { λ f. hybrid f.cores f.shared f.private };

    ghost few = { lit≤ tt };

    ghost within = { λ f. add-le-add f.few (le_refl 1) };

    ghost fits = { λ f bank below. cond_both (bank == 0) f.shared f.private (λ n. n < 2 ^ 32) (λ e. f.fits.0) (λ e. f.fits.1) };

    ghost homely = { λ f touching set. hybrid_homely f.cores touching set f.shared f.private };

    fn cores(&self) -> u32 {
        self.cores
    }

    fn banks(&self) -> u32 {
        self.cores + 1
    }

    fn capacity(&self, bank: u32) -> u32 {
        if bank == 0 { self.shared } else { self.private }
    }

    fn reaches(&self, core: u32, bank: u32) -> bool {
        bank == 0 || bank - 1 == core
    }

    fn homes(&self, touching: u64) -> u64 {
        if count(touching) == 1 && touching < 1 << self.cores {
            touching << 1
        } else {
            1
        }
    }
}
