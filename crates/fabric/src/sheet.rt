// The fabric of a sheet.
ghost use Rattle.std.specs.Prelude.{◌≡◌, ◌≤◌, min};
ghost use Rattle.rules.specs.Fabrics.{by_kind, fabric_of};
ghost use Rattle.fabric.specs.Sheets.{sheet_means};
ghost use Rattle.fabric.specs.declared.boards.SheetFabric.TheVariants.{Unified, Private, Hybrid};
ghost use Rattle.fabric.specs.contracts.kinds.SharedBankFabric.TheImpl.Laws as shared;
ghost use Rattle.fabric.specs.contracts.kinds.PrivateBanksFabric.TheImpl.Laws as private;
ghost use Rattle.fabric.specs.contracts.kinds.HybridBanksFabric.TheImpl.Laws as hybrid;
ghost use Rattle.std.proofs.Common.{lit≤, le_trans};

use crate::boards::{HybridBanks, PrivateBanks, SharedBank, SheetFabric};
use crate::fabric::Fabric;
use rules::sheet::{Kind, Machine};

impl SheetFabric {
    // The fabric of the machine, but with no more than `MOST_CORES` cores.
    pub fn of(machine: &Machine) -> SheetFabric
        ensures capped { sheet_means result ≡ by_kind machine.now.kind (min machine.now.cores 8) machine.now.shared machine.now.private }
        ensures whole { machine.now.cores ≤ 8 → sheet_means result ≡ fabric_of machine.now }
    {
        match machine.kind {
            Kind::Unified => SheetFabric::Unified(SharedBank::new(machine.cores, machine.shared)),
            Kind::Private => SheetFabric::Private(PrivateBanks::new(
                machine.cores,
                machine.private,
            )),
            Kind::Hybrid => SheetFabric::Hybrid(HybridBanks::new(
                machine.cores,
                machine.shared,
                machine.private,
            )),
        }
    }
}

// kept: an arm calls a method of its own type, so one match for all five methods would need a trait of questions and
// five types that ask.
impl Fabric for SheetFabric {
    const MAX_BANKS: u32 = 9;

    ghost MAX_BANKS = { 9 };

    ghost means = { sheet_means };

    ghost few = { lit≤ tt };

    ghost within = { elim [
      | Unified f ↦ le_trans (shared.within-law f) (lit≤ tt)
      | Private f ↦ le_trans (private.within-law f) (lit≤ tt)
      | Hybrid f ↦ hybrid.within-law f
    ] };

    ghost fits = { elim [
      | Unified f ↦ shared.fits-law f
      | Private f ↦ private.fits-law f
      | Hybrid f ↦ hybrid.fits-law f
    ] };

    ghost homely = { elim [
      | Unified f ↦ shared.homely-law f
      | Private f ↦ private.homely-law f
      | Hybrid f ↦ hybrid.homely-law f
    ] };

    fn cores(&self) -> u32 {
        match self {
            SheetFabric::Unified(f) => f.cores(),
            SheetFabric::Private(f) => f.cores(),
            SheetFabric::Hybrid(f) => f.cores(),
        }
    }

    fn banks(&self) -> u32 {
        match self {
            SheetFabric::Unified(f) => f.banks(),
            SheetFabric::Private(f) => f.banks(),
            SheetFabric::Hybrid(f) => f.banks(),
        }
    }

    fn capacity(&self, bank: u32) -> u32 {
        match self {
            SheetFabric::Unified(f) => f.capacity(bank),
            SheetFabric::Private(f) => f.capacity(bank),
            SheetFabric::Hybrid(f) => f.capacity(bank),
        }
    }

    fn reaches(&self, core: u32, bank: u32) -> bool {
        match self {
            SheetFabric::Unified(f) => f.reaches(core, bank),
            SheetFabric::Private(f) => f.reaches(core, bank),
            SheetFabric::Hybrid(f) => f.reaches(core, bank),
        }
    }

    fn homes(&self, touching: u64) -> u64 {
        match self {
            SheetFabric::Unified(f) => f.homes(touching),
            SheetFabric::Private(f) => f.homes(touching),
            SheetFabric::Hybrid(f) => f.homes(touching),
        }
    }
}
