// Why objects are not placed.

ghost use Rattle.std.specs.Prelude.{◌≡◌};
ghost use Rattle.layout.specs.declared.faults.LayoutFault.TheVariants.{ShortMemory};

use queue::Full;

#[derive(Clone, Copy, Debug, PartialEq, Eq)]
pub enum LayoutFault {
    // no gap of the bank held the object
    NoGap { object: u32, bank: u32 },
    // the memory lent for the objects that wait is too short
    ShortMemory,
}

impl From<Full> for LayoutFault {
    ghost from_gives = { λ _ r. r ≡ ShortMemory };

    fn from(_full: Full) -> LayoutFault {
        LayoutFault::ShortMemory
    }
}
