// What is placed in: a bank, on a grain.

ghost use Rattle.std.specs.Prelude.{◌≡◌, ◌<◌, true};
ghost use Rattle.rules.specs.Fitting.{is_grain};

// The grain of a machine: places lie on multiples of so many bytes.
#[derive(Clone, Copy, Debug, PartialEq, Eq)]
pub struct Grain {
    pub bytes: u32,
    ghost positive: { 0 < bytes },
    ghost tabled: { is_grain bytes ≡ true },
}

// A bank to place in.
#[derive(Clone, Copy, Debug, PartialEq, Eq)]
pub struct Space {
    pub capacity: u32,
    pub grain: Grain,
}
