// Bytes of a bank, and what lies on them.

ghost use Rattle.std.specs.Prelude.{◌≡◌};
ghost use Rattle.rules.specs.Fitting.{is_grain};

// The bytes from `start` up to, but not including, `end`.
#[derive(Clone, Copy, Debug, Default, PartialEq, Eq)]
pub struct Stretch {
    pub start: u32,
    pub end: u32,
}

// A memory object. The producer and consumer of a working area are its own actor.
// One that is delayed, a FIFO with initial tokens, is always live.
#[derive(Clone, Copy, Debug, PartialEq, Eq)]
pub struct Object {
    pub producer: u32,
    pub consumer: u32,
    pub size: u32,
    pub delayed: bool,
}

// Whether places may lie on multiples of the grain: a power of two from 1 to 4,096.
pub fn may_be_grain(grain: u32) -> bool
    ensures { result ≡ is_grain grain }
{
    matches!(
        grain,
        1 | 2 | 4 | 8 | 16 | 32 | 64 | 128 | 256 | 512 | 1024 | 2048 | 4096
    )
}
