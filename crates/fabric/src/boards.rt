// The fabrics of the sheet.
ghost use Rattle.std.specs.Prelude.{◌≡◌, ◌^◌, ◌<◌, ◌≤◌, min};

// The most cores that a fabric of the sheet has.
// kept: a function or a type of capped cores would be longer than the three calls of `min` that cap them.
pub const MOST_CORES: u32 = 8;

// One bank, shared by all cores, the home of everything.
#[derive(Clone, Copy, Debug, PartialEq, Eq)]
pub struct SharedBank {
    pub cores: u32,
    pub capacity: u32,
    // kept: in a law a u32 is any number, so each type says that its capacities fit in 32 bits
    ghost fits: { capacity < 2 ^ 32 },
}

impl SharedBank {
    // The fabric with these cores, but no more than `MOST_CORES`.
    pub fn new(cores: u32, capacity: u32) -> SharedBank
        ensures cores { result.cores ≡ min cores 8 }
        ensures capacity { result.capacity ≡ capacity }
    {
        SharedBank {
            cores: cores.min(MOST_CORES),
            capacity,
        }
    }
}

// Bank c is private to core c. An object has a home in the bank of each core that touches it.
#[derive(Clone, Copy, Debug, PartialEq, Eq)]
pub struct PrivateBanks {
    pub cores: u32,
    pub capacity: u32,
    ghost few: { cores ≤ 8 },
    ghost fits: { capacity < 2 ^ 32 },
}

impl PrivateBanks {
    // The fabric with these cores, but no more than `MOST_CORES`.
    pub fn new(cores: u32, capacity: u32) -> PrivateBanks
        ensures cores { result.cores ≡ min cores 8 }
        ensures capacity { result.capacity ≡ capacity }
    {
        PrivateBanks {
            cores: cores.min(MOST_CORES),
            capacity,
        }
    }
}

// Bank 0 is shared and bank c + 1 is private to core c. An object that one core touches has that core's bank as its
// home, any other has bank 0.
#[derive(Clone, Copy, Debug, PartialEq, Eq)]
pub struct HybridBanks {
    pub cores: u32,
    pub shared: u32,
    pub private: u32,
    ghost few: { cores ≤ 8 },
    ghost fits: { (shared < 2 ^ 32) × (private < 2 ^ 32) },
}

impl HybridBanks {
    // The fabric with these cores, but no more than `MOST_CORES`.
    pub fn new(cores: u32, shared: u32, private: u32) -> HybridBanks
        ensures cores { result.cores ≡ min cores 8 }
        ensures capacities { (result.shared ≡ shared) × (result.private ≡ private) }
    {
        HybridBanks {
            cores: cores.min(MOST_CORES),
            shared,
            private,
        }
    }
}

// The fabric that a sheet's machine names.
#[derive(Clone, Copy, Debug, PartialEq, Eq)]
pub enum SheetFabric {
    Unified(SharedBank),
    Private(PrivateBanks),
    Hybrid(HybridBanks),
}
