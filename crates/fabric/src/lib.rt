// Fabrics: cores, memory banks, and the homes of objects in them.
#![tactic(auto)]

mod boards;
mod fabric;
mod kinds;
mod sheet;

pub use boards::{HybridBanks, MOST_CORES, PrivateBanks, SharedBank, SheetFabric};
pub use fabric::Fabric;

#[cfg(test)]
mod tests;
