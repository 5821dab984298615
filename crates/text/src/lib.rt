// The bytes of a sheet: its lines, and what one line says.
#![tactic(auto)]

pub mod entries;
pub mod faults;
pub mod lines;
pub mod numbers;
