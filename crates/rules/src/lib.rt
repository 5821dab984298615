// The plain data of the subject, of which every contract speaks, and the laws of the rules.
#![tactic(auto)]

pub mod examples;
pub mod lean_laws;
pub mod letters;
pub mod memory;
pub mod order_laws;
pub mod placing_laws;
pub mod promises;
pub mod reading_laws;
pub mod run_laws;
pub mod sheet;
