// The lean order of a sheet, and its peak.
#![tactic(auto)]

pub mod faults;
pub mod lean_order;
pub mod listing;
pub mod peak;
pub mod ready;
