// Runs of a plan: which actor may start, and what is live.
#![tactic(auto)]

pub mod call;
pub mod calls;
pub mod faults;
pub mod phase;
pub mod questions;
pub mod replaying;
pub mod sheet_run;
