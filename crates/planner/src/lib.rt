// Plans: a sheet read, placed and printed.
#![tactic(auto)]

pub mod faults;
pub mod leaning;
pub mod plan;
pub mod plan_run;
pub mod questions;
pub mod run_questions;
pub mod running;
