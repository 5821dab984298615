// The printed map of a layout.
#![tactic(auto)]

mod lines;
mod output;
pub mod writing;
