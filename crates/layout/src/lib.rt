// Placing the objects of a plan in the banks of a fabric.
#![tactic(auto)]

pub mod asking;
pub mod faults;
mod gaps;
pub mod items;
mod placer;
pub mod plan_layout;
mod spots;
pub mod turns;
