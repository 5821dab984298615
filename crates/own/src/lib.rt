// A caller's own: a fit rule and a fabric that no sheet can name.
#![tactic(auto)]

mod banks;
mod last;

pub use banks::TwinBanks;
pub use last::{LastFit, last_fit_takes_the_highest};

#[cfg(test)]
mod tests;
