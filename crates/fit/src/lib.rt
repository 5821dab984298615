// Fit rules: where an object goes among the gaps of a bank.
#![tactic(auto)]

mod asking;
mod best;
mod faults;
mod first;
mod laws;
mod layers;
mod place;
mod preference;
mod question;
mod range;
mod rule;
mod sheet;

pub use asking::ask;
pub use best::BestFit;
pub use faults::AskFault;
pub use first::FirstFit;
pub use laws::{best_fit_takes_the_tightest, first_fit_takes_the_lowest};
pub use layers::{Low, Snug};
pub use place::{place_in, round_up};
pub use preference::{Preference, ask_first};
pub use question::{MOST_GAPS, MOST_SIZE, Question};
pub use rule::FitRule;
pub use sheet::{NamedFit, SheetRule};

#[cfg(test)]
mod tests;
