// How far the head of a sheet has been read.

use rules::sheet::{Fit, Machine};

// Nothing yet, the machine alone, or the machine and the fit rule.
#[derive(Clone, Copy, Debug, PartialEq, Eq)]
pub enum Stage {
    Blank,
    Machined(Machine),
    Ruled(Machine, Fit),
}
