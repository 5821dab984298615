// How a call for the lean order is refused.

#[derive(Clone, Copy, Debug, PartialEq, Eq)]
pub enum LeanFault {
    // no sheet was read
    Empty,
    // the memory or the output has less room than there are actors
    ShortMemory,
}
