// What may be called on a run.

// Actors by their numbers; an ordering puts the first before the second.
#[derive(Clone, Copy, Debug, PartialEq, Eq)]
pub enum Call {
    Start(u32),
    Finish(u32),
    Order(u32, u32),
    Round,
}
