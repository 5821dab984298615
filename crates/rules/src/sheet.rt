// What the lines of a sheet say.

// Where the banks are: one shared by all cores, one private to each, or both.
#[derive(Clone, Copy, Debug, PartialEq, Eq)]
pub enum Kind {
    Unified,
    Private,
    Hybrid,
}

// The board: capacities in bytes, places on multiples of the grain.
#[derive(Clone, Copy, Debug, PartialEq, Eq)]
pub struct Machine {
    pub kind: Kind,
    pub cores: u32,
    pub shared: u32,
    pub private: u32,
    pub grain: u32,
}

// The fit rule that a sheet names.
#[derive(Clone, Copy, Debug, PartialEq, Eq)]
pub enum Fit {
    First,
    Best,
}

// A preference over the fit rule.
#[derive(Clone, Copy, Debug, PartialEq, Eq)]
pub enum Layer {
    LowLine(u32),
    SnugLimit(u32),
}

// An actor: its core, and the bytes of its working area, of which 0 means none.
#[derive(Clone, Copy, Debug, PartialEq, Eq)]
pub struct Actor {
    pub core: u32,
    pub work: u32,
}

// A FIFO from a producer to a consumer.
#[derive(Clone, Copy, Debug, PartialEq, Eq)]
pub struct Fifo {
    pub from: u32,
    pub to: u32,
    pub size: u32,
}

// The first actor runs before the second.
#[derive(Clone, Copy, Debug, PartialEq, Eq)]
pub struct Sequence {
    pub first: u32,
    pub second: u32,
}

// What joins actors: a FIFO without initial tokens, one with them, or an ordering.
#[derive(Clone, Copy, Debug, PartialEq, Eq)]
pub enum Link {
    Plain(Fifo),
    Delayed(Fifo),
    Ordered(Sequence),
}

// What one line says.
#[derive(Clone, Copy, Debug, PartialEq, Eq)]
pub enum Entry {
    OnMachine(Machine),
    ByFit(Fit),
    WithLayer(Layer),
    NextActor(Actor),
    NextLink(Link),
}
