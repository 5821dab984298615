// Why a call on a run is refused.

ghost use Rattle.std.specs.Prelude.{◌≡◌};
ghost use Rattle.run.specs.Numbers.{fault_number};

#[derive(Clone, Copy, Debug, PartialEq, Eq)]
pub enum RunFault {
    // the sheet has no such actor
    Unknown,
    // an ordering of an actor before itself
    EqualEnds,
    // the second actor is before the first
    Against,
    AlreadyStarted,
    NotRunning,
    // an actor before this one is unfinished
    Early,
    // the second actor has started and the first is unfinished
    Late,
    // a round while an actor is unfinished
    RoundEarly,
    // no room for the answers
    ShortMemory,
}

impl RunFault {
    // The number of the refusal.
    pub fn number(self) -> u32
        ensures { result ≡ fault_number self }
    {
        match self {
            RunFault::Unknown => 6,
            RunFault::EqualEnds => 8,
            RunFault::Against => 10,
            RunFault::AlreadyStarted => 12,
            RunFault::NotRunning => 12,
            RunFault::Early => 13,
            RunFault::Late => 14,
            RunFault::RoundEarly => 15,
            RunFault::ShortMemory => 16,
        }
    }
}
