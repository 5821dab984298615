// How a question from outside is refused.
ghost use Rattle.std.specs.Prelude.{◌≡◌};
ghost use Rattle.fit.specs.Numbers.{number_of};

// Why a fit rule refuses a question: a number off its range, or more gaps than a rule is asked about.
// The discriminant of each is the number of its refusal.
#[derive(Clone, Copy, Debug, PartialEq, Eq)]
pub enum AskFault {
    OffRange = 5,
    TooMany = 7,
}

impl AskFault {
    // The refusal's number.
    pub fn number(&self) -> u32
        ensures { result ≡ number_of self.now }
    {
        *self as u32
    }
}
