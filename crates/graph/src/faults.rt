// How a reading is refused.

ghost use Rattle.std.specs.Prelude.{◌≡◌};
ghost use Rattle.graph.specs.declared.faults.GraphFault.TheVariants.{Text};

use text::faults::TextFault;

// Why a well-written line is refused.
#[derive(Clone, Copy, Debug, PartialEq, Eq)]
pub enum Refusal {
    OutOfTurn,
    OffRange,
    Unknown,
    TooMany,
    EqualEnds,
    AcrossCores,
    Backward,
}

// A fault of the text, or a refused line with its number.
#[derive(Clone, Copy, Debug, PartialEq, Eq)]
pub enum GraphFault {
    Text(TextFault),
    Refused(Refusal, u32),
}

impl From<TextFault> for GraphFault {
    ghost from_gives = { λ f r. r ≡ Text f };

    fn from(f: TextFault) -> GraphFault {
        GraphFault::Text(f)
    }
}
