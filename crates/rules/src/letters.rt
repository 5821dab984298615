// The letters that a line writes for kinds and fit rules.

ghost use Rattle.std.specs.Prelude.{◌≡◌, Some, None, MatchResult};
ghost use Rattle.rules.specs.Fields.{fit_of, kind_of};

use crate::sheet::{Fit, Kind};

// A byte that is the letter of nothing.
#[derive(Clone, Copy, Debug, PartialEq, Eq)]
pub struct UnknownLetter(pub u8);

impl TryFrom<u8> for Kind {
    type Error = UnknownLetter;

    ghost try_from_gives = { λ b r. MatchResult r (λ kind. kind_of b ≡ Some kind) (λ e. (kind_of b ≡ None) × (e.0 ≡ b)) };

    fn try_from(letter: u8) -> Result<Kind, UnknownLetter> {
        match char::from(letter) {
            'U' => Ok(Kind::Unified),
            'V' => Ok(Kind::Private),
            'H' => Ok(Kind::Hybrid),
            _ => Err(UnknownLetter(letter)),
        }
    }
}

impl TryFrom<u8> for Fit {
    type Error = UnknownLetter;

    ghost try_from_gives = { λ b r. MatchResult r (λ fit. fit_of b ≡ Some fit) (λ e. (fit_of b ≡ None) × (e.0 ≡ b)) };

    fn try_from(letter: u8) -> Result<Fit, UnknownLetter> {
        match char::from(letter) {
            'F' => Ok(Fit::First),
            'B' => Ok(Fit::Best),
            _ => Err(UnknownLetter(letter)),
        }
    }
}
