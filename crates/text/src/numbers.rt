// Numbers as a line writes them.

ghost use Rattle.std.specs.Prelude.{◌≡◌, Some, None, MatchOption};
ghost use Rattle.rules.specs.Numerals.{field_on, number_on};
ghost use Rattle.text.specs.Numbers.{read_as};

// The number that `s` begins with, and what follows it: decimal digits without a leading zero, of at
// most 32 bits.
pub fn number(s: &[u8]) -> Option<(u32, &[u8])>
    ensures { MatchOption result (number_on s.now ≡ None) (λ p. number_on s.now ≡ Some (read_as p)) }
{
    match s {
        [b'0', rest @ ..] => return Some((0, rest)),
        [b'1'..=b'9', ..] => {}
        _ => return None,
    }
    let mut n: u32 = 0;
    let mut rest = s;
    // kept: the pattern takes a digit and leaves the rest; a fold wants the digits cut off first.
    while let [d @ b'0'..=b'9', more @ ..] = rest {
        n = n.checked_mul(10)?.checked_add(u32::from(*d - b'0'))?;
        rest = more;
    }
    Some((n, rest))
}

// A field: exactly one space, and a number.
#[tactic(auto, unfolding(rules::specs::Numerals::field_on))]
pub fn field(s: &[u8]) -> Option<(u32, &[u8])>
    ensures { MatchOption result (field_on s.now ≡ None) (λ p. field_on s.now ≡ Some (read_as p)) }
{
    number(s.strip_prefix(b" ")?)
}
