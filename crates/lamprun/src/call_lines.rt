// What one line of a rehearsal asks for.

ghost use Rattle.std.specs.Prelude.{◌≡◌};
ghost use Rattle.rules.specs.Fields.{lone_of};
ghost use Rattle.lamprun.specs.Calls.{Finds, pair_of};

use run::call::Call;
use text::numbers::field;

// A number as the only field.
fn one_number(s: &[u8]) -> Option<u32>
    ensures { result ≡ lone_of s.now }
{
    let (n, s) = field(s)?;
    s.is_empty().then_some(n)
}

// Two numbers as the only fields.
fn two_numbers(s: &[u8]) -> Option<(u32, u32)>
    ensures { result ≡ pair_of s.now }
{
    let (a, s) = field(s)?;
    let (b, s) = field(s)?;
    s.is_empty().then_some((a, b))
}

// The call that the line asks for; none where it is no call.
pub fn call_of(line: &[u8]) -> Option<Call>
    ensures { Finds line.now result }
{
    if let Some(fields) = line.strip_prefix(b"start") {
        return one_number(fields).map(Call::Start);
    }
    if let Some(fields) = line.strip_prefix(b"finish") {
        return one_number(fields).map(Call::Finish);
    }
    if let Some(fields) = line.strip_prefix(b"order") {
        return two_numbers(fields).map(|(a, b)| Call::Order(a, b));
    }
    (line == b"round".as_slice()).then_some(Call::Round)
}
