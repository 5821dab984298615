// A text, line by line.

ghost use Rattle.std.specs.Prelude.{◌≡◌, ◌<◌, ◌≤◌, length, MatchOption, MatchResult};
ghost use Rattle.text.specs.declared.faults.TextFault.TheVariants.{TooLong};
ghost use Rattle.text.specs.Lines.{Endless, Cut, FirstEnd, NextEntry, AfterHeader};

use crate::entries::entry_of;
use crate::faults::TextFault;
use rules::sheet::Entry;

// Refuses a text of more than 65,536 bytes.
pub fn within_limit(text: &[u8]) -> Result<(), TextFault>
    ensures { MatchResult result (λ _. length text.now ≤ 65536) (λ f. (f ≡ TooLong) × (65536 < length text.now)) }
{
    if text.len() > 65_536 {
        return Err(TextFault::TooLong);
    }
    Ok(())
}

// What follows the header and its line end. The header alone is a first line that lacks its end.
pub fn after_header(text: &[u8]) -> Result<&[u8], TextFault>
    ensures { AfterHeader text.now result }
{
    let Some(rest) = text.strip_prefix(b"LGM 1") else {
        return Err(TextFault::NoHeader);
    };
    match rest {
        [] => Err(TextFault::Malformed(1)),
        [b'\n', lines @ ..] => Ok(lines),
        _ => Err(TextFault::NoHeader),
    }
}

// The first line end of `text` at or after `from`.
pub fn line_end(text: &[u8], from: usize) -> Option<usize>
    ensures { FirstEnd text.now from result }
{
    let i = text.get(from..)?.iter().position(|b| *b == b'\n')?;
    Some(from + i)
}

// The first line of `text`, and what follows its line end.
fn cut_line(text: &[u8]) -> Option<(&[u8], &[u8])>
    ensures { MatchOption result (Endless text.now) (λ p. Cut text.now p.0.now p.1.now) }
{
    let i = line_end(text, 0)?;
    Some((&text[..i], &text[i + 1..]))
}

// What the first line of `text` says, which is line `at` of the whole, and the lines after it.
pub fn next_entry(text: &[u8], at: u32) -> Result<(Entry, &[u8]), TextFault>
    ensures { NextEntry text.now at result }
{
    let Some((line, rest)) = cut_line(text) else {
        return Err(TextFault::Malformed(at));
    };
    let entry = entry_of(line, at)?;
    Ok((entry, rest))
}
