// What one line says.

ghost use Rattle.std.specs.Prelude.{◌≡◌, Some, None, MatchOption};
ghost use Rattle.std.specs.Option.{ok_or};
ghost use Rattle.text.specs.declared.faults.TextFault.TheVariants.{Malformed};
ghost use Rattle.text.specs.Numbers.{read_as};
ghost use Rattle.rules.specs.Fields.{kind_on, machine_of, fit_line_of, lone_of, actor_of, fifo_of, sequence_of, entry_of};

use crate::faults::TextFault;
use crate::numbers::field;
use rules::sheet::{Actor, Entry, Fifo, Fit, Kind, Layer, Link, Machine, Sequence};

// A field: exactly one space, and the letter of a kind.
#[tactic(auto, unfolding(rules::specs::Fields::kind_on))]
fn kind_field(s: &[u8]) -> Option<(Kind, &[u8])>
    ensures { MatchOption result (kind_on s.now ≡ None) (λ p. kind_on s.now ≡ Some (read_as p)) }
{
    match s {
        [b' ', letter, rest @ ..] => Some((Kind::try_from(*letter).ok()?, rest)),
        _ => None,
    }
}

// The machine that the fields after `M` describe.
fn machine(s: &[u8], at: u32) -> Result<Entry, TextFault>
    ensures { result ≡ ok_or (machine_of s.now) (Malformed at) }
{
    let Some((kind, s)) = kind_field(s) else {
        return Err(TextFault::Malformed(at));
    };
    let Some((cores, s)) = field(s) else {
        return Err(TextFault::Malformed(at));
    };
    let Some((shared, s)) = field(s) else {
        return Err(TextFault::Malformed(at));
    };
    let Some((private, s)) = field(s) else {
        return Err(TextFault::Malformed(at));
    };
    let Some((grain, s)) = field(s) else {
        return Err(TextFault::Malformed(at));
    };
    let [] = s else {
        return Err(TextFault::Malformed(at));
    };
    Ok(Entry::OnMachine(Machine {
        kind,
        cores,
        shared,
        private,
        grain,
    }))
}

// The fit rule that the field after `P` names.
fn fit_line(s: &[u8], at: u32) -> Result<Entry, TextFault>
    ensures { result ≡ ok_or (fit_line_of s.now) (Malformed at) }
{
    let [b' ', letter] = s else {
        return Err(TextFault::Malformed(at));
    };
    let Ok(fit) = Fit::try_from(*letter) else {
        return Err(TextFault::Malformed(at));
    };
    Ok(Entry::ByFit(fit))
}

// A number as the only field.
fn one_number(s: &[u8], at: u32) -> Result<u32, TextFault>
    ensures { result ≡ ok_or (lone_of s.now) (Malformed at) }
{
    let Some((n, s)) = field(s) else {
        return Err(TextFault::Malformed(at));
    };
    let [] = s else {
        return Err(TextFault::Malformed(at));
    };
    Ok(n)
}

// The actor that the fields after `A` describe.
fn actor(s: &[u8], at: u32) -> Result<Entry, TextFault>
    ensures { result ≡ ok_or (actor_of s.now) (Malformed at) }
{
    let Some((core, s)) = field(s) else {
        return Err(TextFault::Malformed(at));
    };
    let Some((work, s)) = field(s) else {
        return Err(TextFault::Malformed(at));
    };
    let [] = s else {
        return Err(TextFault::Malformed(at));
    };
    Ok(Entry::NextActor(Actor { core, work }))
}

// The FIFO that the fields after `F` or `D` describe.
fn fifo(s: &[u8], at: u32) -> Result<Fifo, TextFault>
    ensures { result ≡ ok_or (fifo_of s.now) (Malformed at) }
{
    let Some((from, s)) = field(s) else {
        return Err(TextFault::Malformed(at));
    };
    let Some((to, s)) = field(s) else {
        return Err(TextFault::Malformed(at));
    };
    let Some((size, s)) = field(s) else {
        return Err(TextFault::Malformed(at));
    };
    let [] = s else {
        return Err(TextFault::Malformed(at));
    };
    Ok(Fifo { from, to, size })
}

// The ordering of the two actors that the fields after `S` name.
fn sequence(s: &[u8], at: u32) -> Result<Entry, TextFault>
    ensures { result ≡ ok_or (sequence_of s.now) (Malformed at) }
{
    let Some((first, s)) = field(s) else {
        return Err(TextFault::Malformed(at));
    };
    let Some((second, s)) = field(s) else {
        return Err(TextFault::Malformed(at));
    };
    let [] = s else {
        return Err(TextFault::Malformed(at));
    };
    Ok(Entry::NextLink(Link::Ordered(Sequence { first, second })))
}

// What `line` says, which is line `at` of the text: its letter decides.
#[tactic(auto, unfolding(rules::specs::Fields::entry_of))]
pub fn entry_of(line: &[u8], at: u32) -> Result<Entry, TextFault>
    ensures { result ≡ ok_or (entry_of line.now) (Malformed at) }
{
    let [letter, rest @ ..] = line else {
        return Err(TextFault::Malformed(at));
    };
    match char::from(*letter) {
        'M' => machine(rest, at),
        'P' => fit_line(rest, at),
        'L' => one_number(rest, at)
            .map(Layer::LowLine)
            .map(Entry::WithLayer),
        'K' => one_number(rest, at)
            .map(Layer::SnugLimit)
            .map(Entry::WithLayer),
        'A' => actor(rest, at),
        'F' => fifo(rest, at).map(Link::Plain).map(Entry::NextLink),
        'D' => fifo(rest, at).map(Link::Delayed).map(Entry::NextLink),
        'S' => sequence(rest, at),
        _ => Err(TextFault::Malformed(at)),
    }
}
