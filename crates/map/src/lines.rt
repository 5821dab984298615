// The lines of a map.

ghost use Rattle.std.specs.Prelude.{◌≡◌, ◌+◌, ◌*◌, ◌<◌, ◌≤◌, ◌++◌, length};
ghost use Rattle.map.specs.Maps.{bank_lines, fields, home_line, home_lines, map_of, object_lines};
ghost use Rattle.rules.specs.Maps.{bank_line};
ghost use Rattle.rules.specs.Spelling.{number};

use arrayvec::ArrayString;
use itoa::Buffer;
use layout::plan_layout::{BankUse, Layout};

// Six bytes of header, at most 27 for each of 16 banks, and at most 20 for each of 256 objects in each bank.
pub const MOST_MAP: usize = 82_358;

// Room for the text of any map.
pub(crate) type MapText = ArrayString<MOST_MAP>;

// Writes a number field: a space and decimal digits.
// kept: after a failed `write!` nothing is known, so the text would be refused for room that it has
fn put_number(map: &mut MapText, n: u32)
    requires { length map.old.bytes + length (number n) ≤ 82358 }
    ensures { map.new.bytes ≡ map.old.bytes ++ number n }
{
    map.push_str(" ");
    map.push_str(Buffer::new().format(n));
}

// Writes a line: a letter and three numbers.
fn put_line(map: &mut MapText, letter: &str, a: u32, b: u32, c: u32)
    requires { length map.old.bytes + length (letter.now ++ fields a b c) ≤ 82358 }
    ensures { map.new.bytes ≡ map.old.bytes ++ (letter.now ++ fields a b c) }
{
    map.push_str(letter);
    put_number(map, a);
    put_number(map, b);
    put_number(map, c);
    map.push_str("\n");
}

// Writes the line `B bank footprint capacity` of a bank.
fn put_bank(map: &mut MapText, number: u32, bank: BankUse)
    requires bank { number < 16 }
    requires room { length map.old.bytes + 27 ≤ 82358 }
    ensures bytes { map.new.bytes ≡ map.old.bytes ++ bank_line number bank.footprint bank.capacity }
    ensures few { length map.new.bytes ≤ length map.old.bytes + 27 }
{
    put_line(map, "B", number, bank.footprint, bank.capacity);
}

// Writes the lines of the banks.
fn put_banks(map: &mut MapText, banks: &[BankUse])
    requires few { length banks.now ≤ 16 }
    requires room { length map.old.bytes + 432 ≤ 82358 }
    ensures bytes { map.new.bytes ≡ map.old.bytes ++ bank_lines banks.now (length banks.now) }
    ensures few { length map.new.bytes ≤ length map.old.bytes + 432 }
{
    for (number, bank) in banks.iter().enumerate() {
        put_bank(map, number as u32, *bank);
    }
}

// Writes the line `O object bank place` of object x in the bank; nothing where the bank is not its home.
fn put_home(map: &mut MapText, layout: &Layout, x: u32, bank: u32)
    requires object { x < 256 }
    requires bank { bank < 16 }
    requires room { length map.old.bytes + 20 ≤ 82358 }
    ensures bytes { map.new.bytes ≡ map.old.bytes ++ home_line layout.now x bank }
    ensures few { length map.new.bytes ≤ length map.old.bytes + 20 }
{
    if let Some(place) = layout.place(x, bank) {
        put_line(map, "O", x, bank, place);
    }
}

// Writes the lines of object x, by bank.
fn put_homes(map: &mut MapText, layout: &Layout, x: u32)
    requires object { x < 256 }
    requires room { length map.old.bytes + 320 ≤ 82358 }
    ensures bytes { map.new.bytes ≡ map.old.bytes ++ home_lines layout.now x (length layout.now.banks.items) }
    ensures few { length map.new.bytes ≤ length map.old.bytes + 320 }
{
    // kept: a bank is asked for by its number
    for bank in 0..layout.banks().len() as u32 {
        put_home(map, layout, x, bank);
    }
}

// Writes the lines of all objects, by object and bank.
fn put_objects(map: &mut MapText, layout: &Layout)
    requires { length map.old.bytes + 81920 ≤ 82358 }
    ensures { map.new.bytes ≡ map.old.bytes ++ object_lines layout.now (length layout.now.spots.items) }
{
    // kept: a layout is asked by the numbers that are printed, of object and bank
    for x in 0..layout.len() {
        put_homes(map, layout, x);
    }
}

// The text of the map: the header, the line of each bank, and the line of each home.
pub(crate) fn put_map(map: &mut MapText, layout: &Layout)
    requires { length map.old.bytes ≡ 0 }
    ensures { map.new.bytes ≡ map.old.bytes ++ map_of layout.now }
{
    map.push_str("LGM 1\n");
    put_banks(map, layout.banks());
    put_objects(map, layout);
}
