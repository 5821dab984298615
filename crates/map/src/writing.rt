// Writing a map into lent memory.

ghost use Rattle.std.specs.Prelude.{◌≡◌, ◌≤◌, length};
ghost use Rattle.map.specs.Maps.{map_of};
ghost use Rattle.map.specs.Output.{Writes};

pub use crate::lines::MOST_MAP;
use crate::lines::{MapText, put_map};
use crate::output::put_bytes;
use layout::plan_layout::Layout;

// How long the layout's map is.
pub fn map_len(layout: &Layout) -> usize
    ensures exact { result ≡ length (map_of layout.now) }
    ensures few { result ≤ 82358 }
{
    let mut map = MapText::new();
    put_map(&mut map, layout);
    map.len()
}

// Writes the layout's map, and answers where it ends; a map that does not fit is not written.
// kept: the caller lends the memory.
pub fn write_map(layout: &Layout, out: &mut [u8]) -> Option<usize>
    ensures map { Writes out.old (map_of layout.now) out.new result }
    ensures few { length (map_of layout.now) ≤ 82358 }
{
    let mut map = MapText::new();
    put_map(&mut map, layout);
    put_bytes(out, map.as_str().as_bytes())
}
