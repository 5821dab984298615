// Writing bytes into lent memory.

ghost use Rattle.map.specs.Output.{Writes};

// Writes the bytes at the front, and answers where they end; nothing is written where they do not fit.
// kept: the caller lends the memory.
pub(crate) fn put_bytes(out: &mut [u8], bytes: &[u8]) -> Option<usize>
    ensures { Writes out.old bytes.now out.new result }
{
    if bytes.len() > out.len() {
        return None;
    }
    let end = bytes.len();
    out[0..end].copy_from_slice(bytes);
    Some(end)
}
