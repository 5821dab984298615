// Why a text is refused before its meaning is looked at: it has more than 65,536 bytes, its first
// line is not the header, or the line with this number is badly written.
#[derive(Clone, Copy, Debug, PartialEq, Eq)]
pub enum TextFault {
    TooLong,
    NoHeader,
    Malformed(u32),
}
