/// Why a line is bad. The first that applies, in this order, is told. A command's unknown words are told
/// before its count of words, and that before its numbers, paths and bytes, from left to right.
#[derive(Clone, Copy, Debug, PartialEq, Eq)]
pub enum BadWhy {
    /// It holds the script's byte 67,108,865.
    Big,
    /// It is line 65,537.
    Many,
    /// It has more than 70,000 bytes, its line feed not counted.
    Long,
    /// It has a byte outside 0x20 to 0x7e.
    Byte,
    /// It is line 1, and isn't `clients N` with N in 1 to 16.
    First,
    /// An unknown word stands where a command, a call, a node, a mode or the way of a stop has to be.
    Word,
    /// It has too few or too many words.
    Count,
    /// A word is no number, or one out of the range of its place.
    Number,
    /// A word is no path.
    Path,
    /// A word isn't bytes in hexadecimal, or too many of them.
    Hex,
}

/// A bad line of a script.
#[derive(Clone, Copy, Debug, PartialEq, Eq)]
pub struct BadLine {
    /// Its number, from 1.
    pub line: u32,
    pub why: BadWhy,
}
