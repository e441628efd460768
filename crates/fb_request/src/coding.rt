//! The formats in which bits are written.

/// A format in which bits are written: result formats of Stim.
#[derive(Clone, Copy, Debug, PartialEq, Eq)]
pub enum Coding {
    /// `01`: a byte `0` or `1` for each bit, and a newline.
    Text01,
    /// `b8`: the bits in bytes, the least significant first.
    B8,
    /// `dets`: the word `shot`, a word `L` and place for each bit that is set, and a newline.
    Dets,
    /// `hits`: the places of the bits that are set, with commas between them, and a newline.
    Hits,
    /// `r8`: a byte for each run of zeros.
    R8,
}
