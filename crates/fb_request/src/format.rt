//! The formats of shots.

/// How shots are written: all but `json` are result formats of Stim.
#[derive(Clone, Copy, Debug, PartialEq, Eq)]
pub enum Format {
    /// `01`: a line for each shot, a byte `0` or `1` for each detector.
    Text01,
    /// `b8`: a block of bytes for each shot, a bit for each detector.
    B8,
    /// `dets`: a line for each shot, a word for each detector that fired.
    Dets,
    /// `hits`: a line for each shot, the indices of the detectors that fired, parted by commas.
    Hits,
    /// `r8`: for each shot, bytes that count the detectors that didn't fire before each that did and after the last.
    R8,
    /// `json`: a JSON value on a line for each shot, as Fusion Blossom writes a syndrome.
    Json,
}
