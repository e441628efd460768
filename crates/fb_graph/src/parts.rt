use crate::cuts::CutList;
use crate::lists::NumberList;

/// An edge between two vertices: an error that flips the detectors at both, and its weight without its sign.
#[derive(Clone, Copy, Debug, PartialEq, Eq)]
pub struct Edge {
    pub first: u32,
    pub second: u32,
    pub weight: u64,
}

/// A set of real vertices with an odd number of defects, and its value (Edmonds and Johnson 1973). A printed cut
/// has a value of at least 1 and rising vertices.
#[derive(Debug, Drop)]
pub struct Cut {
    pub value: u64,
    pub vertices: NumberList,
}

/// The result for one shot.
#[derive(Debug, Drop)]
pub enum Row {
    /// A correction, the sum of all negative weights, the correction's weight, and cuts whose values together with that
    /// sum add up to it.
    Best {
        edges: NumberList,
        base: i128,
        weight: i128,
        cuts: CutList,
    },
    /// The least vertex of the first component without boundary that holds an odd number of defects.
    Odd(u32),
}
