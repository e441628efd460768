/// A fusion of two nodes that come before it. It owns the vertices of its seam, each range from its first number up
/// to and without its second.
#[derive(Debug, Drop)]
pub struct Join {
    pub left: u64,
    pub right: u64,
    pub seam: Vec<(u64, u64)>,
}

/// The places of a node's subtree when each node is listed after its children's subtrees: from `start` up to and
/// without `end`. The last of them is the node's own.
#[derive(Clone, Copy)]
pub struct Span {
    pub start: u32,
    pub end: u32,
}

/// A range of a node: the vertices from `start` up to and without `end`.
#[derive(Clone, Copy)]
pub struct OwnedRange {
    pub node: u64,
    pub start: u32,
    pub end: u32,
}
