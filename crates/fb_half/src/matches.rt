use fb_links::{LinkId, NodeId};

/// A matched link, the outer node at one of its ends, and the one at its other end; `None` at the boundary.
#[derive(Clone, Copy)]
pub struct Match {
    pub link: LinkId,
    pub first: NodeId,
    pub second: Option<NodeId>,
}

/// Where a matching lists a node.
#[derive(Clone, Copy)]
pub enum Standing {
    /// Nowhere.
    Absent,
    /// At this place among the unmatched nodes.
    Unmatched(usize),
    /// At the match of this place.
    Matched(usize),
}
