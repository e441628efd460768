use crate::{Branch, NodeId};

/// A tree of a forest.
#[derive(Drop)]
pub struct OneTree {
    pub(crate) root: NodeId,
    /// The oldest one first.
    pub(crate) branches: Vec<Branch>,
    /// Whether it is still there.
    pub(crate) live: bool,
}
