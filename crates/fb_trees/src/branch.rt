use crate::{LinkId, NodeId};

/// A branch of an alternating tree: from its parent, a plus node, a link of the tree to a minus node, and the matched
/// link from there to a plus node.
#[derive(Clone, Copy)]
pub struct Branch {
    pub parent: NodeId,
    pub tree: LinkId,
    pub minus: NodeId,
    pub matched: LinkId,
    pub plus: NodeId,
}
