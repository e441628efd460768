/// The number of a node: a defect, or a blossom of an odd number of nodes (Edmonds 1965).
pub type NodeId = u64;

/// The number of a link, used again only after that link was removed.
pub type LinkId = u64;

/// A node of a cycle or of a path, with the link from it to the next node.
#[derive(Clone, Copy)]
pub struct CycleStep {
    pub node: NodeId,
    pub link: LinkId,
}
