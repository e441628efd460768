use crate::NodeId;

/// A defect of a node, with the nodes below the node that lead down to it: the defect's leaf first, the node's child
/// last. A path that goes down takes them from the end.
#[derive(Drop)]
pub struct Way {
    pub defect: u32,
    pub through: Vec<NodeId>,
}
