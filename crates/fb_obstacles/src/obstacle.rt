use crate::NodeId;

/// What is in the way of an alternating tree. An edge is named by its number.
#[derive(Clone, Copy)]
pub enum Obstacle {
    /// A tight edge leads from a plus node to a real vertex that no node holds.
    Absorb(u32),
    /// A tight edge leads from a plus node to the boundary.
    Boundary(u32),
    /// A tight edge leads from a plus node to a node outside the tree.
    Meet(u32),
    /// A tight edge leads from a plus node to another.
    PlusPair(u32),
    /// The top layer of a minus node has value 0, and there is a layer below it.
    LayerEmpty(NodeId),
    /// The only layer of a minus blossom has value 0.
    BlossomEmpty(NodeId),
    /// The only layer of a minus defect has value 0.
    ZeroMinus(NodeId),
    /// There is no obstacle, and this length is the greatest by which the tree may step.
    Free(u64),
}
