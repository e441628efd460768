//! The moves of a dual state with blossoms, and that they keep it (Edmonds 1965; Wu and Zhong 2023).

ghost use Rattle.fb_graph.specs.Moves.{NestJoined, NestSplit, NestUncovered, NestStepped, NestAbsorbed, NestBegins};

/// An odd number of outer nodes joined keep the dual state.
pub fn nest_joined()
    ensures { NestJoined }
{}

/// An outer node with one layer of value 0 split into those that it joined keeps the dual state.
pub fn nest_split()
    ensures { NestSplit }
{}

/// An outer node whose top layer, one of several, has value 0 may lose it: its vertex is no defect.
pub fn nest_uncovered()
    ensures { NestUncovered }
{}

/// A step that every edge and minus node allows keeps the dual state, if some edge leaves each plus node.
pub fn nest_stepped()
    ensures { NestStepped }
{}

/// Absorbing the outer end of a tight edge into the node at its other end keeps the dual state, if weights are even.
pub fn nest_absorbed()
    ensures { NestAbsorbed }
{}

/// Nodes of one defect each, without values, are such a state.
pub fn nest_begins()
    ensures { NestBegins }
{}
