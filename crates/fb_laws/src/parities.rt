//! The parities of potentials in a search.

ghost use Rattle.fb_laws.specs.Parities.{CoveredParity, MetParity, LinkedParity, ParitiesJoined, TreeParityStepped, OtherParityStepped, OneParityStepped};

/// A node that the tree meets, and the node matched to it, have the tree's parity.
pub fn attached_parity()
    ensures covered { CoveredParity }
    ensures met { MetParity }
    ensures linked { LinkedParity }
    ensures joined { ParitiesJoined }
{}

/// A step changes the parities of all nodes of the tree alike, and of no other.
pub fn stepped_parity()
    ensures tree { TreeParityStepped }
    ensures other { OtherParityStepped }
    ensures one { OneParityStepped }
{}
