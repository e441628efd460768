//! A cycle of nodes that becomes a blossom (Edmonds 1965).

ghost use Rattle.fb_laws.specs.Forming.{MatchingFormed};

/// A cycle of nodes of which all but the base are matched among one another becomes a node that is matched as the base was.
pub fn matching_formed()
    ensures { MatchingFormed }
{}
