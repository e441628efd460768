//! Alternating paths, and what augmenting along one does to the ends of matched links (Edmonds 1965).

ghost use Rattle.fb_laws.specs.Paths.{PathsJoined, PathEnds, Augmented, AugmentedReleasing};

/// Along a path from the root, tree links and matched links have the same ends but for the two ends of the path.
pub fn alternating_path()
    ensures joined { PathsJoined }
    ensures ends { PathEnds }
{}

/// Augmenting gives the root one end, and changes those of no other node but the one that it meets.
pub fn augmented()
    ensures met { Augmented }
    ensures releasing { AugmentedReleasing }
{}
