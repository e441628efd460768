//! Two parts of a problem fused (Wu and Zhong 2023).

ghost use Rattle.fb_laws.specs.Fusion.{PartsTurned, LinkEndsAway, TightFused, TightFusedRight, FusedEnds, BoundaryHeight, HeightFused, Forgotten, SeamParity, FusedPerfect};

/// Links of one part have no end in the other, so that they stay tight in the whole, and sets keep their ends.
pub fn links_fused()
    ensures turned { PartsTurned }
    ensures away { LinkEndsAway }
    ensures left { TightFused }
    ensures right { TightFusedRight }
    ensures ends { FusedEnds }
{}

/// Seam vertices have no potential at first, and all others keep theirs.
pub fn heights_fused()
    ensures boundary { BoundaryHeight }
    ensures kept { HeightFused }
{}

/// A node whose link to a seam vertex is forgotten is unmatched, at an even potential.
pub fn seam_forgotten()
    ensures ends { Forgotten }
    ensures parity { SeamParity }
{}

/// Without a seam, perfect matchings of both parts are one of the whole.
pub fn parts_matched()
    ensures { FusedPerfect }
{}
