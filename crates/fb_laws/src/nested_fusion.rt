//! Nests of two parts as one nest, and their whole states as one (Wu and Zhong 2023).

ghost use Rattle.fb_graph.specs.NestUnions.{NestsBeside, NestsMerged, NestSinglesAdded, WalksBeside, WalksMerged, WalksSinglesAdded};
ghost use Rattle.fb_laws.specs.FusedStates.{NestedFused, UnmatchedCounted};
ghost use Rattle.fb_laws.specs.NestFusion.{NestedMerged, NestedSeam};

/// Two nests on real vertices and with names of their own are one nest, if their cuts fit together: so are those
/// of separated parts, and one with nodes without values for further defects. Their source walks stay.
pub fn nests_merged()
    ensures beside { NestsBeside }
    ensures merged { NestsMerged }
    ensures singles_added { NestSinglesAdded }
    ensures walks_beside { WalksBeside }
    ensures walks_merged { WalksMerged }
    ensures walks_singles_added { WalksSinglesAdded }
{}

/// The whole states of two separated parts are one of the whole, and one of it still when the seam is made real: then
/// freed nodes and the seam's defects are unmatched. Both steps in one fuse two parts over their seam: the unmatched
/// nodes are those of both parts, one for each link that led to the seam, and one for each defect on it.
pub fn nested_fused()
    ensures merged { NestedMerged }
    ensures seam { NestedSeam }
    ensures fused { NestedFused }
    ensures count { UnmatchedCounted }
{}
