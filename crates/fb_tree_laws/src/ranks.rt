//! Bounds of what a dual state holds, and of what is left to do in a search.

ghost use Rattle.fb_laws.specs.PartBounds.{FewLeaves, FewBlossoms, PartsBelow, SearchRankFalls};

/// There are no more defects than vertices, and at most half as many blossoms as defects.
pub fn nodes_bounded()
    ensures leaves { FewLeaves }
    ensures blossoms { FewBlossoms }
{}

/// What is left to do in a search stays below the number of vertices and 2, part by part: so one number falls with it,
/// which a loop can use as its measure.
pub fn rank_bounded()
    ensures parts { PartsBelow }
    ensures rank { SearchRankFalls }
{}
