//! The states of two separated parts as one (Wu and Zhong 2023).

ghost use Rattle.fb_laws.specs.Merging.{MatchingsMerged, SeamOpened};

/// What two separated parts keep of their matchings, the whole keeps of both together.
pub fn matchings_merged()
    ensures { MatchingsMerged }
{}

/// A seam made real keeps the matching, with its defects and the nodes that were matched to it unmatched.
pub fn seam_opened()
    ensures { SeamOpened }
{}
