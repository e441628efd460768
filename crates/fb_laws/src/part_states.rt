//! The whole state of a half-solved part: what its links and its unmatched names are.

ghost use Rattle.fb_laws.specs.PartStates.{LiveTight, SearchTight, UnmatchedOuter};

/// The matched links, those of cycles and those of a tree are tight.
pub fn live_links_are_tight()
    ensures between { LiveTight }
    ensures growing { SearchTight }
{}

/// Each unmatched name is that of an outer node.
pub fn unmatched_are_outer()
    ensures { UnmatchedOuter }
{}
