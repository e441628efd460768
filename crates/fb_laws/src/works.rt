//! A part of a problem with some nodes unmatched, and what searches make of it (Edmonds 1965).

ghost use Rattle.fb_laws.specs.Works.{WorkBegins, MatchingStepped, MatchingPermuted, PositivePacking, PositiveLoads, PositiveTotal, CutUnderOne, HalfLevel, HalfSolved, MatchingAugmented, MatchingMet, MatchingReleased};

/// A part begins with every defect unmatched.
pub fn work_begins()
    ensures { WorkBegins }
{}

/// Steps of a tree keep the matching, and so does another order of its links.
pub fn matching_kept()
    ensures stepped { MatchingStepped }
    ensures permuted { MatchingPermuted }
{}

/// Augmenting matches the root, and another node that was unmatched or matched to the boundary, and keeps all else.
pub fn matching_augmented()
    ensures boundary { MatchingAugmented }
    ensures met { MatchingMet }
    ensures released { MatchingReleased }
{}

/// A part with nothing unmatched is the first level of opened blossoms, for cuts that have values; when all are open,
/// the links' walks solve it.
pub fn half_opened()
    ensures packing { PositivePacking }
    ensures loads { PositiveLoads }
    ensures total { PositiveTotal }
    ensures under { CutUnderOne }
    ensures level { HalfLevel }
    ensures solved { HalfSolved }
{}
