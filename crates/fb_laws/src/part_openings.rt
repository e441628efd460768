//! All blossoms of a part opened at once, when nothing of it is unmatched (Edmonds 1965).

ghost use Rattle.fb_laws.specs.OpenedLinks.{OpenedLevel, OpenedPerfect, PartSolved, PartIsBest, RowOfPart, EndAtTurn, OnePlace};
ghost use Rattle.fb_laws.specs.RingWays.{EvenWayRound, RoundBegun, BlossomOpenedAlong};

/// When a blossom's turn comes, one of its children holds the only end of the links, and any child in which a link
/// ends is that one.
pub fn ends_at_turns()
    ensures turn { EndAtTurn }
    ensures place { OnePlace }
{}

/// The links of a part with nothing unmatched, all its blossoms opened, match its defects. So they follow from the
/// part's state alone, as does the correction that they make, which the cuts certify.
pub fn part_solved()
    ensures level { OpenedLevel }
    ensures perfect { OpenedPerfect }
    ensures solved { PartSolved }
    ensures best { PartIsBest }
    ensures row { RowOfPart }
{}

/// Round a ring of an odd number of nodes an even number of links leads from each node to each other, on or back. With
/// these links, two at a time, and the couples beside them a minus blossom is opened.
pub fn opened_along()
    ensures way { EvenWayRound }
    ensures begun { RoundBegun }
    ensures opened { BlossomOpenedAlong }
{}
