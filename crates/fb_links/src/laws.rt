//! Laws of the definitions. Each function does nothing: its clauses are the laws.

ghost use Rattle.fb_links.specs.Laws.{EndsOfWalk, RunIsChained, TurnedLeadsBack, TurnedWeighsSame, TurnedIsLink, WalkGoesOn, WalksWeigh, JoinedWalk, LinksStay, LeftStays, RightIsRenamed, RightStaysApart, LinksOfEither};

/// The ends and the weight of a reversed walk, of two walks one after the other, and of two joined links.
pub fn joining()
    ensures ends { EndsOfWalk }
    ensures chained { RunIsChained }
    ensures back { TurnedLeadsBack }
    ensures same { TurnedWeighsSame }
    ensures turned { TurnedIsLink }
    ensures on { WalkGoesOn }
    ensures weigh { WalksWeigh }
    ensures joined { JoinedWalk }
{}

/// Adding a link replaces no other.
pub fn adding()
    ensures { LinksStay }
{}

/// The links of two merged tables: the left one's as they were, the right one's under their new numbers, and no other.
pub fn merging()
    ensures stay { LeftStays }
    ensures renamed { RightIsRenamed }
    ensures apart { RightStaysApart }
    ensures either { LinksOfEither }
{}
