//! A blossom of a search opened (Edmonds 1965).

ghost use Rattle.fb_laws.specs.SearchOpenings.{MatchingOpened, SearchOpened, OpenedLowers};

/// An opened blossom's children are matched, the one by its link and the others in pairs, and all else is kept. Fewer
/// blossoms aren't plus.
pub fn matching_opened()
    ensures kept { MatchingOpened }
    ensures lowers { OpenedLowers }
{}

/// A tree with other branches in the place of an opened blossom keeps the search.
pub fn search_opened()
    ensures { SearchOpened }
{}
