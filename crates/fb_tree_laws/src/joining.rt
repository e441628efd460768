//! Branches of a search's tree that become a blossom (Edmonds 1965).

ghost use Rattle.fb_laws.specs.SearchBlossoms.{ThreeJoining, SearchJoined, JoinedLowers};

/// A blossom in the place of a plus node and of branches that hang on it keeps the search, and fewer defects aren't
/// plus. So a minus node may join its parent and its child.
pub fn search_joined()
    ensures three { ThreeJoining }
    ensures kept { SearchJoined }
    ensures lowers { JoinedLowers }
{}
