//! The state of a search, which each step keeps until the root is matched (Edmonds 1965).

ghost use Rattle.fb_laws.specs.Searches.{SearchBegins, SearchPermuted, SearchRoles, RestOutside, SearchLevel, SearchPath, SearchStepped, SearchAttached, SearchEnded, SearchMet, SearchReleased};

/// A search begins with an unmatched node; the order of links beside the tree doesn't matter.
pub fn search_begins()
    ensures begins { SearchBegins }
    ensures permuted { SearchPermuted }
{}

/// From the state follow the tree's roles, its paths, and that each link gains as much as it loses by a step.
pub fn search_tree()
    ensures roles { SearchRoles }
    ensures outside { RestOutside }
    ensures level { SearchLevel }
    ensures path { SearchPath }
{}

/// A step of the tree keeps the search.
pub fn search_stepped()
    ensures { SearchStepped }
{}

/// Two nodes attached to the tree keep the search.
pub fn search_attached()
    ensures { SearchAttached }
{}

/// Augmenting ends the search: the root is matched.
pub fn search_ended()
    ensures boundary { SearchEnded }
    ensures met { SearchMet }
    ensures released { SearchReleased }
{}
