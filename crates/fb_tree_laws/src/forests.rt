//! Several trees that grow at once, from some or all unmatched nodes (Edmonds 1965).

ghost use Rattle.fb_laws.specs.Forests.{ForestAttached, ForestBegins, ForestDone, ForestEnded, ForestFirst, ForestLevel, ForestMet, ForestReleased, ForestRoles, ForestStepped, ForestTree, ForestWoken, MatchingRerooted};

/// Trees begin at some of the unmatched nodes, and the others wait. A tree begins at one that waits, once another tree meets
/// it. The order of the trees doesn't matter.
pub fn forest_begins()
    ensures begins { ForestBegins }
    ensures woken { ForestWoken }
    ensures first { ForestFirst }
{}

/// Each of the trees is that of a search. From all of them follow the roles, and that each link gains as much as it loses by
/// a step.
pub fn forest_trees()
    ensures tree { ForestTree }
    ensures roles { ForestRoles }
    ensures level { ForestLevel }
{}

/// A step of all trees keeps them.
pub fn forest_stepped()
    ensures { ForestStepped }
{}

/// Two nodes attached to one of the trees keep them all.
pub fn forest_attached()
    ensures { ForestAttached }
{}

/// Any plus node of a tree may be its root. So two trees that meet are matched and dissolved, as is one that meets the
/// boundary or a node matched to it; the others stay. With no tree left only nodes that wait are unmatched.
pub fn forest_ended()
    ensures rerooted { MatchingRerooted }
    ensures met { ForestMet }
    ensures boundary { ForestEnded }
    ensures released { ForestReleased }
    ensures done { ForestDone }
{}
