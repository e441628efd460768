//! The whole state of a search, which each step keeps: a nest with its source walks, its matched links, its unmatched
//! nodes and its tree (Edmonds 1965; Wu and Zhong 2023).

ghost use Rattle.fb_laws.specs.NestedSearches.{NestedWorkBegins, NestedSearchBegins, NestedFree, NestedStepped, NestedAbsorbed, NestedUncovered, NestedAttached, NestedJoined, NestedOpened, NestedEnded, NestedMet, NestedReleased};

/// A part begins with its defects as nodes, all unmatched, and a search with an unmatched node.
pub fn nested_begins()
    ensures work { NestedWorkBegins }
    ensures search { NestedSearchBegins }
{}

/// No search is stuck: if neither a tight edge nor an empty layer obstructs the tree, there is a greatest free step, of
/// at least 1.
pub fn nested_free()
    ensures { NestedFree }
{}

/// A free step keeps the state if no closed set is odd, since then an edge leaves each plus node.
pub fn nested_stepped()
    ensures { NestedStepped }
{}

/// A vertex absorbed and an empty layer taken off keep the state.
pub fn nested_layers()
    ensures absorbed { NestedAbsorbed }
    ensures uncovered { NestedUncovered }
{}

/// Two matched nodes attached to the tree keep the state.
pub fn nested_attached()
    ensures { NestedAttached }
{}

/// A blossom formed of branches and their base keeps the state.
pub fn nested_joined()
    ensures { NestedJoined }
{}

/// A minus blossom opened keeps the state.
pub fn nested_opened()
    ensures { NestedOpened }
{}

/// Augmenting leads to the state between searches.
pub fn nested_ended()
    ensures boundary { NestedEnded }
    ensures met { NestedMet }
    ensures released { NestedReleased }
{}
