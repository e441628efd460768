//! The moves of a half-solved part, each of which keeps the whole state (Edmonds 1965; Wu and Zhong 2023).

ghost use Rattle.fb_laws.specs.StateMoves.{PartBegins, SearchFrom, StateFree, StateStepped, StateAbsorbed, StateUncovered, StateAttached, StateEnded, StateMet, StateReleased};

/// A part begins with its defects, and a search with any unmatched node.
pub fn state_begins()
    ensures part { PartBegins }
    ensures search { SearchFrom }
{}

/// A free step keeps the state, and there is one if the tree has no obstacle.
pub fn state_stepped()
    ensures free { StateFree }
    ensures stepped { StateStepped }
{}

/// A vertex absorbed and an empty layer taken off keep the state.
pub fn state_layers()
    ensures absorbed { StateAbsorbed }
    ensures uncovered { StateUncovered }
{}

/// A branch attached to the tree keeps the state.
pub fn state_attached()
    ensures { StateAttached }
{}

/// A search that ends leads to a state between searches with fewer unmatched nodes.
pub fn state_ended()
    ensures boundary { StateEnded }
    ensures met { StateMet }
    ensures released { StateReleased }
{}
