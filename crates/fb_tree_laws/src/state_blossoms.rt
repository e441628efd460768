//! Blossoms formed in the tree of a half-solved part (Edmonds 1965).

ghost use Rattle.fb_laws.specs.StateBlossoms.{StateJoined, StateClosed, StateRounded};

/// Branches joined with their base keep the state: so does the cycle that a link between two plus nodes closes, and
/// a minus node with its parent and its child.
pub fn state_joined()
    ensures branches { StateJoined }
    ensures cycle { StateClosed }
    ensures round { StateRounded }
{}
