//! A minus blossom opened along its ring in a half-solved part (Edmonds 1965).

ghost use Rattle.fb_laws.specs.StateRings.{ChildAtEnd, CycleAlong, StateOpenedAlong};

/// A blossom's link ends at the child that holds its end. From the places of two such children on the blossom's ring
/// follow the way between them, the couples beside it and the state after the blossom is opened.
pub fn state_opened_along()
    ensures child { ChildAtEnd }
    ensures cycle { CycleAlong }
    ensures state { StateOpenedAlong }
{}
