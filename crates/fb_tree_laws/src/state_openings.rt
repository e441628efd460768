//! A minus blossom opened in the tree of a half-solved part (Edmonds 1965).

ghost use Rattle.fb_laws.specs.StateOpenings.{CycleFreed, StateOpened, StateOpens};

/// The links of a blossom's cycle lead round its children, which are outer once it is split.
pub fn cycle_freed()
    ensures { CycleFreed }
{}

/// A minus blossom opened keeps the state, and there is always a way along which it can be opened.
pub fn state_opened()
    ensures kept { StateOpened }
    ensures opens { StateOpens }
{}
