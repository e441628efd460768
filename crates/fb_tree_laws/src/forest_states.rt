//! The whole state of a half-solved part while several trees grow (Edmonds 1965).

ghost use Rattle.fb_laws.specs.ForestBlossoms.{ForestCycleCounted, ForestStateClosed, ForestStateJoined, ForestStateRounded};
ghost use Rattle.fb_laws.specs.ForestMeasures.{ForestAbsorbedLess, ForestAttachedLess, ForestClosedLess, ForestOpenedLess, ForestRoundedLess, ForestSteppedLess, ForestUncoveredLess};
ghost use Rattle.fb_laws.specs.ForestMoves.{ForestStateAbsorbed, ForestStateAttached, ForestStateEnded, ForestStateMatched, ForestStateMet, ForestStateReleased, ForestStateStepped, ForestStateUncovered, ForestStateWoken};
ghost use Rattle.fb_laws.specs.ForestOpenings.{ForestCycleAlong, ForestOpenedAlong, ForestStateOpened};
ghost use Rattle.fb_laws.specs.ForestStates.{ForestMatchOfMet, ForestMateOutside, ForestStateBegins, ForestStateDone, ForestStateFree, ForestStatePermuted, ForestStateRelisted, ForestTight};

/// Trees begin at some of the unmatched nodes of a part between searches, and the others wait. With no tree left it is one again,
/// and the unmatched nodes are those that wait.
pub fn forest_state_begins()
    ensures begins { ForestStateBegins }
    ensures done { ForestStateDone }
{}

/// The order of trees, of links, of unmatched names and of those that wait doesn't matter.
pub fn forest_state_reordered()
    ensures permuted { ForestStatePermuted }
    ensures relisted { ForestStateRelisted }
{}

/// All links that are kept are tight. A node that is in no tree and doesn't wait is matched beside the trees, and so is its mate.
pub fn forest_state_links()
    ensures tight { ForestTight }
    ensures met { ForestMatchOfMet }
    ensures mate { ForestMateOutside }
{}

/// Trees are not stuck: if nothing obstructs them, there is a greatest free step, of at least 1.
pub fn forest_state_free()
    ensures { ForestStateFree }
{}

/// A step of all trees keeps the state, and so do a vertex absorbed and an empty layer taken off.
pub fn forest_state_layers()
    ensures stepped { ForestStateStepped }
    ensures absorbed { ForestStateAbsorbed }
    ensures uncovered { ForestStateUncovered }
{}

/// Two matched nodes attached to one of the trees keep the state, and so does a tree that begins at a node that waits, once one of
/// the others meets it.
pub fn forest_state_attached()
    ensures attached { ForestStateAttached }
    ensures woken { ForestStateWoken }
{}

/// A tree that ends at the boundary, at a node that was matched to it, or at one that waits is dissolved, and so are two that meet.
/// The others stay.
pub fn forest_state_ended()
    ensures boundary { ForestStateEnded }
    ensures released { ForestStateReleased }
    ensures waiting { ForestStateMatched }
    ensures met { ForestStateMet }
{}

/// Branches of one tree joined with their base keep the state: so does the cycle that a link between two of its plus nodes
/// closes, and a minus node with its parent and its child.
pub fn forest_state_joined()
    ensures branches { ForestStateJoined }
    ensures cycle { ForestStateClosed }
    ensures round { ForestStateRounded }
    ensures counted { ForestCycleCounted }
{}

/// A minus blossom of one tree opened keeps the state. The places of the children at which its links end tell the way.
pub fn forest_state_opened()
    ensures kept { ForestStateOpened }
    ensures cycle { ForestCycleAlong }
    ensures along { ForestOpenedAlong }
{}

/// Each move of the trees leaves less to do.
pub fn forest_state_lowers()
    ensures stepped { ForestSteppedLess }
    ensures absorbed { ForestAbsorbedLess }
    ensures uncovered { ForestUncoveredLess }
    ensures attached { ForestAttachedLess }
    ensures closed { ForestClosedLess }
    ensures rounded { ForestRoundedLess }
    ensures opened { ForestOpenedLess }
{}
