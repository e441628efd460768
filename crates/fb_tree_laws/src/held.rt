//! Which defects the nodes of a nest hold.

ghost use Rattle.fb_laws.specs.HeldDefects.{CoveredIsHeld, HeldInSets, HeldIsCovered};

/// If each blossom holds what its children hold, each node holds the defects in its set, and the outer node over a
/// defect is the one that holds it.
pub fn held_in_sets()
    ensures sets { HeldInSets }
    ensures covered { HeldIsCovered }
    ensures over { CoveredIsHeld }
{}
