//! The cycle that a link between two plus nodes closes in a search's tree (Edmonds 1965).

ghost use Rattle.fb_laws.specs.TreeCycles.{PathsPart, CycleJoining, CycleLinked, CycleMany, CycleMinus};
ghost use Rattle.fb_laws.specs.OpenedCycles.{CycleOpened, StillPlus, WayRound, SplitOff, EndUnderChild, BlossomOpened};

/// The paths from the root to two plus nodes, cut off where they part, and a link between the two are an odd cycle.
/// Its nodes can become a blossom in the tree, with the plus node where the paths part as its base.
pub fn cycle_closed()
    ensures part { PathsPart }
    ensures joining { CycleJoining }
    ensures linked { CycleLinked }
    ensures many { CycleMany }
    ensures minus { CycleMinus }
{}

/// A minus blossom opened along its cycle: the even way between the children at which its two links end takes its
/// place in the tree, and the children beside the way are matched in pairs.
pub fn cycle_opened()
    ensures opened { CycleOpened }
    ensures plus { StillPlus }
    ensures way { WayRound }
    ensures split { SplitOff }
    ensures child { EndUnderChild }
    ensures blossom { BlossomOpened }
{}
