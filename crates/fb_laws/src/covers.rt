//! What an edge gains and loses by a step, from the outer nodes over its ends (Edmonds 1965; Wu and Zhong 2023).

ghost use Rattle.fb_graph.specs.Covers.{CrossingsByCover, NoCrossingsWithin, LevelBetween, LevelWithin, LevelOutside, EvenResidue, FreeStep, CoverStepped, LeavesStepped, HeightStepped};

/// Of the outer nodes' sets an edge crosses just those over its two ends, and none if one node is over both.
pub fn crossings_by_cover()
    ensures apart { CrossingsByCover }
    ensures within { NoCrossingsWithin }
{}

/// Links of the tree, links inside a node and links outside the tree cross as many plus as minus sets.
pub fn links_are_level()
    ensures between { LevelBetween }
    ensures within { LevelWithin }
    ensures outside { LevelOutside }
{}

/// If weights are even and the potentials under plus nodes have one parity, the slack of an edge between two plus nodes
/// is even: both may grow by half of it.
pub fn even_residue()
    ensures { EvenResidue }
{}

/// A tree that no tight edge and no empty layer obstructs may step by 1.
pub fn free_step()
    ensures { FreeStep }
{}

/// A step changes the potentials under plus and minus nodes by its length and leaves all others, the nodes over
/// vertices and the defects.
pub fn step_heights()
    ensures cover { CoverStepped }
    ensures leaves { LeavesStepped }
    ensures height { HeightStepped }
{}
