//! Small graphs that meet the premises of the laws on nests and searches.

ghost use Rattle.fb_witnesses.specs.CycleWitnesses.{ClosedWitness, OpenedWitness};
ghost use Rattle.fb_witnesses.specs.FusedWitnesses.{FusedWitness, SeamWitness};
ghost use Rattle.fb_witnesses.specs.NestWitnesses.{NestWitness};
ghost use Rattle.fb_witnesses.specs.NestedWitnesses.{NestedWitness, EndingWitness};
ghost use Rattle.fb_witnesses.specs.ResolvedWitnesses.{ResolvedWitness};
ghost use Rattle.fb_witnesses.specs.TreeWitnesses.{LayerWitness, JoiningWitness, SplittingWitness, LevelWitness};

/// Meets the premises of the laws on the moves of a nest.
pub fn nest_witness()
    ensures { NestWitness }
{}

/// Meets the premises of the laws on a search's layers, on branches that become a blossom, on a blossom of the tree
/// opened, and on a part's blossoms opened level by level.
pub fn tree_witness()
    ensures layers { LayerWitness }
    ensures joining { JoiningWitness }
    ensures splitting { SplittingWitness }
    ensures levels { LevelWitness }
{}

/// Meets the premises of the laws of the cycle that a link closes, on a line, and of a blossom opened along its cycle,
/// on a triangle with a defect beside two of its corners.
pub fn cycle_witness()
    ensures closed { ClosedWitness }
    ensures opened { OpenedWitness }
{}

/// Meets the premises of the laws on the whole state of a search, on its end, and on what a nest with nothing unmatched
/// is solved by.
pub fn nested_witness()
    ensures state { NestedWitness }
    ensures ending { EndingWitness }
    ensures resolved { ResolvedWitness }
{}

/// Meets the premises of the laws on nests and whole states of two parts.
pub fn fused_witness()
    ensures steps { FusedWitness }
    ensures fused { SeamWitness }
{}
