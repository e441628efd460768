//! Small graphs that meet the premises of further laws on nests, their names, steps and rows.

ghost use Rattle.fb_witnesses.specs.AgreedWitnesses.{AgreedWitness};
ghost use Rattle.fb_witnesses.specs.BoundWitnesses.{BoundWitness};
ghost use Rattle.fb_witnesses.specs.HeldWitnesses.{HeldWitness};
ghost use Rattle.fb_witnesses.specs.LeafWitnesses.{ExchangedWitness, LeafWitness};
ghost use Rattle.fb_witnesses.specs.RankWitnesses.{RankWitness};
ghost use Rattle.fb_witnesses.specs.RenamedWitnesses.{RenamedWitness};
ghost use Rattle.fb_witnesses.specs.SeamWitnesses.{PlanWitness};
ghost use Rattle.fb_witnesses.specs.SolvedWitnesses.{BestWitness, OddWitness};

/// Meets the premises of the laws on a leaf added beside a grown node, and on a nest of a problem with other defects,
/// on a line.
pub fn leaf_witness()
    ensures added { LeafWitness }
    ensures exchanged { ExchangedWitness }
{}

/// Meets the premises of the laws on other names: a blossom, a match and an unmatched node of a pentagon.
pub fn renamed_witness()
    ensures { RenamedWitness }
{}

/// Meets the premises of the laws on the bounds of a step, on a line with plus nodes, a minus node and one that is
/// neither, and on the rank of a search, in a pentagon with a minus blossom.
pub fn bound_witness()
    ensures steps { BoundWitness }
    ensures ranks { RankWitness }
{}

/// Meets the premises of the laws on the defects that a node holds: a blossom that holds three of its four vertices.
pub fn held_witness()
    ensures { HeldWitness }
{}

/// Meets the premises of the laws on the row of a solved part, on a triangle.
pub fn row_witness()
    ensures odd { OddWitness }
    ensures best { BestWitness }
{}

/// Meets the premises of the laws on the seams of a plan: the two fusions of three units on a line.
pub fn seam_witness()
    ensures { PlanWitness }
{}

/// Meets the premises of the laws on the nodes of a dual state and of a store of blossoms: three leaves and their
/// blossom.
pub fn agreed_witness()
    ensures { AgreedWitness }
{}
