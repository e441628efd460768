//! Small graphs that meet the premises of the laws on single links.

ghost use Rattle.fb_witnesses.specs.MatchWitnesses.{BesideWitness, MatchWitness};
ghost use Rattle.fb_witnesses.specs.MetWitnesses.{MetWitness, ThroughWitness};
ghost use Rattle.fb_witnesses.specs.NumberWitnesses.{MovedWitness, RingNumbersWitness, StepsWitness};

/// Meets the premises of the laws on links of two nodes, or a node and the boundary, that meet over a tight edge, and
/// on the two links of a defect without potential as one, on lines.
pub fn met_witness()
    ensures met { MetWitness }
    ensures through { ThroughWitness }
{}

/// Meets the premises of the laws on the match of a node: one matched to another node and one to the boundary, on a
/// line of four defects, and one matched beside a tree, in a pentagon.
pub fn match_witness()
    ensures all { MatchWitness }
    ensures beside { BesideWitness }
{}

/// Meets the premises of the laws on links by their steps and by their numbers: a walk of three steps, a tree of three
/// branches, a ring of five links.
pub fn number_witness()
    ensures steps { StepsWitness }
    ensures moved { MovedWitness }
    ensures ring { RingNumbersWitness }
{}
