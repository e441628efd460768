//! Small graphs that meet the premises of the laws on half-solved parts.

ghost use Rattle.fb_witnesses.specs.StateWitnesses.{ClosedStateWitness, OpenedStateWitness, FusedStateWitness};

/// Meets the premises of the laws on a cycle of two branches that becomes a blossom and on a blossom opened with a
/// couple beside the way, on a pentagon, and of the laws on two parts fused, on a line.
pub fn state_witness()
    ensures closed { ClosedStateWitness }
    ensures opened { OpenedStateWitness }
    ensures fused { FusedStateWitness }
{}
