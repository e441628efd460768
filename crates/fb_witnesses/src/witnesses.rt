//! A line, and a triangle with a tail, that meet the premises of the laws.

ghost use Rattle.fb_witnesses.specs.Witnesses.{StepWitness, DualWitness, CoverWitness, SignedWitness, LinkWitness, PathWitness, BlossomWitness, FusionWitness, OpeningWitness, ParityWitness, WorkWitness, MergingWitness, EndWitness, FormingWitness};

/// Meets the premises of the laws of steps and of their lengths.
pub fn step_witness()
    ensures { StepWitness }
{}

/// Meets the premises of the laws on the beginning of a search and on free steps.
pub fn dual_witness()
    ensures { DualWitness }
{}

/// Meets the premises of the laws on the nodes over an edge's ends.
pub fn cover_witness()
    ensures { CoverWitness }
{}

/// Meets the premises of the laws of weights of either sign.
pub fn signed_witness()
    ensures { SignedWitness }
{}

/// Meets the premises of the laws of tight links.
pub fn link_witness()
    ensures { LinkWitness }
{}

/// Meets the premises of the laws of alternating paths.
pub fn path_witness()
    ensures { PathWitness }
{}

/// Meets the premises of the laws of blossoms.
pub fn blossom_witness()
    ensures { BlossomWitness }
{}

/// Meets the premises of the laws of fusing two parts.
pub fn fusion_witness()
    ensures { FusionWitness }
{}

/// Meets the premises of the laws of opened blossoms.
pub fn opening_witness()
    ensures { OpeningWitness }
{}

/// Meets the premises of the laws of parities and of steps made node by node.
pub fn parity_witness()
    ensures { ParityWitness }
{}

/// Meets the premises of the laws of parts with unmatched nodes.
pub fn work_witness()
    ensures { WorkWitness }
{}

/// Meets the premises of the laws on the states of two parts as one.
pub fn merging_witness()
    ensures { MergingWitness }
{}

/// Meets the premises of the laws on counts that fall and on layers that differ.
pub fn end_witness()
    ensures { EndWitness }
{}

/// Meets the premises of the law on a cycle that becomes a blossom.
pub fn forming_witness()
    ensures { FormingWitness }
{}
