//! Links made, turned and joined, and what keeps them tight (Wu and Zhong 2023): a tight link weighs what the cuts
//! between its ends are worth, which is complementary slackness (Edmonds 1965).

ghost use Rattle.fb_graph.specs.Links.{PartedFromLow, MeetingTight, BoundaryTight, TurnedTight, JoinedTight, EmptyLayerLoads, EmptyLayerHeights, SourceStepped, LinkParity, BoundaryParity, MeetingParity, SourceParity};

/// If two nodes, or a node and the boundary, meet over a tight edge, the source walks and the edge are a tight link.
pub fn meeting_is_tight()
    ensures parted { PartedFromLow }
    ensures met { MeetingTight }
    ensures boundary { BoundaryTight }
{}

/// Links stay tight turned round, and joined at a defect without potential.
pub fn joined_is_tight()
    ensures turned { TurnedTight }
    ensures joined { JoinedTight }
{}

/// A layer without value changes no load and no potential.
pub fn empty_layer()
    ensures loads { EmptyLayerLoads }
    ensures heights { EmptyLayerHeights }
{}

/// A source walk keeps its balance by a step of the tree.
pub fn source_walk_kept()
    ensures { SourceStepped }
{}

/// Even weights give the potentials at both ends of a tight link, of a tight edge and of a source walk one parity.
pub fn potential_parity()
    ensures link { LinkParity }
    ensures boundary { BoundaryParity }
    ensures meeting { MeetingParity }
    ensures source { SourceParity }
{}
