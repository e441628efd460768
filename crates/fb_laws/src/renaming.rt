//! Nodes under other names.

ghost use Rattle.fb_graph.specs.RenamedNodes.{NestRenamed, WalksRenamed, CoverRenamed, OuterRenamed};
ghost use Rattle.fb_laws.specs.RenamedStates.{LinksRenamed, WorkRenamed, NestedWorkRenamed, StateRenamed, LiveLinksRenamed};

/// The nodes of a dual state under other names, no two under the same, are one with the same source walks, outer nodes
/// and nodes over vertices.
pub fn nest_renamed()
    ensures nest { NestRenamed }
    ensures walks { WalksRenamed }
    ensures cover { CoverRenamed }
    ensures outer { OuterRenamed }
{}

/// So are the nodes of a part between searches, with the names of its unmatched nodes replaced as well.
pub fn work_renamed()
    ensures links { LinksRenamed }
    ensures work { WorkRenamed }
    ensures nested { NestedWorkRenamed }
{}

/// So is the whole state of a part, with the links round each blossom under its new name. It keeps the same links.
pub fn state_renamed()
    ensures state { StateRenamed }
    ensures links { LiveLinksRenamed }
{}
