//! What follows from the definitions alone. Each function does nothing: its clauses are the law.

ghost use Rattle.fb_trees.specs.TreeLinks.{NamesKept, RolesKept, PathsKept, PartingKept, CyclesKept, JoinedKept, TakenKept, OpenedKept, WaysKept};
ghost use Rattle.fb_trees.specs.TreeSteps.{StepsListed, UpFromPlus};

/// A tree with the numbers of its links has the same nodes and roles, paths and cycles as the one with the links themselves.
pub fn links_by_number()
    ensures names { NamesKept }
    ensures roles { RolesKept }
    ensures paths { PathsKept }
    ensures parting { PartingKept }
    ensures cycles { CyclesKept }
{}

/// A blossom formed or opened makes the same tree of both.
pub fn changes_by_number()
    ensures joined { JoinedKept }
    ensures taken { TakenKept }
    ensures opened { OpenedKept }
    ensures ways { WaysKept }
{}

/// The way up from a plus node is the path to it, node by node and link by link.
pub fn paths_listed()
    ensures plus { UpFromPlus }
    ensures listed { StepsListed }
{}
