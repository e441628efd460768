//! What follows from the definitions alone. Each function does nothing: its clauses are the law.

ghost use Rattle.std.specs.Prelude.{◌≡◌};
ghost use Rattle.fb_plan.specs.Plans.{most_units};
ghost use Rattle.fb_plan.specs.declared.plan.TheConstants.{MOST_UNITS};
ghost use Rattle.fb_plan.specs.Laws.{AllBelowRoot, Ancestors, ChildIsPart, ChildrenAreSeparated, CountOfNodes, Nesting, NodeHasNoOddClosed, NodeIsPart, OneParent, PlanOfShotGraph, RootIsWhole, ShotHasNoOddClosed};
ghost use Rattle.fb_plan.specs.Seams.{FusionIsParts, SeamIsApart, UnitIsOwn};

/// The limit that `Plan::build` tests is that of the definitions.
pub fn limit_of_plans()
    ensures { MOST_UNITS ≡ most_units }
{}

/// A node's sub-problem is a part of its parent's (Wu and Zhong 2023) and of the whole, and the root's is the whole.
/// So if a shot has no odd component, no sub-problem has a closed set with an odd number of defects.
pub fn sub_problems()
    ensures part { NodeIsPart }
    ensures child { ChildIsPart }
    ensures root { RootIsWhole }
    ensures even { NodeHasNoOddClosed }
{}

/// The same plan, and the same promise, for the graph with the weights of a shot and for the shot's shifted defects.
pub fn weights_of_nodes()
    ensures plan { PlanOfShotGraph }
    ensures even { ShotHasNoOddClosed }
{}

/// The sub-problems of a fusion's two children share no real vertex, and no edge links them.
pub fn children_apart()
    ensures { ChildrenAreSeparated }
{}

/// A unit's real vertices are those that it owns. A fusion's are those of its children, and those that it owns itself:
/// its seam, whose vertices are real in neither child.
pub fn seam_apart()
    ensures unit { UnitIsOwn }
    ensures fusion { FusionIsParts }
    ensures seam { SeamIsApart }
{}

/// A tree's nodes are one fewer than twice its units; each but the root has one parent, and all are below the root.
pub fn one_root()
    ensures count { CountOfNodes }
    ensures parent { OneParent }
    ensures below { AllBelowRoot }
{}

/// Subtrees are nested or share no node.
pub fn subtrees()
    ensures nested { Nesting }
    ensures related { Ancestors }
{}
