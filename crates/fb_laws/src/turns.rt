//! A step of a tree made node by node.

ghost use Rattle.fb_graph.specs.Turns.{NoTurn, ShrunkNext, GrownNext, SameRoles, TopStepped, GrowthAllowed, ShrinkAllowed};

/// Nodes that shrink and grow one after another make the step.
pub fn step_in_turns()
    ensures none { NoTurn }
    ensures shrunk { ShrunkNext }
    ensures grown { GrownNext }
    ensures same { SameRoles }
    ensures top { TopStepped }
{}

/// If the step is allowed, each minus node may shrink in its turn, and then each plus node grow.
pub fn turns_allowed()
    ensures grow { GrowthAllowed }
    ensures shrink { ShrinkAllowed }
{}
