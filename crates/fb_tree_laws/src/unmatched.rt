//! Unmatched names as those of outer nodes.

ghost use Rattle.fb_laws.specs.UnmatchedNames.{OuterBegin, OuterFewer, OuterStepped, OuterAbsorbed, OuterUncovered, OuterSplit, OuterJoined, OuterBeside, OuterSinglesAdded, NoChildUnmatched};

/// Unmatched names are those of outer nodes at the beginning, after each move and in two lists of nodes together, so
/// that no child of a blossom is unmatched.
pub fn outer_names()
    ensures begin { OuterBegin }
    ensures fewer { OuterFewer }
    ensures stepped { OuterStepped }
    ensures absorbed { OuterAbsorbed }
    ensures uncovered { OuterUncovered }
    ensures split { OuterSplit }
    ensures joined { OuterJoined }
    ensures beside { OuterBeside }
    ensures singles_added { OuterSinglesAdded }
    ensures child { NoChildUnmatched }
{}
