//! Source walks inside the sets of a dual state (Edmonds 1965; Wu and Zhong 2023).

ghost use Rattle.fb_graph.specs.SourceWalks.{WalksBegin, WalksJoined, WalksSplit, WalksAbsorbed, WalksUncovered, WalksStepped, CoveredWalk};

/// Each layer of each node has a source walk to each of its vertices that doesn't leave it: at the beginning, and
/// after each move. So a source walk leads to each covered vertex under its own outer node.
pub fn walks_kept()
    ensures begins { WalksBegin }
    ensures joined { WalksJoined }
    ensures split { WalksSplit }
    ensures absorbed { WalksAbsorbed }
    ensures uncovered { WalksUncovered }
    ensures stepped { WalksStepped }
    ensures covered { CoveredWalk }
{}
