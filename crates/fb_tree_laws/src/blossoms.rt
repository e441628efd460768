//! Blossoms formed and opened (Edmonds 1965).

ghost use Rattle.fb_laws.specs.Blossoms.{FormedEnds, BaseAlone, PairedEnds, OpenedOnce, OpenedElsewhere, KeptChild, OddCycle, PlusBase, EvenWay};

/// A blossom is matched as its base was.
pub fn blossom_formed()
    ensures ends { FormedEnds }
    ensures base { BaseAlone }
{}

/// An opened blossom's children in pairs along the cycle have one end each, and the child left over is matched as the
/// blossom was.
pub fn blossom_opened()
    ensures paired { PairedEnds }
    ensures once { OpenedOnce }
    ensures elsewhere { OpenedElsewhere }
    ensures kept { KeptChild }
{}

/// The cycle that two plus nodes close is odd and has a plus node as its base, and one way round it is even.
pub fn odd_cycle()
    ensures odd { OddCycle }
    ensures base { PlusBase }
    ensures even { EvenWay }
{}
