//! Links made of source walks and a tight edge, turned round, and joined; and the link that matches an outer node
//! (Edmonds 1965; Wu and Zhong 2023).

ghost use Rattle.fb_laws.specs.MatchLinks.{MatchOf, MatchOfMet, MateOutside};
ghost use Rattle.fb_laws.specs.MetLinks.{SourceUnder, LinkMet, LinkToBoundary, LinkTurned, LinksJoined};
ghost use Rattle.fb_laws.specs.SingleDefects.{OneDefect, DefectHeight, LinksThrough, EndsMeetUnder};

/// Each vertex under an outer node has a source walk there. If the node meets another outer node or the boundary
/// over a tight edge, the source walks and the edge are a matched link between the two.
pub fn link_met()
    ensures source { SourceUnder }
    ensures nodes { LinkMet }
    ensures boundary { LinkToBoundary }
{}

/// A matched link stays one gone the other way. Two that meet at a vertex without potential are one.
pub fn links_joined()
    ensures turned { LinkTurned }
    ensures joined { LinksJoined }
{}

/// An outer node that isn't unmatched has just one match, to the boundary or to another outer node. What a search
/// meets outside its tree is unmatched or has its match beside the tree, and its mate is outside as well.
pub fn match_found()
    ensures one { MatchOf }
    ensures met { MatchOfMet }
    ensures mate { MateOutside }
{}

/// An outer node that joins no others has one defect under it, whose potential is the sum of the node's layers. If
/// that is 0, two links to the node are one link between the nodes at their other ends.
pub fn links_through_defect()
    ensures one { OneDefect }
    ensures height { DefectHeight }
    ensures through { LinksThrough }
    ensures meet { EndsMeetUnder }
{}
