//! Which links of a tree its moves keep, by their numbers.

ghost use Rattle.fb_laws.specs.LinkNumbers.{BranchesCounted, CycleCounted, LinksEnded, LinksJoined, LinksOpened};

/// When a search ends, each link of its tree is matched or dropped; when a cycle is joined, its links leave the tree; and
/// when a minus blossom is opened, those of the way join it.
pub fn links_moved()
    ensures ended { LinksEnded }
    ensures joined { LinksJoined }
    ensures counted { CycleCounted }
    ensures numbered { BranchesCounted }
    ensures opened { LinksOpened }
{}
