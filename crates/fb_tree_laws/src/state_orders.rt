//! What doesn't matter in a half-solved part, and which of its unmatched nodes stay.

ghost use Rattle.fb_laws.specs.StateOrders.{PartReordered, SearchReordered, OthersStay};

/// The order of links and of unmatched names doesn't matter, nor do links that are kept for names that no node has.
pub fn state_reordered()
    ensures between { PartReordered }
    ensures growing { SearchReordered }
{}

/// Unmatched nodes beside the tree stay when nodes of the tree are joined.
pub fn others_stay()
    ensures { OthersStay }
{}
