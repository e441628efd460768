use fb_half::Parts;
use fb_obstacles::Watch;
use fb_trees::Forest;
use std::marker::Model;

/// Trees that grow together, one from each of some unmatched nodes (Edmonds 1965): the pieces of the half-solved part that
/// they work on, the trees, and the edges that they look at. The nodes of the part move as the trees say. Other unmatched
/// nodes wait. A step that may take memory takes them by value and returns them, so that nothing half done is left if memory
/// runs out. Any other step changes them in place.
#[derive(Drop)]
pub(crate) struct Growing<'a> {
    pub(crate) parts: Parts<'a>,
    pub(crate) forest: Forest,
    pub(crate) watch: Watch,
}

/// Their pieces while a step has changed only some of them.
#[derive(Drop)]
pub(crate) struct GrowingPieces<'a> {
    pub(crate) parts: Parts<'a>,
    pub(crate) forest: Forest,
    pub(crate) watch: Watch,
}

impl<'a> Model for Growing<'a> {
    ghost use Rattle.fb_half.specs.Values.{part_of};
    ghost use Rattle.fb_search.specs.InternalGrowing.{GrowingValue, IsGrowing};
    ghost use Rattle.fb_search.specs.InternalPaces.{ArePaced};

    ghost Value = { GrowingValue };

    ghost view = { λ s. record { part = part_of s.parts; forest = s.forest; watched = s.watch } };

    ghost invariant = { λ s. ArePaced s.parts s.forest × IsGrowing (record { part = part_of s.parts; forest = s.forest; watched = s.watch }) };
}

impl<'a> Growing<'a> {
    ghost use Rattle.fb_search.specs.InternalGrowing.{IsGrowing};

    /// Does nothing. Its clause says what is kept while trees grow.
    pub(crate) fn keeps(&self)
        ensures { IsGrowing self.now }
    {
        let _forest = &self.forest;
    }
}
