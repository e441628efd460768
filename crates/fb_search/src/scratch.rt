ghost use Rattle.std.specs.Prelude.{◌≡◌, [], IfOk, length};

use fb_graph::{NoMemory, Scope};
use fb_obstacles::Watch;
use fb_trees::Forest;
use std::alloc::Global;
use std::marker::Model;

/// The scratch space of searches: a watch over the edges of a graph and the room of trees. It is lent to one search
/// after another, each of which empties it first, at the cost of what it holds. Both stand in boxes, so that lending it
/// moves little. Contracts see its watch.
#[derive(Drop)]
pub struct Scratch {
    pub(crate) watch: Box<Watch, Global>,
    pub(crate) forest: Box<Forest, Global>,
    /// How many searches have matched their root with it. It stays at its greatest number.
    pub(crate) matched: u64,
}

impl Model for Scratch {
    ghost use Rattle.fb_obstacles.specs.Watched.{Watched, watched_code};

    ghost Value = { Watched };

    ghost coded = { watched_code };

    ghost view = { λ s. s.watch.value };
}

impl Scratch {
    /// Watches no edge and no node, with room for every edge of the scope.
    pub fn new<S: Scope>(alloc: Global, scope: &S) -> Result<Scratch, NoMemory>
        ensures { IfOk result (λ s. s ≡ record { edge_count = length (S.problem scope.now).edges; edges = []; bounds = []; queued = 0; nodes = [] }) }
    {
        let watch = Watch::new(alloc, scope)?;
        Scratch::of(alloc, watch, Forest::empty(alloc), 0)
    }

    /// The scratch space of these pieces, which have matched so many roots.
    pub(crate) fn of(
        alloc: Global,
        watch: Watch,
        forest: Forest,
        matched: u64,
    ) -> Result<Scratch, NoMemory>
        ensures { IfOk result (λ s. s ≡ watch) }
    {
        let watch = Box::new(alloc, watch)?;
        let forest = Box::new(alloc, forest)?;
        Ok(Scratch {
            watch,
            forest,
            matched,
        })
    }

    /// Its pieces.
    pub(crate) fn into_pieces(self) -> (Watch, Forest)
        ensures { result.0 ≡ self }
    {
        (Box::into_inner(self.watch), Box::into_inner(self.forest))
    }

    /// How many searches have matched their root with it: those that a counter of steps counts.
    pub fn matched(&self) -> u64 {
        self.matched
    }

    /// One search more has matched its root with it.
    pub(crate) fn count_match(&mut self)
        ensures { self.new ≡ self.old }
    {
        self.matched = self.matched.saturating_add(1);
    }
}
