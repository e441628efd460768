//! A job whose items are all done.

ghost use Rattle.std.specs.Prelude.{◌≡◌};

use fb_book::{Entry, Piece};

/// A finished job: the pieces of all slots' roots in the order of the slots, the history of the run, and how many events
/// its workers have made by their own counts.
#[derive(Drop)]
pub struct Finished<P: Piece> {
    pub roots: Vec<P>,
    pub history: Vec<Entry>,
    pub made: u64,
}

/// A finished job with the tools of its workers, in the order in which they were given.
#[derive(Drop)]
pub struct Worked<P: Piece, T: Drop> {
    pub roots: Vec<P>,
    pub history: Vec<Entry>,
    pub made: u64,
    pub tools: Vec<T>,
}

impl<P: Piece> Finished<P> {
    /// The finished job with its workers' tools.
    pub fn with_tools<T: Drop>(self, tools: Vec<T>) -> Worked<P, T>
        ensures { (result.roots ≡ self.roots) × (result.history ≡ self.history) × (result.made ≡ self.made)
            × (result.tools ≡ tools) }
    {
        let Finished {
            roots,
            history,
            made,
        } = self;
        Worked {
            roots,
            history,
            made,
            tools,
        }
    }
}
