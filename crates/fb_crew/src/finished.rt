//! A job whose items are all done.

use fb_book::Piece;
use fb_slots::Run;

/// A finished job: the run of its board, and how many events its workers have made by their own counts.
#[derive(Drop)]
pub struct Finished<P: Piece> {
    pub run: Run<P>,
    pub made: u64,
}

/// A finished job with the tools of its workers, in the order in which they were given.
#[derive(Drop)]
pub struct Worked<P: Piece, T: Drop> {
    pub run: Run<P>,
    pub made: u64,
    pub tools: Vec<T>,
}
