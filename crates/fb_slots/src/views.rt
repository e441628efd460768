//! What a seat knows.

use fb_book::Entry;
use std::collections::LinkedList;

/// What the seats that went into this one have done: their entries, how often they found no unit left, and their
/// number. A new entry names the worker. No value of it is made.
pub struct Hand {
    pub worker: u32,
    pub entries: LinkedList<Entry>,
    pub ends: u64,
    pub seats: u64,
    pub drawn: u64,
}
