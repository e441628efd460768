//! The items' statuses and what a history is made of.

/// What happened to an item: it was taken, it was given, or it was left for want of memory.
#[derive(Clone, Copy, PartialEq, Eq)]
pub enum EntryKind {
    Took,
    Gave,
    Left,
}

/// One event of a run: what a worker did with the item of this slot and node.
#[derive(Clone, Copy)]
pub struct Entry {
    pub kind: EntryKind,
    pub worker: u32,
    pub slot: u32,
    pub node: u32,
}

/// The state of an item. It is held by the worker with this number, given once it is solved, and used once the fusion
/// above it is taken.
#[derive(Clone, Copy)]
pub enum Status {
    Idle,
    Held(u32),
    Given,
    Used,
    Left,
}
