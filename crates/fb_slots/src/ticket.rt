//! A worker's right to one item.

ghost use Rattle.std.specs.Prelude.{◌≡◌, ◌*◌, ◌/◌, ◌%◌, ◌<◌, length};
ghost use Rattle.fb_plan.specs.Plans.{node_count};

use fb_book::Board;
use std::marker::PhantomData;

/// The right to give or to leave one item of a run, which the seat that got it holds. Only the board makes one.
#[derive(Drop)]
pub struct Ticket<N: Board> {
    slot: u32,
    node: u32,
    of: PhantomData<N>,
    ghost in_slots: { slot < length N.job.shots },
    ghost in_nodes: { node < node_count N.job.plan },
}

impl<N: Board> Ticket<N> {
    pub(crate) fn new(slot: u32, node: u32) -> Ticket<N>
        requires slot { slot < length N.job.shots }
        requires node { node < node_count N.job.plan }
        ensures slot { result.slot ≡ slot }
        ensures node { result.node ≡ node }
    {
        Ticket {
            slot,
            node,
            of: PhantomData,
        }
    }

    /// The slot of the item.
    pub fn slot(&self) -> u32
        ensures { result ≡ self.now.slot }
    {
        self.slot
    }

    /// The node of the item.
    pub fn node(&self) -> u32
        ensures { result ≡ self.now.node }
    {
        self.node
    }
}
