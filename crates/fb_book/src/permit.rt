ghost use Rattle.std.specs.Prelude.{◌≡◌, ℕ, ◌<◌, ◌≤◌, length, List, Option};
ghost use Rattle.fb_plan.specs.Plans.{JobValue, node_count};

use std::alloc::Global;
use std::marker::{Brand, PhantomData};
use std::sync::ledger::Ledger;

/// What is solved of a job at an item: the result for a unit, or for a fusion.
pub trait Piece: Drop {
    ghost job_of: { Self → JobValue };

    ghost slot_of: { Self → ℕ };

    ghost node_of: { Self → ℕ };

    /// The nodes that were made for it, in order, if that is known.
    ghost made_of: { Self → Option (List ℕ) };

    /// The slot of its item.
    fn slot(&self) -> u32
        ensures { result ≡ slot_of self.now };

    /// The node of its item.
    fn node(&self) -> u32
        ensures { result ≡ node_of self.now };
}

/// A piece in a box, so that a place for it is no wider than an address.
impl<P: Piece> Piece for Box<P, Global> {
    ghost job_of = { λ b. P.job_of b.value };

    ghost slot_of = { λ b. P.slot_of b.value };

    ghost node_of = { λ b. P.node_of b.value };

    ghost made_of = { λ b. P.made_of b.value };

    fn slot(&self) -> u32 {
        (**self).slot()
    }

    fn node(&self) -> u32 {
        (**self).node()
    }
}

/// Names a run: its job, and the number of its workers. It is chosen when the run begins.
pub trait Board: Ledger {
    ghost job: { JobValue };

    ghost workers: { ℕ };
}

impl Board for Brand {
    ghost use Rattle.fb_book.specs.Books.{no_job};

    ghost job = { no_job };

    ghost workers = { 0 };
}

/// The right to give or to leave one item of a run, which its worker has taken.
#[derive(Drop)]
pub struct Permit<N: Board> {
    worker: u32,
    slot: u32,
    node: u32,
    of: PhantomData<N>,
    ghost in_slots: { slot < length N.job.shots },
    ghost in_nodes: { node < node_count N.job.plan },
    ghost by: { worker ≤ N.workers },
}

impl<N: Board> Permit<N> {
    pub(crate) fn new(worker: u32, slot: u32, node: u32) -> Permit<N>
        requires slot { slot < length N.job.shots }
        requires node { node < node_count N.job.plan }
        requires worker { worker ≤ N.workers }
        ensures worker { result.worker ≡ worker }
        ensures slot { result.slot ≡ slot }
        ensures node { result.node ≡ node }
    {
        Permit {
            worker,
            slot,
            node,
            of: PhantomData,
        }
    }

    /// The worker that took the item.
    pub fn worker(&self) -> u32
        ensures { result ≡ self.now.worker }
    {
        self.worker
    }

    /// The slot of the item.
    pub fn slot(&self) -> u32
        ensures { result ≡ self.now.slot }
    {
        self.slot
    }

    /// The node of the item.
    pub fn node(&self) -> u32
        ensures { result ≡ self.now.node }
    {
        self.node
    }
}
