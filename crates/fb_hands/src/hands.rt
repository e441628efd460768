//! What solves the items of a job.

ghost use Rattle.std.specs.Prelude.{◌≡◌, ◌<◌, length, IfOk};
ghost use Rattle.fb_plan.specs.Plans.{JobValue};
ghost use Rattle.fb_book.specs.Books.{AreOfChildren, IsPieceAt, place_of};

use fb_book::Piece;
use fb_graph::NoMemory;
use std::alloc::Global;

/// What solves the items of one job. A worker lends its tools, which it keeps from one item to the next.
pub trait Hands<P: Piece, T>: Sync {
    ghost job: { Self → JobValue };

    /// The piece of a unit.
    fn unit(&self, alloc: Global, tools: &mut T, slot: u32, node: u32) -> Result<P, NoMemory>
        requires slot { slot < length (job self.now).shots }
        requires unit { node < (job self.now).plan.units }
        ensures piece { IfOk result (IsPieceAt P.job_of P.slot_of P.node_of P.made_of (job self.now)
            (place_of (job self.now) slot node)) };

    /// The piece of a fusion, from those of its left and its right child.
    fn fusion(
        &self,
        alloc: Global,
        tools: &mut T,
        slot: u32,
        node: u32,
        left: P,
        right: P,
    ) -> Result<P, NoMemory>
        requires slot { slot < length (job self.now).shots }
        requires children { AreOfChildren P.job_of P.slot_of P.node_of P.made_of (job self.now) slot node left right }
        ensures piece { IfOk result (IsPieceAt P.job_of P.slot_of P.node_of P.made_of (job self.now)
            (place_of (job self.now) slot node)) };
}
