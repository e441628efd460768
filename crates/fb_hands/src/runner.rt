//! The hands of a crew behind its gate.

ghost use Rattle.std.specs.Prelude.{◌≡◌, ◌<◌, length, IfOk, OnOk};
ghost use Rattle.fb_book.specs.Books.{AreOfChildren, IsPieceAt, place_of};

use crate::gate::Gate;
use crate::hands::Hands;
use fb_book::{Board, Piece};
use fb_graph::NoMemory;
use std::alloc::Global;

/// An item of a job, with the number of the worker that has taken it.
#[derive(Clone, Copy)]
pub struct Item {
    pub worker: u32,
    pub slot: u32,
    pub node: u32,
}

/// The hands and the gate of a crew, with the allocator that its hands use.
#[derive(Drop)]
pub struct ItemRunner<'a, H, G> {
    pub alloc: Global,
    pub hands: &'a H,
    pub gate: &'a G,
}

impl<'a, H, G: Gate> ItemRunner<'a, H, G> {
    /// The piece of a unit, once it has passed the gate.
    pub fn unit<P: Piece, T, N: Board>(&self, tools: &mut T, item: Item) -> Result<P, NoMemory>
    where
        H: Hands<P, T>,
        requires job { H.job self.now.hands.now ≡ N.job }
        requires slot { item.slot < length N.job.shots }
        requires unit { item.node < N.job.plan.units }
        ensures piece { IfOk result (IsPieceAt P.job_of P.slot_of P.node_of P.made_of N.job
            (place_of N.job item.slot item.node)) }
        ensures passed { OnOk result (G.passed self.now.gate.now item.worker item.slot item.node) }
    {
        let piece = self.hands.unit(self.alloc, tools, item.slot, item.node)?;
        self.gate.before_post(item.worker, item.slot, item.node);
        Ok(piece)
    }

    /// The piece of a fusion, from those of its children, once it has passed the gate.
    pub fn fusion<P: Piece, T, N: Board>(
        &self,
        tools: &mut T,
        item: Item,
        left: P,
        right: P,
    ) -> Result<P, NoMemory>
    where
        H: Hands<P, T>,
        requires job { H.job self.now.hands.now ≡ N.job }
        requires slot { item.slot < length N.job.shots }
        requires children { AreOfChildren P.job_of P.slot_of P.node_of P.made_of N.job item.slot item.node left right }
        ensures piece { IfOk result (IsPieceAt P.job_of P.slot_of P.node_of P.made_of N.job
            (place_of N.job item.slot item.node)) }
        ensures passed { OnOk result (G.passed self.now.gate.now item.worker item.slot item.node) }
    {
        let piece = self
            .hands
            .fusion(self.alloc, tools, item.slot, item.node, left, right)?;
        self.gate.before_post(item.worker, item.slot, item.node);
        Ok(piece)
    }
}
