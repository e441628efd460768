//! The items of a job by their places.

ghost use Rattle.std.specs.Prelude.{◌≡◌, ◌+◌, ◌*◌, ◌/◌, ◌%◌, ◌^◌, ◌<◌, ◌≤◌, length, IfOk, IfNone, IfSome};
ghost use Rattle.fb_book.specs.Books.{place_of};
ghost use Rattle.fb_plan.specs.Plans.{node_count};
ghost use Rattle.fb_slots.specs.Places.{ArePlaces};
ghost use Rattle.fb_slots.specs.Slots.{IsLayout, IsCountOf, layout_of};

use crate::ticket::Ticket;
use fb_book::Board;
use fb_book::moves::{count_of, kids_at, parent_at, place_of, root_place};
use fb_book::tables::{copy_joins, copy_parents};
use fb_graph::NoMemory;
use fb_plan::Job;
use std::alloc::Global;
use std::marker::PhantomData;

/// The tree of a run's job, and the number of its slots.
#[derive(Drop)]
pub struct Places<N: Board> {
    units: usize,
    nodes: usize,
    slots: usize,
    joins: Vec<(u32, u32)>,
    parents: Vec<Option<u32>>,
    of: PhantomData<N>,
    ghost kept: { ArePlaces N.job N.workers units nodes slots joins.items parents.items },
}

impl<N: Board> Places<N> {
    /// The places of this job's items.
    pub fn new(alloc: Global, job: &Job<'_>, workers: u32) -> Result<Places<N>, NoMemory>
        requires job { N.job ≡ job.now }
        requires workers { N.workers ≡ workers }
    {
        let _workers = workers;
        job.keeps();
        let plan = job.plan();
        plan.keeps();
        let joins = copy_joins(alloc, plan)?;
        let parents = copy_parents(alloc, plan)?;
        Ok(Places {
            units: plan.units() as usize,
            nodes: plan.nodes() as usize,
            slots: job.shots().len(),
            joins,
            parents,
            of: PhantomData,
        })
    }

    /// Does nothing. Its clause says that the items are laid out as the rule asks.
    pub fn keeps(&self)
        ensures { IsLayout (layout_of N.job N.workers) }
    {
        let _units = &self.units;
    }

    /// The number of items.
    pub fn count(&self) -> usize
        ensures { result ≡ (layout_of N.job N.workers).count }
    {
        count_of(self.slots, self.nodes)
    }

    /// The number of slots.
    pub fn slots(&self) -> usize
        ensures { result ≡ length N.job.shots }
    {
        self.slots
    }

    /// The number of nodes of a slot.
    pub fn nodes(&self) -> usize
        ensures { result ≡ node_count N.job.plan }
    {
        self.nodes
    }

    /// The place of the ticket's item.
    pub fn place(&self, ticket: &Ticket<N>) -> usize
        ensures place { result ≡ place_of N.job ticket.now.slot ticket.now.node }
        ensures less { result < (layout_of N.job N.workers).count }
    {
        place_of(self.nodes, ticket.slot(), ticket.node())
    }

    /// The place of the unit of this number; None if there are fewer.
    pub fn unit(&self, number: u64) -> Option<usize>
        ensures none { IfNone result ((layout_of N.job N.workers).units ≤ number) }
        ensures some { IfSome result (λ k. number < (layout_of N.job N.workers).units) }
        ensures place { IfSome result (λ k. k ≡ (layout_of N.job N.workers).unit_at number) }
    {
        let number = number as usize;
        let slot = number / self.units;
        if slot >= self.slots {
            return None;
        }
        Some(slot * self.nodes + number % self.units)
    }

    /// The children of the item at this place.
    pub fn kids(&self, place: usize) -> Option<(usize, usize)>
        requires { place < (layout_of N.job N.workers).count }
        ensures { result ≡ (layout_of N.job N.workers).kids place }
    {
        kids_at(self.units, self.joins.as_slice(), place)
    }

    /// The place of the item whose word counts the one at this place.
    pub fn counted(&self, place: usize) -> usize
        requires { place < (layout_of N.job N.workers).count }
        ensures { IsCountOf (layout_of N.job N.workers) place result }
    {
        match parent_at(self.nodes, self.parents.as_slice(), place) {
            Some(parent) => parent,
            None => place,
        }
    }

    /// The ticket of the item at this place.
    pub fn ticket(&self, place: usize) -> Ticket<N>
        requires { place < (layout_of N.job N.workers).count }
        ensures slot { result.slot ≡ place / node_count N.job.plan }
        ensures node { result.node ≡ place % node_count N.job.plan }
    {
        Ticket::new((place / self.nodes) as u32, (place % self.nodes) as u32)
    }
}
