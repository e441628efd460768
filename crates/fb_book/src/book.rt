ghost use Rattle.std.specs.Prelude.{◌≡◌, ◌*◌, ◌^◌, ◌<◌, ◌≤◌, ◌⊎◌, true, false, Some, None, List, [], length, slice_set, replicate, IfOk, IfErr, OnErr, OnOk};
ghost use Rattle.fb_book.specs.declared.entries.EntryKind.TheVariants.{Gave, Left};
ghost use Rattle.fb_book.specs.Machine.{IsForest};
ghost use Rattle.fb_book.specs.Board.{IsRun, Lets, MustWait, TakesUnit, is_finished, is_starved, item_count, kids_of};
ghost use Rattle.fb_book.specs.Books.{AreOfChildren, AreRootPieces, AreRoots, HandsOut, IsKept, IsPieceAt, course_of, holds, place_of};

use crate::entries::Entry;
use crate::items::{Items, Turn};
use crate::moves::place_of;
use crate::parking::{empty_places, roots_of, take_out};
use crate::permit::{Board, Permit, Piece};
use crate::tables::{copy_joins, copy_parents};
use fb_graph::NoMemory;
use fb_plan::Job;
use std::alloc::Global;
use std::marker::{Model, PhantomData};

/// What a claim gives a worker: a unit to be solved, a fusion with the pieces of its left and its right child, nothing
/// as yet, or nothing any more.
#[derive(Drop)]
pub enum Claim<P: Piece, N: Board> {
    Unit(Permit<N>),
    Fusion(Permit<N>, P, P),
    NotYet,
    Over,
}

/// The book of a run: who took, gave or left which item, and the pieces that wait for their fusion. Contracts see the
/// history, and for each item, by slot and then node, the piece that waits there. Only `new` takes memory: room for one
/// piece an item, so that a large piece had better come in a box.
#[derive(Drop)]
pub struct Book<P: Piece, N: Board> {
    items: Items,
    parked: Vec<Option<P>>,
    roots: Vec<P>,
    of: PhantomData<N>,
}

impl<P: Piece, N: Board> Model for Book<P, N> {
    ghost use Rattle.std.specs.Prelude.{List, Option, vec_capacity};
    ghost use Rattle.fb_book.specs.declared.entries.Entry.{Entry};
    ghost use Rattle.fb_book.specs.InternalBoard.{IsBook};

    ghost Value = { List Entry × List (Option P) };

    ghost view = { λ b. (b.items.history, b.parked.items) };

    ghost invariant = { λ b. IsBook P.job_of P.slot_of P.node_of P.made_of N.job N.workers b.items
        b.parked.items b.roots.items (vec_capacity b.roots) };
}

/// The items of this job, none of which is taken yet.
fn items_of(alloc: Global, job: &Job<'_>) -> Result<Items, NoMemory>
    ensures { IfOk result (λ items. items ≡ course_of job.now []) }
{
    let plan = job.plan();
    job.keeps();
    plan.keeps();
    let joins = copy_joins(alloc, plan)?;
    let parents = copy_parents(alloc, plan)?;
    Items::new(alloc, plan.units(), joins, parents, job.shots().len())
}

impl<P: Piece, N: Board> Book<P, N> {
    /// The book of this job for this number of workers, with no entry.
    pub fn new(alloc: Global, job: &Job<'_>, workers: u32) -> Result<Book<P, N>, NoMemory>
        requires job { N.job ≡ job.now }
        requires workers { N.workers ≡ workers }
        ensures history { IfOk result (λ b. b.0 ≡ []) }
        ensures parked { IfOk result (λ b. b.1 ≡ replicate (item_count (course_of N.job [])) None) }
    {
        let _workers = workers;
        let items = items_of(alloc, job)?;
        items.keeps();
        let slots = items.slots();
        let parked = empty_places(alloc, slots, items.nodes())?;
        let roots = Vec::with_capacity(alloc, slots)?;
        Ok(Book {
            items,
            parked,
            roots,
            of: PhantomData,
        })
    }

    /// Gives the worker the next item: a fusion whose children are given before a unit, and among each kind that of the
    /// least slot, then the least node.
    pub fn claim(&mut self, worker: u32) -> Claim<P, N>
        requires { worker ≤ N.workers }
        ensures unit { (permit : _) → result ≡ Claim.Unit permit → (permit.worker ≡ worker)
            × TakesUnit (course_of N.job self.old.0) (course_of N.job self.new.0) worker permit.slot permit.node
            × (self.new.1 ≡ self.old.1) }
        ensures units { (permit : _) → result ≡ Claim.Unit permit → permit.node < N.job.plan.units }
        ensures fusion { (permit : _) (a b : P) → result ≡ Claim.Fusion permit a b → (permit.worker ≡ worker)
            × HandsOut (course_of N.job self.old.0) (course_of N.job self.new.0) worker permit.slot permit.node
            self.old.1 self.new.1 a b }
        ensures pieces { (permit : _) (a b : P) → result ≡ Claim.Fusion permit a b
            → AreOfChildren P.job_of P.slot_of P.node_of P.made_of N.job permit.slot permit.node a b }
        ensures not_yet { result ≡ Claim.NotYet → (self.new ≡ self.old) × MustWait (course_of N.job self.old.0) }
        ensures over { result ≡ Claim.Over → (self.new ≡ self.old) × ((is_starved (course_of N.job self.old.0) ≡ true)
            ⊎ (is_finished (course_of N.job self.old.0) ≡ true)) }
    {
        self.items.keeps();
        match self.items.claim(worker) {
            Turn::Unit(item) => Claim::Unit(Permit::new(worker, item.slot, item.node)),
            Turn::Fusion(item, left, right) => {
                let first = take_out(&mut self.parked, left);
                let second = take_out(&mut self.parked, right);
                Claim::Fusion(Permit::new(worker, item.slot, item.node), first, second)
            }
            Turn::NotYet => Claim::NotYet,
            Turn::Over => Claim::Over,
        }
    }

    /// Gives the item of the permit, and leaves its piece for the fusion above it. Gives both back if the item isn't
    /// held by the permit's worker.
    pub fn post(&mut self, permit: Permit<N>, piece: P) -> Result<(), (Permit<N>, P)>
        requires { IsPieceAt P.job_of P.slot_of P.node_of P.made_of N.job
            (place_of N.job permit.slot permit.node) piece }
        ensures ok { OnOk result (Lets (course_of N.job self.old.0) (course_of N.job self.new.0) Gave permit.worker
            permit.slot permit.node) }
        ensures parks { OnOk result (self.new.1
            ≡ slice_set self.old.1 (place_of N.job permit.slot permit.node) (Some piece)) }
        ensures back { IfErr result (λ e. (e.0 ≡ permit) × (e.1 ≡ piece)) }
        ensures err { OnErr result ((self.new ≡ self.old)
            × (holds N.job self.old.0 permit.worker permit.slot permit.node ≡ false)) }
    {
        self.items.keeps();
        let place = place_of(self.items.nodes(), permit.slot(), permit.node());
        if !self
            .items
            .give(permit.worker(), permit.slot(), permit.node())
        {
            return Err((permit, piece));
        }
        self.parked[place] = Some(piece);
        Ok(())
    }

    /// Leaves the item of the permit, for want of memory. From then on nothing can be taken. Gives the permit back
    /// if the item isn't held by its worker.
    pub fn starve(&mut self, permit: Permit<N>) -> Result<(), Permit<N>>
        ensures ok { OnOk result (Lets (course_of N.job self.old.0) (course_of N.job self.new.0) Left permit.worker
            permit.slot permit.node × (self.new.1 ≡ self.old.1)) }
        ensures back { IfErr result (λ e. e ≡ permit) }
        ensures err { OnErr result ((self.new ≡ self.old)
            × (holds N.job self.old.0 permit.worker permit.slot permit.node ≡ false)) }
    {
        self.items.keeps();
        if !self
            .items
            .leave(permit.worker(), permit.slot(), permit.node())
        {
            return Err(permit);
        }
        Ok(())
    }

    /// The number of items.
    pub fn item_count(&self) -> usize
        ensures { result ≡ item_count (course_of N.job self.now.0) }
    {
        self.parked.as_slice().len()
    }

    /// All entries so far.
    pub fn history(&self) -> &[Entry]
        ensures { result.now ≡ self.now.0 }
    {
        self.items.history()
    }

    /// Whether every item is given or used.
    pub fn is_done(&self) -> bool
        ensures { result ≡ is_finished (course_of N.job self.now.0) }
    {
        self.items.is_done()
    }

    /// Does nothing. Its clauses say what every book keeps: the machine allows its history, a piece waits at each item
    /// that is given, the items are a forest, as the laws on histories ask, and no item has more than two entries.
    pub fn keeps(&self)
        ensures run { IsRun (course_of N.job self.now.0) }
        ensures forest { IsForest (kids_of (course_of N.job self.now.0)) }
        ensures few { item_count (course_of N.job self.now.0) ≤ 2 ^ 45 }
        ensures two { length self.now.0 ≤ 2 * item_count (course_of N.job self.now.0) }
        ensures kept { IsKept P.job_of P.slot_of P.node_of P.made_of N.job N.workers self.now.0 self.now.1 }
    {
        self.items.keeps();
        let _parked = &self.parked;
    }

    /// Whether an item was left for want of memory.
    pub fn is_starved(&self) -> bool
        ensures { result ≡ is_starved (course_of N.job self.now.0) }
    {
        self.items.is_starved()
    }

    /// The pieces of all slots' roots in the order of the slots, and all entries.
    pub fn take_roots(self) -> (Vec<P>, Vec<Entry>)
        requires { is_finished (course_of N.job self.0) ≡ true }
        ensures roots { AreRoots N.job self.1 result.0.items }
        ensures pieces { AreRootPieces P.job_of P.slot_of P.node_of P.made_of N.job result.0.items }
        ensures history { result.1.items ≡ self.0 }
    {
        let Book {
            items,
            mut parked,
            mut roots,
            ..
        } = self;
        items.keeps();
        let nodes = items.nodes();
        let slots = items.slots();
        roots_of(&mut parked, &mut roots, slots, nodes);
        (roots, items.into_history())
    }
}
