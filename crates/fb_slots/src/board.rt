//! The board: claims and posts that wait for nobody.

ghost use Rattle.std.specs.Prelude.{◌≡◌, ℕ, ◌+◌, ◌*◌, ◌<◌, ◌≤◌, List, [], ◌∷◌, ◌++◌, Some, None, true, length, map, vec_capacity, IfOk};
ghost use Rattle.std.specs.List.{All};
ghost use Rattle.fb_book.specs.Books.{AreOfChildren, AreRootPieces, IsPieceAt, course_of, place_of};
ghost use Rattle.fb_book.specs.Board.{IsRun};
ghost use Rattle.fb_book.specs.Machine.{IsComplete, is_child};
ghost use Rattle.fb_slots.specs.Listed.{IsOrdered, IsWhole, listing};
ghost use Rattle.fb_slots.specs.Numbers.{numbers_down};
ghost use Rattle.fb_slots.specs.Seats.{ends_in, entries_in, new_seat, seat_that_claimed, seat_that_gave, seat_that_left, seat_that_took};
ghost use Rattle.fb_slots.specs.Slots.{IsLayout, first_hand, layout_of, losses};

use crate::calls::{Holder, Slots, another, claim, give, leave, open, take_out};
use crate::ends::{join_all, skip, take_roots};
use crate::places::Places;
use crate::seats::SlotSeat;
use crate::ticket::Ticket;
use fb_book::{Board, Piece};
use fb_graph::NoMemory;
use fb_plan::Job;
use std::alloc::Global;
use std::marker::Model;

/// The word of a fusion with one child given.
const ONE_CHILD_GIVEN: u64 = 1;

/// What a claim gives a worker.
#[derive(Drop)]
pub enum Claimed<N: Board> {
    /// A unit to be solved, which the seat now holds.
    Unit(Ticket<N>),
    /// All units are taken.
    Over,
}

/// What a post gives a worker.
#[derive(Drop)]
pub enum After<P: Piece, N: Board> {
    /// The item was a root, or its fusion's other child isn't given yet. The seat holds nothing.
    Done,
    /// The fusion above the posted item, which the seat now holds, with the pieces of its left and its right child.
    Fusion(Ticket<N>, P, P),
}

/// What a board leaves.
#[derive(Drop)]
pub enum Closed<P: Piece> {
    /// An item was left for want of memory.
    Starved,
    /// The piece of each slot's root, in the order of the slots.
    Roots(Vec<P>),
}

/// The board of a run, shared by its workers. Each works with a seat of its own, and no call waits for another worker.
/// Contracts see by which table the board is known, which its seats name. Only `new` takes memory.
#[derive(Drop)]
pub struct SlotBook<P: Piece, N: Board> {
    places: Places<N>,
    roots: Vec<P>,
    table: Slots<P, N>,
}

impl<P: Piece, N: Board> Model for SlotBook<P, N> {
    ghost use Rattle.std.specs.Prelude.{length, vec_capacity};
    ghost use Rattle.atomic_table.specs.Seated.{TableId, table_id_coded};
    ghost use Rattle.fb_slots.specs.Places.{HasRoom};
    ghost use Rattle.fb_slots.specs.Slots.{layout_of};

    ghost Value = { TableId };

    ghost coded = { table_id_coded };

    ghost view = { λ b. b.table.shared.table_id };

    ghost invariant = { λ b. HasRoom (layout_of N.job N.workers) b.table.shared.table_id
        (length N.job.shots) b.roots.items
        (vec_capacity b.roots) };
}

/// Makes a seat for each worker, and one more.
#[tactic(auto, using(crate::proofs::Numbers::next_number))]
fn seat_all<P: Piece, N: Board>(
    table: &Slots<P, N>,
    mut me: Holder<P>,
    workers: u32,
    seats: &mut Vec<SlotSeat<P, N>>,
)
    requires own { me.table_id ≡ table.now.shared.table_id }
    requires words { 0 < table.now.shared.table_id.words }
    requires layout { IsLayout (layout_of N.job N.workers) }
    requires view { me.me ≡ (first_hand (layout_of N.job N.workers), []) }
    requires workers { N.workers ≡ workers }
    requires empty { seats.old.items ≡ [] }
    requires room { workers + 1 ≤ vec_capacity seats.old }
    ensures count { length seats.new.items ≡ workers + 1 }
    ensures room { vec_capacity seats.new ≡ vec_capacity seats.old }
    ensures numbers { map (λ s. s.worker) seats.new.items ≡ numbers_down workers (workers + 1) }
    ensures open { All (λ s. s ≡ new_seat table.now.shared.table_id s.worker) seats.new.items }
{
    for number in 0..workers {
        let holder = another(table, &mut me);
        seats.push_reserved(SlotSeat::new(workers - number, holder));
    }
    seats.push_reserved(SlotSeat::new(0, me));
}

impl<P: Piece, N: Board> SlotBook<P, N> {
    /// The board of this job for this number of workers, with nothing taken, and its seats: one more than workers, each
    /// with a number of its own. The first has the number `workers` and the last 0, so that `pop` gives them in rising
    /// order.
    pub fn new(
        alloc: Global,
        job: &Job<'_>,
        workers: u32,
    ) -> Result<(SlotBook<P, N>, Vec<SlotSeat<P, N>>), NoMemory>
        requires job { N.job ≡ job.now }
        requires workers { N.workers ≡ workers }
        ensures numbers { IfOk result (λ r. map (λ s. s.worker) r.1.items ≡ numbers_down workers
            (workers + 1)) }
        ensures open { IfOk result (λ r. All (λ s. s ≡ new_seat r.0 s.worker) r.1.items) }
        ensures count { IfOk result (λ r. length r.1.items ≡ workers + 1) }
        ensures room { IfOk result (λ r. workers + 1 ≤ vec_capacity r.1) }
    {
        let places = Places::new(alloc, job, workers)?;
        places.keeps();
        let count = places.count();
        let roots = Vec::with_capacity(alloc, places.slots())?;
        let words = vec![in alloc; 0u64; count + 2]?;
        let mut seats = Vec::with_capacity(alloc, workers as usize + 1)?;
        let (table, first) = open::<P, N>(alloc, words.as_slice(), count)?;
        seat_all(&table, first, workers, &mut seats);
        Ok((
            SlotBook {
                places,
                roots,
                table,
            },
            seats,
        ))
    }

    /// Takes a unit for the seat's worker. `Over` if none is left, and the seat is then at its end.
    pub fn claim(&self, seat: &mut SlotSeat<P, N>) -> Claimed<N>
        requires own { seat.old.board ≡ self.now }
        requires open { seat.old.ends ≡ 0 }
        requires free { seat.old.held ≡ None }
        ensures unit { (ticket : _) → result ≡ Claimed.Unit ticket → (ticket.node < N.job.plan.units)
            × (seat.new ≡ seat_that_claimed ticket.slot ticket.node seat.old) }
        ensures left { (ticket : _) → result ≡ Claimed.Unit ticket
            → seat.old.claimed < length N.job.shots * N.job.plan.units }
        ensures over { result ≡ Claimed.Over → seat.new ≡ record seat.old { ends = 1 } }
    {
        self.places.keeps();
        let number = claim(&self.table, &mut seat.holder);
        match self.places.unit(number) {
            Some(place) => Claimed::Unit(self.places.ticket(place)),
            None => Claimed::Over,
        }
    }

    /// Gives the ticket's item, whose piece is then left for the fusion above it. If that fusion's other child was
    /// given before, the fusion is the seat's next item, and it gets the pieces of both children.
    pub fn post(&self, seat: &mut SlotSeat<P, N>, ticket: Ticket<N>, piece: P) -> After<P, N>
        requires own { seat.old.board ≡ self.now }
        requires held { seat.old.held ≡ Some (ticket.slot, ticket.node) }
        requires piece { IsPieceAt P.job_of P.slot_of P.node_of P.made_of N.job
            (place_of N.job ticket.slot ticket.node) piece }
        ensures done { result ≡ After.Done → seat.new ≡ seat_that_gave ticket.slot ticket.node
            seat.old }
        ensures fusion { (next : _) (a b : P) → result ≡ After.Fusion next a b
            → seat.new ≡ seat_that_took next.slot next.node (seat_that_gave ticket.slot ticket.node
            seat.old) }
        ensures parent { (next : _) (a b : P) → result ≡ After.Fusion next a b
            → is_child ((layout_of N.job N.workers).kids (place_of N.job next.slot next.node))
            (place_of N.job ticket.slot ticket.node) ≡ true }
        ensures later { (next : _) (a b : P) → result ≡ After.Fusion next a b
            → place_of N.job ticket.slot ticket.node < place_of N.job next.slot next.node }
        ensures pieces { (next : _) (a b : P) → result ≡ After.Fusion next a b
            → AreOfChildren P.job_of P.slot_of P.node_of P.made_of N.job next.slot next.node a b }
    {
        self.places.keeps();
        let place = self.places.place(&ticket);
        let counted = self.places.counted(place);
        if give(&self.table, &mut seat.holder, place, counted, piece) != ONE_CHILD_GIVEN {
            return After::Done;
        }
        let Some((left, right)) = self.places.kids(counted) else {
            unreachable!()
        };
        let first = take_out(&self.table, &mut seat.holder, left);
        let second = take_out(&self.table, &mut seat.holder, right);
        After::Fusion(self.places.ticket(counted), first, second)
    }

    /// Leaves the ticket's item for want of memory. The board then closes as `Starved`.
    pub fn starve(&self, seat: &mut SlotSeat<P, N>, ticket: Ticket<N>)
        requires own { seat.old.board ≡ self.now }
        requires held { seat.old.held ≡ Some (ticket.slot, ticket.node) }
        ensures { seat.new ≡ seat_that_left ticket.slot ticket.node seat.old }
    {
        self.places.keeps();
        let place = self.places.place(&ticket);
        leave(&self.table, &mut seat.holder, place);
    }

    /// Ends the run: takes all seats back, none of which holds an item and one of which found no unit left. `Starved`
    /// if an item was left, else the pieces of all roots. What the seats did, listed by slot, then node, with items
    /// that were left last, is a run of the board's machine.
    pub fn close(self, seats: Vec<SlotSeat<P, N>>) -> Closed<P>
        requires own { All (λ s. s.board ≡ self) seats.items }
        requires all { length seats.items ≡ N.workers + 1 }
        requires ended { 0 < ends_in seats.items }
        requires free { All (λ s. s.held ≡ None) seats.items }
        ensures starved { result ≡ Closed.Starved → 0 < losses (entries_in seats.items) }
        ensures roots { (roots : _) → result ≡ Closed.Roots roots
            → AreRootPieces P.job_of P.slot_of P.node_of P.made_of N.job roots.items }
        ensures whole { (roots : _) → result ≡ Closed.Roots roots
            → IsWhole (layout_of N.job N.workers) (entries_in seats.items) }
        ensures run { let b = layout_of N.job N.workers in
            IsRun (course_of N.job (listing b.nodes b.count (entries_in seats.items))) }
        ensures complete { (roots : _) → result ≡ Closed.Roots roots → let b = layout_of N.job N.workers in
            IsComplete b.kids b.nodes b.count (listing b.nodes b.count (entries_in seats.items)) }
        ensures ordered { IsOrdered (layout_of N.job N.workers) (entries_in seats.items) }
    {
        self.places.keeps();
        let me = join_all(&self.table, seats);
        let SlotBook {
            places,
            mut roots,
            table,
        } = self;
        let mut closed = table.close_with(me);
        if closed.word(1) != 0 {
            skip(&mut closed, 0, places.count());
            closed.free();
            return Closed::Starved;
        }
        take_roots(&mut closed, &mut roots, places.slots(), places.nodes());
        closed.free();
        Closed::Roots(roots)
    }
}
