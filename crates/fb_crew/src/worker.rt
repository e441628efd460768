//! A worker at a board: what it claims, solves and posts, and the list of what it did.

ghost use Rattle.std.specs.Prelude.{◌≡◌, ◌+◌, ◌*◌, ◌<◌, List, [], None, Some, length, vec_capacity, All, OnOk};
ghost use Rattle.fb_book.specs.Books.{AreOfChildren, IsPieceAt, place_of};
ghost use Rattle.fb_hands.specs.Gates.{HasPassed};
ghost use Rattle.fb_slots.specs.Seats.{seat_that_claimed, seat_that_gave, seat_that_left, seat_that_took};
ghost use Rattle.fb_crew.specs.InternalSeats.{IsEnded};

use fb_book::{Board, Entry, EntryKind, Piece};
use fb_graph::NoMemory;
use fb_hands::{Gate, Hands, Item, ItemRunner};
use fb_slots::{After, Claimed, SlotBook, SlotSeat, Ticket};
use std::alloc::Global;

/// A worker's seat, and the list of what it did. The list has room for the next entries before the board is asked.
#[derive(Drop)]
pub(crate) struct Worker<P: Piece, N: Board> {
    pub seat: SlotSeat<P, N>,
    pub entries: Vec<Entry>,
    pub ghost same: { entries.items ≡ seat.entries },
}

/// That this worker did this with the ticket's item.
fn entry_of<N: Board>(kind: EntryKind, worker: u32, ticket: &Ticket<N>) -> Entry
    ensures { result ≡ record { kind = kind; worker = worker; slot = ticket.now.slot; node = ticket.now.node } }
{
    Entry {
        kind,
        worker,
        slot: ticket.slot(),
        node: ticket.node(),
    }
}

impl<P: Piece, N: Board> Worker<P, N> {
    /// The worker of a seat, which has done nothing yet.
    pub fn new(alloc: Global, seat: SlotSeat<P, N>) -> Worker<P, N>
        requires { seat.entries ≡ [] }
        ensures { result.seat ≡ seat }
    {
        Worker {
            seat,
            entries: Vec::new(alloc),
        }
    }

    /// The ticket's item.
    fn item_of(&self, ticket: &Ticket<N>) -> Item
        ensures worker { result.worker ≡ self.now.seat.worker }
        ensures slot { result.slot ≡ ticket.now.slot }
        ensures node { result.node ≡ ticket.now.node }
    {
        Item {
            worker: self.seat.worker(),
            slot: ticket.slot(),
            node: ticket.node(),
        }
    }

    /// Takes the next unit, if one is left.
    fn claim(&mut self, board: &SlotBook<P, N>) -> Claimed<N>
        requires own { self.old.seat.board ≡ board.now }
        requires open { self.old.seat.ends ≡ 0 }
        requires free { self.old.seat.held ≡ None }
        requires room { length self.old.entries.items + 1 < vec_capacity self.old.entries }
        ensures unit { (ticket : _) → result ≡ Claimed.Unit ticket → (ticket.node < N.job.plan.units)
            × (self.new.seat ≡ seat_that_claimed ticket.slot ticket.node self.old.seat) }
        ensures left { (ticket : _) → result ≡ Claimed.Unit ticket
            → self.old.seat.claimed < length N.job.shots * N.job.plan.units }
        ensures over { result ≡ Claimed.Over → self.new.seat ≡ record self.old.seat { ends = 1 } }
        ensures room { length self.new.entries.items < vec_capacity self.new.entries }
    {
        let Worker { seat, entries, .. } = self;
        let worker = seat.worker();
        match board.claim(seat) {
            Claimed::Unit(ticket) => {
                entries.push_reserved(entry_of(EntryKind::Took, worker, &ticket));
                Claimed::Unit(ticket)
            }
            Claimed::Over => Claimed::Over,
        }
    }

    /// Gives the ticket's item, and takes the fusion above it if this was the second child.
    fn post(&mut self, board: &SlotBook<P, N>, ticket: Ticket<N>, piece: P) -> After<P, N>
        requires own { self.old.seat.board ≡ board.now }
        requires held { self.old.seat.held ≡ Some (ticket.slot, ticket.node) }
        requires piece { IsPieceAt P.job_of P.slot_of P.node_of P.made_of N.job
            (place_of N.job ticket.slot ticket.node) piece }
        requires room { length self.old.entries.items + 2 < vec_capacity self.old.entries }
        ensures done { result ≡ After.Done → self.new.seat ≡ seat_that_gave ticket.slot ticket.node self.old.seat }
        ensures fusion { (next : _) (a b : P) → result ≡ After.Fusion next a b → self.new.seat
            ≡ seat_that_took next.slot next.node (seat_that_gave ticket.slot ticket.node self.old.seat) }
        ensures later { (next : _) (a b : P) → result ≡ After.Fusion next a b
            → place_of N.job ticket.slot ticket.node < place_of N.job next.slot next.node }
        ensures pieces { (next : _) (a b : P) → result ≡ After.Fusion next a b
            → AreOfChildren P.job_of P.slot_of P.node_of P.made_of N.job next.slot next.node a b }
        ensures room { length self.new.entries.items < vec_capacity self.new.entries }
    {
        let Worker { seat, entries, .. } = self;
        let worker = seat.worker();
        let gave = entry_of(EntryKind::Gave, worker, &ticket);
        match board.post(seat, ticket, piece) {
            After::Done => {
                entries.push_reserved(gave);
                After::Done
            }
            After::Fusion(next, left, right) => {
                entries.push_reserved(gave);
                entries.push_reserved(entry_of(EntryKind::Took, worker, &next));
                After::Fusion(next, left, right)
            }
        }
    }

    /// Leaves the ticket's item for want of memory.
    fn starve(&mut self, board: &SlotBook<P, N>, ticket: Ticket<N>)
        requires own { self.old.seat.board ≡ board.now }
        requires held { self.old.seat.held ≡ Some (ticket.slot, ticket.node) }
        requires room { length self.old.entries.items < vec_capacity self.old.entries }
        ensures { self.new.seat ≡ seat_that_left ticket.slot ticket.node self.old.seat }
    {
        let Worker { seat, entries, .. } = self;
        let left = entry_of(EntryKind::Left, seat.worker(), &ticket);
        board.starve(seat, ticket);
        entries.push_reserved(left);
    }

    /// Solves the ticket's unit and posts it, and goes on with each fusion that a post gives. If memory runs out, the
    /// item that the worker holds is left.
    fn climb<T, H: Hands<P, T>, G: Gate>(
        &mut self,
        board: &SlotBook<P, N>,
        runner: &ItemRunner<'_, H, G>,
        tools: &mut T,
        ticket: Ticket<N>,
    ) -> Result<(), NoMemory>
        requires job { H.job runner.now.hands.now ≡ N.job }
        requires own { self.old.seat.board ≡ board.now }
        requires held { self.old.seat.held ≡ Some (ticket.slot, ticket.node) }
        requires unit { ticket.node < N.job.plan.units }
        requires room { length self.old.entries.items < vec_capacity self.old.entries }
        requires came { All (HasPassed (G.passed runner.now.gate.now)) self.old.seat.entries }
        ensures came { All (HasPassed (G.passed runner.now.gate.now)) self.new.seat.entries }
        ensures own { self.new.seat.board ≡ self.old.seat.board }
        ensures free { self.new.seat.held ≡ None }
        ensures same { OnOk result ((self.new.seat.ends ≡ self.old.seat.ends)
            × (self.new.seat.claimed ≡ self.old.seat.claimed)) }
    {
        let mut ticket = ticket;
        let mut piece = runner.unit::<P, T, N>(tools, self.item_of(&ticket));
        loop {
            let Ok(made) = piece else {
                self.starve(board, ticket);
                return Err(NoMemory);
            };
            if self.entries.reserve(3).is_err() {
                self.starve(board, ticket);
                return Err(NoMemory);
            }
            match self.post(board, ticket, made) {
                After::Done => return Ok(()),
                After::Fusion(next, left, right) => {
                    let item = self.item_of(&next);
                    piece = runner.fusion::<P, T, N>(tools, item, left, right);
                    ticket = next;
                }
            }
        }
    }

    /// Does items until no unit is left. Ends early if memory runs out.
    pub fn work<T, H: Hands<P, T>, G: Gate>(
        &mut self,
        board: &SlotBook<P, N>,
        runner: &ItemRunner<'_, H, G>,
        tools: &mut T,
    ) -> Result<(), NoMemory>
        requires job { H.job runner.now.hands.now ≡ N.job }
        requires own { self.old.seat.board ≡ board.now }
        requires open { self.old.seat.ends ≡ 0 }
        requires free { self.old.seat.held ≡ None }
        requires new { self.old.seat.entries ≡ [] }
        ensures free { self.new.seat.held ≡ None }
        ensures ended { OnOk result (IsEnded board.now (G.passed runner.now.gate.now) self.new.seat) }
    {
        loop {
            self.entries.reserve(2)?;
            let Claimed::Unit(ticket) = self.claim(board) else {
                return Ok(());
            };
            self.climb(board, runner, tools, ticket)?;
        }
    }
}
