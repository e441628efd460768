ghost use Rattle.std.specs.Prelude.{ℕ, ◌≡◌, ◌+◌, ◌-◌, ◌*◌, ◌/◌, ◌^◌, ◌<◌, ◌≤◌, ◌==◌, ◌&&◌, ◌||◌, true, false, not, [], ◌∷◌, ◌++◌, length, map, get_or, set, nat_eq, nat_lt, None, swap, All, IfNone, IfOk, IfSome, OnErr, OnOk, MatchOption, if◌then◌else◌};
ghost use Rattle.std.specs.List.{position_or_len, swap_remove};
ghost use Rattle.indexmap.specs.IndexMap.{get, keys, values, index_map_len, spare, set_value_at};
ghost use Rattle.fb_graph.specs.Parity.{is_in};
ghost use Rattle.fb_graph.specs.Counts.{as_count};
ghost use Rattle.fb_graph.specs.Certificate.{AreDistinct};
ghost use Rattle.fb_obstacles.specs.Watched.{AreBounded, has_bound};
ghost use Rattle.fb_obstacles.specs.InternalQueue.{is_due};
ghost use Rattle.fb_obstacles.specs.InternalWatch.{AreDue, Reorders, StaysRight, StaysRightAbove, unqueued};
ghost use Rattle.fb_obstacles.specs.InternalWatching.{EntersNode, IsFirstNode, KeepsBounds, lowered_bounds, no_node};

use crate::NodeId;
use crate::edge_hasher::EdgeHasher;
use crate::queue::{Due, DueTimes};
use fb_graph::{NoMemory, Scope};
use indexmap::IndexMap;
use std::alloc::Global;
use std::marker::Model;

/// The most edges that don't wait in the queue: to pass over the bounds of so few costs no more than the queue.
const FEW: usize = 32;

/// The edges that were watched since the watch was emptied, with the bound of each.
type Known = IndexMap<u32, u64, EdgeHasher>;

/// The edges that a search looks at, each once, in any order, with a lower bound of each one's slack, and the minus nodes,
/// each with a lower bound of twice the value of its top layer. Only `new`, `make_room` and `enter_node` take memory, and only
/// `new` takes time for each edge of the scope; `clear` takes time for each edge and node that was watched, a call for a node
/// at most time logarithmic in their number, and another call that of a few reads and writes. So a watch is made once and
/// serves many searches.
#[derive(Drop)]
pub struct Watch {
    /// The watched edges are the first ones, `live` of them; behind them are those that have left, which keep their entries
    /// so that the room for every edge of the scope stays. The value of a watched edge is its bound with `lowered` added:
    /// the growth, counted from when the watch was emptied, at which the edge may become tight at the earliest.
    known: Known,
    live: usize,
    /// The first of the watched edges, this many of them, wait in the queue, each with its value.
    queued: usize,
    queue: DueTimes,
    /// The growths at which the top layers of minus nodes may be empty at the earliest, counted as those of edges: a minus node
    /// shrinks by half of what bounds are lowered by. A node that isn't minus any longer leaves when it is the first.
    nodes: DueTimes,
    edge_count: u32,
    /// By how much all bounds were lowered since the watch was emptied, at most the greatest number.
    lowered: u64,
    /// The edge that last limited a step. It may be watched no longer.
    limiting: Option<u32>,
}

impl Model for Watch {
    ghost use Rattle.std.specs.Prelude.{◌-◌, map, take};
    ghost use Rattle.indexmap.specs.IndexMap.{keys, values};
    ghost use Rattle.fb_obstacles.specs.Watched.{Watched, watched_code};
    ghost use Rattle.fb_obstacles.specs.InternalWatch.{IsKept, IsQueued, node_bounds};

    ghost Value = { Watched };

    ghost coded = { watched_code };

    ghost view = { λ w. record { edge_count = w.edge_count; edges = take w.live (keys w.known); bounds = map (λ b. b - w.lowered) (take w.live (values w.known)); queued = w.queued; nodes = node_bounds w.nodes w.lowered } };

    ghost invariant = { λ w. IsKept w.known w.live w.edge_count × IsQueued w.known w.live w.queued w.queue };
}

impl Watch {
    /// Watches no edge and no node, with room for every edge of the scope.
    pub fn new<S: Scope>(alloc: Global, scope: &S) -> Result<Watch, NoMemory>
        ensures { IfOk result (λ w. w ≡ record { edge_count = length (S.problem scope.now).edges; edges = []; bounds = []; queued = 0; nodes = [] }) }
    {
        let edge_count = scope.edge_count();
        // With a group of the table for each eight edges no group overflows.
        let room = edge_count as usize + edge_count as usize / 8 + 1;
        let known = IndexMap::with_capacity_and_hasher(alloc, room, EdgeHasher::new())?;
        Ok(Watch {
            known,
            live: 0,
            queued: 0,
            queue: DueTimes::new(alloc),
            nodes: DueTimes::new(alloc),
            edge_count,
            lowered: 0,
            limiting: None,
        })
    }

    /// Does nothing. Its clauses say what every watch keeps.
    pub fn keeps(&self)
        ensures distinct { AreDistinct self.now.edges }
        ensures within { All (λ e. e < self.now.edge_count) self.now.edges }
        ensures bounds { length self.now.bounds ≡ length self.now.edges }
        ensures queued { self.now.queued ≤ length self.now.edges }
    {
        let _len = self.known.len();
    }

    /// Whether the edge is watched.
    pub fn holds(&self, edge: u32) -> bool
        ensures { result ≡ is_in self.now.edges edge }
    {
        self.place_of(edge).is_some()
    }

    /// The place of a watched edge.
    fn place_of(&self, edge: u32) -> Option<usize>
        ensures { MatchOption result (is_in self.now.edges edge ≡ false)
            (λ i. (i < length self.now.edges) × (get_or self.now.edges i 0 ≡ edge) × (is_in self.now.edges edge ≡ true)) }
    {
        match self.known.get_index_of(&edge) {
            Some(place) => { if place < self.live { Some(place) } else { None } }
            None => None,
        }
    }

    /// Watches the edge from now on. Nothing is known of its slack then.
    pub fn enter(&mut self, edge: u32)
        requires { edge < self.old.edge_count }
        ensures count { self.new.edge_count ≡ self.old.edge_count }
        ensures nodes { self.new.nodes ≡ self.old.nodes }
        ensures edges { (e : ℕ) → is_in self.new.edges e ≡ (is_in self.old.edges e || (e == edge)) }
        ensures bounds { StaysRight (λ e. (e == edge) ≡ false) self.old self.new }
    {
        let _place = self.place_entered(edge);
    }

    /// Watches the edge from now on, with this bound of its slack, or a lower one where the sum with `lowered` isn't a number of
    /// 64 bits.
    pub(crate) fn enter_with(&mut self, edge: u32, bound: u64)
        requires { edge < self.old.edge_count }
        ensures count { self.new.edge_count ≡ self.old.edge_count }
        ensures nodes { self.new.nodes ≡ self.old.nodes }
        ensures edges { (e : ℕ) → is_in self.new.edges e ≡ (is_in self.old.edges e || (e == edge)) }
        ensures bounds { StaysRightAbove (λ _. bound) (λ e. e == edge) self.old self.new }
    {
        let place = self.place_entered(edge);
        self.keeps();
        self.set_bound(place, bound);
    }

    /// Watches the edge from now on, and returns its place, where it doesn't wait in the queue. Nothing is known of its slack
    /// then.
    fn place_entered(&mut self, edge: u32) -> usize
        requires { edge < self.old.edge_count }
        ensures count { self.new.edge_count ≡ self.old.edge_count }
        ensures nodes { self.new.nodes ≡ self.old.nodes }
        ensures edges { (e : ℕ) → is_in self.new.edges e ≡ (is_in self.old.edges e || (e == edge)) }
        ensures bounds { StaysRight (λ e. (e == edge) ≡ false) self.old self.new }
        ensures within { (self.new.queued ≤ result) × (result < length self.new.edges) }
        ensures at { get_or self.new.edges result 0 ≡ edge }
    {
        self.keeps();
        match self.place_or_add(edge) {
            Some(place) => self.forget(place),
            None => self.len() - 1,
        }
    }

    /// The place of the edge if it is watched; if not, it is from now on.
    fn place_or_add(&mut self, edge: u32) -> Option<usize>
        requires { edge < self.old.edge_count }
        ensures { MatchOption result
            ((is_in self.old.edges edge ≡ false)
            × (self.new ≡ record self.old { edges = self.old.edges ++ edge ∷ []; bounds = self.old.bounds ++ 0 ∷ [] }))
            (λ i. (self.new ≡ self.old) × (i < length self.old.edges) × (get_or self.old.edges i 0 ≡ edge)
            × (is_in self.old.edges edge ≡ true)) }
    {
        let _len = self.known.len();
        let place = place_in(&mut self.known, edge);
        if place < self.live {
            return Some(place);
        }
        bring(&mut self.known, place, self.live, self.lowered);
        self.live += 1;
        None
    }

    /// Nothing is known any longer of the slack of the edge at this place, which then doesn't wait in the queue. Returns its new
    /// place.
    fn forget(&mut self, place: usize) -> usize
        requires { place < length self.old.edges }
        ensures count { self.new.edge_count ≡ self.old.edge_count }
        ensures nodes { self.new.nodes ≡ self.old.nodes }
        ensures edges { (e : ℕ) → is_in self.new.edges e ≡ is_in self.old.edges e }
        ensures bounds { StaysRight (λ e. (e == get_or self.old.edges place 0) ≡ false) self.old self.new }
        ensures within { (self.new.queued ≤ result) × (result < length self.new.edges) }
        ensures at { get_or self.new.edges result 0 ≡ get_or self.old.edges place 0 }
    {
        let place = self.taken_from_queue(place);
        self.keeps();
        self.set_bound(place, 0);
        place
    }

    /// Watches the edge no longer.
    pub fn leave(&mut self, edge: u32)
        ensures count { self.new.edge_count ≡ self.old.edge_count }
        ensures nodes { self.new.nodes ≡ self.old.nodes }
        ensures edges { (e : ℕ) → is_in self.new.edges e ≡ (is_in self.old.edges e && not (e == edge)) }
        ensures len { length self.new.edges + as_count (is_in self.old.edges edge) ≡ length self.old.edges }
        ensures bounds { (limit : ℕ → ℕ) → AreBounded limit self.old → AreBounded limit self.new }
    {
        if let Some(place) = self.place_of(edge) {
            self.leave_at(place);
        }
    }

    /// Watches the edge at this place no longer.
    fn leave_at(&mut self, place: usize)
        requires { place < length self.old.edges }
        ensures count { self.new.edge_count ≡ self.old.edge_count }
        ensures nodes { self.new.nodes ≡ self.old.nodes }
        ensures edges { (e : ℕ) → is_in self.new.edges e ≡ (is_in self.old.edges e && not (e == get_or self.old.edges place 0)) }
        ensures len { length self.new.edges + 1 ≡ length self.old.edges }
        ensures bounds { (limit : ℕ → ℕ) → AreBounded limit self.old → AreBounded limit self.new }
    {
        let place = self.taken_from_queue(place);
        self.keeps();
        self.take_out(place);
    }

    /// Takes the edge at this place out of the queue, if it waits there, and returns its new place.
    fn taken_from_queue(&mut self, place: usize) -> usize
        requires { place < length self.old.edges }
        ensures within { (self.new.queued ≤ result) × (result < length self.new.edges) }
        ensures at { get_or self.new.edges result 0 ≡ get_or self.old.edges place 0 }
        ensures bound { get_or self.new.bounds result 0 ≡ get_or self.old.bounds place 0 }
        ensures same { Reorders self.old self.new }
    {
        self.keeps();
        if place < self.queued {
            self.unqueue(place);
            self.queued
        } else {
            place
        }
    }

    /// Takes the edge at this place out of the queue: it comes to stand behind those that wait there.
    fn unqueue(&mut self, place: usize)
        requires { place < self.old.queued }
        ensures { self.new ≡ unqueued place self.old }
    {
        self.queued -= 1;
        exchange(&mut self.known, place, self.queued);
    }

    /// Moves the edge at this place, which isn't in the queue, behind the watched ones. The last one takes its place, and
    /// those before it keep theirs.
    pub(crate) fn take_out(&mut self, place: usize)
        requires within { place < length self.old.edges }
        requires queued { self.old.queued ≤ place }
        ensures { self.new ≡ record { edge_count = self.old.edge_count; edges = swap_remove self.old.edges place 0; bounds = swap_remove self.old.bounds place 0; queued = self.old.queued; nodes = self.old.nodes } }
    {
        self.live -= 1;
        exchange(&mut self.known, place, self.live);
    }

    /// Watches no edge and no node any longer.
    pub fn clear(&mut self)
        ensures { self.new ≡ record { edge_count = self.old.edge_count; edges = []; bounds = []; queued = 0; nodes = [] } }
    {
        self.known.truncate(0);
        self.live = 0;
        self.queued = 0;
        self.queue.clear();
        self.nodes.clear();
        self.lowered = 0;
    }

    /// Each slack, and twice the value of each top layer, may have fallen by this much.
    pub fn lower(&mut self, length: u64)
        ensures { self.new ≡ record self.old { bounds = map (λ b. b - length) self.old.bounds; nodes = lowered_bounds length self.old.nodes } }
    {
        self.nodes.keeps();
        self.lowered = self.lowered.saturating_add(length);
    }

    /// The bound of the edge at this place.
    pub(crate) fn bound_at(&self, place: usize) -> u64
        requires { place < length self.now.edges }
        ensures { result ≡ get_or self.now.bounds place 0 }
    {
        self.known[place].saturating_sub(self.lowered)
    }

    /// Sets the bound of the edge at this place, which isn't in the queue, or a lower one where the sum with `lowered` isn't a
    /// number of 64 bits.
    pub(crate) fn set_bound(&mut self, place: usize, bound: u64)
        requires within { place < length self.old.edges }
        requires queued { self.old.queued ≤ place }
        ensures most { get_or self.new.bounds place 0 ≤ bound }
        ensures rest { self.new ≡ record self.old { bounds = set self.old.bounds place (get_or self.new.bounds place 0) } }
    {
        self.known[place] = bound.saturating_add(self.lowered);
    }

    /// Takes room in the queue for the edges that don't wait there.
    pub fn make_room(&mut self) -> Result<(), NoMemory>
        ensures { self.new ≡ self.old }
    {
        self.queue.make_room(self.live - self.queued)
    }

    /// The number of watched edges that wait in the queue.
    pub(crate) fn queued(&self) -> usize
        ensures { result ≡ self.now.queued }
    {
        self.queued
    }

    /// Takes an edge whose bound is below the limit out of the queue, or any if there is no limit. Returns whether there
    /// was one.
    pub(crate) fn pop_due(&mut self, limit: Option<u64>) -> bool
        ensures found { result ≡ true → (i : ℕ) × (i < self.old.queued) × (self.new ≡ unqueued i self.old) }
        ensures none { result ≡ false → (i : ℕ) → i < self.new.queued → MatchOption limit ⊥ (λ most. most ≤ get_or self.new.bounds i 0) }
        ensures unchanged { result ≡ false → self.new ≡ self.old }
    {
        let growth = match limit {
            Some(most) => most.checked_add(self.lowered),
            None => None,
        };
        match pop_waiting(&mut self.queue, &self.known, self.queued, growth) {
            Some(place) => {
                self.queued -= 1;
                exchange(&mut self.known, place, self.queued);
                true
            }
            None => false,
        }
    }

    /// Puts into the queue, as far as it has room, the edges from this place on that don't wait there and may not be tight,
    /// if more than a few edges are watched. Where entries that are no edge's due time outnumber the edges, the queue is
    /// built anew.
    pub(crate) fn requeue(&mut self, from: usize)
        ensures { Reorders self.old self.new }
    {
        let from = self.queued_from(from);
        self.queue_from(from);
    }

    /// The place from which on edges are to be put into the queue: behind all where few are watched; the first one where
    /// entries that are no edge's due time outnumber the edges, after the queue was emptied; or else the place that is given.
    fn queued_from(&mut self, from: usize) -> usize
        ensures { Reorders self.old self.new }
    {
        if self.live <= FEW {
            return self.live;
        }
        if self.queue.len() / 2 <= self.live {
            return from;
        }
        self.leave_queue();
        0
    }

    /// Puts into the queue, as far as it has room, the edges from this place on that don't wait there and may not be tight.
    fn queue_from(&mut self, from: usize)
        ensures { Reorders self.old self.new }
    {
        let mut place = from.max(self.queued);
        while place < self.live {
            self.queue_at(place);
            place += 1;
        }
    }

    /// No edge waits in the queue any longer.
    fn leave_queue(&mut self)
        ensures { self.new ≡ record self.old { queued = 0 } }
    {
        self.queue.clear();
        self.queued = 0;
    }

    /// Puts the edge at this place into the queue, if it may not be tight and there is room. It comes to stand first of those
    /// that didn't wait there.
    fn queue_at(&mut self, place: usize)
        requires within { place < length self.old.edges }
        requires queued { self.old.queued ≤ place }
        ensures same { Reorders self.old self.new }
        ensures queued { self.new.queued ≤ self.old.queued + 1 }
    {
        let growth = self.known[place];
        if growth <= self.lowered {
            return;
        }
        let edge = self.known.keys().as_slice()[place];
        if self.queue.push(growth, u64::from(edge)) {
            exchange(&mut self.known, place, self.queued);
            self.queued += 1;
        }
    }

    /// Watches the node from now on, which has a top layer of this value and becomes minus. Takes memory for it.
    pub fn enter_node(&mut self, node: NodeId, value: u64) -> Result<(), NoMemory>
        ensures ok { OnOk result (EntersNode node (2 * value) self.old self.new) }
        ensures err { OnErr result (self.new ≡ self.old) }
    {
        self.nodes.add(growth_after(self.lowered, value), node)?;
        Ok(())
    }

    /// The watched node whose top layer may be empty first.
    pub(crate) fn first_node(&self) -> Option<NodeId>
        ensures none { IfNone result (self.now.nodes ≡ []) }
        ensures first { IfSome result (IsFirstNode self.now.nodes) }
    {
        let first = self.nodes.first()?;
        Some(first.number)
    }

    /// Watches the node whose top layer may be empty first no longer.
    pub(crate) fn drop_first_node(&mut self)
        ensures same { self.new ≡ record self.old { nodes = self.new.nodes } }
        ensures kept { (name : ℕ) → IsFirstNode self.old.nodes name → KeepsBounds name self.old.nodes self.new.nodes }
    {
        self.nodes.drop_first();
    }

    /// Whether no top layer is empty before that of the first node, which has this value now. If another one may be, the bound
    /// of the first node is raised to what it is.
    pub(crate) fn settle_first_node(&mut self, value: u64) -> bool
        ensures same { self.new ≡ record self.old { nodes = self.new.nodes } }
        ensures settled { result ≡ true → (self.new ≡ self.old)
            × ((name limit : ℕ) → has_bound self.old.nodes name limit ≡ true → 2 * value ≤ limit) }
        ensures raised { result ≡ false → (name : ℕ) → IsFirstNode self.old.nodes name
            → KeepsBounds name self.old.nodes self.new.nodes × (has_bound self.new.nodes name (2 * value) ≡ true) }
    {
        let Some(first) = self.nodes.first() else {
            return false;
        };
        let growth = growth_after(self.lowered, value);
        if growth <= first.growth && growth < u64::MAX {
            return true;
        }
        self.nodes.postpone_first(growth);
        false
    }

    /// The number of watched nodes.
    pub(crate) fn node_count(&self) -> usize
        ensures { result ≡ length self.now.nodes }
    {
        self.nodes.len()
    }

    /// The watched node at a place.
    pub(crate) fn node_at(&self, place: usize) -> NodeId
        requires { place < length self.now.nodes }
        ensures { result ≡ (get_or self.now.nodes place no_node).name }
    {
        self.nodes.number_at(place)
    }

    /// The edge limits the step.
    pub(crate) fn set_limiting(&mut self, edge: u32)
        ensures { self.new ≡ self.old }
    {
        self.limiting = Some(edge);
    }

    /// The edge that limited the last step, as a hint: it may be another watched edge, or none, and nothing but speed rests
    /// on it.
    pub fn limiting(&self) -> Option<u32>
        ensures { IfSome result (λ e. is_in self.now.edges e ≡ true) }
    {
        let edge = self.limiting?;
        if self.holds(edge) { Some(edge) } else { None }
    }

    /// The number of watched edges.
    pub fn len(&self) -> usize
        ensures { result ≡ length self.now.edges }
    {
        self.live
    }

    /// Whether no edge is watched.
    pub fn is_empty(&self) -> bool
        ensures { result ≡ (length self.now.edges == 0) }
    {
        self.live == 0
    }

    /// The watched edges.
    pub fn edges(&self) -> &[u32]
        ensures { result.now ≡ self.now.edges }
    {
        let _len = self.known.len();
        &self.known.keys().as_slice()[..self.live]
    }
}

/// The place of the edge in the map, which gets an entry at its end for an edge that it doesn't have.
fn place_in(known: &mut Known, edge: u32) -> usize
    requires room { get nat_eq known.old edge ≡ None → 0 < spare known.old }
    ensures index { result ≡ position_or_len (nat_eq edge) (keys known.old) }
    ensures within { result < index_map_len known.new }
    ensures found { get_or (keys known.new) result 0 ≡ edge }
    ensures entries { known.new.entries ≡ (if nat_lt result (index_map_len known.old) then known.old.entries else known.old.entries ++ (edge, 0) ∷ []) }
    ensures room { index_map_len known.old + spare known.old ≤ index_map_len known.new + spare known.new }
{
    match known.get_index_of(&edge) {
        Some(place) => place,
        None => match known.insert_full(edge, 0) {
            Ok((place, _)) => place,
            Err(_) => unreachable!(),
        },
    }
}

/// Gives the entry at the place the bound, and exchanges it with the one at the earlier place.
fn bring(known: &mut Known, place: usize, first: usize, bound: u64)
    requires order { first ≤ place }
    requires within { place < index_map_len known.old }
    ensures entries { known.new.entries ≡ swap (set_value_at known.old.entries place bound) place first }
    ensures len { index_map_len known.new ≡ index_map_len known.old }
    ensures spare { spare known.old ≤ spare known.new }
{
    known[place] = bound;
    exchange(known, place, first);
}

/// Exchanges two entries. An entry that is in its place already costs nothing.
fn exchange(known: &mut Known, one: usize, other: usize)
    requires one { one < index_map_len known.old }
    requires other { other < index_map_len known.old }
    ensures entries { known.new.entries ≡ swap known.old.entries one other }
    ensures len { index_map_len known.new ≡ index_map_len known.old }
    ensures room { spare known.old ≤ spare known.new }
{
    if one != other {
        known.swap_indices(one, other);
    }
}

/// The edge that is due.
fn edge_of(due: Due) -> Option<u32>
    ensures { MatchOption result (2 ^ 32 ≤ due.number) (λ edge. edge ≡ due.number) }
{
    match u32::try_from(due.number) {
        Ok(edge) => Some(edge),
        Err(_) => None,
    }
}

/// The place of the edge that is due, if it waits in the queue with this growth.
fn place_due(known: &Known, queued: usize, due: Due) -> Option<usize>
    requires within { queued ≤ index_map_len known.now }
    requires small { All (λ e. e < 2 ^ 32) (keys known.now) }
    ensures { MatchOption result
        ((i : ℕ) → i < queued → get_or (keys known.now) i 0 ≡ due.number → get_or (values known.now) i 0 ≡ due.growth → ⊥)
        (λ place. (place < queued) × (get_or (values known.now) place 0 ≡ due.growth)
        × ((i : ℕ) → i < queued → get_or (keys known.now) i 0 ≡ due.number → i ≡ place)) }
{
    let edge = edge_of(due)?;
    match known.get_index_of(&edge) {
        Some(place) => {
            if place < queued && known[place] == due.growth {
                Some(place)
            } else {
                None
            }
        }
        None => None,
    }
}

/// Takes due times out of the queue up to the first that is before the limit and is that of an edge that waits. Returns the
/// place of that edge.
fn pop_waiting(
    queue: &mut DueTimes,
    known: &Known,
    queued: usize,
    limit: Option<u64>,
) -> Option<usize>
    requires within { queued ≤ index_map_len known.now }
    requires small { All (λ e. e < 2 ^ 32) (keys known.now) }
    requires due { AreDue queue.old (values known.now) (keys known.now) queued }
    ensures some { IfSome result (λ place. (place < queued)
        × ((i : ℕ) → i < queued → (i ≡ place → ⊥) → is_due queue.new (get_or (values known.now) i 0) (get_or (keys known.now) i 0) ≡ true)) }
    ensures none { IfNone result ((i : ℕ) → i < queued → MatchOption limit ⊥ (λ most. most ≤ get_or (values known.now) i 0)) }
    ensures due { IfNone result (AreDue queue.new (values known.now) (keys known.now) queued) }
{
    while let Some(due) = queue.pop_before(limit) {
        let place = place_due(known, queued, due);
        if place.is_some() {
            return place;
        }
    }
    None
}

/// The growth at which a top layer of this value is empty if its node is minus all the time, or the greatest number.
fn growth_after(lowered: u64, value: u64) -> u64
    ensures most { result ≤ 2 * value + lowered }
    ensures exact { result < 2 ^ 64 - 1 → result ≡ 2 * value + lowered }
{
    value.saturating_mul(2).saturating_add(lowered)
}
