ghost use Rattle.std.specs.Prelude.{◌≡◌, ℕ, ◌+◌, ◌*◌, ◌^◌, ◌<◌, ◌⊎◌, true, false, [], length, IfOk};
ghost use Rattle.fb_book.specs.declared.entries.EntryKind.TheVariants.{Gave, Left};
ghost use Rattle.fb_book.specs.declared.items.Item.{Item};
ghost use Rattle.fb_book.specs.Machine.{IsForest};
ghost use Rattle.fb_book.specs.Board.{Lets, MustWait, TakesFusion, TakesUnit, children_in, is_finished, is_starved, nodes_of};
ghost use Rattle.fb_book.specs.InternalBoard.{AreParents, IsCourse, LetsNot, node_limit};

use crate::entries::{Entry, EntryKind, Status};
use crate::moves::{
    count_of, entry_of, holds, kids_at, let_go, parent_at, place_of, take, takeable_parent,
    unit_after,
};
use crate::ready::Ready;
use fb_graph::NoMemory;
use std::alloc::Global;
use std::marker::Model;

/// An item by its slot and node.
#[derive(Clone, Copy)]
pub struct Item {
    pub slot: u32,
    pub node: u32,
}

/// What a worker may do next. A fusion comes with the places of its two children.
#[derive(Clone, Copy)]
pub enum Turn {
    Unit(Item),
    Fusion(Item, usize, usize),
    NotYet,
    Over,
}

/// The items of a run with the history of what was done with them.
#[derive(Drop)]
pub struct Items {
    units: usize,
    nodes: usize,
    slots: usize,
    joins: Vec<(u32, u32)>,
    parents: Vec<Option<u32>>,
    statuses: Vec<Status>,
    ready: Ready,
    next: usize,
    unsolved: usize,
    starved: bool,
    history: Vec<Entry>,
}

impl Model for Items {
    ghost use Rattle.std.specs.Prelude.{vec_capacity};
    ghost use Rattle.fb_book.specs.Board.{Course};
    ghost use Rattle.fb_book.specs.InternalBoard.{IsItems};

    ghost Value = { Course };

    ghost view = { λ i.
        record { units = i.units; joins = i.joins.items; slots = i.slots; history = i.history.items } };

    ghost invariant = { λ i. IsItems
        (record { units = i.units; joins = i.joins.items; slots = i.slots; history = i.history.items })
        i.nodes i.parents.items i.statuses.items i.ready.0 i.ready.1 i.next i.unsolved i.starved
        (vec_capacity i.history) };
}

impl Items {
    /// A run over `slots` copies of a tree, one for each slot, with nothing taken. The joins are the children of each
    /// fusion, and each node has its parent.
    pub fn new(
        alloc: Global,
        units: u32,
        joins: Vec<(u32, u32)>,
        parents: Vec<Option<u32>>,
        slots: usize,
    ) -> Result<Items, NoMemory>
        requires some { 0 < units }
        requires few { units + length joins.items < node_limit }
        requires slots { slots < 2 ^ 32 }
        requires forest { IsForest (children_in units joins.items) }
        requires parents { AreParents units joins.items parents.items }
        ensures { IfOk result (λ i. i ≡ record { units = units; joins = joins.items; slots = slots; history = [] }) }
    {
        let units = units as usize;
        let nodes = units + joins.as_slice().len();
        let count = count_of(slots, nodes);
        let statuses = vec![in alloc; Status::Idle; count]?;
        let ready = Ready::new(alloc, count)?;
        let history = Vec::with_capacity(alloc, 2 * count)?;
        Ok(Items {
            units,
            nodes,
            slots,
            joins,
            parents,
            statuses,
            ready,
            next: 0,
            unsolved: count,
            starved: false,
            history,
        })
    }

    /// Whether every item is given or used.
    pub fn is_done(&self) -> bool
        ensures { result ≡ is_finished self.now }
    {
        self.unsolved == 0
    }

    /// Whether an item was left.
    pub fn is_starved(&self) -> bool
        ensures { result ≡ is_starved self.now }
    {
        self.starved
    }

    /// All entries so far.
    pub fn history(&self) -> &[Entry]
        ensures { result.now ≡ self.now.history }
    {
        self.history.as_slice()
    }

    /// All entries.
    pub fn into_history(self) -> Vec<Entry>
        ensures { result.items ≡ self.history }
    {
        self.history
    }

    /// The number of nodes of a slot.
    pub fn nodes(&self) -> usize
        ensures { result ≡ nodes_of self.now }
    {
        self.nodes
    }

    /// The number of slots.
    pub fn slots(&self) -> usize
        ensures { result ≡ self.now.slots }
    {
        self.slots
    }

    /// Does nothing. Its clause says what every run keeps.
    pub fn keeps(&self)
        ensures { IsCourse self.now }
    {
        let _units = &self.units;
    }

    /// Gives the worker the next item: a fusion whose children are given before a unit, and among each kind that of the
    /// least slot, then the least node.
    pub fn claim(&mut self, worker: u32) -> Turn
        ensures unit { (item : Item) → result ≡ Turn.Unit item
            → TakesUnit self.old self.new worker item.slot item.node }
        ensures fusion { (item : Item) (left right : ℕ) → result ≡ Turn.Fusion item left right
            → TakesFusion self.old self.new worker item.slot item.node left right }
        ensures not_yet { result ≡ Turn.NotYet → (self.new ≡ self.old) × MustWait self.old }
        ensures over { result ≡ Turn.Over → (self.new ≡ self.old)
            × ((is_starved self.old ≡ true) ⊎ (is_finished self.old ≡ true)) }
    {
        if self.starved {
            return Turn::Over;
        }
        if let Some(place) = self.ready.pop() {
            let Some((left, right)) = kids_at(self.units, self.joins.as_slice(), place) else {
                unreachable!()
            };
            let entry = entry_of(EntryKind::Took, worker, self.nodes, place);
            take(
                &mut self.statuses,
                &mut self.history,
                Some((left, right)),
                place,
                entry,
            );
            return Turn::Fusion(
                Item {
                    slot: entry.slot,
                    node: entry.node,
                },
                left,
                right,
            );
        }
        let place = self.next;
        if place < self.statuses.as_slice().len() {
            let entry = entry_of(EntryKind::Took, worker, self.nodes, place);
            take(&mut self.statuses, &mut self.history, None, place, entry);
            self.next = unit_after(self.units, self.nodes, place);
            return Turn::Unit(Item {
                slot: entry.slot,
                node: entry.node,
            });
        }
        if self.unsolved == 0 {
            return Turn::Over;
        }
        Turn::NotYet
    }

    /// The item is given, if the worker holds it.
    pub fn give(&mut self, worker: u32, slot: u32, node: u32) -> bool
        requires slot { slot < self.old.slots }
        requires node { node < nodes_of self.old }
        ensures yes { result ≡ true → Lets self.old self.new Gave worker slot node }
        ensures no { result ≡ false → LetsNot self.old self.new worker slot node }
    {
        let place = place_of(self.nodes, slot, node);
        if !holds(self.statuses.as_slice(), worker, place) {
            return false;
        }
        let parent = parent_at(self.nodes, self.parents.as_slice(), place);
        let entry = Entry {
            kind: EntryKind::Gave,
            worker,
            slot,
            node,
        };
        let_go(
            &mut self.statuses,
            &mut self.history,
            place,
            Status::Given,
            entry,
        );
        let parent = takeable_parent(
            self.units,
            self.joins.as_slice(),
            parent,
            self.statuses.as_slice(),
        );
        self.ready.push_some(parent);
        self.unsolved -= 1;
        true
    }

    /// The item is left, if the worker holds it. From then on nothing can be taken.
    pub fn leave(&mut self, worker: u32, slot: u32, node: u32) -> bool
        requires slot { slot < self.old.slots }
        requires node { node < nodes_of self.old }
        ensures yes { result ≡ true → Lets self.old self.new Left worker slot node }
        ensures no { result ≡ false → LetsNot self.old self.new worker slot node }
    {
        let place = place_of(self.nodes, slot, node);
        if !holds(self.statuses.as_slice(), worker, place) {
            return false;
        }
        let entry = Entry {
            kind: EntryKind::Left,
            worker,
            slot,
            node,
        };
        let_go(
            &mut self.statuses,
            &mut self.history,
            place,
            Status::Left,
            entry,
        );
        self.starved = true;
        true
    }
}
