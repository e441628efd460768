ghost use Rattle.fb_links.specs.Names.{name_by};
ghost use Rattle.std.specs.Prelude.{◌≡◌, ◌≢◌, ◌+◌, ◌<◌, ◌^◌, [], ◌∷◌, None, OnOk, MatchOption};
ghost use Rattle.fb_blossoms.specs.InternalMerged.{shifted_item, renamed_item};
ghost use Rattle.fb_blossoms.specs.InternalItems.{Item};

use crate::names::renamed_cycle;
use crate::{CycleStep, NoMemory, NodeId};
use fb_links::names::Names;
use std::alloc::Global;
use std::marker::Model;

/// What a node is made of.
#[derive(Drop)]
pub enum Shape {
    Leaf(u32),
    Cycle(Vec<CycleStep>),
}

/// A node as it is stored. Contracts see it as the item that it is.
#[derive(Drop)]
pub struct Entry {
    /// The blossom in whose cycle the node is.
    parent: Option<NodeId>,
    /// The node's place in that cycle; any number for an outer node.
    place: usize,
    /// The number of nodes made before it.
    made: u64,
    shape: Shape,
}

impl Model for Entry {
    ghost use Rattle.fb_blossoms.specs.InternalItems.{Item, item_code};
    ghost use Rattle.fb_blossoms.specs.InternalShapes.{own_of, cycle_of};

    ghost Value = { Item };

    ghost coded = { item_code };

    ghost view = { λ e. record { parent = e.parent; place = e.place; made = e.made; own = own_of e.shape; cycle = cycle_of e.shape } };
}

impl Entry {
    /// An outer node of one defect.
    pub fn leaf(made: u64, defect: u32) -> Entry
        ensures { result ≡ record { parent = None; place = 0; made = made; own = defect ∷ []; cycle = [] } }
    {
        Entry {
            parent: None,
            place: 0,
            made,
            shape: Shape::Leaf(defect),
        }
    }

    /// An outer node of a cycle.
    pub fn blossom(made: u64, cycle: Vec<CycleStep>) -> Entry
        ensures { result ≡ record { parent = None; place = 0; made = made; own = []; cycle = cycle.items } }
    {
        Entry {
            parent: None,
            place: 0,
            made,
            shape: Shape::Cycle(cycle),
        }
    }

    pub fn parent(&self) -> Option<NodeId>
        ensures { result ≡ self.now.parent }
    {
        self.parent
    }

    pub fn place(&self) -> usize
        ensures { result ≡ self.now.place }
    {
        self.place
    }

    /// The steps of the cycle; none for a leaf.
    pub fn cycle(&self) -> &[CycleStep]
        ensures { result.now ≡ self.now.cycle }
    {
        match &self.shape {
            Shape::Leaf(_) => &[],
            Shape::Cycle(cycle) => cycle.as_slice(),
        }
    }

    /// Puts the node under the parent, at this place of its cycle; with none it is outer.
    pub fn set_parent(&mut self, parent: Option<NodeId>, place: usize)
        ensures { self.new ≡ record self.old { parent = parent; place = place } }
    {
        self.parent = parent;
        self.place = place;
    }

    /// The cycle of a blossom.
    pub fn into_cycle(self) -> Vec<CycleStep>
        requires { self.cycle ≢ [] }
        ensures { result.items ≡ self.cycle }
    {
        match self.shape {
            Shape::Leaf(_) => unreachable!(),
            Shape::Cycle(cycle) => cycle,
        }
    }

    /// The defect of a leaf.
    pub fn own(&self) -> Option<u32>
        ensures { MatchOption result (self.now.own ≡ []) (λ d. self.now.own ≡ d ∷ []) }
    {
        match &self.shape {
            Shape::Leaf(defect) => Some(*defect),
            Shape::Cycle(_) => None,
        }
    }

    /// The node as if `more` further nodes had been made before it.
    pub fn made_later(self, more: u64) -> Entry
        requires { self.made + more < 2 ^ 64 }
        ensures { result ≡ shifted_item more self }
    {
        Entry {
            parent: self.parent,
            place: self.place,
            made: self.made + more,
            shape: self.shape,
        }
    }

    /// Gives the parent, and the nodes and links of the cycle, their new numbers.
    pub fn rename(&mut self, alloc: Global, names: &Names, links: &Names) -> Result<(), NoMemory>
        ensures { OnOk result (self.new ≡ renamed_item (name_by names.now) (name_by links.now) self.old) }
    {
        if let Shape::Cycle(cycle) = &self.shape {
            let renamed = renamed_cycle(alloc, cycle.as_slice(), names, links)?;
            self.shape = Shape::Cycle(renamed);
        }
        self.parent = names.of_option(self.parent);
        Ok(())
    }
}
