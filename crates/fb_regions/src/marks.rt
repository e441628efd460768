ghost use Rattle.std.specs.Prelude.{◌≡◌, ◌<◌, ℕ, length, is_some, option_and_then, option_map, replicate, set, All, IsSome, OnErr, OnOk, None, Some};
ghost use Rattle.fb_graph.specs.Certificate.{AreDistinct};
ghost use Rattle.fb_graph.specs.Parity.{is_in};
ghost use Rattle.fb_regions.specs.InternalNodes.{before_of, mark_of, under_of};
ghost use Rattle.fb_regions.specs.InternalTables.{HasRoomFor, value_of};

use crate::NodeId;
use crate::sparse::SparseTable;
use fb_graph::NoMemory;
use std::alloc::Global;
use std::marker::Model;

/// The last step of a vertex's walk: the vertex from which it leads, and the edge over which it leads.
#[derive(Clone, Copy)]
pub struct Hop {
    pub from: u32,
    pub edge: u32,
}

/// How a vertex came to the node that took it up.
#[derive(Clone, Copy)]
pub struct Mark {
    /// The defect from which its walk leads.
    pub source: u32,
    /// The vertex listed before it. The first of a list has none, and this number says nothing there.
    pub before: u32,
    /// The last step of the walk; none for a defect.
    pub by: Option<Hop>,
    /// The name of the node of that defect alone.
    pub leaf: NodeId,
    /// The weight of the walk.
    pub distance: u64,
    /// The number of vertices that the node held before it.
    pub rank: usize,
    /// The value of the layer below the one that it began.
    pub under: u64,
}

/// The marks of the vertices that nodes hold, which contracts see as a list with an entry for each vertex. The first mark
/// takes room for a mark of each vertex, of which it touches none; nothing else takes memory.
#[derive(Drop)]
pub struct Marks {
    /// The number of vertices, with or without a mark.
    vertices: u32,
    /// The marks that there are. Until the first one it has no room.
    table: SparseTable<Mark>,
}

impl Model for Marks {
    ghost use Rattle.std.specs.Prelude.{List, Option};
    ghost use Rattle.fb_regions.specs.declared.marks.Mark.{Mark};
    ghost use Rattle.fb_regions.specs.InternalNodes.{marks_in};
    ghost use Rattle.fb_regions.specs.InternalTables.{HasRoomFor};

    ghost Value = { List (Option Mark) };

    ghost view = { λ m. marks_in m.vertices m.table };

    ghost invariant = { λ m. HasRoomFor m.vertices m.table };
}

impl Marks {
    /// No vertex has a mark. Takes no memory.
    pub fn new(alloc: Global, vertices: u32) -> Marks
        ensures { result ≡ replicate vertices None }
    {
        Marks {
            vertices,
            table: SparseTable::empty(alloc),
        }
    }

    /// The number of vertices, with or without a mark.
    pub fn vertices(&self) -> u32
        ensures { result ≡ length self.now }
    {
        self.vertices
    }

    /// The mark of a vertex; none if no node holds it.
    pub fn at(&self, v: u32) -> Option<&Mark>
        ensures { option_map (λ m. m.now) result ≡ mark_of self.now v }
    {
        self.table.keeps();
        self.table.get_ref(v)
    }

    /// The last step of a vertex's walk; none for a defect and for a vertex without mark.
    pub fn hop_to(&self, v: u32) -> Option<Hop>
        ensures { result ≡ option_and_then (λ m. m.by) (mark_of self.now v) }
    {
        self.at(v)?.by
    }

    /// The vertex listed before this one, which says nothing at the first of a list; 0 for a vertex without mark.
    pub fn before(&self, v: u32) -> u32
        ensures { result ≡ before_of self.now v }
    {
        match self.at(v) {
            Some(mark) => mark.before,
            None => 0,
        }
    }

    /// The value of the layer below the one that a vertex began; 0 for a vertex without mark.
    pub fn under(&self, v: u32) -> u64
        ensures { result ≡ under_of self.now v }
    {
        match self.at(v) {
            Some(mark) => mark.under,
            None => 0,
        }
    }

    /// Gives the vertex the mark. Takes memory only if no vertex had one yet.
    pub fn put(&mut self, alloc: Global, v: u32, mark: Mark) -> Result<(), NoMemory>
        requires { v < length self.old }
        ensures ok { OnOk result (self.new ≡ set self.old v (Some mark)) }
        ensures err { OnErr result (self.new ≡ self.old) }
    {
        self.table.keeps();
        make_room(alloc, &mut self.table, self.vertices)?;
        self.table.keeps();
        self.table.enter(v, mark);
        Ok(())
    }

    /// Gives the vertex the mark. Another vertex, or this one, has one already, so it takes no memory.
    pub fn put_beside(&mut self, other: u32, v: u32, mark: Mark)
        requires below { v < length self.old }
        requires other { IsSome (mark_of self.old other) }
        ensures { self.new ≡ set self.old v (Some mark) }
    {
        self.table.keeps();
        self.table.enter(v, mark);
    }

    /// Takes the vertex's mark away.
    pub fn take(&mut self, v: u32)
        ensures { self.new ≡ set self.old v None }
    {
        self.table.leave(v);
    }

    /// Takes all marks away, at the cost of none.
    pub fn clear(&mut self)
        ensures { self.new ≡ replicate (length self.old) None }
    {
        self.table.clear();
    }

    /// The vertices that have marks, each once, in any order.
    pub fn marked(&self) -> &[u32]
        ensures distinct { AreDistinct result.now }
        ensures within { All (λ v. v < length self.now) result.now }
        ensures marked { (v : ℕ) → is_in result.now v ≡ is_some (mark_of self.now v) }
    {
        self.table.keeps();
        self.table.keys()
    }
}

/// Gives the table room for each number below the bound, if it has none yet.
fn make_room(alloc: Global, table: &mut SparseTable<Mark>, bound: u32) -> Result<(), NoMemory>
    requires { HasRoomFor bound table.old }
    ensures room { OnOk result (table.new.bound ≡ bound) }
    ensures values { (k : ℕ) → value_of table.new k ≡ value_of table.old k }
    ensures err { OnErr result (table.new ≡ table.old) }
{
    if table.bound() < bound {
        *table = SparseTable::new(alloc, bound)?;
    }
    Ok(())
}
