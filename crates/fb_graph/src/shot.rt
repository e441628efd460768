ghost use Rattle.std.specs.Prelude.{◌≡◌, ◌++◌, ℕ, ◌<◌, ◌≤◌, ◌==◌, Bool, [], length, slice_index, All, IfOk, OnOk, true};
ghost use Rattle.std.specs.List.Sorted.{IsPermutation, IsStrictlyIncreasing};
ghost use Rattle.fb_graph.specs.Certificate.{AreDistinct};
ghost use Rattle.fb_graph.specs.Limits.{AreChanges, IsShot, is_real_in, most_vertices, plain_shot, signed_weight};
ghost use Rattle.fb_graph.specs.Problem.{edge_at};
ghost use Rattle.fb_graph.specs.Parity.{is_odd_count};
ghost use Rattle.fb_graph.specs.ShotGraphs.{shot_graph};
ghost use Rattle.fb_graph.specs.Signs.{base_of};

use crate::changes::ChangeTable;
use crate::faults::NoMemory;
use crate::graph::Graph;
use crate::lists::NumberList;
use crate::signs::{shortfalls, turned_by, turned_edges};
use std::alloc::Global;
use std::marker::Model;

/// What one run of an experiment reports: its defects, which are real vertices of a graph, strictly rising, and the
/// edges that weigh otherwise in this run than in the graph, strictly rising. It also keeps at which vertices these turn
/// an odd number of signs.
#[derive(Debug, Drop)]
pub struct Shot {
    defects: NumberList,
    changes: ChangeTable,
    turned: NumberList,
}

impl Model for Shot {
    ghost use Rattle.std.specs.Prelude.{◌≤◌, All, length};
    ghost use Rattle.std.specs.List.Sorted.{IsStrictlyIncreasing};
    ghost use Rattle.fb_graph.specs.Limits.{ShotValue, most_vertices};

    ghost Value = { ShotValue };

    ghost view = { λ s. record { defects = s.defects; changes = s.changes; turned = s.turned } };

    ghost invariant = { λ s. IsStrictlyIncreasing s.defects × (length s.defects ≤ most_vertices)
        × IsStrictlyIncreasing s.turned };
}

impl Shot {
    /// The shot of these defects, in any order: distinct real vertices of the graph. Every edge weighs what it does in
    /// the graph.
    pub fn from_defects(graph: &Graph, defects: Vec<u32>) -> Result<Shot, NoMemory>
        requires distinct { AreDistinct defects.items }
        requires real { All (λ v. is_real_in graph.now v ≡ true) defects.items }
        ensures members { IfOk result (λ s. IsPermutation defects.items s.defects) }
        ensures plain { IfOk result (λ s. s.changes ≡ []) }
        ensures shot { IfOk result (IsShot graph.now) }
    {
        let changes = Vec::new(*defects.allocator());
        Shot::with_changes(graph, defects, changes)
    }

    /// The shot of these defects, in any order: distinct real vertices of the graph. The listed edges weigh what the
    /// list says and all others what they do in the graph: the edges strictly rise, and each weight is even and from
    /// -1,073,741,824 to 1,073,741,824. No memory is taken if no change turns a weight's sign.
    pub fn with_changes(
        graph: &Graph,
        mut defects: Vec<u32>,
        changes: Vec<(u32, i64)>,
    ) -> Result<Shot, NoMemory>
        requires distinct { AreDistinct defects.items }
        requires real { All (λ v. is_real_in graph.now v ≡ true) defects.items }
        requires changes { AreChanges (length graph.now.edges) changes.items }
        ensures members { IfOk result (λ s. IsPermutation defects.items s.defects) }
        ensures changes { IfOk result (λ s. s.changes ≡ changes.items) }
        ensures shot { IfOk result (IsShot graph.now) }
    {
        graph.limits();
        let alloc = *changes.allocator();
        let turned = turned_by(alloc, graph, &changes)?;
        defects.sort_unstable();
        Ok(Shot {
            defects: NumberList::from_vec(defects),
            changes: ChangeTable::from_vec(changes),
            turned,
        })
    }

    /// The shot of these defects: real vertices of the graph, strictly rising. Every edge weighs what it does in the
    /// graph.
    pub fn from_rising(graph: &Graph, defects: Vec<u32>) -> Shot
        requires { IsShot graph.now (plain_shot defects.items) }
        ensures { result ≡ plain_shot defects.items }
    {
        graph.limits();
        let alloc = *defects.allocator();
        Shot {
            defects: NumberList::from_vec(defects),
            changes: ChangeTable::from_vec(Vec::new(alloc)),
            turned: NumberList::from_vec(Vec::new(alloc)),
        }
    }

    /// The number of defects.
    pub fn len(&self) -> u32
        ensures length { result ≡ length self.now.defects }
        ensures limit { result ≤ most_vertices }
    {
        self.defects.as_slice().len() as u32
    }

    /// Whether the shot has no defect.
    pub fn is_empty(&self) -> bool
        ensures { result ≡ (length self.now.defects == 0) }
    {
        self.defects.as_slice().is_empty()
    }

    /// Defect `i`, the defects being counted from 0 in rising order.
    pub fn defect(&self, i: u32) -> u32
        requires { i < length self.now.defects }
        ensures { result ≡ slice_index self.now.defects i }
    {
        self.defects.as_slice()[i as usize]
    }

    /// The defects, strictly rising.
    pub fn as_slice(&self) -> &[u32]
        ensures defects { result.now ≡ self.now.defects }
        ensures rising { IsStrictlyIncreasing self.now.defects }
    {
        self.defects.as_slice()
    }

    /// The real vertices at which the changes turn the sign of an odd number of edges, strictly rising: none if no sign
    /// is turned.
    pub fn turned(&self) -> &[u32]
        ensures vertices { result.now ≡ self.now.turned }
        ensures rising { IsStrictlyIncreasing self.now.turned }
    {
        self.turned.as_slice()
    }

    /// What an edge of the graph weighs for this shot, with its sign. Takes as long as the graph's own weight if the
    /// shot changes none, else the logarithm of the number of changes.
    pub fn weight(&self, graph: &Graph, e: u32) -> i64
        requires { e < length graph.now.edges }
        ensures { result ≡ signed_weight (shot_graph graph.now self.now) e }
    {
        self.changes.weight(e, graph.weight(e))
    }

    /// What an edge of the graph weighs for this shot, without its sign: even, and at most 1,073,741,824 if the shot is
    /// one of the graph. Takes as long as `weight`.
    pub fn absolute_weight(&self, graph: &Graph, e: u32) -> u64
        requires { e < length graph.now.edges }
        ensures { result ≡ (edge_at (shot_graph graph.now self.now).edges e).weight }
    {
        let weight = graph.absolute_weight(e);
        if self.changes.is_empty() {
            weight
        } else {
            self.changes.weight(e, weight as i64).unsigned_abs()
        }
    }

    /// What all edges that weigh less than 0 for this shot weigh together, with the sign. Takes time linear in the number
    /// of changes.
    pub fn base(&self, graph: &Graph) -> i64
        requires { IsShot graph.now self.now }
        ensures { result ≡ base_of graph.now self.now }
    {
        graph.limits();
        let (before, after) = shortfalls(graph, self.changes.as_slice());
        graph.base() + before as i64 - after as i64
    }

    /// Adds to the list the edges that weigh less than 0 in the graph and those whose sign the shot turns: modulo 2
    /// these are the edges that weigh less than 0 for the shot.
    pub fn add_negatives(&self, graph: &Graph, list: &mut Vec<u32>) -> Result<(), NoMemory>
        requires { IsShot graph.now self.now }
        ensures { OnOk result ((test : ℕ → Bool) → is_odd_count test list.new.items
            ≡ is_odd_count test (list.old.items ++ (shot_graph graph.now self.now).negatives)) }
    {
        graph.limits();
        let turned = turned_edges(*list.allocator(), graph, self.changes.as_slice())?;
        list.extend_from_slice(graph.negatives())?;
        list.extend_from_slice(turned.as_slice())?;
        Ok(())
    }

    /// An equal shot.
    pub fn copy(&self, alloc: Global) -> Result<Shot, NoMemory>
        ensures { IfOk result (λ s. s ≡ self.now) }
    {
        let defects = Vec::from_slice(alloc, self.defects.as_slice())?;
        let changes = self.changes.copy(alloc)?;
        let turned = Vec::from_slice(alloc, self.turned.as_slice())?;
        Ok(Shot {
            defects: NumberList::from_vec(defects),
            changes,
            turned: NumberList::from_vec(turned),
        })
    }
}
