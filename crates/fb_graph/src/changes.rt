//! The edges that weigh otherwise for a shot.

ghost use Rattle.std.specs.Prelude.{◌≡◌, ◌<◌, ◌≤◌, ◌==◌, ℕ, ℤ, map, length, IfOk};
ghost use Rattle.std.specs.List.Sorted.{IsPartitionPoint, IsStrictlyIncreasing};
ghost use Rattle.fb_graph.specs.ShotGraphs.{weight_by};

use crate::faults::NoMemory;
use std::alloc::Global;
use std::marker::Model;

/// Edges that weigh otherwise than in the graph, each as its number and its weight, with its sign, strictly rising by
/// number. Contracts see the list, and look a weight up by `weight_by`.
#[derive(Debug, Drop)]
pub struct ChangeTable {
    changes: Vec<(u32, i64)>,
}

impl Model for ChangeTable {
    ghost use Rattle.std.specs.Prelude.{ℕ, ℤ, List, map};
    ghost use Rattle.std.specs.List.Sorted.{IsStrictlyIncreasing};

    ghost Value = { List (ℕ × ℤ) };

    ghost view = { λ t. t.changes.items };

    ghost invariant = { λ t. IsStrictlyIncreasing (map (λ (change : ℕ × ℤ). change.0) t.changes.items) };
}

impl ChangeTable {
    /// The table of these changes.
    pub fn from_vec(changes: Vec<(u32, i64)>) -> ChangeTable
        requires { IsStrictlyIncreasing (map (λ (change : ℕ × ℤ). change.0) changes.items) }
        ensures { result ≡ changes.items }
    {
        ChangeTable { changes }
    }

    /// The changes, strictly rising by edge.
    pub fn as_slice(&self) -> &[(u32, i64)]
        ensures changes { result.now ≡ self.now }
        ensures rising { IsStrictlyIncreasing (map (λ (change : ℕ × ℤ). change.0) self.now) }
    {
        self.changes.as_slice()
    }

    /// Whether no edge weighs otherwise.
    pub fn is_empty(&self) -> bool
        ensures { result ≡ (length self.now == 0) }
    {
        self.changes.is_empty()
    }

    /// What edge `e` weighs, with its sign, if it weighs `weight` in the graph. Takes no time if there are no changes,
    /// else the logarithm of their number.
    pub fn weight(&self, e: u32, weight: i64) -> i64
        ensures { result ≡ weight_by self.now e weight }
    {
        if self.changes.is_empty() {
            return weight;
        }
        match self.changes.get(self.place_of(e)) {
            Some(change) if change.0 == e => change.1,
            _ => weight,
        }
    }

    /// An equal table.
    pub fn copy(&self, alloc: Global) -> Result<ChangeTable, NoMemory>
        ensures { IfOk result (λ t. t ≡ self.now) }
    {
        let changes = self.changes.to_vec(alloc)?;
        Ok(ChangeTable { changes })
    }

    /// The number of changes of smaller edges: the place of the change of edge `e`, if there is one.
    fn place_of(&self, e: u32) -> usize
        ensures { IsPartitionPoint (λ (change : ℕ × ℤ). change.0 < e) (λ (change : ℕ × ℤ). e ≤ change.0) self.now result }
    {
        self.changes.partition_point(|change| change.0 < e)
    }
}
