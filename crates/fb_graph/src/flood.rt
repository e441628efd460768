ghost use Rattle.std.specs.Prelude.{◌≡◌, ◌<◌, ◌≤◌, [], length, slice_index, IfOk, OnOk, OnErr};
ghost use Rattle.fb_graph.specs.InternalFlooding.{with_vertex};

use crate::faults::NoMemory;
use std::alloc::Global;
use std::marker::Model;

/// The vertices that a search has reached, in their order, and the label that each of them got.
#[derive(Debug, Drop)]
pub struct Flood {
    labels: Vec<u32>,
    flags: Vec<bool>,
    order: Vec<u32>,
}

impl Model for Flood {
    ghost use Rattle.fb_graph.specs.InternalFlooding.{Reached, IsReached};

    ghost Value = { Reached };

    ghost view = { λ f. record { labels = f.labels.items; order = f.order.items } };

    ghost invariant = { λ f. IsReached f.labels.items f.flags.items f.order.items };
}

impl Flood {
    /// A search among `n` vertices that has reached none.
    pub fn new(alloc: Global, n: u32) -> Result<Flood, NoMemory>
        ensures labels { IfOk result (λ f. length f.labels ≡ n) }
        ensures order { IfOk result (λ f. f.order ≡ []) }
    {
        let labels = vec![in alloc; 0; n as usize]?;
        let flags = vec![in alloc; false; n as usize]?;
        Ok(Flood {
            labels,
            flags,
            order: Vec::new(alloc),
        })
    }

    /// Reaches a vertex with this label, unless it was reached before.
    pub fn reach(&mut self, v: u32, label: u32) -> Result<(), NoMemory>
        requires { v < length self.old.labels }
        ensures ok { OnOk result (self.new ≡ with_vertex self.old v label) }
        ensures err { OnErr result (self.new ≡ self.old) }
    {
        if self.flags[v as usize] {
            return Ok(());
        }
        self.order.push(v)?;
        self.flags[v as usize] = true;
        self.labels[v as usize] = label;
        Ok(())
    }

    /// How many vertices were reached.
    pub fn len(&self) -> usize
        ensures count { result ≡ length self.now.order }
        ensures limit { result ≤ length self.now.labels }
    {
        self.order.len()
    }

    /// The vertex that was reached at place `i`, counted from 0.
    pub fn vertex_at(&self, i: usize) -> u32
        requires { i < length self.now.order }
        ensures value { result ≡ slice_index self.now.order i }
        ensures below { result < length self.now.labels }
    {
        self.order[i]
    }

    /// The label of each vertex.
    pub fn into_labels(self) -> Vec<u32>
        ensures { result.items ≡ self.labels }
    {
        self.labels
    }
}
