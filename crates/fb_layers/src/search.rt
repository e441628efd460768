ghost use Rattle.std.specs.Prelude.{◌≡◌, ℕ, ◌<◌, ◌≤◌, [], length, None, IfOk, OnOk};
ghost use Rattle.fb_layers.specs.Layers.{layer_at};
ghost use Rattle.fb_layers.specs.InternalSearch.{reached_at, with_vertex};

use fb_graph::NoMemory;
use std::alloc::Global;
use std::marker::Model;

/// A vertex that a search has reached, with its layer.
#[derive(Clone, Copy, Debug)]
pub struct Reached {
    pub vertex: u32,
    pub layer: u32,
}

/// The vertices that a search has reached, in their order, and the layer of each vertex.
#[derive(Drop)]
pub struct Search {
    layers: Vec<Option<u32>>,
    order: Vec<Reached>,
}

impl Model for Search {
    ghost use Rattle.fb_layers.specs.InternalSearch.{Found};

    ghost Value = { Found };

    ghost view = { λ s. record { layers = s.layers.items; order = s.order.items } };
}

impl Search {
    /// A search among `n` vertices that has reached none.
    pub fn new(alloc: Global, n: u32) -> Result<Search, NoMemory>
        ensures count { IfOk result (λ s. length s.layers ≡ n) }
        ensures none { IfOk result (λ s. (v : ℕ) → layer_at s.layers v ≡ None) }
        ensures order { IfOk result (λ s. s.order ≡ []) }
    {
        let layers = vec![in alloc; None; n as usize]?;
        Ok(Search {
            layers,
            order: Vec::new(alloc),
        })
    }

    /// Reaches a vertex in this layer, unless it was reached before.
    pub fn reach(&mut self, vertex: u32, layer: u32) -> Result<(), NoMemory>
        requires { vertex < length self.old.layers }
        ensures { OnOk result (self.new ≡ with_vertex self.old vertex layer) }
    {
        if self.layers[vertex as usize].is_some() {
            return Ok(());
        }
        self.order.push(Reached { vertex, layer })?;
        self.layers[vertex as usize] = Some(layer);
        Ok(())
    }

    /// How many vertices were reached.
    pub fn len(&self) -> usize
        ensures { result ≡ length self.now.order }
    {
        self.order.len()
    }

    /// The vertex that was reached at place `i`, counted from 0.
    pub fn reached_at(&self, i: usize) -> Reached
        requires { i < length self.now.order }
        ensures { result ≡ reached_at self.now.order i }
    {
        self.order[i]
    }

    /// The layer of each vertex.
    pub fn into_layers(self) -> Vec<Option<u32>>
        ensures { result.items ≡ self.layers }
    {
        self.layers
    }
}
