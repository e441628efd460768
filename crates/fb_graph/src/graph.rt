ghost use Rattle.std.specs.Prelude.{◌≡◌, ◌≢◌, ℕ, ◌*◌, ◌<◌, ◌≤◌, ◌≤ℤ◌, pos, neg_ℤ, unsigned_abs, length, slice_index, All, IfOk, IfErr, Ok, Err};
ghost use Rattle.std.specs.List.Sorted.{IsStrictlyIncreasing};
ghost use Rattle.fb_graph.specs.Limits.{detectors_of, IsGraph, most_edges, most_weight, no_shot, odd_ends, signed_weight};
ghost use Rattle.fb_graph.specs.Signs.{base_of};
ghost use Rattle.fb_graph.specs.Adjacency.{edges_at};
ghost use Rattle.fb_graph.specs.Problem.{edge_at};
ghost use Rattle.fb_graph.specs.Parity.{is_in};
ghost use Rattle.fb_graph.specs.GraphRules.{graph_of};

use crate::building::{build_edges, edges_by_vertex, mark_virtuals, numbers_flagged};
use crate::faults::{GraphFault, NoMemory};
use crate::lists::NumberList;
use crate::parts::Edge;
use crate::signs::{Signs, odd_ends, signs_of};
use std::alloc::Global;
use std::marker::Model;

/// The most vertices that a graph may have.
pub const MOST_VERTICES: u64 = 1 << 20;

/// The most edges that a graph may have.
pub const MOST_EDGES: usize = 1 << 22;

/// The greatest weight of an edge, without its sign.
pub const MOST_WEIGHT: u64 = 1 << 30;

/// A decoding graph (the solver initializer of Fusion Blossom): vertices numbered from 0, edges numbered by their
/// places, some vertices virtual. Weights are even, of either sign; the limits are `MOST_VERTICES`, `MOST_EDGES` and
/// `MOST_WEIGHT`.
#[derive(Debug, Drop)]
pub struct Graph {
    vertices: u32,
    edges: Vec<Edge>,
    virtuals: NumberList,
    adjacent: Vec<NumberList>,
    flags: Vec<bool>,
    detectors: NumberList,
    signs: Signs,
}

impl Model for Graph {
    ghost use Rattle.fb_graph.specs.Limits.{DecodingGraph};
    ghost use Rattle.fb_graph.specs.InternalLayout.{IsLaidOut};

    ghost Value = { DecodingGraph };

    ghost view = { λ g. record {
      vertices = g.vertices;
      edges = g.edges.items;
      negatives = g.signs.negatives;
      virtuals = g.virtuals;
    } };

    ghost invariant = { λ g. IsLaidOut (record {
      vertices = g.vertices;
      edges = g.edges.items;
      negatives = g.signs.negatives;
      virtuals = g.virtuals;
    })
        g.adjacent.items g.flags.items g.detectors g.signs };
}

impl Graph {
    /// The graph of these numbers, or the first rule that they break: an edge is its two ends and its weight.
    pub fn build(
        alloc: Global,
        n: u64,
        edges: &[(u64, u64, i128)],
        virtuals: &[u64],
    ) -> Result<Graph, GraphFault>
        ensures ok { IfOk result (λ g. graph_of n edges.now virtuals.now ≡ Ok g) }
        ensures err { IfErr result (λ e. e ≢ GraphFault.NoMemory → graph_of n edges.now virtuals.now ≡ Err e) }
    {
        if n > MOST_VERTICES {
            return Err(GraphFault::TooManyVertices);
        }
        if edges.len() > MOST_EDGES {
            return Err(GraphFault::TooManyEdges);
        }
        let vertices = n as u32;
        let given = edges;
        let edges = build_edges(alloc, vertices, given)?;
        let flags = mark_virtuals(alloc, vertices, virtuals)?;
        let virtuals = numbers_flagged(alloc, &flags, true)?;
        let detectors = numbers_flagged(alloc, &flags, false)?;
        let signs = signs_of(alloc, given, &edges, &flags)?;
        let adjacent = edges_by_vertex(alloc, vertices, &edges)?;
        Ok(Graph {
            vertices,
            edges,
            virtuals,
            adjacent,
            flags,
            detectors,
            signs,
        })
    }

    /// The number of vertices, virtual ones counted.
    pub fn vertices(&self) -> u32
        ensures { result ≡ self.now.vertices }
    {
        self.vertices
    }

    /// The number of edges.
    pub fn edge_count(&self) -> u32
        ensures { result ≡ length self.now.edges }
    {
        self.edges.len() as u32
    }

    /// Both ends of an edge, in the order in which they were given.
    pub fn ends(&self, e: u32) -> (u32, u32)
        requires { e < length self.now.edges }
        ensures first { result.0 ≡ (edge_at self.now.edges e).first }
        ensures second { result.1 ≡ (edge_at self.now.edges e).second }
    {
        let edge = self.edges[e as usize];
        (edge.first, edge.second)
    }

    /// The weight of an edge, with its sign.
    pub fn weight(&self, e: u32) -> i64
        requires { e < length self.now.edges }
        ensures value { result ≡ signed_weight self.now e }
        ensures light { unsigned_abs result ≤ most_weight }
    {
        let weight = self.absolute_weight(e) as i64;
        if self.is_negative(e) { -weight } else { weight }
    }

    /// The weight of an edge, without its sign.
    pub fn absolute_weight(&self, e: u32) -> u64
        requires { e < length self.now.edges }
        ensures value { result ≡ (edge_at self.now.edges e).weight }
        ensures light { result ≤ most_weight }
    {
        self.edges[e as usize].weight
    }

    /// Whether an edge weighs less than 0.
    pub fn is_negative(&self, e: u32) -> bool
        requires { e < length self.now.edges }
        ensures { result ≡ is_in self.now.negatives e }
    {
        self.signs.flags[e as usize]
    }

    /// The edges that weigh less than 0, strictly rising.
    pub fn negatives(&self) -> &[u32]
        ensures edges { result.now ≡ self.now.negatives }
        ensures rising { IsStrictlyIncreasing result.now }
    {
        self.signs.negatives.as_slice()
    }

    /// The real vertices at which an odd number of the edges end that weigh less than 0, strictly rising.
    pub fn turned(&self) -> &[u32]
        ensures vertices { result.now ≡ odd_ends self.now self.now.negatives }
        ensures rising { IsStrictlyIncreasing result.now }
    {
        self.signs.turned.as_slice()
    }

    /// What all edges that weigh less than 0 weigh together, with the sign.
    pub fn base(&self) -> i64
        ensures value { result ≡ base_of self.now no_shot }
        ensures low { neg_ℤ (pos (most_edges * most_weight)) ≤ℤ result }
        ensures high { result ≤ℤ pos 0 }
    {
        -(self.signs.total as i64)
    }

    /// The real vertices at which an odd number of the listed edges end, strictly rising. It takes the time to sort
    /// their ends.
    pub fn odd_ends(&self, alloc: Global, listed: &[u32]) -> Result<NumberList, NoMemory>
        requires { All (λ k. k < length self.now.edges) listed.now }
        ensures { IfOk result (λ v. v ≡ odd_ends self.now listed.now) }
    {
        odd_ends(alloc, &self.edges, &self.flags, listed)
    }

    /// The numbers of the edges with an end at a vertex, rising.
    pub fn edges_at(&self, v: u32) -> &[u32]
        requires { v < self.now.vertices }
        ensures { result.now ≡ edges_at self.now.edges (length self.now.edges) v }
    {
        self.adjacent[v as usize].as_slice()
    }

    /// Whether a vertex is virtual.
    pub fn is_virtual(&self, v: u32) -> bool
        requires { v < self.now.vertices }
        ensures { result ≡ is_in self.now.virtuals v }
    {
        self.flags[v as usize]
    }

    /// The number of detectors, which are the real vertices.
    pub fn detectors(&self) -> u32
        ensures { result ≡ length (detectors_of self.now) }
    {
        self.detectors.as_slice().len() as u32
    }

    /// The vertex of a detector: detector k is the k-th real vertex in rising order.
    pub fn detector_vertex(&self, k: u32) -> u32
        requires { k < length (detectors_of self.now) }
        ensures { result ≡ slice_index (detectors_of self.now) k }
    {
        self.detectors.as_slice()[k as usize]
    }

    /// Does nothing. Its clause says what every graph keeps.
    pub fn limits(&self)
        ensures { IsGraph self.now }
    {
        let _edges = &self.edges;
    }
}
