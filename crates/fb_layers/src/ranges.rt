//! The ranges of a plan's nodes.

ghost use Rattle.std.specs.Prelude.{◌≡◌, ℕ, ◌+◌, ◌<◌, ◌≤◌, [], length, map, get_or, slice_set, IfOk, OnOk};
ghost use Rattle.fb_graph.specs.Limits.{most_vertices};
ghost use Rattle.fb_plan.specs.Plans.{IsPlan, most_units};
ghost use Rattle.fb_plan.specs.Rules.{joins_of, seams_of};
ghost use Rattle.fb_layers.specs.Layers.{layer_at};
ghost use Rattle.fb_layers.specs.Runs.{add_vertex};
ghost use Rattle.fb_layers.specs.InternalCovers.{AreNodes, HoldOwned, all_ranges, owners_by, tree_by_nodes};

use crate::depths::Layers;
use crate::runs::add_vertex;
use fb_gen::Fusion;
use fb_graph::{Graph, NoMemory};
use fb_plan::{Join, Plan, PlanFault};
use std::alloc::Global;
use std::marker::Model;

/// The ranges of a plan's units, and its fusions with those of their seams.
#[derive(Drop)]
struct NodeRanges {
    units: Vec<Vec<(u64, u64)>>,
    joins: Vec<Join>,
}

impl Model for NodeRanges {
    ghost use Rattle.std.specs.Prelude.{map};
    ghost use Rattle.fb_plan.specs.Rules.{joins_of, seams_of};
    ghost use Rattle.fb_layers.specs.InternalCovers.{Ranges};

    ghost Value = { Ranges };

    ghost view = { λ r. record {
      units = map (λ u. u.items) r.units.items;
      seams = seams_of r.joins.items;
      joins = joins_of r.joins.items;
    } };
}

/// A list of `count` nodes without ranges.
fn no_ranges(alloc: Global, count: usize) -> Result<Vec<Vec<(u64, u64)>>, NoMemory>
    ensures len { IfOk result (λ v. length v.items ≡ count) }
    ensures none { IfOk result (λ v. (n : ℕ) → get_or (map (λ u. u.items) v.items) n [] ≡ []) }
{
    let mut lists = Vec::new(alloc);
    for n in 0..count {
        lists.push(Vec::new(alloc))?;
    }
    Ok(lists)
}

/// The fusions with seams without ranges.
fn no_seams(alloc: Global, fusions: &[Fusion]) -> Result<Vec<Join>, NoMemory>
    ensures joins { IfOk result (λ v. joins_of v.items ≡ map (λ f. (f.left, f.right)) fusions.now) }
    ensures none { IfOk result (λ v. (n : ℕ) → get_or (seams_of v.items) n [] ≡ []) }
{
    let mut joins = Vec::new(alloc);
    for fusion in fusions {
        joins.push(Join {
            left: fusion.left,
            right: fusion.right,
            seam: Vec::new(alloc),
        })?;
    }
    Ok(joins)
}

impl NodeRanges {
    /// No ranges of any node.
    fn new(alloc: Global, fusions: &[Fusion]) -> Result<NodeRanges, NoMemory>
        requires { length fusions.now < most_units }
        ensures units { IfOk result (λ r. length r.units ≡ length fusions.now + 1) }
        ensures joins { IfOk result (λ r. r.joins ≡ map (λ f. (f.left, f.right)) fusions.now) }
        ensures none { IfOk result (λ r. (n : ℕ) → get_or (all_ranges r) n [] ≡ []) }
        ensures seams { IfOk result (λ r. length r.seams ≡ length fusions.now) }
    {
        let units = no_ranges(alloc, fusions.len() + 1)?;
        let joins = no_seams(alloc, fusions)?;
        Ok(NodeRanges { units, joins })
    }

    /// Adds a vertex to the ranges of a node.
    fn add(&mut self, node: u64, vertex: u32) -> Result<(), NoMemory>
        requires { node < length (all_ranges self.old) }
        ensures joins { OnOk result (self.new.joins ≡ self.old.joins) }
        ensures units { OnOk result (length self.new.units ≡ length self.old.units) }
        ensures seams { OnOk result (length self.new.seams ≡ length self.old.seams) }
        ensures ranges { OnOk result (all_ranges self.new
            ≡ slice_set (all_ranges self.old) node (add_vertex (get_or (all_ranges self.old) node []) vertex)) }
    {
        let node = node as usize;
        let units = self.units.len();
        if node < units {
            add_vertex(&mut self.units[node], vertex)?;
            return Ok(());
        }
        add_vertex(&mut self.joins[node - units].seam, vertex)?;
        Ok(())
    }

    /// Adds a vertex to the ranges of the node of its layer, if it is real.
    fn add_real(&mut self, layers: &Layers, nodes: &[u64], vertex: u32) -> Result<(), NoMemory>
        requires vertex { vertex < length layers.now }
        requires nodes { AreNodes (length (all_ranges self.old)) nodes.now layers.now }
        requires hold { HoldOwned (length layers.now) vertex (owners_by nodes.now layers.now) (all_ranges self.old) }
        ensures joins { OnOk result (self.new.joins ≡ self.old.joins) }
        ensures units { OnOk result (length self.new.units ≡ length self.old.units) }
        ensures seams { OnOk result (length self.new.seams ≡ length self.old.seams) }
        ensures hold { OnOk result (HoldOwned (length layers.now) (vertex + 1) (owners_by nodes.now layers.now)
            (all_ranges self.new)) }
    {
        let Some(layer) = layers.layer(vertex) else {
            return Ok(());
        };
        self.add(nodes[layer as usize], vertex)?;
        Ok(())
    }

    /// Adds all real vertices to the ranges of the nodes of their layers.
    fn fill(&mut self, layers: &Layers, nodes: &[u64], vertices: u32) -> Result<(), NoMemory>
        requires vertices { length layers.now ≡ vertices }
        requires nodes { AreNodes (length (all_ranges self.old)) nodes.now layers.now }
        requires none { (n : ℕ) → get_or (all_ranges self.old) n [] ≡ [] }
        ensures joins { OnOk result (self.new.joins ≡ self.old.joins) }
        ensures units { OnOk result (length self.new.units ≡ length self.old.units) }
        ensures seams { OnOk result (length self.new.seams ≡ length self.old.seams) }
        ensures hold { OnOk result (HoldOwned (length layers.now) (length layers.now) (owners_by nodes.now layers.now)
            (all_ranges self.new)) }
    {
        for v in 0..vertices {
            self.add_real(layers, nodes, v)?;
        }
        Ok(())
    }
}

/// The plan of these fusions whose nodes own layers.
pub fn plan_of_nodes(
    alloc: Global,
    graph: &Graph,
    layers: &Layers,
    fusions: &[Fusion],
    nodes: &[u64],
) -> Result<Plan, NoMemory>
    requires count { length layers.now ≡ graph.now.vertices }
    requires few { length fusions.now < most_units }
    requires nodes { AreNodes (length fusions.now + 1 + length fusions.now) nodes.now layers.now }
    requires valid { IsPlan graph.now (tree_by_nodes fusions.now nodes.now layers.now) }
    ensures { IfOk result (λ p. p ≡ tree_by_nodes fusions.now nodes.now layers.now) }
{
    let mut ranges = NodeRanges::new(alloc, fusions)?;
    ranges.fill(layers, nodes, graph.vertices())?;
    match Plan::build(alloc, graph, &ranges.units, &ranges.joins) {
        Ok(plan) => Ok(plan),
        Err(fault) => match fault {
            PlanFault::NoMemory => Err(NoMemory),
            _ => unreachable!(),
        },
    }
}
