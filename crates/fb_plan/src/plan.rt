ghost use Rattle.std.specs.Prelude.{◌≡◌, ◌≢◌, ℕ, ◌+◌, ◌<◌, ◌≤◌, ◌&&◌, not, nat_lt, is_some, true, length, map, get_or, count_by, All, Option, Some, None, IfOk, IfErr, IfSome, Ok, Err};
ghost use Rattle.std.specs.List.{range_with_len};
ghost use Rattle.fb_graph.specs.Certificate.{AreDistinct};
ghost use Rattle.fb_graph.specs.Limits.{DecodingGraph, is_real_in, most_vertices};
ghost use Rattle.fb_graph.specs.Parity.{is_in};
ghost use Rattle.fb_plan.specs.Plans.{IsPlan, IsTree, children_of, is_owned_in, is_pending, is_within, node_count, owner_of, parent_of, root_of, single_of};
ghost use Rattle.fb_plan.specs.InternalLayout.{tree_of};
ghost use Rattle.fb_plan.specs.InternalLoads.{IsClaim};
ghost use Rattle.fb_plan.specs.Reaches.{IsReach};
ghost use Rattle.fb_plan.specs.Rules.{holds, joins_of, owner_in, plan_from};
ghost use Rattle.fb_plan.specs.Vertices.{owned_by, place_in, vertices_in};

use crate::claims::gather;
use crate::faults::PlanFault;
use crate::judging::{first_across, judge_cover, judge_fusions};
use crate::loads::{Measure, loads};
use crate::order::{Extent, Order, order_of};
use crate::owners::{owned_by, owned_by_one, pairs_of};
use crate::parts::{Join, OwnedRange, Span};
use crate::reach::{Reach, reaches_of};
use crate::tree::{parents_of, spans_of};
use fb_graph::{Graph, NoMemory};
use std::alloc::Global;
use std::marker::Model;

/// The most units of a plan.
pub const MOST_UNITS: usize = 1 << 12;

/// A plan of fusion (Wu and Zhong 2023): a binary tree whose leaves are units, and for each real vertex the node that
/// owns it. Units are numbered from 0, then come the fusions in their order; the root is the last node. A plan has
/// at most `MOST_UNITS` units.
#[derive(Drop)]
pub struct Plan {
    units: u32,
    joins: Vec<(u32, u32)>,
    owners: Vec<Option<u32>>,
    parents: Vec<Option<u32>>,
    spans: Vec<Span>,
    reaches: Vec<Reach>,
    order: Order,
}

impl Model for Plan {
    ghost use Rattle.fb_plan.specs.Plans.{PlanTree};
    ghost use Rattle.fb_plan.specs.InternalLayout.{IsLaidOut};

    ghost Value = { PlanTree };

    ghost view = { λ p. record { units = p.units; joins = p.joins.items; owners = p.owners.items } };

    ghost invariant = { λ p. IsLaidOut (record { units = p.units; joins = p.joins.items; owners = p.owners.items })
        p.parents.items p.spans.items p.reaches.items p.order };
}

impl Plan {
    /// The plan of one unit, which owns every real vertex.
    #[tactic(auto, using(crate::proofs::Tables::one_unit))]
    pub fn single(alloc: Global, graph: &Graph) -> Result<Plan, NoMemory>
        ensures plan { IfOk result (λ p. p ≡ single_of graph.now) }
        ensures valid { IfOk result (IsPlan graph.now) }
    {
        graph.limits();
        let owners = owned_by_one(alloc, graph)?;
        Plan::planted(alloc, 1, Vec::new(alloc), owners)
    }

    /// The plan of these ranges and fusions, or the first rule that they break. The vertices of a range are those from
    /// its first number up to and without its second; virtual ones are ignored.
    pub fn build(
        alloc: Global,
        graph: &Graph,
        units: &[Vec<(u64, u64)>],
        fusions: &[Join],
    ) -> Result<Plan, PlanFault>
        ensures ok { IfOk result (λ p. plan_from graph.now (map (λ u. u.items) units.now) fusions.now ≡ Ok p) }
        ensures valid { IfOk result (IsPlan graph.now) }
        ensures err { IfErr result (λ e. e ≢ PlanFault.NoMemory → plan_from graph.now (map (λ u. u.items) units.now) fusions.now ≡ Err e) }
    {
        if units.len() > MOST_UNITS {
            return Err(PlanFault::TooManyUnits);
        }
        let Some(nodes) = units.len().checked_add(fusions.len()) else {
            return Err(PlanFault::NoMemory);
        };
        let claims = match gather(alloc, graph.vertices(), units, fusions, nodes) {
            Ok(claims) => claims,
            Err(fault) => return Err(fault),
        };
        match judge_cover(alloc, graph, &claims) {
            Ok(None) => {}
            Ok(Some(fault)) => return Err(fault),
            Err(NoMemory) => return Err(PlanFault::NoMemory),
        }
        match judge_fusions(alloc, nodes, units.len(), fusions) {
            Ok(None) => {}
            Ok(Some(fault)) => return Err(fault),
            Err(NoMemory) => return Err(PlanFault::NoMemory),
        }
        let Ok(plan) = Plan::grown(alloc, graph, &claims, units.len() as u32, fusions) else {
            return Err(PlanFault::NoMemory);
        };
        match first_across(graph, &plan) {
            Some(e) => Err(PlanFault::EdgeAcross(u64::from(e))),
            None => Ok(plan),
        }
    }

    /// The plan whose owners are the nodes of the ranges.
    fn grown(
        alloc: Global,
        graph: &Graph,
        claims: &[OwnedRange],
        units: u32,
        fusions: &[Join],
    ) -> Result<Plan, NoMemory>
        requires claims { All (IsClaim graph.now.vertices) claims.now }
        requires nodes { All (λ c. c.node < units + length fusions.now) claims.now }
        requires once { (v : ℕ) → v < graph.now.vertices → is_real_in graph.now v ≡ true → count_by (holds v) claims.now ≡ 1 }
        requires tree { IsTree (tree_of units (joins_of fusions.now)) }
        ensures { IfOk result (λ p. p ≡ record { units = units; joins = joins_of fusions.now; owners = map (owner_in graph.now claims.now) (range_with_len 0 graph.now.vertices) }) }
    {
        graph.limits();
        let nodes = loads(alloc, graph.vertices(), claims, Measure::Nodes)?;
        let owners = owned_by(alloc, graph, &nodes)?;
        let joins = pairs_of(alloc, fusions)?;
        Plan::planted(alloc, units, joins, owners)
    }

    /// The plan of a tree and owners.
    fn planted(
        alloc: Global,
        units: u32,
        joins: Vec<(u32, u32)>,
        owners: Vec<Option<u32>>,
    ) -> Result<Plan, NoMemory>
        requires tree { IsTree (tree_of units joins.items) }
        requires owners { (v n : ℕ) → get_or owners.items v None ≡ Some n → n < units + length joins.items }
        requires count { length owners.items ≤ most_vertices }
        ensures { IfOk result (λ p. p ≡ record { units = units; joins = joins.items; owners = owners.items }) }
    {
        let fusions = joins.as_slice();
        let parents = parents_of(alloc, units, fusions)?;
        let spans = spans_of(alloc, units, fusions)?;
        let nodes = units as usize + fusions.len();
        let reaches = reaches_of(alloc, nodes, owners.as_slice())?;
        let order = order_of(alloc, owners.as_slice(), spans.as_slice())?;
        Ok(Plan {
            units,
            joins,
            owners,
            parents,
            spans,
            reaches,
            order,
        })
    }

    /// The number of units.
    pub fn units(&self) -> u32
        ensures { result ≡ self.now.units }
    {
        self.units
    }

    /// The number of nodes: the units and the fusions.
    pub fn nodes(&self) -> u32
        ensures { result ≡ node_count self.now }
    {
        self.units + self.joins.len() as u32
    }

    /// The root, which is the last node.
    pub fn root(&self) -> u32
        ensures value { result ≡ root_of self.now }
        ensures last { result + 1 ≡ node_count self.now }
    {
        self.keeps();
        self.nodes() - 1
    }

    /// The two children of a node; `None` exactly for a unit.
    pub fn children(&self, node: u32) -> Option<(u32, u32)>
        requires { node < node_count self.now }
        ensures value { result ≡ children_of self.now node }
        ensures some { is_some result ≡ not (nat_lt node self.now.units) }
    {
        if node < self.units {
            None
        } else {
            Some(self.joins[(node - self.units) as usize])
        }
    }

    /// The fusion whose child a node is; `None` exactly for the root.
    #[tactic(auto, using(crate::proofs::Roots::parents))]
    pub fn parent(&self, node: u32) -> Option<u32>
        requires { node < node_count self.now }
        ensures value { result ≡ parent_of self.now node }
        ensures some { is_some result ≡ nat_lt node (root_of self.now) }
    {
        self.parents[node as usize]
    }

    /// The node that owns a vertex; `None` exactly for a virtual one.
    pub fn owner(&self, v: u32) -> Option<u32>
        requires { v < length self.now.owners }
        ensures value { result ≡ owner_of self.now v }
        ensures node { IfSome result (λ n. n < node_count self.now) }
    {
        self.owners[v as usize]
    }

    /// The range of the vertices that the node owns itself. Takes constant time.
    pub fn reach(&self, node: u32) -> Reach
        requires { node < node_count self.now }
        ensures { IsReach self.now.owners node result }
    {
        self.reaches[node as usize]
    }

    /// The vertices that the node owns itself, rising. Takes constant time.
    pub fn owned(&self, node: u32) -> &[u32]
        requires { node < node_count self.now }
        ensures { result.now ≡ owned_by self.now node }
    {
        let extent = self.order.extents[node as usize];
        &self.order.vertices[extent.own as usize..extent.end as usize]
    }

    /// The real vertices of the node's subtree: those that each node owns itself together and rising, a fusion's after
    /// its children's. There are none if there is no such node. Takes constant time.
    pub fn vertices_in(&self, node: u32) -> &[u32]
        ensures value { result.now ≡ vertices_in self.now node }
        ensures members { (v : ℕ) → is_in result.now v ≡ is_owned_in self.now node v }
        ensures distinct { AreDistinct result.now }
        ensures few { length result.now ≤ most_vertices }
    {
        if node as usize >= self.order.extents.len() {
            return &[];
        }
        let extent = self.order.extents[node as usize];
        &self.order.vertices[extent.start as usize..extent.end as usize]
    }

    /// The place of a vertex in `vertices_in`. Takes constant time.
    pub fn place_in(&self, node: u32, v: u32) -> u32
        requires { is_owned_in self.now node v ≡ true }
        ensures value { result ≡ place_in self.now node v }
        ensures below { result < length (vertices_in self.now node) }
        ensures at { get_or (vertices_in self.now node) result 0 ≡ v }
    {
        self.order.places[v as usize] - self.order.extents[node as usize].start
    }

    /// Whether a vertex is real and its owner lies outside the node's subtree.
    #[tactic(auto, using(crate::proofs::Queries::pending))]
    pub fn is_pending(&self, node: u32, v: u32) -> bool
        requires { v < length self.now.owners }
        ensures value { result ≡ is_some (owner_of self.now v) && not (is_owned_in self.now node v) }
        ensures pending { (g : DecodingGraph) → IsPlan g self.now → result ≡ is_pending self.now g node v }
    {
        self.owner(v).is_some() && !self.is_owned_in(node, v)
    }

    /// Whether a vertex has its owner in the node's subtree.
    #[tactic(auto, using(crate::proofs::Queries::owned))]
    pub fn is_owned_in(&self, node: u32, v: u32) -> bool
        ensures { result ≡ is_owned_in self.now node v }
    {
        if v as usize >= self.owners.len() {
            return false;
        }
        match self.owner(v) {
            Some(owner) => self.is_within(node, owner),
            None => false,
        }
    }

    /// Whether a node is another one or below it.
    #[tactic(auto, using(crate::proofs::Queries::within))]
    pub fn is_within(&self, node: u32, below: u32) -> bool
        ensures { result ≡ is_within self.now node below }
    {
        if node as usize >= self.spans.len() {
            return false;
        }
        if below as usize >= self.spans.len() {
            return false;
        }
        let outer = self.spans[node as usize];
        let inner = self.spans[below as usize];
        outer.start < inner.end && inner.end <= outer.end
    }

    /// Does nothing. Its clauses say what every plan keeps.
    pub fn keeps(&self)
        ensures tree { IsTree self.now }
        ensures owners { (v n : ℕ) → owner_of self.now v ≡ Some n → n < node_count self.now }
    {
        let _units = &self.units;
    }
}
