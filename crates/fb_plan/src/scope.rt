ghost use Rattle.std.specs.Prelude.{◌≡◌, ℕ, ◌<◌, length, filter};
ghost use Rattle.std.specs.List.{range_with_len};
ghost use Rattle.fb_graph.specs.Problem.{edge_at, touches};
ghost use Rattle.fb_graph.specs.Limits.{IsShot, no_shot};
ghost use Rattle.fb_graph.specs.ShotGraphs.{shot_graph};
ghost use Rattle.fb_plan.specs.Plans.{problem_at};
ghost use Rattle.fb_plan.specs.Vertices.{place_in, vertices_in};

use crate::plan::Plan;
use fb_graph::{Graph, Scope, Shot};

/// The sub-problem of a node of a plan (Wu and Zhong 2023): the vertices owned in its subtree are real, all others
/// are boundary. It has exactly as many places as the plan has real vertices in the subtree: a vertex's place is that
/// among them (`Plan::place_in`). Edges weigh what they do for a shot of the graph, without their signs. `Job::scope` makes
/// the scope of a slot.
#[derive(Clone, Copy)]
pub struct NodeScope<'a> {
    pub graph: &'a Graph,
    pub plan: &'a Plan,
    pub node: u32,
    pub shot: &'a Shot,
    ghost fits: { IsShot graph.now shot.now },
}

impl Scope for NodeScope<'_> {
    ghost problem = { λ s. problem_at (shot_graph s.graph.now s.shot.now) s.plan.now s.node no_shot };

    ghost place_of = { λ s v. place_in s.plan.now s.node v };

    ghost place_count = { λ s. length (vertices_in s.plan.now s.node) };

    fn vertices(&self) -> u32 {
        self.graph.vertices()
    }

    fn edge_count(&self) -> u32 {
        self.graph.edge_count()
    }

    fn ends(&self, e: u32) -> (u32, u32) {
        self.graph.ends(e)
    }

    fn weight(&self, e: u32) -> u64 {
        self.shot.absolute_weight(self.graph, e)
    }

    fn edges_at(&self, v: u32) -> &[u32] {
        self.graph.edges_at(v)
    }

    fn is_real(&self, v: u32) -> bool {
        !self.graph.is_virtual(v) && self.plan.is_owned_in(self.node, v)
    }

    fn places(&self) -> u32 {
        self.plan.vertices_in(self.node).len() as u32
    }

    fn place(&self, v: u32) -> u32 {
        self.plan.place_in(self.node, v)
    }

    fn limits(&self) {
        self.graph.limits();
    }

    fn places_differ(&self) {
        let _vertices = self.plan.vertices_in(self.node);
    }
}
