ghost use Rattle.std.specs.Prelude.{◌≡◌, ℕ, ◌<◌, length, filter};
ghost use Rattle.std.specs.List.{range_with_len};
ghost use Rattle.fb_graph.specs.Problem.{edge_at, touches};
ghost use Rattle.fb_graph.specs.Limits.{no_shot, problem_of};

use crate::graph::Graph;
use crate::scope::Scope;

/// The sub-problem of everything: a whole graph as a scope.
#[derive(Clone, Copy)]
pub struct Whole<'a>(pub &'a Graph);

impl Scope for Whole<'_> {
    ghost problem = { λ w. problem_of w.0.now no_shot };

    ghost place_of = { λ w v. v };

    ghost place_count = { λ w. w.0.now.vertices };

    fn vertices(&self) -> u32 {
        self.0.vertices()
    }

    fn edge_count(&self) -> u32 {
        self.0.edge_count()
    }

    fn ends(&self, e: u32) -> (u32, u32) {
        self.0.ends(e)
    }

    fn weight(&self, e: u32) -> u64 {
        self.0.absolute_weight(e)
    }

    fn edges_at(&self, v: u32) -> &[u32] {
        self.0.edges_at(v)
    }

    fn is_real(&self, v: u32) -> bool {
        !self.0.is_virtual(v)
    }

    fn places(&self) -> u32 {
        self.0.vertices()
    }

    fn place(&self, v: u32) -> u32 {
        v
    }

    fn limits(&self) {
        self.0.limits();
    }

    fn places_differ(&self) {
        self.0.limits();
    }
}
