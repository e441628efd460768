ghost use Rattle.std.specs.Prelude.{◌≡◌, ◌<◌, ◌^◌, None, length, get_or, All};
ghost use Rattle.fb_graph.specs.Components.{IsFirstOdd};
ghost use Rattle.fb_graph.specs.Limits.{IsShot, no_shot, problem_of};
ghost use Rattle.fb_plan.specs.Plans.{IsPlan};
ghost use Rattle.fb_plan.specs.Laws.{IsJob};

use crate::plan::Plan;
use crate::scope::NodeScope;
use fb_graph::{Graph, Shot};
use std::marker::Model;

/// Shots of a graph to be decoded by a plan of it. A slot is a place in the list of shots. Each shot has a correction.
#[derive(Drop)]
pub struct Job<'a> {
    graph: &'a Graph,
    plan: &'a Plan,
    shots: Vec<Shot>,
}

impl<'a> Model for Job<'a> {
    ghost use Rattle.fb_plan.specs.Plans.{JobValue};
    ghost use Rattle.fb_plan.specs.Laws.{IsJob};

    ghost Value = { JobValue };

    ghost view = { λ j. record { graph = j.graph.now; plan = j.plan.now; shots = j.shots.items } };

    ghost invariant = { λ j. IsJob (record { graph = j.graph.now; plan = j.plan.now; shots = j.shots.items }) };
}

impl<'a> Job<'a> {
    /// The job of these shots, by a plan of the graph. No shot has an odd component.
    pub fn new(graph: &'a Graph, plan: &'a Plan, shots: Vec<Shot>) -> Job<'a>
        requires plan { IsPlan graph.now plan.now }
        requires count { length shots.items < 2 ^ 32 }
        requires shots { All (IsShot graph.now) shots.items }
        requires even { All (λ shot. IsFirstOdd (problem_of graph.now shot) None) shots.items }
        ensures { result ≡ record { graph = graph.now; plan = plan.now; shots = shots.items } }
    {
        graph.limits();
        Job { graph, plan, shots }
    }

    /// The graph.
    pub fn graph(&self) -> &'a Graph
        ensures { result.now ≡ self.now.graph }
    {
        self.graph
    }

    /// The plan.
    pub fn plan(&self) -> &'a Plan
        ensures { result.now ≡ self.now.plan }
    {
        self.plan
    }

    /// The shots by their slots.
    pub fn shots(&self) -> &[Shot]
        ensures { result.now ≡ self.now.shots }
    {
        self.shots.as_slice()
    }

    /// The sub-problem of a node, with the weights of a slot's shot.
    pub fn scope(&'a self, slot: u32, node: u32) -> NodeScope<'a>
        requires slot { slot < length self.now.shots }
        ensures graph { result.graph.now ≡ self.now.graph }
        ensures plan { result.plan.now ≡ self.now.plan }
        ensures node { result.node ≡ node }
        ensures shot { result.shot.now ≡ get_or self.now.shots slot no_shot }
    {
        NodeScope {
            graph: self.graph,
            plan: self.plan,
            node,
            shot: &self.shots[slot as usize],
        }
    }

    /// Does nothing. Its clause says what every job keeps.
    pub fn keeps(&self)
        ensures { IsJob self.now }
    {
        let _shots = &self.shots;
    }
}
