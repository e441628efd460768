ghost use Rattle.std.specs.Prelude.{◌≡◌, ℕ, ◌<◌, ◌==◌, ◌&&◌, not, length, vec_len, get_or, filter, IfOk, OnOk, OnErr, None, false};
ghost use Rattle.std.specs.List.{range_with_len};
ghost use Rattle.fb_graph.specs.Components.{IsFirstOdd};
ghost use Rattle.fb_graph.specs.Limits.{IsShot, problem_of, most_vertices};
ghost use Rattle.fb_graph.specs.Parity.{differ, is_in, is_odd_count};
ghost use Rattle.fb_graph.specs.Problem.{IsEdgeSet, Flips, edge_at, touches};
ghost use Rattle.fb_gen.specs.Drawing.{next_state, state_after, drawn_after, hits_of, shot_from};

use fb_graph::{Graph, NoMemory, NumberList, Shot};
use std::alloc::Global;
use std::marker::Model;

const FACTOR: u64 = 6364136223846793005;

const INCREMENT: u64 = 1442695040888963407;

const DROPPED_BITS: u32 = 44;

/// The state of a linear congruential generator modulo 2^64. Contracts see the state.
#[derive(Debug, Drop)]
pub struct Draws {
    state: u64,
}

impl Model for Draws {
    ghost use Rattle.std.specs.Prelude.{ℕ};

    ghost Value = { ℕ };

    ghost view = { λ d. d.state };
}

impl Draws {
    /// Draws that begin at this state.
    pub fn new(state: u64) -> Draws
        ensures { result ≡ state }
    {
        Draws { state }
    }

    /// The next number, from 0 to 1,048,575: the upper 20 bits of the next state.
    fn next_number(&mut self) -> u64
        ensures state { self.new ≡ next_state self.old }
        ensures number { result ≡ drawn_after self.old 0 }
    {
        self.state = self.state.wrapping_mul(FACTOR).wrapping_add(INCREMENT);
        self.state >> DROPPED_BITS
    }
}

/// Turns the flag of a vertex round.
fn turn(flags: &mut Vec<bool>, v: u32)
    requires { v < vec_len flags.old }
    ensures len { vec_len flags.new ≡ vec_len flags.old }
    ensures each { (u : ℕ) → u < vec_len flags.old
        → get_or flags.new.items u false ≡ differ (u == v) (get_or flags.old.items u false) }
{
    let flag = flags[v as usize];
    flags[v as usize] = !flag;
}

/// Draws once for each edge. A vertex gets a flag if an odd number of hit edges end there.
fn flags_of_hits(
    alloc: Global,
    draws: &mut Draws,
    rate: u32,
    graph: &Graph,
) -> Result<Vec<bool>, NoMemory>
    ensures state { OnOk result (draws.new ≡ state_after draws.old (length graph.now.edges)) }
    ensures len { IfOk result (λ v. length v.items ≡ graph.now.vertices) }
    ensures each { IfOk result (λ flags. (v : ℕ) → v < graph.now.vertices → get_or flags.items v false
        ≡ is_odd_count (λ k. touches v (edge_at graph.now.edges k)) (hits_of draws.old rate (length graph.now.edges))) }
{
    graph.limits();
    let mut flags = vec![in alloc; false; graph.vertices() as usize]?;
    for k in 0..graph.edge_count() {
        if draws.next_number() < u64::from(rate) {
            let (first, second) = graph.ends(k);
            turn(&mut flags, first);
            turn(&mut flags, second);
        }
    }
    Ok(flags)
}

/// Whether a vertex is real and has a flag.
fn is_real_flagged(graph: &Graph, flags: &[bool], v: u32) -> bool
    requires vertex { v < graph.now.vertices }
    requires flags { length flags.now ≡ graph.now.vertices }
    ensures { result ≡ (not (is_in graph.now.virtuals v) && get_or flags.now v false) }
{
    !graph.is_virtual(v) && flags[v as usize]
}

/// The real vertices with a flag, rising.
fn real_flagged(alloc: Global, graph: &Graph, flags: &[bool]) -> Result<Vec<u32>, NoMemory>
    requires { length flags.now ≡ graph.now.vertices }
    ensures { IfOk result (λ vs. vs.items ≡ filter (λ v. not (is_in graph.now.virtuals v) && get_or flags.now v false)
        (range_with_len 0 graph.now.vertices)) }
{
    let mut found = NumberList::from_vec(Vec::new(alloc));
    for v in 0..graph.vertices() {
        let is_wanted = is_real_flagged(graph, flags, v);
        found.push_if(is_wanted, v)?;
    }
    Ok(found.into_vec())
}

/// A shot drawn at random: one draw for each edge, in order, which is hit if the draw is below the rate (of
/// 1,048,576); the defects are the real vertices with an odd number of hit edges. The hit edges are a correction, so
/// no component is odd, and a job may have the shot.
pub fn draw(alloc: Global, draws: &mut Draws, rate: u32, graph: &Graph) -> Result<Shot, NoMemory>
    ensures shot { IfOk result (IsShot graph.now) }
    ensures defects { IfOk result (λ s. s ≡ shot_from graph.now (hits_of draws.old rate (length graph.now.edges))) }
    ensures state { OnOk result (draws.new ≡ state_after draws.old (length graph.now.edges)) }
    ensures same { OnErr result (draws.new ≡ draws.old) }
    ensures edges { IfOk result (λ s. IsEdgeSet (problem_of graph.now s)
        (hits_of draws.old rate (length graph.now.edges))) }
    ensures flips { IfOk result (λ s. Flips (problem_of graph.now s)
        (hits_of draws.old rate (length graph.now.edges))) }
    ensures even { IfOk result (λ s. IsFirstOdd (problem_of graph.now s) None) }
{
    let mut later = Draws { state: draws.state };
    let flags = flags_of_hits(alloc, &mut later, rate, graph)?;
    let defects = real_flagged(alloc, graph, &flags)?;
    let shot = Shot::from_rising(graph, defects);
    draws.state = later.state;
    Ok(shot)
}
