//! The links that are made over a tight edge, and their walks.

ghost use Rattle.std.specs.Prelude.{◌≡◌, ◌<◌, ℕ, [], length, IfOk, MatchResult};
ghost use Rattle.fb_trees.specs.InternalMetWalks.{IsAlong, IsBetween, IsLinkedBetween, IsLinkedOut, IsMetWalk, IsOut, IsOutWalk, IsOverSource, IsOverSources};

use fb_graph::{NoMemory, Scope};
use fb_links::{LinkId, Links, turn_from};
use fb_regions::{Regions, Step, Walk};
use std::alloc::Global;

/// Makes the link over a tight edge between two outer nodes, along the source walks of its ends, and returns its number.
/// Returns an error if memory runs out; no link is made then.
pub fn link_between<S: Scope>(
    alloc: Global,
    regions: &Regions<S>,
    links: &mut Links,
    edge: u32,
) -> Result<LinkId, NoMemory>
    requires { (a b : ℕ) × IsBetween (S.problem regions.now.scope) regions.now.nodes edge a b }
    ensures { MatchResult result (IsLinkedBetween (S.problem regions.now.scope) regions.now.nodes edge links.old links.new)
        (λ _. links.new ≡ links.old) }
{
    let buffer = links.take_buffer(alloc);
    let walk = met_walk(regions, buffer, edge)?;
    links.make(alloc, walk)
}

/// Makes the link over a tight edge from an outer node to the boundary, along the source walk of its inner end, and returns
/// its number. Returns an error if memory runs out; no link is made then.
pub fn link_out<S: Scope>(
    alloc: Global,
    regions: &Regions<S>,
    links: &mut Links,
    edge: u32,
) -> Result<LinkId, NoMemory>
    requires { (a v : ℕ) × IsOut (S.problem regions.now.scope) regions.now.nodes edge a v }
    ensures { MatchResult result (IsLinkedOut (S.problem regions.now.scope) regions.now.nodes edge links.old links.new)
        (λ _. links.new ≡ links.old) }
{
    let buffer = links.take_buffer(alloc);
    let walk = out_walk(regions, buffer, edge)?;
    links.make(alloc, walk)
}

/// The walk of a tight link between the two outer nodes over the ends of a tight edge: from the source of the edge's
/// first end, over the edge, and back to the source of its second end. It takes the room of the buffer.
fn met_walk<S: Scope>(regions: &Regions<S>, buffer: Vec<Step>, edge: u32) -> Result<Walk, NoMemory>
    requires between { (a b : ℕ) × IsBetween (S.problem regions.now.scope) regions.now.nodes edge a b }
    requires empty { buffer.items ≡ [] }
    ensures sources { IfOk result (IsOverSources (S.problem regions.now.scope) regions.now.nodes edge) }
    ensures between { IfOk result (λ walk. (a b : ℕ) → IsBetween (S.problem regions.now.scope) regions.now.nodes edge a b
        → IsMetWalk (S.problem regions.now.scope) regions.now.nodes a b walk) }
{
    regions.keeps();
    let mut steps = buffer;
    let step = step_along(regions, edge);
    regions.push_source_walk(&mut steps, step.from)?;
    steps.push(step)?;
    let back = steps.len();
    regions.push_source_walk(&mut steps, step.to)?;
    turn_from(&mut steps, back);
    Ok(Walk::from_vec(steps))
}

/// The step over the edge from its first end to its second.
fn step_along<S: Scope>(regions: &Regions<S>, edge: u32) -> Step
    requires { edge < length (S.problem regions.now.scope).edges }
    ensures { IsAlong (S.problem regions.now.scope) edge result }
{
    let scope = regions.scope();
    let (from, to) = scope.ends(edge);
    Step {
        from,
        to,
        edge,
        weight: scope.weight(edge),
    }
}

/// The walk of a tight link from the outer node over the inner end of a tight edge to the boundary: from the source of
/// that end, and over the edge. It takes the room of the buffer.
fn out_walk<S: Scope>(regions: &Regions<S>, buffer: Vec<Step>, edge: u32) -> Result<Walk, NoMemory>
    requires out { (a v : ℕ) × IsOut (S.problem regions.now.scope) regions.now.nodes edge a v }
    requires empty { buffer.items ≡ [] }
    ensures source { IfOk result (IsOverSource (S.problem regions.now.scope) regions.now.nodes edge) }
    ensures out { IfOk result (λ walk. (a v : ℕ) → IsOut (S.problem regions.now.scope) regions.now.nodes edge a v
        → IsOutWalk (S.problem regions.now.scope) regions.now.nodes a v walk) }
{
    regions.keeps();
    let mut steps = buffer;
    let step = regions.step_over(edge);
    regions.push_source_walk(&mut steps, step.from)?;
    steps.push(step)?;
    Ok(Walk::from_vec(steps))
}
