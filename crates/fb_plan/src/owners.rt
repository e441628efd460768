//! The owners of the vertices.

ghost use Rattle.std.specs.Prelude.{◌≡◌, ℕ, ◌<◌, ◌^◌, true, length, map, get_or, IfOk, All};
ghost use Rattle.std.specs.List.{range_with_len};
ghost use Rattle.fb_graph.specs.Limits.{is_real_in};
ghost use Rattle.fb_plan.specs.InternalLayout.{given_owner};
ghost use Rattle.fb_plan.specs.Plans.{real_owner};
ghost use Rattle.fb_plan.specs.Rules.{joins_of};

use crate::parts::Join;
use fb_graph::{Graph, NoMemory};
use std::alloc::Global;

/// The node as the owner of a vertex that is real.
fn owner(graph: &Graph, v: u32, node: u32) -> Option<u32>
    requires { v < graph.now.vertices }
    ensures { result ≡ real_owner graph.now node v }
{
    if graph.is_virtual(v) {
        None
    } else {
        Some(node)
    }
}

/// The given node as the owner of a vertex that is real.
fn given_owner(graph: &Graph, nodes: &[u128], v: u32) -> Option<u32>
    requires vertex { v < graph.now.vertices }
    requires count { length nodes.now ≡ graph.now.vertices }
    requires small { is_real_in graph.now v ≡ true → get_or nodes.now v 0 < 2 ^ 32 }
    ensures { result ≡ given_owner graph.now nodes.now v }
{
    if graph.is_virtual(v) {
        None
    } else {
        Some(nodes[v as usize] as u32)
    }
}

/// Unit 0 as the owner of each real vertex.
pub fn owned_by_one(alloc: Global, graph: &Graph) -> Result<Vec<Option<u32>>, NoMemory>
    ensures { IfOk result (λ o. o.items ≡ map (real_owner graph.now 0) (range_with_len 0 graph.now.vertices)) }
{
    let mut owners = Vec::new(alloc);
    for v in 0..graph.vertices() {
        owners.push(owner(graph, v, 0))?;
    }
    Ok(owners)
}

/// The given node as the owner of each real vertex.
pub fn owned_by(alloc: Global, graph: &Graph, nodes: &[u128]) -> Result<Vec<Option<u32>>, NoMemory>
    requires count { length nodes.now ≡ graph.now.vertices }
    requires small { (v : ℕ) → v < graph.now.vertices → is_real_in graph.now v ≡ true → get_or nodes.now v 0 < 2 ^ 32 }
    ensures { IfOk result (λ o. o.items ≡ map (given_owner graph.now nodes.now) (range_with_len 0 graph.now.vertices)) }
{
    let mut owners = Vec::new(alloc);
    for v in 0..graph.vertices() {
        owners.push(given_owner(graph, nodes, v))?;
    }
    Ok(owners)
}

/// The children of each fusion.
pub fn pairs_of(alloc: Global, fusions: &[Join]) -> Result<Vec<(u32, u32)>, NoMemory>
    requires { All (λ join. (join.left < 2 ^ 32) × (join.right < 2 ^ 32)) fusions.now }
    ensures { IfOk result (λ j. j.items ≡ joins_of fusions.now) }
{
    let mut joins = Vec::new(alloc);
    for fusion in fusions {
        let join = (fusion.left as u32, fusion.right as u32);
        joins.push(join)?;
    }
    Ok(joins)
}
