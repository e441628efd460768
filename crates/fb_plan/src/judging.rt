//! The rules of a plan, each with the first place that breaks it.

ghost use Rattle.std.specs.Prelude.{◌≡◌, ◌+◌, ◌<◌, ◌^◌, ◌&&◌, ◌||◌, ◌==◌, false, nat_lt, nat_le, length, get_or, IfOk, None, All};
ghost use Rattle.std.specs.Option.{option_or};
ghost use Rattle.fb_plan.specs.InternalLoads.{IsClaim};
ghost use Rattle.fb_graph.specs.Problem.{edge_at};
ghost use Rattle.fb_graph.specs.Limits.{is_real_in};
ghost use Rattle.fb_plan.specs.Plans.{are_unrelated, goes_across, owner_of};
ghost use Rattle.fb_plan.specs.Rules.{child_fault, is_out_of_range, is_used_twice, joins_of, root_fault, twice_fault, unowned_fault, use_fault};
ghost use Rattle.fb_graph.specs.Leasts.{least};

use crate::faults::PlanFault;
use crate::loads::{Measure, loads};
use crate::parts::{Join, OwnedRange};
use crate::plan::Plan;
use fb_graph::{Graph, NoMemory};
use std::alloc::Global;

/// The first real vertex that no range or more than one holds, if any.
#[tactic(auto, using(crate::proofs::Stages::cover))]
pub fn judge_cover(
    alloc: Global,
    graph: &Graph,
    claims: &[OwnedRange],
) -> Result<Option<PlanFault>, NoMemory>
    requires { All (IsClaim graph.now.vertices) claims.now }
    ensures { IfOk result (λ fault. fault ≡ option_or (unowned_fault graph.now claims.now) (twice_fault graph.now claims.now)) }
{
    let counts = loads(alloc, graph.vertices(), claims, Measure::Ranges)?;
    match first_unowned(graph, &counts) {
        Some(v) => return Ok(Some(PlanFault::VertexUnowned(u64::from(v)))),
        None => {}
    }
    match first_twice(graph, &counts) {
        Some(v) => Ok(Some(PlanFault::VertexTwice(u64::from(v)))),
        None => Ok(None),
    }
}

/// The first rule on children that the fusions break, if any.
#[tactic(auto, using(crate::proofs::Stages::fusions))]
pub fn judge_fusions(
    alloc: Global,
    nodes: usize,
    units: usize,
    fusions: &[Join],
) -> Result<Option<PlanFault>, NoMemory>
    requires { nodes ≡ units + length fusions.now }
    ensures { IfOk result (λ fault. fault ≡ option_or (child_fault units (joins_of fusions.now)) (option_or (use_fault (joins_of fusions.now)) (root_fault units (length fusions.now)))) }
{
    match first_out_of_range(units, fusions) {
        Some(i) => return Ok(Some(PlanFault::ChildOutOfRange(i as u64))),
        None => {}
    }
    match first_used_twice(alloc, nodes, fusions) {
        Ok(None) => {}
        Ok(Some(i)) => return Ok(Some(PlanFault::ChildUsedTwice(i as u64))),
        Err(NoMemory) => return Err(NoMemory),
    }
    if units == 0 || units - 1 != fusions.len() {
        return Ok(Some(PlanFault::NotOneRoot));
    }
    Ok(None)
}

/// The first real vertex that no range holds, the number of those that hold each being given.
pub fn first_unowned(graph: &Graph, counts: &[u128]) -> Option<u32>
    requires { length counts.now ≡ graph.now.vertices }
    ensures { result ≡ least graph.now.vertices (λ v. is_real_in graph.now v && get_or counts.now v 0 == 0) }
{
    for v in 0..graph.vertices() {
        if is_unowned(graph, counts, v) {
            return Some(v);
        }
    }
    None
}

fn is_unowned(graph: &Graph, counts: &[u128], v: u32) -> bool
    requires vertex { v < graph.now.vertices }
    requires count { length counts.now ≡ graph.now.vertices }
    ensures { result ≡ (is_real_in graph.now v && get_or counts.now v 0 == 0) }
{
    !graph.is_virtual(v) && counts[v as usize] == 0
}

fn is_owned_twice(graph: &Graph, counts: &[u128], v: u32) -> bool
    requires vertex { v < graph.now.vertices }
    requires count { length counts.now ≡ graph.now.vertices }
    ensures { result ≡ (is_real_in graph.now v && nat_lt 1 (get_or counts.now v 0)) }
{
    !graph.is_virtual(v) && 1 < counts[v as usize]
}

/// The first real vertex that two ranges hold.
pub fn first_twice(graph: &Graph, counts: &[u128]) -> Option<u32>
    requires { length counts.now ≡ graph.now.vertices }
    ensures { result ≡ least graph.now.vertices (λ v. is_real_in graph.now v && nat_lt 1 (get_or counts.now v 0)) }
{
    for v in 0..graph.vertices() {
        if is_owned_twice(graph, counts, v) {
            return Some(v);
        }
    }
    None
}

/// The first fusion with a child that isn't before it.
pub fn first_out_of_range(units: usize, fusions: &[Join]) -> Option<usize>
    requires { units + length fusions.now < 2 ^ 64 }
    ensures { result ≡ least (length (joins_of fusions.now)) (is_out_of_range units (joins_of fusions.now)) }
{
    for (i, fusion) in fusions.iter().enumerate() {
        if is_out_of_range((units + i) as u64, fusion) {
            return Some(i);
        }
    }
    None
}

fn is_out_of_range(number: u64, fusion: &Join) -> bool
    ensures { result ≡ (nat_le number fusion.now.left || nat_le number fusion.now.right) }
{
    number <= fusion.left || number <= fusion.right
}

/// The first fusion that names one node twice, or a node that an earlier one names.
pub fn first_used_twice(
    alloc: Global,
    nodes: usize,
    fusions: &[Join],
) -> Result<Option<usize>, NoMemory>
    requires { All (λ join. (join.left < nodes) × (join.right < nodes)) fusions.now }
    ensures { IfOk result (λ i. i ≡ least (length (joins_of fusions.now)) (is_used_twice (joins_of fusions.now))) }
{
    let mut used = vec![in alloc; false; nodes]?;
    for (i, fusion) in fusions.iter().enumerate() {
        if is_used_twice(&used, fusion) {
            return Ok(Some(i));
        }
        used[fusion.left as usize] = true;
        used[fusion.right as usize] = true;
    }
    Ok(None)
}

fn is_used_twice(used: &[bool], fusion: &Join) -> bool
    requires left { fusion.now.left < length used.now }
    requires right { fusion.now.right < length used.now }
    ensures { result ≡ (fusion.now.left == fusion.now.right || get_or used.now fusion.now.left false || get_or used.now fusion.now.right false) }
{
    fusion.left == fusion.right || used[fusion.left as usize] || used[fusion.right as usize]
}

/// The first edge that joins two vertices whose owners are not one within the other's subtree.
pub fn first_across(graph: &Graph, plan: &Plan) -> Option<u32>
    requires { length plan.now.owners ≡ graph.now.vertices }
    ensures { result ≡ least (length graph.now.edges) (λ e. goes_across plan.now (edge_at graph.now.edges e)) }
{
    graph.limits();
    for e in 0..graph.edge_count() {
        let (first, second) = graph.ends(e);
        if is_across(plan, first, second) {
            return Some(e);
        }
    }
    None
}

/// Whether both vertices have owners, and neither lies within the other's subtree.
fn is_across(plan: &Plan, first: u32, second: u32) -> bool
    requires first { first < length plan.now.owners }
    requires second { second < length plan.now.owners }
    ensures { result ≡ are_unrelated plan.now (owner_of plan.now first) (owner_of plan.now second) }
{
    match (plan.owner(first), plan.owner(second)) {
        (Some(one), Some(other)) => !(plan.is_within(one, other) || plan.is_within(other, one)),
        _ => false,
    }
}
