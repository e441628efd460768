//! The edges that weigh otherwise by a value, of its members `erasures` and `dynamic_weights`.

ghost use Rattle.std.specs.Prelude.{◌≡◌, ◌<◌, ℕ, ◌++◌, length, map, codes, reverse, IfOk, IfErr, OnOk, Ok, Err, None, Some, option_map, All};
ghost use Rattle.fb_graph.specs.Limits.{AreChanges, IsChange};
ghost use Rattle.serde_json.specs.Find.{get};
ghost use Rattle.serde_json.specs.View.{view, items_view};
ghost use Rattle.fb_json.specs.JsonText.{natural_of};
ghost use Rattle.fb_shots_json.specs.TextJson.{changes_fault, changes_in, each_of, entries_in, erasure_fault, first_fault, last_changes, listed_changes, pair_fault, pair_of};
ghost use Rattle.fb_records.specs.Steps.{IfRefused};

use crate::answer::Kind;
use crate::entries::naturals;
use fb_graph::{Graph, MOST_WEIGHT};
use fb_records::{NoMemory, Stop};
use serde_json::Value;
use std::alloc::Global;

/// The edges that weigh otherwise by a value, rising, each with its weight, of either sign.
pub fn changes(alloc: Global, graph: &Graph, value: &Value) -> Result<Vec<(u32, i64)>, Stop<Kind>>
    ensures ok { IfOk result (λ v. changes_in (length graph.now.edges) (view value.now) ≡ Ok v.items) }
    ensures changes { IfOk result (λ v. AreChanges (length graph.now.edges) v.items) }
    ensures refused { IfErr result (IfRefused (λ kind. changes_in (length graph.now.edges) (view value.now) ≡ Err kind)) }
{
    let Some(erasures) = erasures(alloc, value.get("erasures"))? else {
        return Err(Stop::Refused(Kind::NotChanges));
    };
    let Some(pairs) = pairs(alloc, value.get("dynamic_weights"))? else {
        return Err(Stop::Refused(Kind::NotChanges));
    };
    if let Some(kind) = changes_fault(graph, &erasures, &pairs) {
        return Err(Stop::Refused(kind));
    }
    let mut changes = listed_changes(alloc, graph, &erasures, &pairs)?;
    keep_last(&mut changes)?;
    Ok(changes)
}

/// The erased edges: none if the member isn't there or null.
fn erasures(alloc: Global, member: Option<&Value>) -> Result<Option<Vec<u64>>, NoMemory>
    ensures { IfOk result (λ found. option_map (λ v. v.items) found
        ≡ entries_in natural_of (option_map (λ v. view v.now) member.entry)) }
{
    match member {
        None | Some(Value::Null) => Ok(Some(Vec::new(alloc))),
        Some(Value::Array(entries)) => naturals(alloc, entries),
        Some(_) => Ok(None),
    }
}

/// The pairs of an edge and a weight: none if the member isn't there or null.
fn pairs(alloc: Global, member: Option<&Value>) -> Result<Option<Vec<(u64, i128)>>, NoMemory>
    ensures { IfOk result (λ found. option_map (λ v. v.items) found
        ≡ entries_in pair_of (option_map (λ v. view v.now) member.entry)) }
{
    match member {
        None | Some(Value::Null) => Ok(Some(Vec::new(alloc))),
        Some(Value::Array(entries)) => each_pair(alloc, entries),
        Some(_) => Ok(None),
    }
}

/// The entries of a list, if each is a pair of an edge and a weight.
fn each_pair(alloc: Global, values: &[Value]) -> Result<Option<Vec<(u64, i128)>>, NoMemory>
    ensures { IfOk result (λ found. option_map (λ v. v.items) found ≡ each_of pair_of (items_view values.now)) }
{
    let mut found = Vec::with_capacity(alloc, values.len())?;
    for value in values {
        let Some(entry) = pair(value) else {
            return Ok(None);
        };
        found.push(entry)?;
    }
    Ok(Some(found))
}

/// A pair of an edge and what it weighs.
fn pair(value: &Value) -> Option<(u64, i128)>
    ensures { result ≡ pair_of (view value.now) }
{
    let [edge, weight] = value.as_array()?.as_slice() else {
        return None;
    };
    let edge = edge.as_u64()?;
    let weight = weight.as_number()?.as_i128()?;
    Some((edge, weight))
}

/// Why an erased edge is refused.
fn erasure_fault(graph: &Graph, edge: u64) -> Option<Kind>
    ensures { result ≡ erasure_fault (length graph.now.edges) edge }
{
    if edge >= u64::from(graph.edge_count()) {
        Some(Kind::ShotEdgeOutOfRange)
    } else {
        None
    }
}

/// Why a pair of an edge and a weight is refused.
fn pair_fault(graph: &Graph, pair: (u64, i128)) -> Option<Kind>
    ensures { result ≡ pair_fault (length graph.now.edges) pair }
{
    let (edge, weight) = pair;
    if edge >= u64::from(graph.edge_count()) {
        Some(Kind::ShotEdgeOutOfRange)
    } else if weight.unsigned_abs() % 2 == 1 {
        Some(Kind::OddShotWeight)
    } else if weight > i128::from(MOST_WEIGHT) {
        Some(Kind::ShotWeightTooLarge)
    } else if weight < -i128::from(MOST_WEIGHT) {
        Some(Kind::ShotWeightTooSmall)
    } else {
        None
    }
}

/// Why the first erased edge that is refused is.
fn erasures_fault(graph: &Graph, erasures: &[u64]) -> Option<Kind>
    ensures { result ≡ first_fault (erasure_fault (length graph.now.edges)) erasures.now }
{
    for edge in erasures {
        if let Some(kind) = erasure_fault(graph, *edge) {
            return Some(kind);
        }
    }
    None
}

/// Why the first pair that is refused is.
fn pairs_fault(graph: &Graph, pairs: &[(u64, i128)]) -> Option<Kind>
    ensures { result ≡ first_fault (pair_fault (length graph.now.edges)) pairs.now }
{
    for pair in pairs {
        if let Some(kind) = pair_fault(graph, *pair) {
            return Some(kind);
        }
    }
    None
}

/// Why the first of the erased edges, and then of the pairs, that is refused is.
fn changes_fault(graph: &Graph, erasures: &[u64], pairs: &[(u64, i128)]) -> Option<Kind>
    ensures { result ≡ changes_fault (length graph.now.edges) erasures.now pairs.now }
{
    if let Some(kind) = erasures_fault(graph, erasures) {
        return Some(kind);
    }
    pairs_fault(graph, pairs)
}

/// A pair as a change.
fn change_by(graph: &Graph, pair: (u64, i128)) -> (u32, i64)
    requires { IsChange (length graph.now.edges) pair }
    ensures { result ≡ pair }
{
    graph.limits();
    let (edge, weight) = pair;
    (edge as u32, weight as i64)
}

/// The changes as they are listed: the pairs, and then each erased edge, which has weight 0.
fn listed_changes(
    alloc: Global,
    graph: &Graph,
    erasures: &[u64],
    pairs: &[(u64, i128)],
) -> Result<Vec<(u32, i64)>, NoMemory>
    requires { changes_fault (length graph.now.edges) erasures.now pairs.now ≡ None }
    ensures listed { IfOk result (λ v. v.items ≡ listed_changes erasures.now pairs.now) }
{
    graph.limits();
    let mut listed = Vec::with_capacity(alloc, pairs.len() + erasures.len())?;
    for pair in pairs {
        listed.push(change_by(graph, *pair))?;
    }
    for edge in erasures {
        listed.push((*edge as u32, 0))?;
    }
    Ok(listed)
}

/// Of the changes of each edge the last one, the edges rising. A list that rises takes one pass.
fn keep_last(changes: &mut Vec<(u32, i64)>) -> Result<(), NoMemory>
    ensures last { OnOk result ((edge_count : ℕ) → All (λ change. change.0 < edge_count) changes.old.items
        → changes.new.items ≡ last_changes edge_count changes.old.items) }
    ensures kept { OnOk result ((edge_count : ℕ) → All (IsChange edge_count) changes.old.items
        → AreChanges edge_count changes.new.items) }
{
    changes.reverse();
    changes.sort_by_key(|change| change.0)?;
    changes.dedup_by_key(|change| change.0);
    Ok(())
}
