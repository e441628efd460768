//! The entries of `defect_vertices`.

ghost use Rattle.std.specs.Prelude.{◌≡◌, ◌<◌, ◌^◌, ◌↔◌, [], IsTrue, None, IfOk, IfErr, OnOk, Ok, Err, option_map};
ghost use Rattle.std.specs.List.Sorted.{IsStrictlyIncreasing};
ghost use Rattle.fb_graph.specs.Limits.{IsShot, plain_shot};
ghost use Rattle.serde_json.specs.View.{view, items_view};
ghost use Rattle.fb_shots_json.specs.TextJson.{each_of, first_fault, defects_from, rising};
ghost use Rattle.fb_shots_json.specs.InternalEntries.{vertex_fault, real_prefix};
ghost use Rattle.fb_json.specs.JsonText.{natural_of};
ghost use Rattle.fb_records.specs.Steps.{IfRefused};

use crate::answer::Kind;
use fb_graph::Graph;
use fb_records::{NoMemory, Stop};
use serde_json::Value;
use std::alloc::Global;

/// The entries of a list, if all are whole numbers of at least 0.
pub fn naturals(alloc: Global, values: &[Value]) -> Result<Option<Vec<u64>>, NoMemory>
    ensures { IfOk result (λ found. option_map (λ v. v.items) found ≡ each_of natural_of (items_view values.now)) }
{
    let mut found = Vec::with_capacity(alloc, values.len())?;
    for value in values {
        let Some(entry) = value.as_u64() else {
            return Ok(None);
        };
        found.push(entry)?;
    }
    Ok(Some(found))
}

/// Why a number is no real vertex of the graph.
fn vertex_fault(graph: &Graph, entry: u64) -> Option<Kind>
    ensures fault { result ≡ vertex_fault graph.now entry }
    ensures fits { result ≡ None → entry < 2 ^ 32 }
{
    if entry >= u64::from(graph.vertices()) {
        Some(Kind::DefectOutOfRange)
    } else if graph.is_virtual(entry as u32) {
        Some(Kind::DefectOnVirtual)
    } else {
        None
    }
}

/// The entries before the first one that is no real vertex, and why that isn't one.
fn real_prefix(
    alloc: Global,
    graph: &Graph,
    listed: &[u64],
) -> Result<(Vec<u32>, Option<Kind>), NoMemory>
    ensures prefix { IfOk result (λ r. r.0.items ≡ real_prefix graph.now listed.now) }
    ensures fault { IfOk result (λ r. r.1 ≡ first_fault (vertex_fault graph.now) listed.now) }
{
    let mut found = Vec::with_capacity(alloc, listed.len())?;
    for entry in listed {
        if let Some(kind) = vertex_fault(graph, *entry) {
            return Ok((found, Some(kind)));
        }
        found.push(*entry as u32)?;
    }
    Ok((found, None))
}

/// Whether each number is above the one before it.
fn is_rising(numbers: &[u32]) -> bool
    ensures { IsTrue result ↔ IsStrictlyIncreasing numbers.now }
{
    numbers.windows(2).all(|w| w[0] < w[1])
}

/// The entries as defects, rising, or why the first entry that is none is refused. An entry that equals an earlier one
/// comes before the first that is no real vertex, or after it and doesn't count.
pub fn defects(alloc: Global, graph: &Graph, listed: &[u64]) -> Result<Vec<u32>, Stop<Kind>>
    ensures ok { OnOk result (defects_from graph.now [] listed.now ≡ Ok listed.now) }
    ensures rising { IfOk result (λ v. v.items ≡ rising graph.now listed.now) }
    ensures shot { IfOk result (λ v. IsShot graph.now (plain_shot v.items)) }
    ensures refused { IfErr result (IfRefused (λ kind. defects_from graph.now [] listed.now ≡ Err kind)) }
{
    let (mut found, fault) = real_prefix(alloc, graph, listed)?;
    found.sort_unstable();
    if !is_rising(&found) {
        return Err(Stop::Refused(Kind::DefectRepeated));
    }
    match fault {
        Some(kind) => Err(Stop::Refused(kind)),
        None => Ok(found),
    }
}
