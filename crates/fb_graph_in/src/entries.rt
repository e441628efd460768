//! The entries of the text's lists.

ghost use Rattle.std.specs.Prelude.{◌≡◌, ◌≢◌, IfOk, IfErr};
ghost use Rattle.serde_json.specs.View.{view, items_view};
ghost use Rattle.fb_graph_in.specs.GraphText.{whole_of, edge_of, entries_of};
ghost use Rattle.fb_json.specs.JsonText.{natural_of};

use crate::faults::{Place, TextFault};
use serde_json::Value;
use std::alloc::Global;

/// A whole number.
fn whole(value: &Value) -> Option<i128>
    ensures { result ≡ whole_of (view value.now) }
{
    value.as_number()?.as_i128()
}

/// An edge: its two ends and its weight.
fn edge(value: &Value) -> Option<(u64, u64, i128)>
    ensures { result ≡ edge_of (view value.now) }
{
    let [first, second, weight] = value.as_array()?.as_slice() else {
        return None;
    };
    let first = first.as_u64()?;
    let second = second.as_u64()?;
    let weight = whole(weight)?;
    Some((first, second, weight))
}

/// The edges of `weighted_edges`, or the place of the first entry that is none.
pub fn edges(alloc: Global, values: &[Value]) -> Result<Vec<(u64, u64, i128)>, TextFault>
    ensures ok { IfOk result (λ v. entries_of edge_of Place.Edge 0 (items_view values.now) ≡ Ok v.items) }
    ensures err { IfErr result (λ e. e ≢ TextFault.NoMemory
        → entries_of edge_of Place.Edge 0 (items_view values.now) ≡ Err e) }
{
    let mut found = Vec::with_capacity(alloc, values.len())?;
    for (i, value) in values.iter().enumerate() {
        let Some(entry) = edge(value) else {
            return Err(TextFault::NotWhole(Place::Edge(i as u64)));
        };
        found.push(entry)?;
    }
    Ok(found)
}

/// The vertices of `virtual_vertices`, or the place of the first entry that is none.
pub fn virtuals(alloc: Global, values: &[Value]) -> Result<Vec<u64>, TextFault>
    ensures ok { IfOk result (λ v. entries_of natural_of Place.Virtual 0 (items_view values.now) ≡ Ok v.items) }
    ensures err { IfErr result (λ e. e ≢ TextFault.NoMemory
        → entries_of natural_of Place.Virtual 0 (items_view values.now) ≡ Err e) }
{
    let mut found = Vec::with_capacity(alloc, values.len())?;
    for (i, value) in values.iter().enumerate() {
        let Some(entry) = value.as_u64() else {
            return Err(TextFault::NotWhole(Place::Virtual(i as u64)));
        };
        found.push(entry)?;
    }
    Ok(found)
}
