//! The numbers of a graph, as its text has them.

ghost use Rattle.std.specs.Prelude.{◌≡◌, ◌≢◌, IfOk, IfErr};
ghost use Rattle.serde_json.specs.View.{view, items_view};
ghost use Rattle.fb_graph_in.specs.GraphText.{numbers_of, numbers_of_text};
ghost use Rattle.fb_graph_in.specs.InternalNumbers.{numbers_from};

use crate::entries::{edges, virtuals};
use crate::faults::{Member, Place, TextFault};
use crate::tokens::numbers_by_tokens;
use fb_json::{MOST_TEXT_BYTES, NoValue, read_value};
use serde_json::Value;
use std::alloc::Global;

/// The numbers of a graph, before its rules are judged.
#[derive(Drop)]
pub struct Numbers {
    pub vertex_num: u64,
    pub edges: Vec<(u64, u64, i128)>,
    pub virtuals: Vec<u64>,
}

/// The members of a graph's object.
#[derive(Clone, Copy)]
struct Members<'a> {
    vertex_num: u64,
    weighted_edges: &'a [Value],
    virtual_vertices: &'a [Value],
}

/// The members that a value has, or the first one that is missing or not of its form.
fn members_of(value: &Value) -> Result<Members<'_>, TextFault>
    ensures ok { IfOk result (λ m. numbers_of (view value.now)
        ≡ numbers_from m.vertex_num (items_view m.weighted_edges.now) (items_view m.virtual_vertices.now)) }
    ensures err { IfErr result (λ e. numbers_of (view value.now) ≡ Err e) }
{
    let Some(vertex_num) = value.get("vertex_num") else {
        return Err(TextFault::Missing(Member::VertexNum));
    };
    let Some(weighted_edges) = value.get("weighted_edges") else {
        return Err(TextFault::Missing(Member::WeightedEdges));
    };
    let Some(virtual_vertices) = value.get("virtual_vertices") else {
        return Err(TextFault::Missing(Member::VirtualVertices));
    };
    let Some(vertex_num) = vertex_num.as_u64() else {
        return Err(TextFault::NotWhole(Place::VertexNum));
    };
    let Some(weighted_edges) = weighted_edges.as_array() else {
        return Err(TextFault::NotWhole(Place::WeightedEdges));
    };
    let Some(virtual_vertices) = virtual_vertices.as_array() else {
        return Err(TextFault::NotWhole(Place::VirtualVertices));
    };
    Ok(Members {
        vertex_num,
        weighted_edges,
        virtual_vertices,
    })
}

/// The numbers that a value has, or the first rule that it breaks.
fn numbers_in(alloc: Global, value: &Value) -> Result<Numbers, TextFault>
    ensures ok { IfOk result (λ n. numbers_of (view value.now) ≡ Ok (n.vertex_num, n.edges.items, n.virtuals.items)) }
    ensures err { IfErr result (λ e. e ≢ TextFault.NoMemory → numbers_of (view value.now) ≡ Err e) }
{
    let members = members_of(value)?;
    let edges = edges(alloc, members.weighted_edges)?;
    let virtuals = virtuals(alloc, members.virtual_vertices)?;
    Ok(Numbers {
        vertex_num: members.vertex_num,
        edges,
        virtuals,
    })
}

/// The numbers that a text has, or the first rule that it breaks. A text of the three members alone is read token by
/// token; any other one by its JSON value, which is several times as large as the numbers and gone when they are given.
pub fn read_numbers(alloc: Global, bytes: &[u8]) -> Result<Numbers, TextFault>
    ensures ok { IfOk result (λ n. numbers_of_text bytes.now ≡ Ok (n.vertex_num, n.edges.items, n.virtuals.items)) }
    ensures err { IfErr result (λ e. e ≢ TextFault.NoMemory → numbers_of_text bytes.now ≡ Err e) }
{
    if bytes.len() > MOST_TEXT_BYTES {
        return Err(TextFault::TooLong);
    }
    if let Some(numbers) = numbers_by_tokens(alloc, bytes)? {
        return Ok(numbers);
    }
    match read_value(alloc, bytes) {
        Ok(value) => numbers_in(alloc, &value),
        Err(NoValue::NotJson) => Err(TextFault::NotJson),
        Err(NoValue::NoMemory) => Err(TextFault::NoMemory),
    }
}
