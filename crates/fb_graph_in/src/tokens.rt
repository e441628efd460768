//! The numbers of a graph whose object has no members but those of a graph, read token by token, without a JSON value.

ghost use Rattle.std.specs.Prelude.{◌≡◌, ℕ, ◌<◌, true, length, None, Some, Ok, IfOk, IfSome, OnSome, option_map};
ghost use Rattle.json.specs.Json.{after_end_array, members};
ghost use Rattle.serde_json.specs.Data.{Data, Members, no_members, object, put};
ghost use Rattle.serde_json.specs.Read.{converted, of_members, read};
ghost use Rattle.fb_json.specs.JsonText.{value_of};
ghost use Rattle.fb_json.specs.NumberTokens.{Begins, list_data};
ghost use Rattle.fb_graph_in.specs.GraphText.{numbers_of};
ghost use Rattle.fb_graph_in.specs.InternalTokens.{Holds, edge_data};
ghost use Rattle.json.specs.Json as json;

use crate::numbers::Numbers;
use fb_graph::NoMemory;
use fb_json::{next_natural, next_naturals, next_whole};
use json::{Reader, Scratch, Token};
use std::alloc::Global;

/// The members of a graph that were read so far.
#[derive(Drop)]
struct Found {
    vertex_num: Option<u64>,
    edges: Option<Vec<(u64, u64, i128)>>,
    virtuals: Option<Vec<u64>>,
}

/// The numbers of a text, if it is an object of the three members of a graph alone and each is of its form. Nothing is
/// said of any other text.
pub fn numbers_by_tokens(alloc: Global, bytes: &[u8]) -> Result<Option<Numbers>, NoMemory>
    ensures { IfOk result (λ found. IfSome found (λ n. (d : Data) × (value_of bytes.now ≡ Some d)
        × (numbers_of d ≡ Ok (n.vertex_num, n.edges.items, n.virtuals.items)))) }
{
    let Ok(text) = std::str::from_utf8(bytes) else {
        return Ok(None);
    };
    let mut scratch = Scratch::new(alloc);
    let mut reader = Reader::new(text, &mut scratch)?;
    let Some(Token::BeginObject) = reader.next() else {
        return Ok(None);
    };
    let Some(found) = next_members(alloc, &mut reader)? else {
        return Ok(None);
    };
    if reader.next().is_some() {
        return Ok(None);
    }
    Ok(numbers_found(found))
}

/// The numbers, if all members were read.
fn numbers_found(found: Found) -> Option<Numbers>
    ensures { IfSome result (λ n. (ms : Members)
        → Holds ms found.vertex_num
        (option_map (λ v. v.items) found.edges) (option_map (λ v. v.items) found.virtuals)
        → numbers_of (object ms) ≡ Ok (n.vertex_num, n.edges.items, n.virtuals.items)) }
{
    let vertex_num = found.vertex_num?;
    let edges = found.edges?;
    let virtuals = found.virtuals?;
    Some(Numbers {
        vertex_num,
        edges,
        virtuals,
    })
}

/// The members of an object to its end, if each is one of a graph and of its form.
fn next_members(alloc: Global, reader: &mut Reader<'_>) -> Result<Option<Found>, NoMemory>
    ensures { IfOk result (λ found. IfSome found (λ f. (ms : Members)
        × (converted (λ js. of_members js no_members)
        (members (json.value 126) (length reader.old) reader.old) ≡ Some (ms, reader.new))
        × Holds ms f.vertex_num (option_map (λ v. v.items) f.edges) (option_map (λ v. v.items) f.virtuals))) }
{
    let mut found = Found {
        vertex_num: None,
        edges: None,
        virtuals: None,
    };
    'members: loop {
        match reader.next_key() {
            Ok(Some(name)) => {
                if !take_member(alloc, reader, name, &mut found)? {
                    return Ok(None);
                }
            }
            Ok(None) => return Ok(Some(found)),
            Err(_) => return Ok(None),
        }
    }
}

/// Takes the member of this name, if it is one of a graph and of its form.
fn take_member(
    alloc: Global,
    reader: &mut Reader<'_>,
    name: &str,
    found: &mut Found,
) -> Result<bool, NoMemory>
    ensures taken { IfOk result (λ is_taken. is_taken ≡ true → (d : Data)
        × Begins 126 reader.old d reader.new × ((ms : Members)
        → Holds ms found.old.vertex_num
        (option_map (λ v. v.items) found.old.edges) (option_map (λ v. v.items) found.old.virtuals)
        → Holds (put name.now d ms) found.new.vertex_num
        (option_map (λ v. v.items) found.new.edges) (option_map (λ v. v.items) found.new.virtuals))) }
    ensures shorter { IfOk result (λ is_taken. is_taken ≡ true
        → length reader.new < length reader.old) }
{
    if name == "vertex_num" {
        let Some(vertex_num) = next_natural(reader) else {
            return Ok(false);
        };
        found.vertex_num = Some(vertex_num);
    } else if name == "weighted_edges" {
        let Some(edges) = next_edges(alloc, reader)? else {
            return Ok(false);
        };
        found.edges = Some(edges);
    } else if name == "virtual_vertices" {
        let Some(virtuals) = next_naturals(alloc, reader)? else {
            return Ok(false);
        };
        found.virtuals = Some(virtuals);
    } else {
        return Ok(false);
    }
    Ok(true)
}

/// The list of edges that comes next, if one does.
fn next_edges(
    alloc: Global,
    reader: &mut Reader<'_>,
) -> Result<Option<Vec<(u64, u64, i128)>>, NoMemory>
    ensures value { IfOk result (λ found. IfSome found (λ v. (depth : ℕ) → 1 < depth
        → Begins depth reader.old (list_data edge_data v.items) reader.new)) }
    ensures shorter { IfOk result (λ found. OnSome found (length reader.new < length reader.old)) }
{
    let Some(Token::BeginArray) = reader.next() else {
        return Ok(None);
    };
    let mut found = Vec::new(alloc);
    'entries: while !reader.take_end_array() {
        let Some(entry) = next_edge(reader) else {
            return Ok(None);
        };
        found.push(entry)?;
    }
    Ok(Some(found))
}

/// The edge that comes next, if one does.
fn next_edge(reader: &mut Reader<'_>) -> Option<(u64, u64, i128)>
    ensures value { IfSome result (λ e. (depth : ℕ) → 0 < depth
        → Begins depth reader.old (edge_data e) reader.new) }
    ensures shorter { OnSome result (length reader.new < length reader.old) }
    ensures open { OnSome result (after_end_array reader.old ≡ None) }
{
    let Token::BeginArray = reader.next()? else {
        return None;
    };
    let first = next_natural(reader)?;
    let second = next_natural(reader)?;
    let weight = next_whole(reader)?;
    if reader.take_end_array() {
        Some((first, second, weight))
    } else {
        None
    }
}
