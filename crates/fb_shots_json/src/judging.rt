//! The shot that a line says.

ghost use Rattle.std.specs.Prelude.{◌≡◌, IfOk, IfErr, Ok, Err};
ghost use Rattle.fb_graph.specs.Limits.{IsShot, plain_shot};
ghost use Rattle.serde_json.specs.View.{view};
ghost use Rattle.fb_shots_json.specs.TextJson.{defects_in, is_too_long, shot_in, shot_of_line};
ghost use Rattle.fb_records.specs.Steps.{IfRefused};

use crate::answer::Kind;
use crate::changes::changes;
use crate::entries::{defects, naturals};
use fb_graph::{Graph, Shot};
use fb_json::{MOST_TEXT_BYTES, NoValue, read_value};
use fb_records::{Stop, without_return};
use serde_json::Value;
use std::alloc::Global;

/// The defects that a value lists, rising.
fn defects_in(alloc: Global, graph: &Graph, value: &Value) -> Result<Vec<u32>, Stop<Kind>>
    ensures ok { IfOk result (λ v. defects_in graph.now (view value.now) ≡ Ok v.items) }
    ensures shot { IfOk result (λ v. IsShot graph.now (plain_shot v.items)) }
    ensures refused { IfErr result (IfRefused (λ kind. defects_in graph.now (view value.now) ≡ Err kind)) }
{
    let Some(member) = value.get("defect_vertices") else {
        return Err(Stop::Refused(Kind::NoDefects));
    };
    let Some(entries) = member.as_array() else {
        return Err(Stop::Refused(Kind::NoDefects));
    };
    let Some(listed) = naturals(alloc, entries)? else {
        return Err(Stop::Refused(Kind::NoDefects));
    };
    defects(alloc, graph, &listed)
}

/// The shot that a value says.
fn shot_in(alloc: Global, graph: &Graph, value: &Value) -> Result<Shot, Stop<Kind>>
    ensures ok { IfOk result (λ shot. shot_in graph.now (view value.now) ≡ Ok shot) }
    ensures shot { IfOk result (IsShot graph.now) }
    ensures refused { IfErr result (IfRefused (λ kind. shot_in graph.now (view value.now) ≡ Err kind)) }
{
    let defects = defects_in(alloc, graph, value)?;
    let changes = changes(alloc, graph, value)?;
    Ok(Shot::with_changes(graph, defects, changes)?)
}

/// Whether a line has more bytes than one that isn't blank may have.
pub fn is_too_long(line: &[u8]) -> bool
    ensures { result ≡ is_too_long line.now }
{
    line.len() > MOST_TEXT_BYTES
}

/// The shot of a line that isn't blank.
pub fn shot_of_line(alloc: Global, graph: &Graph, line: &[u8]) -> Result<Shot, Stop<Kind>>
    ensures ok { IfOk result (λ shot. shot_of_line graph.now line.now ≡ Ok shot) }
    ensures shot { IfOk result (IsShot graph.now) }
    ensures refused { IfErr result (IfRefused (λ kind. shot_of_line graph.now line.now ≡ Err kind)) }
{
    if is_too_long(line) {
        return Err(Stop::Refused(Kind::LineTooLong));
    }
    match read_value(alloc, without_return(line)) {
        Ok(value) => shot_in(alloc, graph, &value),
        Err(NoValue::NotJson) => Err(Stop::Refused(Kind::NotJson)),
        Err(NoValue::NoMemory) => Err(Stop::NoMemory),
    }
}
