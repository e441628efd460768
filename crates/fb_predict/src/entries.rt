//! What a text of observables says.

ghost use Rattle.std.specs.Prelude.{◌≡◌, ◌≢◌, map, IfOk, IfErr, option_map, Ok, Err};
ghost use Rattle.serde_json.specs.View.{view, items_view};
ghost use Rattle.fb_json.specs.JsonText.{entries_by};
ghost use Rattle.fb_predict.specs.ObservableText.{numbers_of, edges_of, lists_of, lists_of_text};

use crate::faults::ObsFault;
use fb_graph::NoMemory;
use fb_json::{MOST_TEXT_BYTES, NoValue, read_value};
use serde_json::Value;
use std::alloc::Global;

/// The whole numbers of at least 0 of a list; `None` if an entry is none.
fn numbers(alloc: Global, values: &[Value]) -> Result<Option<Vec<u64>>, NoMemory>
    ensures { IfOk result (λ o. option_map (λ v. v.items) o ≡ numbers_of (items_view values.now)) }
{
    let mut found = Vec::with_capacity(alloc, values.len())?;
    for (i, value) in values.iter().enumerate() {
        let Some(number) = value.as_u64() else {
            return Ok(None);
        };
        found.push(number)?;
    }
    Ok(Some(found))
}

/// The edges of an observable; `None` if the value is no list of whole numbers of at least 0.
fn edges(alloc: Global, value: &Value) -> Result<Option<Vec<u64>>, NoMemory>
    ensures { IfOk result (λ o. option_map (λ v. v.items) o ≡ edges_of (view value.now)) }
{
    match value.as_array() {
        Some(values) => numbers(alloc, values.as_slice()),
        None => Ok(None),
    }
}

/// The edges of each observable, or the number of the first entry that isn't of its form.
fn lists(alloc: Global, values: &[Value]) -> Result<Vec<Vec<u64>>, ObsFault>
    ensures ok { IfOk result (λ v. entries_by edges_of ObsFault.NotWhole 0 (items_view values.now)
        ≡ Ok (map (λ u. u.items) v.items)) }
    ensures err { IfErr result (λ e. e ≢ ObsFault.NoMemory
        → entries_by edges_of ObsFault.NotWhole 0 (items_view values.now) ≡ Err e) }
{
    let Ok(mut found) = Vec::with_capacity(alloc, values.len()) else {
        return Err(ObsFault::NoMemory);
    };
    for (i, value) in values.iter().enumerate() {
        let Ok(entry) = edges(alloc, value) else {
            return Err(ObsFault::NoMemory);
        };
        let Some(entry) = entry else {
            return Err(ObsFault::NotWhole(i as u64));
        };
        if found.push(entry).is_err() {
            return Err(ObsFault::NoMemory);
        }
    }
    Ok(found)
}

/// What a value says, or the first rule that it breaks.
#[tactic(auto, unfolding(crate::specs::ObservableText::lists_of))]
fn lists_in(alloc: Global, value: &Value) -> Result<Vec<Vec<u64>>, ObsFault>
    ensures ok { IfOk result (λ v. lists_of (view value.now) ≡ Ok (map (λ u. u.items) v.items)) }
    ensures err { IfErr result (λ e. e ≢ ObsFault.NoMemory → lists_of (view value.now) ≡ Err e) }
{
    let Some(member) = value.get("observables") else {
        return Err(ObsFault::Missing);
    };
    let Some(values) = member.as_array() else {
        return Err(ObsFault::NotList);
    };
    lists(alloc, values)
}

/// What a text says, or the first rule that it breaks. The JSON value is gone when it is given.
pub fn read_lists(alloc: Global, bytes: &[u8]) -> Result<Vec<Vec<u64>>, ObsFault>
    ensures ok { IfOk result (λ v. lists_of_text bytes.now ≡ Ok (map (λ u. u.items) v.items)) }
    ensures err { IfErr result (λ e. e ≢ ObsFault.NoMemory → lists_of_text bytes.now ≡ Err e) }
{
    if bytes.len() > MOST_TEXT_BYTES {
        return Err(ObsFault::TooLong);
    }
    match read_value(alloc, bytes) {
        Ok(value) => lists_in(alloc, &value),
        Err(NoValue::NotJson) => Err(ObsFault::NotJson),
        Err(NoValue::NoMemory) => Err(ObsFault::NoMemory),
    }
}
