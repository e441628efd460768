//! The entries of the text's lists.

ghost use Rattle.std.specs.Prelude.{◌≡◌, ◌≢◌, map, IfOk, IfErr, option_map, Ok, Err};
ghost use Rattle.serde_json.specs.View.{view, items_view};
ghost use Rattle.fb_plan_in.specs.PlanText.{pair_of, pairs_of, ranges_of, fusion_of, entries_of};
ghost use Rattle.fb_plan_in.specs.InternalFusions.{fusion_from};

use fb_graph::NoMemory;
use fb_plan::{Join, PlanFault, PlanPlace};
use serde_json::Value;
use std::alloc::Global;

/// Two whole numbers of at least 0.
fn pair(value: &Value) -> Option<(u64, u64)>
    ensures { result ≡ pair_of (view value.now) }
{
    let [first, second] = value.as_array()?.as_slice() else {
        return None;
    };
    let first = first.as_u64()?;
    let second = second.as_u64()?;
    Some((first, second))
}

/// The pairs of a list; `None` if an entry is no pair.
fn pairs(alloc: Global, values: &[Value]) -> Result<Option<Vec<(u64, u64)>>, NoMemory>
    ensures { IfOk result (λ o. option_map (λ v. v.items) o ≡ pairs_of (items_view values.now)) }
{
    let mut found = Vec::with_capacity(alloc, values.len())?;
    for (i, value) in values.iter().enumerate() {
        let Some(entry) = pair(value) else {
            return Ok(None);
        };
        found.push(entry)?;
    }
    Ok(Some(found))
}

/// The ranges of a node; `None` if the value is no list of pairs.
fn ranges(alloc: Global, value: &Value) -> Result<Option<Vec<(u64, u64)>>, NoMemory>
    ensures { IfOk result (λ o. option_map (λ v. v.items) o ≡ ranges_of (view value.now)) }
{
    match value.as_array() {
        Some(values) => pairs(alloc, values.as_slice()),
        None => Ok(None),
    }
}

/// A fusion; `None` if the value is none.
fn fusion(alloc: Global, value: &Value) -> Result<Option<Join>, NoMemory>
    ensures { IfOk result (λ o. option_map fusion_from o ≡ fusion_of (view value.now)) }
{
    let Some(nodes) = value.get("of") else {
        return Ok(None);
    };
    let Some(interface) = value.get("interface") else {
        return Ok(None);
    };
    let Some((left, right)) = pair(nodes) else {
        return Ok(None);
    };
    let seam = ranges(alloc, interface)?;
    match seam {
        Some(seam) => Ok(Some(Join { left, right, seam })),
        None => Ok(None),
    }
}

/// The ranges of each of `units`, or the place of the first entry that is not of its form.
pub fn units(alloc: Global, values: &[Value]) -> Result<Vec<Vec<(u64, u64)>>, PlanFault>
    ensures ok { IfOk result (λ v. entries_of ranges_of PlanPlace.Unit 0 (items_view values.now)
        ≡ Ok (map (λ u. u.items) v.items)) }
    ensures err { IfErr result (λ e. e ≢ PlanFault.NoMemory
        → entries_of ranges_of PlanPlace.Unit 0 (items_view values.now) ≡ Err e) }
{
    let Ok(mut found) = Vec::with_capacity(alloc, values.len()) else {
        return Err(PlanFault::NoMemory);
    };
    for (i, value) in values.iter().enumerate() {
        let Ok(entry) = ranges(alloc, value) else {
            return Err(PlanFault::NoMemory);
        };
        let Some(entry) = entry else {
            return Err(PlanFault::NotWhole(PlanPlace::Unit(i as u64)));
        };
        if found.push(entry).is_err() {
            return Err(PlanFault::NoMemory);
        }
    }
    Ok(found)
}

/// The joins of `fusions`, or the place of the first entry that is not of its form.
pub fn fusions(alloc: Global, values: &[Value]) -> Result<Vec<Join>, PlanFault>
    ensures ok { IfOk result (λ v. entries_of fusion_of PlanPlace.Fusion 0 (items_view values.now)
        ≡ Ok (map fusion_from v.items)) }
    ensures err { IfErr result (λ e. e ≢ PlanFault.NoMemory
        → entries_of fusion_of PlanPlace.Fusion 0 (items_view values.now) ≡ Err e) }
{
    let Ok(mut found) = Vec::with_capacity(alloc, values.len()) else {
        return Err(PlanFault::NoMemory);
    };
    for (i, value) in values.iter().enumerate() {
        let Ok(entry) = fusion(alloc, value) else {
            return Err(PlanFault::NoMemory);
        };
        let Some(entry) = entry else {
            return Err(PlanFault::NotWhole(PlanPlace::Fusion(i as u64)));
        };
        if found.push(entry).is_err() {
            return Err(PlanFault::NoMemory);
        }
    }
    Ok(found)
}
