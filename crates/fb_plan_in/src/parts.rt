//! What a plan's text says.

ghost use Rattle.std.specs.Prelude.{◌≡◌, ◌≢◌, map, IfOk, IfErr, Ok, Err};
ghost use Rattle.serde_json.specs.View.{view};
ghost use Rattle.fb_plan_in.specs.PlanText.{parts_of, parts_of_text};
ghost use Rattle.fb_plan_in.specs.InternalFusions.{fusion_from};

use crate::entries::{fusions, units};
use fb_json::{MOST_TEXT_BYTES, NoValue, read_value};
use fb_plan::{Join, PlanFault, PlanMember, PlanPlace};
use serde_json::Value;
use std::alloc::Global;

/// The ranges of the units and the fusions, before the rules of a plan are judged.
#[derive(Drop)]
pub struct PlanRanges {
    pub units: Vec<Vec<(u64, u64)>>,
    pub fusions: Vec<Join>,
}

/// What a value says, or the first rule that it breaks.
#[tactic(auto, unfolding(crate::specs::PlanText::parts_of))]
fn parts_in(alloc: Global, value: &Value) -> Result<PlanRanges, PlanFault>
    ensures ok { IfOk result (λ p. parts_of (view value.now)
        ≡ Ok (map (λ u. u.items) p.units.items, map fusion_from p.fusions.items)) }
    ensures err { IfErr result (λ e. e ≢ PlanFault.NoMemory → parts_of (view value.now) ≡ Err e) }
{
    let Some(unit_list) = value.get("units") else {
        return Err(PlanFault::Missing(PlanMember::Units));
    };
    let Some(fusion_list) = value.get("fusions") else {
        return Err(PlanFault::Missing(PlanMember::Fusions));
    };
    let Some(unit_list) = unit_list.as_array() else {
        return Err(PlanFault::NotWhole(PlanPlace::Units));
    };
    let Some(fusion_list) = fusion_list.as_array() else {
        return Err(PlanFault::NotWhole(PlanPlace::Fusions));
    };
    let units = units(alloc, unit_list)?;
    let fusions = fusions(alloc, fusion_list)?;
    Ok(PlanRanges { units, fusions })
}

/// What a text says, or the first rule that it breaks. The JSON value is gone when it is given.
pub fn read_parts(alloc: Global, bytes: &[u8]) -> Result<PlanRanges, PlanFault>
    ensures ok { IfOk result (λ p. parts_of_text bytes.now
        ≡ Ok (map (λ u. u.items) p.units.items, map fusion_from p.fusions.items)) }
    ensures err { IfErr result (λ e. e ≢ PlanFault.NoMemory → parts_of_text bytes.now ≡ Err e) }
{
    if bytes.len() > MOST_TEXT_BYTES {
        return Err(PlanFault::TooLong);
    }
    match read_value(alloc, bytes) {
        Ok(value) => parts_in(alloc, &value),
        Err(NoValue::NotJson) => Err(PlanFault::NotJson),
        Err(NoValue::NoMemory) => Err(PlanFault::NoMemory),
    }
}
