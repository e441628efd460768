ghost use Rattle.std.specs.Prelude.{◌≡◌, ◌≤◌, length, string_bytes, IfOk, OnOk, Ok};
ghost use Rattle.json.specs.Tree.{items_tokens, json_tokens};
ghost use Rattle.fb_graph.specs.Limits.{DecodingGraph};
ghost use Rattle.fb_plan.specs.Plans.{IsPlan};
ghost use Rattle.fb_plan_in.specs.PlanText.{plan_of_text};
ghost use Rattle.fb_plan_out.specs.PlanWriting.{fusions_json, plan_json, text_of_plan, units_json};
ghost use Rattle.fb_plan_out.specs.InternalWriting.{Added};

use crate::parts::{write_fusion, write_node};
use fb_graph::{Graph, NoMemory};
use fb_plan::Plan;
use json::Writer;
use std::alloc::Global;

/// The text of a plan: one JSON value (RFC 8259) without spaces, and a newline. The ranges of a node are the maximal
/// runs of consecutive vertices that it owns, rising. If the plan is one of this graph, the reader of plans returns it.
pub fn plan_text(alloc: Global, graph: &Graph, plan: &Plan) -> Result<String, NoMemory>
    ensures text { IfOk result (λ s. string_bytes s ≡ text_of_plan plan.now) }
    ensures reads_back { IsPlan graph.now plan.now
        → IfOk result (λ s. plan_of_text (string_bytes s) graph.now ≡ Ok plan.now) }
{
    graph.limits();
    let mut writer = Writer::new(Vec::new(alloc));
    write_plan(alloc, &mut writer, plan)?;
    let mut bytes = writer.into_inner();
    bytes.push(b'\n')?;
    let Ok(text) = String::from_utf8(bytes) else {
        unreachable!()
    };
    Ok(text)
}

/// Writes a plan.
fn write_plan(alloc: Global, writer: &mut Writer, plan: &Plan) -> Result<(), NoMemory>
    ensures { OnOk result (Added writer.old writer.new (json_tokens (plan_json plan.now))) }
{
    writer.begin_object()?;
    writer.key("units")?;
    write_units(alloc, writer, plan)?;
    writer.key("fusions")?;
    write_fusions(alloc, writer, plan)?;
    writer.end_object()?;
    Ok(())
}

/// Writes the list of a plan's units.
fn write_units(alloc: Global, writer: &mut Writer, plan: &Plan) -> Result<(), NoMemory>
    ensures { OnOk result (Added writer.old writer.new (json_tokens (units_json plan.now))) }
{
    plan.keeps();
    writer.begin_array()?;
    for unit in 0..plan.units() {
        write_node(alloc, writer, plan, unit)?;
    }
    writer.end_array()?;
    Ok(())
}

/// Writes the list of a plan's fusions.
fn write_fusions(alloc: Global, writer: &mut Writer, plan: &Plan) -> Result<(), NoMemory>
    ensures { OnOk result (Added writer.old writer.new (json_tokens (fusions_json plan.now))) }
{
    plan.keeps();
    writer.begin_array()?;
    for fusion in 0..plan.units() - 1 {
        write_fusion(alloc, writer, plan, fusion)?;
    }
    writer.end_array()?;
    Ok(())
}
