//! The parts of a plan's text.

ghost use Rattle.std.specs.Prelude.{◌≡◌, ◌+◌, ◌<◌, ◌≤◌, ◌^◌, All, codes, length, IfOk, OnOk};
ghost use Rattle.json.specs.Tree.{json_tokens};
ghost use Rattle.fb_graph.specs.Limits.{most_vertices};
ghost use Rattle.fb_plan.specs.Plans.{join_at, node_count};
ghost use Rattle.fb_plan_out.specs.PlanWriting.{fusion_json, pair_json, ranges_at, ranges_json, unit_json};
ghost use Rattle.fb_plan_out.specs.InternalWriting.{Added};
ghost use Rattle.fb_layers.specs.Runs.{runs};

use fb_graph::NoMemory;
use fb_layers::add_vertex;
use fb_plan::Plan;
use json::Writer;
use std::alloc::Global;

/// Writes a pair of numbers.
fn write_pair(writer: &mut Writer, first: u64, second: u64) -> Result<(), NoMemory>
    ensures { OnOk result (Added writer.old writer.new (json_tokens (pair_json (first, second)))) }
{
    writer.begin_array()?;
    writer.u64(first)?;
    writer.u64(second)?;
    writer.end_array()?;
    Ok(())
}

/// Writes a list of ranges.
fn write_ranges(writer: &mut Writer, ranges: &[(u64, u64)]) -> Result<(), NoMemory>
    ensures { OnOk result (Added writer.old writer.new (json_tokens (ranges_json ranges.now))) }
{
    writer.begin_array()?;
    for range in ranges {
        write_pair(writer, range.0, range.1)?;
    }
    writer.end_array()?;
    Ok(())
}

/// The maximal runs of consecutive vertices in a rising list.
fn runs_of(alloc: Global, vertices: &[u32]) -> Result<Vec<(u64, u64)>, NoMemory>
    ensures { IfOk result (λ v. v.items ≡ runs vertices.now) }
{
    let mut ranges = Vec::new(alloc);
    for vertex in vertices {
        add_vertex(&mut ranges, *vertex)?;
    }
    Ok(ranges)
}

/// Writes the ranges of a node.
pub fn write_node(
    alloc: Global,
    writer: &mut Writer,
    plan: &Plan,
    node: u32,
) -> Result<(), NoMemory>
    requires { node < node_count plan.now }
    ensures { OnOk result (Added writer.old writer.new (json_tokens (unit_json plan.now node))) }
{
    let ranges = runs_of(alloc, plan.owned(node))?;
    write_ranges(writer, &ranges)?;
    Ok(())
}

/// Writes a fusion.
pub fn write_fusion(
    alloc: Global,
    writer: &mut Writer,
    plan: &Plan,
    fusion: u32,
) -> Result<(), NoMemory>
    requires { fusion < length plan.now.joins }
    ensures { OnOk result (Added writer.old writer.new (json_tokens (fusion_json plan.now fusion))) }
{
    plan.keeps();
    let node = plan.units() + fusion;
    let (left, right) = plan.children(node).unwrap_or((0, 0));
    writer.begin_object()?;
    writer.key("of")?;
    write_pair(writer, u64::from(left), u64::from(right))?;
    writer.key("interface")?;
    write_node(alloc, writer, plan, node)?;
    writer.end_object()?;
    Ok(())
}
