ghost use Rattle.std.specs.Prelude.{◌≡◌, ◌≢◌, IfOk, IfErr, Ok, Err};
ghost use Rattle.fb_plan.specs.Plans.{IsPlan};
ghost use Rattle.fb_plan_in.specs.PlanText.{plan_of_text};

use crate::parts::read_parts;
use fb_graph::Graph;
use fb_plan::{Plan, PlanFault};
use std::alloc::Global;

/// The plan of a text over a graph, or the first rule that the text breaks. The text is one JSON value (RFC 8259): an
/// object with `units`, for each unit the list of its ranges, and `fusions`, each an object with its two nodes as `of`
/// and the ranges of its seam as `interface`. A range is a pair: the vertices from its first number up to and without
/// its second. Other members are ignored.
pub fn read_plan(alloc: Global, bytes: &[u8], graph: &Graph) -> Result<Plan, PlanFault>
    ensures ok { IfOk result (λ p. plan_of_text bytes.now graph.now ≡ Ok p) }
    ensures valid { IfOk result (IsPlan graph.now) }
    ensures err { IfErr result (λ e. e ≢ PlanFault.NoMemory → plan_of_text bytes.now graph.now ≡ Err e) }
{
    let parts = read_parts(alloc, bytes)?;
    Plan::build(alloc, graph, &parts.units, &parts.fusions)
}
