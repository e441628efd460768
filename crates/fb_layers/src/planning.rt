//! Plans by layers.

ghost use Rattle.std.specs.Prelude.{◌≡◌, ◌-◌, ◌*◌, ◌<◌, ◌≤◌, max, length, IfOk, IfErr, OnOk};
ghost use Rattle.fb_graph.specs.Limits.{most_vertices};
ghost use Rattle.fb_plan.specs.Plans.{IsPlan, most_units};
ghost use Rattle.fb_layers.specs.Layers.{AreLayers, height_of};
ghost use Rattle.fb_layers.specs.PlanByLayers.{IsFault, IsPlanByLayers};

use crate::depths::Layers;
use crate::distances::layers;
use crate::ranges::plan_of_nodes;
use crate::rounds::layer_nodes;
use fb_gen::{all_fusions, first_rounds};
use fb_graph::{Graph, NoMemory};
use fb_plan::{Plan, PlanFault};
use std::alloc::Global;

/// Plans that are made of a graph: `Plan::by_layers`.
pub trait ByLayers: Sized {
    /// The plan of a graph by its layers, over all components at once. The layers are cut as a plan of a lattice by
    /// time cuts rounds: `units` runs of layers with one layer between two of them. A plan has 1 to 4,096 units; more
    /// than one unit need a layer each, and one for the seam between each two.
    fn by_layers(alloc: Global, graph: &Graph, units: u32) -> Result<Self, PlanFault>
        requires some { 1 ≤ units }
        requires limit { units ≤ most_units };
}

impl ByLayers for Plan {
    fn by_layers(alloc: Global, graph: &Graph, units: u32) -> Result<Plan, PlanFault>
        requires some { 1 ≤ units }
        requires limit { units ≤ most_units }
        ensures plan { IfOk result (IsPlanByLayers graph.now units) }
        ensures valid { IfOk result (IsPlan graph.now) }
        ensures fault { IfErr result (IsFault graph.now units) }
    {
        plan_by_layers(alloc, graph, units)
    }
}

/// The plan of a graph by its layers, if these are enough for so many units.
fn plan_by_layers(alloc: Global, graph: &Graph, units: u32) -> Result<Plan, PlanFault>
    requires some { 1 ≤ units }
    requires limit { units ≤ most_units }
    ensures plan { IfOk result (IsPlanByLayers graph.now units) }
    ensures valid { IfOk result (IsPlan graph.now) }
    ensures fault { IfErr result (IsFault graph.now units) }
{
    graph.limits();
    let layers = layers(alloc, graph)?;
    let height = layers.height();
    if 1 < units && height < 2 * u64::from(units) - 1 {
        return Err(PlanFault::TooFewLayers(height));
    }
    let plan = cut(alloc, graph, &layers, units)?;
    Ok(plan)
}

/// The number of rounds that are cut: that of the layers, and one if there is none.
fn round_count(layers: &Layers) -> u64
    ensures { result ≡ max 1 (height_of layers.now) }
{
    let height = layers.height();
    if height < 1 { 1 } else { height }
}

/// The plan of a graph by these layers, of which there are enough.
fn cut(alloc: Global, graph: &Graph, layers: &Layers, units: u32) -> Result<Plan, NoMemory>
    requires some { 1 ≤ units }
    requires limit { units ≤ most_units }
    requires layering { AreLayers graph.now layers.now }
    requires height { height_of layers.now ≤ graph.now.vertices }
    requires enough { 1 < units → 2 * units - 1 ≤ height_of layers.now }
    ensures plan { IfOk result (IsPlanByLayers graph.now units) }
    ensures valid { IfOk result (IsPlan graph.now) }
{
    graph.limits();
    let units = u64::from(units);
    let rounds = round_count(layers);
    let firsts = first_rounds(alloc, rounds, units)?;
    let fusions = all_fusions(alloc, units)?;
    let nodes = layer_nodes(alloc, rounds, units, &firsts, &fusions)?;
    let plan = plan_of_nodes(alloc, graph, layers, &fusions, &nodes)?;
    Ok(plan)
}
