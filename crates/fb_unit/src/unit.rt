ghost use Rattle.std.specs.Prelude.{◌≡◌, ◌<◌, ◌+◌, ◌*◌, ◌≤◌, IfOk, length};
ghost use Rattle.fb_half.specs.Beginnings.{IsBegun, own_defects};
ghost use Rattle.fb_half.specs.Parts.{IsPartOf};

use fb_graph::{NoMemory, Steps, Whole};
use fb_half::{Half, Spare, Work};
use fb_links::NodeId;
use fb_plan::Job;
use fb_search::{Scratch, match_all_from};
use std::alloc::Global;
use std::sync::ledger::Ledger;

/// The solved part of a unit: its shifted defects are matched, those that can be at once in rising order of vertices, then all
/// others by trees. Counts a step for each search and each tree that begins: at least one for every two of these defects, and
/// at most one for each.
pub fn solve_unit<'a, L: Ledger>(
    alloc: Global,
    job: &'a Job<'a>,
    slot: u32,
    node: u32,
    steps: &mut Steps<L>,
) -> Result<Half<'a>, NoMemory>
    requires slot { slot < length job.now.shots }
    requires unit { node < job.now.plan.units }
    ensures half { IfOk result (IsPartOf job.now slot node) }
    ensures never_falls { steps.old ≤ steps.new }
    ensures steps { IfOk result (λ half. (length (own_defects half) + 2 * steps.old ≤ 2 * steps.new)
        × (steps.new ≤ steps.old + length (own_defects half))) }
{
    let scratch = Scratch::new(alloc, &Whole(job.graph()))?;
    let (half, _scratch) = solve_unit_from(
        alloc,
        job,
        slot,
        node,
        &mut Vec::new(alloc),
        scratch,
        steps,
    )?;
    Ok(half)
}

/// The same as `solve_unit`, in the last of the spares, which are the rooms of parts that are no longer used, and with scratch
/// space that is lent and returned, so that one serves many parts of a graph. A unit without a shifted defect leaves the
/// spares as they are.
pub fn solve_unit_from<'a, L: Ledger>(
    alloc: Global,
    job: &'a Job<'a>,
    slot: u32,
    node: u32,
    spares: &mut Vec<Spare>,
    scratch: Scratch,
    steps: &mut Steps<L>,
) -> Result<(Half<'a>, Scratch), NoMemory>
    requires slot { slot < length job.now.shots }
    requires unit { node < job.now.plan.units }
    requires room { scratch.edge_count ≡ length job.now.graph.edges }
    ensures half { IfOk result (λ r. IsPartOf job.now slot node r.0) }
    ensures room { IfOk result (λ r. r.1.edge_count ≡ scratch.edge_count) }
    ensures never_falls { steps.old ≤ steps.new }
    ensures steps { IfOk result (λ r. (length (own_defects r.0) + 2 * steps.old ≤ 2 * steps.new)
        × (steps.new ≤ steps.old + length (own_defects r.0))) }
{
    let (work, roots) = begin(alloc, job, slot, node, spares)?;
    let (work, scratch) = match_all_from(alloc, work, &roots, scratch, steps)?;
    Ok((work.close(), scratch))
}

/// The part of a unit before any search, and its unmatched nodes.
fn begin<'a>(
    alloc: Global,
    job: &'a Job<'a>,
    slot: u32,
    node: u32,
    spares: &mut Vec<Spare>,
) -> Result<(Work<'a>, Vec<NodeId>), NoMemory>
    requires slot { slot < length job.now.shots }
    requires unit { node < job.now.plan.units }
    ensures begun { IfOk result (λ r. IsBegun job.now slot node r.0) }
    ensures roots { IfOk result (λ r. r.1.items ≡ r.0.matching.unmatched) }
{
    let work = Work::begin_on(alloc, job, slot, node, spares)?;
    let roots = Vec::from_slice(alloc, work.unmatched())?;
    Ok((work, roots))
}
