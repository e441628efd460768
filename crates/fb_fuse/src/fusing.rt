ghost use Rattle.std.specs.Prelude.{◌≡◌, ◌+◌, ◌*◌, ◌≤◌, ◌<◌, IfOk, Some, [], length};
ghost use Rattle.std.specs.List.Sorted.{IsPermutation};
ghost use Rattle.fb_half.specs.Merged.{IsMerged, freed_in, seam_defects};
ghost use Rattle.fb_half.specs.Parts.{IsPartOf, problem_in};
ghost use Rattle.fb_plan.specs.Plans.{children_of};
ghost use Rattle.fb_search.specs.Progress.{IsSamePart};

use fb_graph::{NoMemory, Steps, Whole};
use fb_half::{Half, Spare, Work};
use fb_plan::Job;
use fb_regions::NodeId;
use fb_search::{Scratch, match_all_from};
use std::alloc::Global;
use std::sync::ledger::Ledger;

/// The solved part of a fusion, made of its children's: both are put together (`Work::merge`), and each node that is unmatched
/// then is matched, those that can be at once in rising order of their first vertices. Counts a step for each search and each
/// tree that begins: at most one for each node that was matched to the seam and for each shifted defect on it, and at least
/// one for every two of these.
pub fn fuse<'a, L: Ledger>(
    alloc: Global,
    job: &'a Job<'a>,
    node: u32,
    left: Half<'a>,
    right: Half<'a>,
    steps: &mut Steps<L>,
) -> Result<Half<'a>, NoMemory>
    requires left { left.job ≡ job.now }
    requires right { right.job ≡ job.now }
    requires slot { left.slot ≡ right.slot }
    requires children { children_of job.now.plan node ≡ Some (left.node, right.node) }
    ensures half { IfOk result (IsPartOf job.now left.entry.slot node) }
    ensures never_falls { steps.old ≤ steps.new }
    ensures most { IfOk result (λ half. steps.new ≤ steps.old
        + (length (freed_in left.entry node) + length (freed_in right.entry node) + length (seam_defects job.now left.entry.slot node))) }
    ensures least { IfOk result (λ half. (length (freed_in left.entry node) + length (freed_in right.entry node)
        + length (seam_defects job.now left.entry.slot node)) + 2 * steps.old ≤ 2 * steps.new) }
{
    let scratch = Scratch::new(alloc, &Whole(job.graph()))?;
    let (half, _scratch) = fuse_from(
        alloc,
        job,
        node,
        left,
        right,
        &mut Vec::new(alloc),
        scratch,
        steps,
    )?;
    Ok(half)
}

/// The same as `fuse`, with scratch space that is lent and returned, so that one serves many parts of a graph. If both parts
/// have nodes, the room that is left of the right one is added to the spares, for another part.
pub fn fuse_from<'a, L: Ledger>(
    alloc: Global,
    job: &'a Job<'a>,
    node: u32,
    left: Half<'a>,
    right: Half<'a>,
    spares: &mut Vec<Spare>,
    scratch: Scratch,
    steps: &mut Steps<L>,
) -> Result<(Half<'a>, Scratch), NoMemory>
    requires left { left.job ≡ job.now }
    requires right { right.job ≡ job.now }
    requires slot { left.slot ≡ right.slot }
    requires children { children_of job.now.plan node ≡ Some (left.node, right.node) }
    requires room { scratch.edge_count ≡ length job.now.graph.edges }
    ensures half { IfOk result (λ r. IsPartOf job.now left.entry.slot node r.0) }
    ensures room { IfOk result (λ r. r.1.edge_count ≡ scratch.edge_count) }
    ensures never_falls { steps.old ≤ steps.new }
    ensures most { IfOk result (λ r. steps.new ≤ steps.old
        + (length (freed_in left.entry node) + length (freed_in right.entry node) + length (seam_defects job.now left.entry.slot node))) }
    ensures least { IfOk result (λ r. (length (freed_in left.entry node) + length (freed_in right.entry node)
        + length (seam_defects job.now left.entry.slot node)) + 2 * steps.old ≤ 2 * steps.new) }
{
    let work = Work::merge_with_spare(alloc, job, node, left, right, spares)?;
    let (work, scratch) = match_all(alloc, work, scratch, steps)?;
    Ok((work.close(), scratch))
}

/// Matches each unmatched node: those that can be at once in rising order of their first vertices, then all others.
fn match_all<'a, L: Ledger>(
    alloc: Global,
    work: Work<'a>,
    scratch: Scratch,
    steps: &mut Steps<L>,
) -> Result<(Work<'a>, Scratch), NoMemory>
    requires room { scratch.edge_count ≡ length (problem_in work).edges }
    ensures part { IfOk result (λ r. IsSamePart work.entry r.0) }
    ensures none { IfOk result (λ r. r.0.matching.unmatched ≡ []) }
    ensures room { IfOk result (λ r. r.1.edge_count ≡ scratch.edge_count) }
    ensures never_falls { steps.old ≤ steps.new }
    ensures most { IfOk result (λ _. steps.new ≤ steps.old + length work.entry.matching.unmatched) }
    ensures least { IfOk result (λ _. length work.entry.matching.unmatched + 2 * steps.old ≤ 2 * steps.new) }
{
    if work.unmatched().is_empty() {
        return Ok((work, scratch));
    }
    let roots = roots_of(alloc, &work)?;
    match_all_from(alloc, work, &roots, scratch, steps)
}

/// An unmatched node, and the first of its vertices.
#[derive(Clone, Copy)]
struct Root {
    node: NodeId,
    vertex: u32,
}

/// The unmatched nodes of a part, in rising order of their first vertices.
fn roots_of(alloc: Global, work: &Work) -> Result<Vec<NodeId>, NoMemory>
    ensures { IfOk result (λ roots. IsPermutation work.now.matching.unmatched roots.items) }
{
    work.keeps();
    let mut found = Vec::new(alloc);
    for node in work.unmatched() {
        let vertex = work.regions().first_vertex(*node);
        found.push(Root {
            node: *node,
            vertex,
        })?;
    }
    found.sort_unstable_by_key(|root| root.vertex);
    let mut roots = Vec::new(alloc);
    for root in &found {
        roots.push(root.node)?;
    }
    Ok(roots)
}
