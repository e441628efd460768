ghost use Rattle.std.specs.Prelude.{◌≡◌, ◌+◌, [], true, IfOk, OnErr, length};
ghost use Rattle.fb_graph.specs.Parity.{is_in};
ghost use Rattle.fb_half.specs.Parts.{problem_in};
ghost use Rattle.fb_search.specs.Progress.{IsSamePart, IsSearched};

use crate::growing_all::grow_from;
use crate::near_ends::match_one_near;
use crate::scratch::Scratch;
use fb_graph::{NoMemory, Steps};
use fb_half::Work;
use fb_half::both::both;
use fb_regions::NodeId;
use std::alloc::Global;
use std::sync::ledger::Ledger;

/// Matches the root: at once if it is a single defect and one of its edges leads to the boundary or to another single
/// defect and may become tight, else by a tree that grows from it until it meets the boundary or a node that can be
/// matched with its root (Edmonds 1965). Counts one step, or none if memory runs out. The unmatched nodes after it
/// are those before, without the root and without at most one other node.
pub fn search<'a, L: Ledger>(
    alloc: Global,
    work: Work<'a>,
    root: NodeId,
    steps: &mut Steps<L>,
) -> Result<Work<'a>, NoMemory>
    requires unmatched { is_in work.matching.unmatched root ≡ true }
    ensures searched { IfOk result (λ after. IsSearched root work.entry after) }
    ensures step { IfOk result (λ after. steps.new ≡ steps.old + 1) }
    ensures kept { OnErr result (steps.new ≡ steps.old) }
{
    let (scratch, work) = with_scratch(alloc, work)?;
    let (work, _scratch) = search_from(alloc, work, root, scratch, steps)?;
    Ok(work)
}

/// Scratch space for searches in the part, beside the part.
fn with_scratch<'a>(alloc: Global, work: Work<'a>) -> Result<(Scratch, Work<'a>), NoMemory>
    ensures same { IfOk result (λ pair. work.entry ≡ pair.1) }
    ensures room { IfOk result (λ pair. pair.0.edge_count ≡ length (problem_in work.entry).edges) }
{
    let scratch = Scratch::new(alloc, work.regions().scope());
    both(scratch, work)
}

/// The same as `search`, with scratch space that is lent and returned, so that one serves many searches.
pub fn search_from<'a, L: Ledger>(
    alloc: Global,
    work: Work<'a>,
    root: NodeId,
    scratch: Scratch,
    steps: &mut Steps<L>,
) -> Result<(Work<'a>, Scratch), NoMemory>
    requires unmatched { is_in work.matching.unmatched root ≡ true }
    requires room { scratch.edge_count ≡ length (problem_in work).edges }
    ensures searched { IfOk result (λ after. IsSearched root work.entry after.0) }
    ensures room { IfOk result (λ after. after.1.edge_count ≡ scratch.edge_count) }
    ensures step { IfOk result (λ after. steps.new ≡ steps.old + 1) }
    ensures kept { OnErr result (steps.new ≡ steps.old) }
{
    let (is_matched, work, mut scratch) = match_one_near(alloc, work, root, scratch)?;
    if is_matched {
        scratch.count_match();
        steps.tick();
        return Ok((work, scratch));
    }
    grow_from(alloc, work, &[root], scratch, steps)
}

/// Matches all unmatched nodes: a tree grows from each of them, all together, until each is matched (Edmonds 1965). Where two
/// trees meet, the nodes of both are matched. Counts one step for each unmatched node, or none if memory runs out.
pub fn search_all<'a, L: Ledger>(
    alloc: Global,
    work: Work<'a>,
    steps: &mut Steps<L>,
) -> Result<Work<'a>, NoMemory>
    ensures part { IfOk result (λ after. IsSamePart work.entry after) }
    ensures none { IfOk result (λ after. after.matching.unmatched ≡ []) }
    ensures step { IfOk result (λ after. steps.new ≡ steps.old + length work.entry.matching.unmatched) }
    ensures kept { OnErr result (steps.new ≡ steps.old) }
{
    let (scratch, work) = with_scratch(alloc, work)?;
    let (work, _scratch) = search_all_from(alloc, work, scratch, steps)?;
    Ok(work)
}

/// The same as `search_all`, with scratch space that is lent and returned, so that one serves many parts.
pub fn search_all_from<'a, L: Ledger>(
    alloc: Global,
    work: Work<'a>,
    scratch: Scratch,
    steps: &mut Steps<L>,
) -> Result<(Work<'a>, Scratch), NoMemory>
    requires room { scratch.edge_count ≡ length (problem_in work).edges }
    ensures part { IfOk result (λ r. IsSamePart work.entry r.0) }
    ensures none { IfOk result (λ r. r.0.matching.unmatched ≡ []) }
    ensures room { IfOk result (λ r. r.1.edge_count ≡ scratch.edge_count) }
    ensures step { IfOk result (λ r. steps.new ≡ steps.old + length work.entry.matching.unmatched) }
    ensures kept { OnErr result (steps.new ≡ steps.old) }
{
    work.keeps();
    let roots = Vec::from_slice(alloc, work.unmatched())?;
    grow_from(alloc, work, &roots, scratch, steps)
}
