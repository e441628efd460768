//! All unmatched nodes of a part matched: those that can be at once, and then the others by trees.

ghost use Rattle.std.specs.Prelude.{◌≡◌, ◌+◌, ◌*◌, ◌≤◌, [], IfOk, OnOk, length};
ghost use Rattle.fb_half.specs.Parts.{IsPart, problem_in};
ghost use Rattle.fb_half.specs.Values.{HasScope, part_of};
ghost use Rattle.fb_search.specs.InternalMatched.{HasMatched};
ghost use Rattle.fb_search.specs.Progress.{IsSamePart};

use crate::near_ends::match_near;
use crate::scratch::Scratch;
use crate::searches::{search_all_from, search_from};
use fb_graph::{NoMemory, Steps};
use fb_half::both::both;
use fb_half::{Parts, Standing, Work};
use fb_regions::NodeId;
use std::alloc::Global;
use std::sync::ledger::Ledger;

/// Matches all unmatched nodes of the part. Each of the roots that is still unmatched in its turn is matched at once, if it
/// is a single defect and one of its edges leads to the boundary or to another single defect and may become tight. Then
/// trees grow from the nodes that are left, together (Edmonds 1965). Counts a step for each node that is matched at once
/// and for each tree: at most one for each unmatched node, and at least one for every two.
pub fn match_all_from<'a, L: Ledger>(
    alloc: Global,
    work: Work<'a>,
    roots: &[NodeId],
    scratch: Scratch,
    steps: &mut Steps<L>,
) -> Result<(Work<'a>, Scratch), NoMemory>
    requires room { scratch.edge_count ≡ length (problem_in work).edges }
    ensures part { IfOk result (λ r. IsSamePart work.entry r.0) }
    ensures none { IfOk result (λ r. r.0.matching.unmatched ≡ []) }
    ensures room { IfOk result (λ r. r.1.edge_count ≡ scratch.edge_count) }
    ensures never_falls { steps.old ≤ steps.new }
    ensures most { IfOk result (λ _. steps.new ≤ steps.old + length work.entry.matching.unmatched) }
    ensures least { IfOk result (λ _. length work.entry.matching.unmatched + 2 * steps.old ≤ 2 * steps.new) }
{
    if work.unmatched().is_empty() {
        return Ok((work, scratch));
    }
    let (work, scratch) = match_nearest(alloc, work, roots, scratch, steps)?;
    match work.unmatched() {
        [] => Ok((work, scratch)),
        [root] => {
            let root = *root;
            search_from(alloc, work, root, scratch, steps)
        }
        _ => search_all_from(alloc, work, scratch, steps),
    }
}

/// Matches each of the roots that is still unmatched at once, if that is possible in its turn.
fn match_nearest<'a, L: Ledger>(
    alloc: Global,
    work: Work<'a>,
    roots: &[NodeId],
    scratch: Scratch,
    steps: &mut Steps<L>,
) -> Result<(Work<'a>, Scratch), NoMemory>
    ensures matched { IfOk result (λ r. HasMatched work.entry steps.old steps.new r.0) }
    ensures room { IfOk result (λ r. r.1.edge_count ≡ scratch.edge_count) }
    ensures never_falls { steps.old ≤ steps.new }
{
    work.keeps();
    let mut parts = work.into_parts();
    let mut scratch = scratch;
    let done = match_each_near(alloc, &mut *parts, &mut scratch, roots, steps);
    let (_done, (parts, scratch)) = both(done, (parts, scratch))?;
    Ok((Work::from_parts(parts), scratch))
}

/// The same in place.
fn match_each_near<L: Ledger>(
    alloc: Global,
    parts: &mut Parts<'_>,
    scratch: &mut Scratch,
    roots: &[NodeId],
    steps: &mut Steps<L>,
) -> Result<(), NoMemory>
    requires scope { HasScope parts.old }
    requires part { IsPart (part_of parts.old) }
    ensures scope { OnOk result (HasScope parts.new) }
    ensures part { OnOk result (IsPart (part_of parts.new)) }
    ensures matched { OnOk result (HasMatched (part_of parts.old) steps.old steps.new (part_of parts.new)) }
    ensures same { scratch.new ≡ scratch.old }
    ensures never_falls { steps.old ≤ steps.new }
{
    for root in roots {
        let Standing::Unmatched(_) = parts.matching.standing(*root) else {
            continue;
        };
        if match_near(alloc, parts, *root)? {
            scratch.count_match();
            steps.tick();
        }
    }
    Ok(())
}
