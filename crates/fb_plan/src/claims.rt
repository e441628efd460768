//! The ranges of all nodes, in one list.

ghost use Rattle.std.specs.Prelude.{◌≡◌, ◌≢◌, ◌+◌, ◌<◌, ◌++◌, [], length, map, get_or, if◌then◌else◌, Some, None, true, false, All, IfOk, IfErr, OnOk};
ghost use Rattle.std.specs.List.{list_any};
ghost use Rattle.fb_plan.specs.InternalLoads.{IsClaim};
ghost use Rattle.fb_plan.specs.Rules.{claim_of, claims_from, is_bad_range, range_fault, ranges_of};

use crate::faults::PlanFault;
use crate::parts::{Join, OwnedRange};
use fb_graph::NoMemory;
use std::alloc::Global;

/// The ranges of a node: the units come first, then the fusions.
fn ranges_at<'a>(units: &'a [Vec<(u64, u64)>], fusions: &'a [Join], node: usize) -> &'a [(u64, u64)]
    requires { node < length units.now + length fusions.now }
    ensures { result.now ≡ get_or (ranges_of (map (λ u. u.items) units.now) fusions.now) node [] }
{
    if node < units.len() {
        units[node].as_slice()
    } else {
        fusions[node - units.len()].seam.as_slice()
    }
}

/// A node's range; `None` if it ends before it starts or beyond the vertices.
fn claimed(vertices: u32, node: u64, range: (u64, u64)) -> Option<OwnedRange>
    ensures { result ≡ (if is_bad_range vertices range then None else Some (claim_of node range)) }
{
    let (start, end) = range;
    if end < start || u64::from(vertices) < end {
        None
    } else {
        Some(OwnedRange {
            node,
            start: start as u32,
            end: end as u32,
        })
    }
}

/// Adds a node's ranges, up to the first bad one.
fn add_ranges(
    claims: &mut Vec<OwnedRange>,
    vertices: u32,
    node: u64,
    ranges: &[(u64, u64)],
) -> Result<(), PlanFault>
    requires { All (IsClaim vertices) claims.old.items }
    ensures ok { OnOk result (claims.new.items ≡ claims.old.items ++ map (claim_of node) ranges.now) }
    ensures each { OnOk result (All (IsClaim vertices) claims.new.items) }
    ensures good { OnOk result (list_any (is_bad_range vertices) ranges.now ≡ false) }
    ensures bad { IfErr result (λ e. e ≢ PlanFault.NoMemory → list_any (is_bad_range vertices) ranges.now ≡ true) }
    ensures err { IfErr result (λ e. e ≢ PlanFault.NoMemory → e ≡ PlanFault.BadRange node) }
{
    for range in ranges {
        let Some(claim) = claimed(vertices, node, *range) else {
            return Err(PlanFault::BadRange(node));
        };
        if claims.push(claim).is_err() {
            return Err(PlanFault::NoMemory);
        }
    }
    Ok(())
}

/// The ranges of all nodes, or the first node with a bad range.
pub fn gather(
    alloc: Global,
    vertices: u32,
    units: &[Vec<(u64, u64)>],
    fusions: &[Join],
    nodes: usize,
) -> Result<Vec<OwnedRange>, PlanFault>
    requires { nodes ≡ length units.now + length fusions.now }
    ensures ok { IfOk result (λ v. v.items ≡ claims_from 0 (ranges_of (map (λ u. u.items) units.now) fusions.now)) }
    ensures each { IfOk result (λ v. All (IsClaim vertices) v.items) }
    ensures good { OnOk result (range_fault vertices (ranges_of (map (λ u. u.items) units.now) fusions.now) ≡ None) }
    ensures err { IfErr result (λ e. e ≢ PlanFault.NoMemory → range_fault vertices (ranges_of (map (λ u. u.items) units.now) fusions.now) ≡ Some e) }
{
    let mut claims = Vec::new(alloc);
    for node in 0..nodes {
        let ranges = ranges_at(units, fusions, node);
        match add_ranges(&mut claims, vertices, node as u64, ranges) {
            Ok(()) => {}
            Err(fault) => return Err(fault),
        }
    }
    Ok(claims)
}
