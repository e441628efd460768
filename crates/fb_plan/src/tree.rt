//! The tables of a tree: the parent of each node, and the span of its subtree.

ghost use Rattle.std.specs.Prelude.{◌≡◌, ℕ, ◌+◌, ◌<◌, length, get_or, None, IfOk};
ghost use Rattle.fb_plan.specs.Plans.{IsTree, parent_of};
ghost use Rattle.fb_plan.specs.InternalLayout.{IsPlaced, IsPlacedFrom, size_of, span_at, tree_of};

use crate::parts::Span;
use fb_graph::NoMemory;
use std::alloc::Global;

/// The parent of each node; none for the root.
pub fn parents_of(
    alloc: Global,
    units: u32,
    joins: &[(u32, u32)],
) -> Result<Vec<Option<u32>>, NoMemory>
    requires { IsTree (tree_of units joins.now) }
    ensures count { IfOk result (λ p. length p.items ≡ units + length joins.now) }
    ensures each { IfOk result (λ p. (n : ℕ) → n < units + length joins.now → get_or p.items n None ≡ parent_of (tree_of units joins.now) n) }
{
    let mut parents = vec![in alloc; None; units as usize + joins.len()]?;
    for (i, join) in joins.iter().enumerate() {
        let (left, right) = *join;
        let parent = units + i as u32;
        parents[left as usize] = Some(parent);
        parents[right as usize] = Some(parent);
    }
    Ok(parents)
}

/// A list of `count` ones.
fn ones(alloc: Global, count: u32) -> Result<Vec<u32>, NoMemory>
    ensures count { IfOk result (λ s. length s.items ≡ count) }
    ensures each { IfOk result (λ s. (n : ℕ) → n < count → get_or s.items n 0 ≡ 1) }
{
    let ones = vec![in alloc; 1u32; count as usize]?;
    Ok(ones)
}

/// The number of nodes of each subtree.
fn sizes_of(alloc: Global, units: u32, joins: &[(u32, u32)]) -> Result<Vec<u32>, NoMemory>
    requires { IsTree (tree_of units joins.now) }
    ensures count { IfOk result (λ s. length s.items ≡ units + length joins.now) }
    ensures each { IfOk result (λ s. (n : ℕ) → n < units + length joins.now → get_or s.items n 0 ≡ size_of (tree_of units joins.now) n) }
{
    let mut sizes = ones(alloc, units)?;
    for join in joins {
        let (left, right) = *join;
        let size = sizes[left as usize] + sizes[right as usize] + 1;
        sizes.push(size)?;
    }
    Ok(sizes)
}

/// The span of each subtree: its places when each node is listed after its children's subtrees.
pub fn spans_of(alloc: Global, units: u32, joins: &[(u32, u32)]) -> Result<Vec<Span>, NoMemory>
    requires { IsTree (tree_of units joins.now) }
    ensures count { IfOk result (λ s. length s.items ≡ units + length joins.now) }
    ensures placed { IfOk result (λ s. IsPlaced (tree_of units joins.now) s.items) }
{
    let sizes = sizes_of(alloc, units, joins)?;
    spans_by(alloc, units, joins, &sizes)
}

/// The span of each subtree, by the number of its nodes.
#[tactic(auto, using(crate::proofs::Tables::all_placed))]
fn spans_by(
    alloc: Global,
    units: u32,
    joins: &[(u32, u32)],
    sizes: &[u32],
) -> Result<Vec<Span>, NoMemory>
    requires tree { IsTree (tree_of units joins.now) }
    requires count { length sizes.now ≡ units + length joins.now }
    requires each { (n : ℕ) → n < units + length joins.now → get_or sizes.now n 0 ≡ size_of (tree_of units joins.now) n }
    ensures count { IfOk result (λ s. length s.items ≡ units + length joins.now) }
    ensures placed { IfOk result (λ s. IsPlaced (tree_of units joins.now) s.items) }
{
    let mut spans = unplaced(alloc, sizes)?;
    let mut i = joins.len();
    while i > 0 {
        i -= 1;
        place_children(&mut spans, units, joins, sizes, i);
    }
    Ok(spans)
}

/// Each subtree as if it lay first.
fn unplaced(alloc: Global, sizes: &[u32]) -> Result<Vec<Span>, NoMemory>
    ensures count { IfOk result (λ s. length s.items ≡ length sizes.now) }
    ensures each { IfOk result (λ s. (n : ℕ) → n < length sizes.now → span_at s.items n ≡ record { start = 0; end = get_or sizes.now n 0 }) }
{
    let mut spans = Vec::new(alloc);
    for size in sizes {
        let span = Span {
            start: 0,
            end: *size,
        };
        spans.push(span)?;
    }
    Ok(spans)
}

/// Puts the subtrees of a fusion's children before the fusion's own place.
fn place_children(spans: &mut Vec<Span>, units: u32, joins: &[(u32, u32)], sizes: &[u32], i: usize)
    requires tree { IsTree (tree_of units joins.now) }
    requires count { length sizes.now ≡ units + length joins.now }
    requires each { (n : ℕ) → n < units + length joins.now → get_or sizes.now n 0 ≡ size_of (tree_of units joins.now) n }
    requires below { i < length joins.now }
    requires placed { IsPlacedFrom (tree_of units joins.now) spans.old.items (i + 1) }
    ensures { IsPlacedFrom (tree_of units joins.now) spans.new.items i }
{
    let (left, right) = joins[i];
    let start = spans[units as usize + i].start;
    let middle = start + sizes[left as usize];
    let end = middle + sizes[right as usize];
    spans[left as usize] = Span { start, end: middle };
    spans[right as usize] = Span { start: middle, end };
}
