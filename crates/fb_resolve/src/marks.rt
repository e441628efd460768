//! Marks on the nodes in blossoms in which a link ends.

ghost use Rattle.std.specs.Prelude.{◌≡◌, ℕ, ◌<◌, ◌≤◌, ◌||◌, true, false, length, IfOk};
ghost use Rattle.fb_graph.specs.Parity.{is_in};
ghost use Rattle.fb_blossoms.specs.Nodes.{defects_at, is_live};
ghost use Rattle.fb_links.specs.Table.{walk_at};
ghost use Rattle.fb_links.specs.Table as table;
ghost use Rattle.fb_resolve.specs.Openings.{holds_end};
ghost use Rattle.fb_resolve.specs.InternalMarks.{AreClosed, HasPlaces, IsInside, IsMarkedUp, is_marked};

use fb_blossoms::Blossoms;
use fb_graph::NoMemory;
use fb_links::{LinkId, Links, NodeId};
use std::alloc::Global;

/// Marks on no node, with a place for each name.
pub fn no_marks(alloc: Global, names: &[NodeId]) -> Result<Vec<bool>, NoMemory>
    ensures places { IfOk result (λ marks. (x : ℕ) → is_in names.now x ≡ true → x < length marks.items) }
    ensures none { IfOk result (λ marks. (x : ℕ) → is_marked marks.items x ≡ false) }
{
    let Some(size) = name_bound(names).checked_add(1) else {
        return Err(NoMemory);
    };
    let marks = vec![in alloc; false; size]?;
    Ok(marks)
}

/// The greatest of the names; 0 if there is none.
fn name_bound(names: &[NodeId]) -> usize
    ensures { (x : ℕ) → is_in names.now x ≡ true → x ≤ result }
{
    let mut bound = 0;
    for name in names {
        if bound < *name as usize {
            bound = *name as usize;
        }
    }
    bound
}

/// Whether the node is marked.
pub fn has_mark(marks: &[bool], node: NodeId) -> bool
    ensures { result ≡ is_marked marks.now node }
{
    match marks.get(node as usize) {
        Some(mark) => *mark,
        None => false,
    }
}

/// Marks the node and those round it, up to the first one that is marked already. So all marks on a part take no more
/// steps than the part has nodes.
pub fn mark_up(blossoms: &Blossoms, marks: &mut [bool], node: NodeId)
    requires places { HasPlaces blossoms.now (length marks.old) }
    requires live { is_live blossoms.now node ≡ true }
    requires closed { AreClosed blossoms.now marks.old }
    ensures { IsMarkedUp blossoms.now marks.old marks.new node }
{
    blossoms.keeps();
    let mut next = Some(node);
    while let Some(name) = next {
        if marks[name as usize] {
            break;
        }
        marks[name as usize] = true;
        next = blossoms.parent(name);
    }
}

/// Marks the nodes in blossoms that hold the vertex, if it is a defect, and no others in blossoms. An outer node is
/// marked if a marked one is in it.
fn mark_end(blossoms: &Blossoms, marks: &mut [bool], vertex: u32)
    requires places { HasPlaces blossoms.now (length marks.old) }
    requires closed { AreClosed blossoms.now marks.old }
    ensures closed { AreClosed blossoms.now marks.new }
    ensures marks { (x : ℕ) → IsInside blossoms.now x
        → is_marked marks.new x ≡ (is_marked marks.old x || is_in (defects_at blossoms.now x) vertex) }
{
    blossoms.keeps();
    if let Some(leaf) = blossoms.leaf_of(vertex) {
        mark_up(blossoms, marks, leaf);
    }
}

/// Marks the nodes in blossoms in which the link ends.
pub fn mark_link(blossoms: &Blossoms, links: &Links, marks: &mut [bool], id: LinkId)
    requires places { HasPlaces blossoms.now (length marks.old) }
    requires live { table.is_live links.now id ≡ true }
    requires closed { AreClosed blossoms.now marks.old }
    ensures closed { AreClosed blossoms.now marks.new }
    ensures marks { (x : ℕ) → IsInside blossoms.now x
        → is_marked marks.new x ≡ (is_marked marks.old x || holds_end (defects_at blossoms.now x) (walk_at links.now id)) }
{
    let (from, to) = links.ends(id);
    mark_end(blossoms, marks, from);
    mark_end(blossoms, marks, to);
}
