//! The links that solve a part once all its blossoms are opened.

ghost use Rattle.std.specs.Prelude.{◌≡◌, ℕ, ◌≤◌, ◌∷◌, ◌++◌, ◌||◌, true, [], length, map, All, IfOk, OnOk, if◌then◌else◌};
ghost use Rattle.fb_graph.specs.Parity.{is_in};
ghost use Rattle.fb_blossoms.specs.Nodes.{is_live};
ghost use Rattle.fb_links.specs.Table as table;
ghost use Rattle.fb_laws.specs.OpenedLinks.{every_second, place_of, round_from};
ghost use Rattle.fb_half.specs.Translations.{ring_at};
ghost use Rattle.fb_resolve.specs.Openings.{is_reached, opened_numbers, pair_numbers};
ghost use Rattle.fb_resolve.specs.InternalMarks.{AreClosed, AreMarks, HasPlaces, IsInside, is_marked};

use crate::marks::{has_mark, mark_link, no_marks};
use fb_blossoms::Blossoms;
use fb_graph::NoMemory;
use fb_links::{CycleStep, LinkId, Links, NodeId};
use std::alloc::Global;

/// The numbers of the links that solve a part, given the names of its nodes in the order in which they were made and
/// the numbers of its matches. Its time is that of the nodes and links, since each node is marked once.
pub fn opened(
    alloc: Global,
    blossoms: &Blossoms,
    links: &Links,
    names: &[NodeId],
    matches: &[LinkId],
) -> Result<Vec<LinkId>, NoMemory>
    requires names { (x : ℕ) → is_live blossoms.now x ≡ true → is_in names.now x ≡ true }
    requires matches { All (λ id. table.is_live links.now id ≡ true) matches.now }
    requires rings { (x : ℕ) → All (λ id. table.is_live links.now id ≡ true) (ring_at blossoms.now x) }
    ensures { IfOk result (λ ids. ids.items ≡ opened_numbers links.now blossoms.now matches.now names.now) }
{
    let mut marks = no_marks(alloc, names)?;
    let mut ids = Vec::from_slice(alloc, matches)?;
    mark_links(blossoms, links, &mut marks, matches);
    let mut i = names.len();
    while i > 0 {
        i -= 1;
        open_node(blossoms, links, &mut marks, &mut ids, names[i])?;
    }
    Ok(ids)
}

/// Marks the nodes in blossoms in which the links end.
fn mark_links(blossoms: &Blossoms, links: &Links, marks: &mut [bool], ids: &[LinkId])
    requires places { HasPlaces blossoms.now (length marks.old) }
    requires live { All (λ id. table.is_live links.now id ≡ true) ids.now }
    requires closed { AreClosed blossoms.now marks.old }
    ensures closed { AreClosed blossoms.now marks.new }
    ensures marks { (x : ℕ) → IsInside blossoms.now x
        → is_marked marks.new x ≡ (is_marked marks.old x || is_reached links.now blossoms.now ids.now x) }
{
    for id in ids {
        mark_link(blossoms, links, marks, *id);
    }
}

/// Opens the node: adds the links that match its children in pairs, but for the one that is marked, and marks the
/// nodes in blossoms in which they end.
fn open_node(
    blossoms: &Blossoms,
    links: &Links,
    marks: &mut [bool],
    ids: &mut Vec<LinkId>,
    name: NodeId,
) -> Result<(), NoMemory>
    requires places { HasPlaces blossoms.now (length marks.old) }
    requires rings { All (λ id. table.is_live links.now id ≡ true) (ring_at blossoms.now name) }
    requires closed { AreClosed blossoms.now marks.old }
    requires marks { AreMarks links.now blossoms.now ids.old.items marks.old }
    ensures ids { OnOk result (ids.new.items ≡ ids.old.items ++ pair_numbers links.now blossoms.now ids.old.items name) }
    ensures closed { OnOk result (AreClosed blossoms.now marks.new) }
    ensures marks { OnOk result (AreMarks links.now blossoms.now ids.new.items marks.new) }
{
    let cycle = blossoms.cycle(name);
    let opened = ids.as_slice().len();
    push_every_second(ids, cycle, marked_place(cycle, marks))?;
    mark_links(blossoms, links, marks, &ids[opened..]);
    Ok(())
}

/// The place of the first node of the cycle that is marked, or the cycle's length if none is.
fn marked_place(cycle: &[CycleStep], marks: &[bool]) -> usize
    ensures place { result ≡ place_of (is_marked marks.now) (map (λ s. s.node) cycle.now) }
    ensures within { result ≤ length cycle.now }
{
    for (i, step) in cycle.iter().enumerate() {
        if has_mark(marks, step.node) {
            return i;
        }
    }
    cycle.len()
}

/// Adds every second link of the cycle, gone round from the place.
fn push_every_second(
    ids: &mut Vec<LinkId>,
    cycle: &[CycleStep],
    place: usize,
) -> Result<(), NoMemory>
    requires { place ≤ length cycle.now }
    ensures { OnOk result (ids.new.items ≡ ids.old.items ++ every_second (round_from place (map (λ s. s.link) cycle.now))) }
{
    let (before, after) = cycle.split_at(place);
    let mut is_second = false;
    for step in after {
        push_if(ids, is_second, step.link)?;
        is_second = !is_second;
    }
    for step in before {
        push_if(ids, is_second, step.link)?;
        is_second = !is_second;
    }
    Ok(())
}

/// Adds the link if it is wanted.
fn push_if(ids: &mut Vec<LinkId>, is_wanted: bool, link: LinkId) -> Result<(), NoMemory>
    ensures { OnOk result (ids.new.items ≡ ids.old.items ++ (if is_wanted then link ∷ [] else [])) }
{
    if is_wanted {
        ids.push(link)?;
    }
    Ok(())
}
