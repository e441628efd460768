ghost use Rattle.std.specs.Prelude.{◌≡◌, ◌≤◌, ◌++◌, ◌∷◌, ℕ, [], length, map, IfOk, OnOk};
ghost use Rattle.fb_graph.specs.Certificate.{AreDistinct};
ghost use Rattle.fb_links.specs.Names.{name_by};
ghost use Rattle.fb_regions.specs.InternalMerged.{AreMarksOver, IsEntered, renamed_link, renamed_region, renamed_regions};
ghost use Rattle.fb_regions.specs.InternalPlaces.{IsIndex};

use crate::NodeId;
use crate::heads::{Beside, Link};
use crate::marks::{Mark, Marks};
use crate::places::{enter, make_room};
use crate::region::Region;
use fb_graph::NoMemory;
use fb_links::names::{Names, names_of};
use std::alloc::Global;

/// Takes nodes out of their list and puts them behind the others, one after another, under the new names that the second
/// list has beside their old ones. Returns these names by the old ones.
pub fn take_nodes(
    alloc: Global,
    regions: &mut Vec<Region>,
    places: &mut Vec<Option<usize>>,
    others: &mut Vec<Region>,
    nodes: &[(NodeId, NodeId)],
) -> Result<Names, NoMemory>
    requires distinct { AreDistinct (map (λ r. r.name) (regions.old.items ++ renamed_regions (name_by nodes.now) others.old.items)) }
    requires index { IsIndex regions.old.items places.old.items }
    ensures names { IfOk result (λ names. (a : ℕ) → name_by names a ≡ name_by nodes.now a) }
    ensures nodes { OnOk result (regions.new.items ≡ regions.old.items ++ renamed_regions (name_by nodes.now) others.old.items) }
    ensures index { OnOk result (IsIndex regions.new.items places.new.items) }
{
    let names = names_of(alloc, nodes)?;
    others.reverse();
    while let Some(region) = others.pop() {
        take_node(regions, places, region, &names)?;
    }
    Ok(names)
}

/// Puts a node at rest behind the others, under its new name, and with the new names of its children and of the node round
/// it.
fn take_node(
    regions: &mut Vec<Region>,
    places: &mut Vec<Option<usize>>,
    mut region: Region,
    names: &Names,
) -> Result<(), NoMemory>
    ensures nodes { OnOk result (regions.new.items ≡ regions.old.items ++ renamed_region (name_by names.now) region ∷ []) }
    ensures entry { OnOk result (IsEntered places.old.items places.new.items (name_by names.now region.name) (length regions.old.items)) }
{
    region.name = names.of(region.name);
    region.parent = names.of_option(region.parent);
    region.head = names.of(region.head);
    region.link = renamed_link(region.link, names);
    region.since = 0;
    rename_all(&mut region.children, names);
    make_room(regions, places, region.name)?;
    enter(regions, places, region);
    Ok(())
}

/// The link with the new names of the nodes.
fn renamed_link(link: Link, names: &Names) -> Link
    ensures { result ≡ renamed_link (name_by names.now) link }
{
    let beside = link.beside.map(|beside| Beside {
        leaf: names.of(beside.leaf),
        ..beside
    });
    Link {
        top: names.of(link.top),
        beside,
    }
}

/// Gives each node of a list its new name.
fn rename_all(nodes: &mut [NodeId], names: &Names)
    ensures { nodes.new ≡ map (name_by names.now) nodes.old }
{
    for i in 0..nodes.len() {
        nodes[i] = names.of(nodes[i]);
    }
}

/// Gives each vertex that has a mark in the other table that mark, with the new name of its defect's node.
pub fn take_marks(
    alloc: Global,
    marks: &mut Marks,
    others: &Marks,
    names: &Names,
) -> Result<(), NoMemory>
    requires { length others.now ≤ length marks.old }
    ensures { OnOk result (AreMarksOver (name_by names.now) marks.old others.now marks.new) }
{
    for v in others.marked() {
        if let Some(mark) = others.at(*v) {
            let leaf = names.of(mark.leaf);
            marks.put(alloc, *v, Mark { leaf, ..*mark })?;
        }
    }
    Ok(())
}
