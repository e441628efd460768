ghost use Rattle.std.specs.Prelude.{◌≡◌, ◌+◌, ◌<◌, ◌^◌, [], ◌∷◌, ◌++◌, map, filter, IfOk, OnOk, Option, option_map, Some, true};
ghost use Rattle.fb_graph.specs.Dual.{layers_of};
ghost use Rattle.fb_graph.specs.Printed.{is_positive};
ghost use Rattle.fb_graph.specs.Certificate.{AreDistinct, total_value};
ghost use Rattle.fb_regions.specs.InternalClock.{HasBegun, HaveBegun, all_at, now_at};
ghost use Rattle.fb_regions.specs.InternalHeads.{HaveHeads, is_leaf_in};
ghost use Rattle.fb_regions.specs.InternalListings.{region_named};
ghost use Rattle.fb_regions.specs.InternalNodes.{reparented_region, chain, node_of, radii_from, root_from, stack};
ghost use Rattle.fb_regions.specs.InternalPlaces.{AreJoinedAbove, IsIndex};

use crate::clock::{radius_at, top_at};
use crate::heads::{Link, depth, region_of};
use crate::marks::Marks;
use crate::places::place_of;
use crate::{NodeId, Role};
use fb_graph::{Cut, CutList, NoMemory, NumberList};
use std::alloc::Global;

/// What is kept of a node. Its vertices are kept by their marks, each of which has the one listed before it, and so are
/// the values of its lower layers.
#[derive(Drop)]
pub struct Region {
    pub name: NodeId,
    /// The names of the nodes that it joins.
    pub children: Vec<NodeId>,
    /// The name of the node that joins it.
    pub parent: Option<NodeId>,
    /// The name of one of the leaves under it, its own name if it joins no others.
    pub head: NodeId,
    /// The sum of the radii of the nodes that hold the head, up to those that this one joins, modulo 2^64.
    pub inside: u64,
    /// The number of leaves under it.
    pub size: usize,
    /// If it is a leaf, where it leads; nothing is said of a blossom's.
    pub link: Link,
    /// The first of its vertices.
    pub first: u32,
    /// The number of vertices of its first layer, and the last of them.
    pub base: usize,
    pub base_last: u32,
    /// The number of vertices that it absorbed, one with each further layer.
    pub added: usize,
    /// The last of its vertices.
    pub last: u32,
    /// The value of its top layer when its pace began.
    pub top_value: u64,
    /// The sum of the values of its layers when its pace began.
    pub radius: u64,
    /// How its top layer moves with the clock.
    pub pace: Role,
    /// The time at which that began.
    pub since: u64,
}

/// The outer node round a leaf.
#[derive(Clone, Copy)]
pub struct Climb {
    /// The name of the outer node.
    pub root: NodeId,
    /// The sum of the radii of the leaf and of the nodes round it.
    pub radii: u64,
}

/// The outer node round a leaf, and the sum of the radii at this time on the way to it. Hops from head to head, at most
/// once for each time that the number of leaves doubles.
pub fn climb_from(places: &[Option<usize>], regions: &[Region], clock: u64, leaf: NodeId) -> Climb
    requires index { IsIndex regions.now places.now }
    requires joined { AreJoinedAbove regions.now }
    requires begun { HaveBegun clock regions.now }
    requires fits { radii_from (all_at clock regions.now) leaf < 2 ^ 64 }
    requires heads { HaveHeads (region_named (all_at clock regions.now)) }
    requires leaf { is_leaf_in (region_named regions.now leaf) ≡ true }
    ensures { Some result ≡ option_map (λ root. record { root = root; radii = radii_from (all_at clock regions.now) leaf }) (root_from regions.now leaf) }
{
    let mut region = region_of(places, regions, leaf);
    let mut radii: u64 = 0;
    while let Some(beside) = region.link.beside {
        radii = radii.wrapping_add(beside.shift);
        region = region_of(places, regions, beside.leaf);
    }
    let root = region.link.top;
    let outer = region_of(places, regions, root);
    Climb {
        root,
        radii: radii.wrapping_add(depth(outer, clock)),
    }
}

/// Makes a node the parent of these, or none.
pub fn adopt(
    places: &[Option<usize>],
    regions: &mut [Region],
    names: &[NodeId],
    parent: Option<NodeId>,
)
    requires index { IsIndex regions.old places.now }
    requires distinct { AreDistinct (map (λ r. r.name) regions.old) }
    ensures { regions.new ≡ map (reparented_region names.now parent) regions.old }
{
    for name in names {
        if let Some(place) = place_of(places, *name) {
            regions[place].parent = parent;
        }
    }
}

/// `count` vertices back from `last`, each listed before the next one; `last` is the last of them.
fn vertices_back(
    alloc: Global,
    marks: &Marks,
    count: usize,
    last: u32,
) -> Result<Vec<u32>, NoMemory>
    ensures { IfOk result (λ v. v.items ≡ chain marks.now count last) }
{
    let mut vertices = Vec::new(alloc);
    read_back(marks, count, last, &mut vertices)?;
    Ok(vertices)
}

/// Puts `count` vertices back from `last` in the place of those of the buffer, each listed before the next one; `last` is
/// the last of them.
fn read_back(
    marks: &Marks,
    count: usize,
    last: u32,
    vertices: &mut Vec<u32>,
) -> Result<(), NoMemory>
    ensures { OnOk result (vertices.new.items ≡ chain marks.now count last) }
{
    vertices.clear();
    vertices.reserve(count)?;
    let mut at = last;
    for _ in 0..count {
        vertices.push(at)?;
        at = marks.before(at);
    }
    vertices.reverse();
    Ok(())
}

/// A copy of the layers of a node at this time, from the first to the top.
pub fn layers(
    alloc: Global,
    marks: &Marks,
    region: &Region,
    clock: u64,
) -> Result<Vec<Cut>, NoMemory>
    requires begun { HasBegun clock region.now }
    requires fits { (now_at clock region.now).top_value < 2 ^ 64 }
    ensures { IfOk result (λ v. v.items ≡ layers_of (node_of marks.now (now_at clock region.now))) }
{
    let added = vertices_back(alloc, marks, region.added, region.last)?;
    let mut set = vertices_back(alloc, marks, region.base, region.base_last)?;
    let mut layers = lower_layers(alloc, marks, added.as_slice(), &mut set)?;
    let vertices = NumberList::from_vec(set);
    layers.push(Cut {
        value: top_at(region, clock),
        vertices,
    })?;
    Ok(layers)
}

/// A copy of the layers below those that the vertices began, over a first set, behind which it puts the vertices.
fn lower_layers(
    alloc: Global,
    marks: &Marks,
    vertices: &[u32],
    set: &mut Vec<u32>,
) -> Result<Vec<Cut>, NoMemory>
    ensures { IfOk result (λ v. (v.items ≡ stack marks.now set.old.items vertices.now) × (set.new.items ≡ set.old.items ++ vertices.now)) }
{
    let mut layers = Vec::new(alloc);
    for v in vertices {
        let below = cut(alloc, marks.under(*v), set.as_slice())?;
        layers.push(below)?;
        set.push(*v)?;
    }
    Ok(layers)
}

/// Room into which the vertices of one node after another are read.
#[derive(Drop)]
pub struct Buffers {
    /// The vertices of a layer.
    set: Vec<u32>,
    /// The vertices that the node absorbed.
    added: Vec<u32>,
}

impl Buffers {
    /// Buffers that take no memory yet.
    pub fn new(alloc: Global) -> Buffers {
        Buffers {
            set: Vec::new(alloc),
            added: Vec::new(alloc),
        }
    }
}

/// Copies of the layers of a node that have a value at this time, from the first to the top, behind those of a list. Its
/// vertices are read only if there are such layers.
pub fn put_cuts(
    marks: &Marks,
    region: &Region,
    clock: u64,
    buffers: &mut Buffers,
    cuts: &mut CutList,
) -> Result<(), NoMemory>
    requires begun { HasBegun clock region.now }
    requires top { (now_at clock region.now).top_value < 2 ^ 64 }
    requires fits { (now_at clock region.now).radius < 2 ^ 64 }
    requires radius { (now_at clock region.now).radius ≡ total_value (layers_of (node_of marks.now (now_at clock region.now))) }
    ensures { OnOk result (cuts.new ≡ cuts.old ++ filter is_positive (layers_of (node_of marks.now (now_at clock region.now)))) }
{
    if radius_at(region, clock) == 0 {
        return Ok(());
    }
    read_back(marks, region.base, region.base_last, &mut buffers.set)?;
    read_back(marks, region.added, region.last, &mut buffers.added)?;
    put_lower_cuts(marks, &buffers.added, &mut buffers.set, cuts)?;
    put_cut(top_at(region, clock), &buffers.set, cuts)
}

/// Copies of the layers below those that the vertices began, over a first set, behind which it puts the vertices: those
/// that have a value, behind those of a list.
fn put_lower_cuts(
    marks: &Marks,
    vertices: &[u32],
    set: &mut Vec<u32>,
    cuts: &mut CutList,
) -> Result<(), NoMemory>
    ensures { OnOk result ((set.new.items ≡ set.old.items ++ vertices.now)
        × (cuts.new ≡ cuts.old ++ filter is_positive (stack marks.now set.old.items vertices.now))) }
{
    for v in vertices {
        put_cut(marks.under(*v), set.as_slice(), cuts)?;
        set.push(*v)?;
    }
    Ok(())
}

/// A layer with a copy of the set, behind those of a list, if it has a value.
fn put_cut(value: u64, set: &[u32], cuts: &mut CutList) -> Result<(), NoMemory>
    ensures { OnOk result (cuts.new ≡ cuts.old ++ filter is_positive (record { value = value; vertices = set.now } ∷ [])) }
{
    if value > 0 {
        cuts.push(value, set)?;
    }
    Ok(())
}

/// A layer with a copy of the set.
fn cut(alloc: Global, value: u64, set: &[u32]) -> Result<Cut, NoMemory>
    ensures { IfOk result (λ c. c ≡ record { value = value; vertices = set.now }) }
{
    let vertices = NumberList::from_vec(Vec::from_slice(alloc, set)?);
    Ok(Cut { value, vertices })
}

/// The vertices of a node: the set of its top layer.
pub fn vertices(alloc: Global, marks: &Marks, region: &Region) -> Result<Vec<u32>, NoMemory>
    ensures { IfOk result (λ v. v.items ≡ (node_of marks.now region.now).top.vertices) }
{
    let added = vertices_back(alloc, marks, region.added, region.last)?;
    let mut vertices = vertices_back(alloc, marks, region.base, region.base_last)?;
    vertices.extend_from_slice(added.as_slice())?;
    Ok(vertices)
}
