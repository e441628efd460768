//! Heads: how the outer node round a leaf is found in a few hops. Each node has a head, one of the leaves under it, and
//! a blossom the head of its largest child. A leaf leads on to the outermost node whose head it is, or to the head of the
//! node that joins that one, which has at least twice as many leaves: a union of sets by size whose links are undone when
//! a blossom is split (Galler and Fischer 1964; Westbrook and Tarjan 1989).

ghost use Rattle.std.specs.Prelude.{◌≡◌, ◌<◌, ◌^◌, map, length, All, Some, IsSome};
ghost use Rattle.fb_graph.specs.Certificate.{AreDistinct};
ghost use Rattle.fb_regions.specs.InternalClock.{HasBegun, now_at};
ghost use Rattle.fb_regions.specs.InternalHeads.{IsInTime, IsJointOf, depth_of, link_under, rejoined_regions, relinked_all, relinked_region};
ghost use Rattle.fb_regions.specs.InternalListings.{region_named};
ghost use Rattle.fb_regions.specs.InternalPlaces.{IsIndex};

use crate::NodeId;
use crate::clock::radius_at;
use crate::places::place_of;
use crate::region::{Region, adopt};

/// Another leaf under the same outer node, and by how much more radii hold this leaf than that one, modulo 2^64.
#[derive(Clone, Copy)]
pub struct Beside {
    pub leaf: NodeId,
    pub shift: u64,
}

/// Where a leaf leads.
#[derive(Clone, Copy)]
pub struct Link {
    /// The outermost node whose head the leaf is.
    pub top: NodeId,
    /// The head of the node that joins that one, if one does.
    pub beside: Option<Beside>,
}

/// The node that joins others: its name, its head, and the sum of the radii that hold the head below it, modulo 2^64.
#[derive(Clone, Copy)]
pub struct Joint {
    pub name: NodeId,
    pub head: NodeId,
    pub inside: u64,
    /// The number of leaves under it.
    pub size: usize,
}

/// The node of this name.
pub fn region_of<'a>(places: &[Option<usize>], regions: &'a [Region], name: NodeId) -> &'a Region
    requires index { IsIndex regions.now places.now }
    requires known { IsSome (region_named regions.now name) }
    ensures { region_named regions.now name ≡ Some result.now }
{
    let Some(place) = place_of(places, name) else {
        unreachable!()
    };
    &regions[place]
}

/// The sum of the radii that hold the node's head, up to the node's own at this time, modulo 2^64.
pub fn depth(region: &Region, clock: u64) -> u64
    requires begun { HasBegun clock region.now }
    requires fits { (now_at clock region.now).radius < 2 ^ 64 }
    ensures { result ≡ depth_of (now_at clock region.now) }
{
    region.inside.wrapping_add(radius_at(region, clock))
}

/// The node of this name that joins others at this time. It has the head of one of those with the most leaves.
pub fn joint_of(
    places: &[Option<usize>],
    regions: &[Region],
    clock: u64,
    name: NodeId,
    children: &[NodeId],
) -> Joint
    requires index { IsIndex regions.now places.now }
    requires time { All (IsInTime clock) regions.now }
    requires some { 0 < length children.now }
    requires known { All (λ c. IsSome (region_named regions.now c)) children.now }
    ensures { IsJointOf (region_named regions.now) clock name children.now result }
{
    let mut core = region_of(places, regions, children[0]);
    let mut size: usize = 0;
    for child in children {
        let region = region_of(places, regions, *child);
        size = size.saturating_add(region.size);
        if region.size > core.size {
            core = region;
        }
    }
    Joint {
        name,
        head: core.head,
        inside: depth(core, clock),
        size,
    }
}

/// Where the head of a node leads that is joined there at this time, or that is outer.
fn link_to(region: &Region, clock: u64, joint: Option<Joint>) -> Link
    requires begun { HasBegun clock region.now }
    requires fits { (now_at clock region.now).radius < 2 ^ 64 }
    ensures { result ≡ link_under clock joint region.now }
{
    let Some(joint) = joint else {
        return Link {
            top: region.name,
            beside: None,
        };
    };
    if region.head == joint.head {
        return Link {
            top: joint.name,
            beside: None,
        };
    }
    let beside = Beside {
        leaf: joint.head,
        shift: depth(region, clock).wrapping_sub(joint.inside),
    };
    Link {
        top: region.name,
        beside: Some(beside),
    }
}

/// Lets a leaf lead there.
fn set_link(places: &[Option<usize>], regions: &mut [Region], leaf: NodeId, link: Link)
    requires index { IsIndex regions.old places.now }
    requires distinct { AreDistinct (map (λ r. r.name) regions.old) }
    ensures { regions.new ≡ map (relinked_region leaf link) regions.old }
{
    if let Some(place) = place_of(places, leaf) {
        regions[place].link = link;
    }
}

/// Lets the heads of these nodes lead on from them, which are joined there at this time, or outer.
fn relink(
    places: &[Option<usize>],
    regions: &mut [Region],
    clock: u64,
    names: &[NodeId],
    joint: Option<Joint>,
)
    requires index { IsIndex regions.old places.now }
    requires distinct { AreDistinct (map (λ r. r.name) regions.old) }
    requires time { All (IsInTime clock) regions.old }
    ensures { regions.new ≡ relinked_all (link_under clock joint) names.now regions.old }
{
    for name in names {
        if let Some(place) = place_of(places, *name) {
            let region = &regions[place];
            let head = region.head;
            let link = link_to(region, clock, joint);
            set_link(places, regions, head, link);
        }
    }
}

/// Joins these nodes there at this time, or lets them be outer. Takes time for them alone.
pub fn rejoin(
    places: &[Option<usize>],
    regions: &mut [Region],
    clock: u64,
    names: &[NodeId],
    joint: Option<Joint>,
)
    requires index { IsIndex regions.old places.now }
    requires distinct { AreDistinct (map (λ r. r.name) regions.old) }
    requires time { All (IsInTime clock) regions.old }
    ensures { regions.new ≡ rejoined_regions clock joint names.now regions.old }
{
    let parent = joint.map(|joint| joint.name);
    adopt(places, regions, names, parent);
    relink(places, regions, clock, names, joint);
}
