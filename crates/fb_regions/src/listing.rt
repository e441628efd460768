ghost use Rattle.std.specs.Prelude.{◌≡◌, ◌+◌, ◌<◌, ◌^◌};
ghost use Rattle.fb_regions.specs.InternalListings.{count_named, linked_all, listing_at, put_behind};
ghost use Rattle.fb_regions.specs.InternalPlaces.{IsIndex};

use crate::NodeId;
use crate::marks::{Mark, Marks};
use crate::places::place_of;
use crate::region::Region;

/// A list of vertices that is kept by their marks, each of which has the vertex before it.
#[derive(Clone, Copy)]
pub struct Listing {
    pub first: u32,
    pub count: usize,
    pub last: u32,
}

/// The list of a node's vertices.
pub fn listing_of(region: &Region) -> Listing
    requires { region.now.base + region.now.added < 2 ^ 64 }
    ensures { result ≡ listing_at region.now }
{
    Listing {
        first: region.first,
        count: region.base + region.added,
        last: region.last,
    }
}

/// Sets the vertex that is listed before a marked one.
fn put_before(marks: &mut Marks, v: u32, before: u32)
    ensures { marks.new ≡ put_behind marks.old v before }
{
    if let Some(mark) = marks.at(v) {
        let behind = Mark { before, ..*mark };
        marks.put_beside(v, v, behind);
    }
}

/// Lists the vertices of the named nodes one after another, as one list.
pub fn list_together(
    places: &[Option<usize>],
    regions: &[Region],
    marks: &mut Marks,
    names: &[NodeId],
) -> Listing
    requires index { IsIndex regions.now places.now }
    requires fits { count_named regions.now names.now < 2 ^ 64 }
    ensures { linked_all regions.now names.now (record { marks = marks.old; listing = record { first = 0; count = 0; last = 0 } })
        ≡ record { marks = marks.new; listing = result } }
{
    let mut listing = Listing {
        first: 0,
        count: 0,
        last: 0,
    };
    for name in names {
        if let Some(place) = place_of(places, *name) {
            let next = listing_of(&regions[place]);
            if listing.count == 0 {
                listing = next;
            } else {
                put_before(marks, next.first, listing.last);
                listing.count += next.count;
                listing.last = next.last;
            }
        }
    }
    listing
}
