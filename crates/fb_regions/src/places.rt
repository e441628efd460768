ghost use Rattle.std.specs.Prelude.{◌≡◌, ◌+◌, ◌<◌, ◌≤◌, ◌==◌, ◌++◌, ◌∷◌, [], ℕ, if◌then◌else◌, length, map, get_or, vec_capacity, All, OnOk, None, Some};
ghost use Rattle.fb_graph.specs.Certificate.{AreDistinct};
ghost use Rattle.fb_regions.specs.InternalMerged.{IsEntered};
ghost use Rattle.fb_regions.specs.InternalPlaces.{IsIndex, IsIndexBefore, place_in};

use crate::NodeId;
use crate::region::Region;
use fb_graph::NoMemory;

/// The place of the node of this name.
pub fn place_of(places: &[Option<usize>], name: NodeId) -> Option<usize>
    ensures { result ≡ place_in places.now name }
{
    match places.get(name as usize) {
        Some(place) => *place,
        None => None,
    }
}

/// Gives the index an entry for the name, if it has none.
pub fn widen(places: &mut Vec<Option<usize>>, name: NodeId) -> Result<(), NoMemory>
    ensures within { OnOk result (name < length places.new.items) }
    ensures same { (k : ℕ) → place_in places.new.items k ≡ place_in places.old.items k }
{
    let Some(count) = (name as usize).checked_add(1) else {
        return Err(NoMemory);
    };
    if places.len() < count {
        places.resize(count, None)?;
    }
    Ok(())
}

/// Sets the entry of a name that the index has one for.
pub fn set_place(places: &mut Vec<Option<usize>>, name: NodeId, place: Option<usize>)
    requires { name < length places.old.items }
    ensures count { length places.new.items ≡ length places.old.items }
    ensures entries { (k : ℕ) → place_in places.new.items k ≡ (if name == k then place else place_in places.old.items k) }
{
    places[name as usize] = place;
}

/// Gives the list of nodes and the index room for a node of this name more.
pub fn make_room(
    regions: &mut Vec<Region>,
    places: &mut Vec<Option<usize>>,
    name: NodeId,
) -> Result<(), NoMemory>
    ensures nodes { regions.new.items ≡ regions.old.items }
    ensures same { (k : ℕ) → place_in places.new.items k ≡ place_in places.old.items k }
    ensures room { OnOk result (length regions.new.items < vec_capacity regions.new) }
    ensures within { OnOk result (name < length places.new.items) }
{
    regions.reserve(1)?;
    widen(places, name)
}

/// Puts a node behind the others. There is room for it.
pub fn enter(regions: &mut Vec<Region>, places: &mut Vec<Option<usize>>, region: Region)
    requires room { length regions.old.items < vec_capacity regions.old }
    requires within { region.name < length places.old.items }
    ensures nodes { regions.new.items ≡ regions.old.items ++ region ∷ [] }
    ensures entry { IsEntered places.old.items places.new.items region.name (length regions.old.items) }
{
    set_place(places, region.name, Some(regions.len()));
    regions.push_reserved(region);
}

/// Enters the nodes from a place on.
pub fn enter_from(places: &mut Vec<Option<usize>>, regions: &[Region], start: usize)
    requires within { All (λ r. r.name < length places.old.items) regions.now }
    requires distinct { AreDistinct (map (λ r. r.name) regions.now) }
    requires before { IsIndexBefore start regions.now places.old.items }
    ensures { IsIndex regions.now places.new.items }
{
    for i in start..regions.len() {
        set_place(places, regions[i].name, Some(i));
    }
}
