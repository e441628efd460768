//! Shots of a window by whether they have a correction, and their rows and history put together.

ghost use Rattle.std.specs.Prelude.{◌≡◌, ◌≤◌, ◌<◌, ◌++◌, ℕ, List, [], ◌∷◌, length, count_by, is_none, All, IfOk, OnOk};
ghost use Rattle.fb_graph.specs.Components.{IsFirstOdd};
ghost use Rattle.fb_graph.specs.Limits.{DecodingGraph, IsShot, ShotValue, problem_of};
ghost use Rattle.fb_crew.specs.InternalWindows.{IsSorted, SortingLaws, rows_by, with_places};

use fb_book::{Entry, MOST_AT_ONCE};
use fb_graph::{Components, NoMemory, Row, Shot, Whole, first_odd};
use std::alloc::Global;

/// Does nothing. Rows and history put together by `join_rows` and `renumber` are right for all shots.
pub fn sorting_laws()
    ensures { SortingLaws }
{}

/// Shots by whether they have a correction: the vertex of the first odd component of each that has none, the shots that have
/// one, and their places.
#[derive(Drop)]
pub struct Sorted {
    pub odd: Vec<Option<u32>>,
    pub even: Vec<Shot>,
    pub places: Vec<u32>,
}

impl Sorted {
    /// Adds the next shot, with the vertex of its first odd component.
    fn add(
        &mut self,
        alloc: Global,
        place: u32,
        shot: &Shot,
        vertex: Option<u32>,
    ) -> Result<(), NoMemory>
        ensures { (g : DecodingGraph) (shots : List ShotValue) → IsSorted g shots self.old.odd.items self.old.even.items self.old.places.items
            → IsFirstOdd (problem_of g shot.now) vertex → place ≡ length shots
            → OnOk result (IsSorted g (shots ++ shot.now ∷ []) self.new.odd.items self.new.even.items self.new.places.items) }
    {
        self.odd.push(vertex)?;
        if vertex.is_some() {
            return Ok(());
        }
        self.even.push(shot.copy(alloc)?)?;
        self.places.push(place)?;
        Ok(())
    }
}

/// Sorts the shots by whether they have a correction.
pub fn sort_out(
    alloc: Global,
    parts: &mut Components<Whole<'_>>,
    shots: &[Shot],
) -> Result<Sorted, NoMemory>
    requires shots { All (IsShot parts.old.0.now) shots.now }
    requires few { length shots.now ≤ MOST_AT_ONCE }
    ensures sorted { IfOk result (λ s. IsSorted parts.old.0.now shots.now s.odd.items s.even.items s.places.items) }
    ensures same { parts.new ≡ parts.old }
{
    let mut sorted = Sorted {
        odd: Vec::with_capacity(alloc, shots.len())?,
        even: Vec::new(alloc),
        places: Vec::new(alloc),
    };
    for (place, shot) in shots.iter().enumerate() {
        let vertex = first_odd(parts, shot);
        sorted.add(alloc, place as u32, shot, vertex)?;
    }
    Ok(sorted)
}

/// The rows of all shots: odd ones, and in the places of the others these in their order.
pub fn join_rows(alloc: Global, odd: &[Option<u32>], solved: Vec<Row>) -> Result<Vec<Row>, NoMemory>
    requires { length solved.items ≡ count_by is_none odd.now }
    ensures { IfOk result (λ rows. rows.items ≡ rows_by odd.now solved.items) }
{
    let mut rows = Vec::with_capacity(alloc, odd.len())?;
    let mut rest = solved.into_iter();
    for vertex in odd {
        let row = match vertex {
            Some(vertex) => Row::Odd(*vertex),
            None => match rest.next() {
                Some(row) => row,
                None => unreachable!(),
            },
        };
        rows.push(row)?;
    }
    Ok(rows)
}

/// Gives each entry the place of its shot for its slot.
pub fn renumber(history: &mut Vec<Entry>, places: &[u32])
    requires { All (λ e. e.slot < length places.now) history.old.items }
    ensures { history.new.items ≡ with_places places.now history.old.items }
{
    for i in 0..history.len() {
        let slot = history[i].slot;
        history[i].slot = places[slot as usize];
    }
}
