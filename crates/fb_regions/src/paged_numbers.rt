ghost use Rattle.std.specs.Prelude.{◌≡◌, ◌+◌, ◌*◌, ◌<◌, ◌≤◌, ℕ, [], get_or, length, replicate, set, vec_capacity, IfOk, MatchOption};
ghost use Rattle.fb_regions.specs.InternalPages.{no_place, number_at, ArePaged};
ghost use Rattle.fb_regions.specs.declared.paged_numbers.TheConstants.{PAGE};

use fb_graph::NoMemory;
use std::alloc::Global;
use std::marker::Model;

/// The number of numbers of a page.
const PAGE: usize = 512;

/// The place of a page that isn't filled.
const NO_PLACE: u32 = u32::MAX;

/// Numbers by their index, all 0 at first. Only `new` takes memory, room for all of them. The numbers are kept in pages,
/// and a page is filled when a number in it is set for the first time: until then its memory isn't touched.
#[derive(Drop)]
pub struct PagedNumbers {
    count: u32,
    /// For each page its place among the filled ones, or `NO_PLACE`.
    places: Vec<u32>,
    /// The numbers of the filled pages, one page after another.
    numbers: Vec<u32>,
}

impl Model for PagedNumbers {
    ghost use Rattle.std.specs.Prelude.{List, ℕ, length, vec_capacity, ◌*◌, ◌≤◌};
    ghost use Rattle.fb_regions.specs.InternalPages.{numbers_of, ArePaged};
    ghost use Rattle.fb_regions.specs.declared.paged_numbers.TheConstants.{PAGE};

    ghost Value = { List ℕ };

    ghost view = { λ p. numbers_of p.count p.places.items p.numbers.items };

    ghost invariant = { λ p. (p.count ≤ PAGE * length p.places.items) × ArePaged p.places.items p.numbers.items (vec_capacity p.numbers) };
}

impl PagedNumbers {
    /// No numbers. Takes no memory.
    pub fn empty(alloc: Global) -> PagedNumbers
        ensures { result ≡ [] }
    {
        PagedNumbers {
            count: 0,
            places: Vec::new(alloc),
            numbers: Vec::new(alloc),
        }
    }

    /// `count` numbers, all 0. Takes time for each page.
    pub fn new(alloc: Global, count: u32) -> Result<PagedNumbers, NoMemory>
        ensures { IfOk result (λ numbers. numbers ≡ replicate count 0) }
    {
        let pages = (count as usize).div_ceil(PAGE);
        let places = vec![in alloc; NO_PLACE; pages]?;
        let numbers = Vec::with_capacity(alloc, pages * PAGE)?;
        Ok(PagedNumbers {
            count,
            places,
            numbers,
        })
    }

    /// The number of numbers.
    pub fn len(&self) -> u32
        ensures { result ≡ length self.now }
    {
        self.count
    }

    /// The number at an index; none past the last one.
    pub fn get(&self, index: u32) -> Option<u32>
        ensures { MatchOption result (length self.now ≤ index) (λ n. (index < length self.now) × (n ≡ get_or self.now index 0)) }
    {
        if index >= self.count {
            return None;
        }
        let index = index as usize;
        let place = self.places[index / PAGE];
        if place == NO_PLACE {
            return Some(0);
        }
        Some(self.numbers[place as usize * PAGE + index % PAGE])
    }

    /// Sets the number at an index.
    pub fn set(&mut self, index: u32, number: u32)
        requires { index < length self.old }
        ensures { self.new ≡ set self.old index number }
    {
        let index = index as usize;
        let place = filled(&mut self.places, &mut self.numbers, index / PAGE);
        self.numbers[place * PAGE + index % PAGE] = number;
    }
}

/// The place of a page, which is filled with 0s if it isn't filled yet.
fn filled(places: &mut Vec<u32>, numbers: &mut Vec<u32>, page: usize) -> usize
    requires page { page < length places.old.items }
    requires paged { ArePaged places.old.items numbers.old.items (vec_capacity numbers.old) }
    ensures paged { ArePaged places.new.items numbers.new.items (vec_capacity numbers.new) }
    ensures pages { length places.new.items ≡ length places.old.items }
    ensures place { result ≡ get_or places.new.items page no_place }
    ensures within { PAGE * result + PAGE ≤ length numbers.new.items }
    ensures same { (i : ℕ) → number_at places.new.items numbers.new.items i ≡ number_at places.old.items numbers.old.items i }
{
    let place = places[page];
    if place != NO_PLACE {
        return place as usize;
    }
    let count = numbers.len();
    if numbers.resize(count + PAGE, 0).is_err() {
        unreachable!()
    }
    places[page] = (count / PAGE) as u32;
    count / PAGE
}
