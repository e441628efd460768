ghost use Rattle.std.specs.Prelude.{ℕ, ◌≡◌, ◌+◌, ◌<◌, ◌==◌, ◌&&◌, not, false, true, [], length, get_or, All, IfOk, MatchOption, option_map, if◌then◌else◌, None};
ghost use Rattle.fb_graph.specs.Certificate.{AreDistinct};
ghost use Rattle.fb_graph.specs.Counts.{as_count};
ghost use Rattle.fb_graph.specs.Parity.{is_in};
ghost use Rattle.fb_regions.specs.InternalTables.{with_value, value_of};

use crate::paged_numbers::PagedNumbers;
use fb_graph::NoMemory;
use std::alloc::Global;
use std::marker::Model;

/// Values by numbers below a bound, few of which are keys at a time (Briggs and Torczon 1993). Only `new` takes memory,
/// room for all numbers below the bound, of which it touches none. A call takes the time of a few reads and writes, and
/// the first key of a page of 512 numbers that of filling the page. The order of the keys is free.
#[derive(Drop)]
pub struct SparseTable<T> {
    /// For each number its place among the keys. It counts only if that number is there.
    places: PagedNumbers,
    /// The keys, with room for all numbers below the bound.
    keys: Vec<u32>,
    /// The value of each key, at the key's place.
    values: Vec<T>,
}

impl<T> Model for SparseTable<T> {
    ghost use Rattle.std.specs.Prelude.{length, vec_capacity};
    ghost use Rattle.fb_regions.specs.InternalTables.{Sparse, sparse_code};
    ghost use Rattle.fb_regions.specs.InternalSparse.{IsStored};

    ghost Value = { Sparse T };

    ghost coded = { sparse_code T.code };

    ghost view = { λ s. record { bound = length s.places; keys = s.keys.items; values = s.values.items } };

    ghost invariant = { λ s. IsStored s.places s.keys.items (length s.values.items) (vec_capacity s.keys) (vec_capacity s.values) };
}

impl<T: Copy> SparseTable<T> {
    /// A table that no number can enter. Takes no memory.
    pub fn empty(alloc: Global) -> SparseTable<T>
        ensures { result ≡ record { bound = 0; keys = []; values = [] } }
    {
        SparseTable {
            places: PagedNumbers::empty(alloc),
            keys: Vec::new(alloc),
            values: Vec::new(alloc),
        }
    }

    /// A table without keys. It takes room for each number below the bound and its value, and time for each page of 512
    /// numbers.
    pub fn new(alloc: Global, bound: u32) -> Result<SparseTable<T>, NoMemory>
        ensures { IfOk result (λ s. s ≡ record { bound = bound; keys = []; values = [] }) }
    {
        let count = bound as usize;
        let places = PagedNumbers::new(alloc, bound)?;
        let keys = Vec::with_capacity(alloc, count)?;
        let values = Vec::with_capacity(alloc, count)?;
        Ok(SparseTable {
            places,
            keys,
            values,
        })
    }

    /// Does nothing. Its clauses say what every table keeps.
    pub fn keeps(&self)
        ensures distinct { AreDistinct self.now.keys }
        ensures within { All (λ k. k < self.now.bound) self.now.keys }
        ensures values { length self.now.values ≡ length self.now.keys }
    {
        let _keys = &self.keys;
    }

    /// The bound, below which all keys are.
    pub fn bound(&self) -> u32
        ensures { result ≡ self.now.bound }
    {
        self.places.len()
    }

    /// The place of a key among the keys; none if the number is no key.
    pub fn place_of(&self, key: u32) -> Option<usize>
        ensures { MatchOption result (is_in self.now.keys key ≡ false)
            (λ i. (i < length self.now.keys) × (get_or self.now.keys i 0 ≡ key) × (is_in self.now.keys key ≡ true)) }
    {
        let place = self.places.get(key)? as usize;
        if *self.keys.get(place)? == key {
            Some(place)
        } else {
            None
        }
    }

    /// The value of a key; none if the number is no key.
    pub fn get_ref(&self, key: u32) -> Option<&T>
        ensures { option_map (λ x. x.now) result ≡ value_of self.now key }
    {
        let place = self.place_of(key)?;
        Some(&self.values[place])
    }

    /// Gives the key the value.
    pub fn enter(&mut self, key: u32, value: T)
        requires { key < self.old.bound }
        ensures { self.new ≡ with_value self.old key value }
    {
        if let Some(place) = self.place_of(key) {
            self.values[place] = value;
            return;
        }
        self.places.set(key, self.keys.len() as u32);
        self.keys.push_reserved(key);
        self.values.push_reserved(value);
    }

    /// Takes the key and its value away, if it is one. The last key takes its place.
    pub fn leave(&mut self, key: u32)
        ensures bound { self.new.bound ≡ self.old.bound }
        ensures keys { (k : ℕ) → is_in self.new.keys k ≡ (is_in self.old.keys k && not (k == key)) }
        ensures values { (k : ℕ) → value_of self.new k ≡ (if k == key then None else value_of self.old k) }
        ensures len { length self.new.keys + as_count (is_in self.old.keys key) ≡ length self.old.keys }
    {
        let Some(place) = self.place_of(key) else {
            return;
        };
        self.keys.swap_remove(place);
        self.values.swap_remove(place);
        if place < self.keys.len() {
            let moved = self.keys[place];
            self.places.set(moved, place as u32);
        }
    }

    /// Takes all keys away, at the cost of none.
    pub fn clear(&mut self)
        ensures { self.new ≡ record { bound = self.old.bound; keys = []; values = [] } }
    {
        self.keys.clear();
        self.values.clear();
    }

    /// The keys.
    pub fn keys(&self) -> &[u32]
        ensures { result.now ≡ self.now.keys }
    {
        self.keys.as_slice()
    }
}
