//! Observables, and the bits of them that a row flips.

ghost use Rattle.std.specs.Prelude.{◌≡◌, ℕ, ◌<◌, ◌≤◌, ◌==◌, [], None, All, IfOk, length, map, take, get_or, false};
ghost use Rattle.fb_graph.specs.Parity.{differ, is_odd_count, is_in};
ghost use Rattle.fb_predict.specs.ObservableText.{first_where, is_beyond, repeats, most_observables};
ghost use Rattle.fb_predict.specs.Observing.{observed_bits};
ghost use Rattle.fb_predict.specs.InternalHolders.{AreNumbers, occurs_oddly};

use crate::holders::holders_by_edge;
use fb_graph::{NoMemory, NumberList, Row};
use std::alloc::Global;
use std::marker::Model;

/// The most observables.
pub const MOST_OBSERVABLES: usize = 1024;

/// The edges of each observable. Contracts see the list of them.
#[derive(Drop)]
pub struct Observables {
    lists: Vec<Vec<u64>>,
    holders: Vec<NumberList>,
}

impl Model for Observables {
    ghost use Rattle.std.specs.Prelude.{◌≤◌, ℕ, List, length, map};
    ghost use Rattle.fb_predict.specs.ObservableText.{most_observables};
    ghost use Rattle.fb_predict.specs.InternalHolders.{AreHolders};

    ghost Value = { List (List ℕ) };

    ghost view = { λ o. map (λ l. l.items) o.lists.items };

    ghost invariant = { λ o. (length o.lists.items ≤ most_observables)
        × AreHolders (map (λ l. l.items) o.lists.items) o.holders.items };
}

impl Observables {
    /// The observables of these edges. No list has an edge twice.
    pub fn build(
        alloc: Global,
        edge_count: u32,
        lists: Vec<Vec<u64>>,
    ) -> Result<Observables, NoMemory>
        requires few { length lists.items ≤ most_observables }
        requires below { first_where (is_beyond edge_count) 0 (map (λ l. l.items) lists.items) ≡ None }
        requires distinct { first_where (repeats []) 0 (map (λ l. l.items) lists.items) ≡ None }
        ensures { IfOk result (λ o. o ≡ map (λ l. l.items) lists.items) }
    {
        let holders = holders_by_edge(alloc, edge_count, lists.as_slice())?;
        Ok(Observables { lists, holders })
    }

    /// The number of observables.
    pub fn count(&self) -> usize
        ensures count { result ≡ length self.now }
        ensures few { result ≤ most_observables }
    {
        self.lists.len()
    }

    /// Sets the bits of the observables that a row flips.
    pub fn observe(&self, row: &Row, bits: &mut [bool])
        requires size { length bits.old ≡ most_observables }
        requires unset { (i : ℕ) → get_or bits.old i false ≡ false }
        ensures size { length bits.new ≡ most_observables }
        ensures bits { take (length self.now) bits.new ≡ observed_bits self.now row.now }
    {
        if let Row::Best { edges, .. } = row {
            flip_by_edges(self.holders.as_slice(), edges.as_slice(), bits);
        }
    }
}

/// Flips the bits of some numbers, one after another.
fn flip_each(bits: &mut [bool], numbers: &[u32])
    requires size { length bits.old ≡ most_observables }
    requires below { All (λ h. h < most_observables) numbers.now }
    ensures size { length bits.new ≡ most_observables }
    ensures each { (i : ℕ) → get_or bits.new i false
        ≡ differ (get_or bits.old i false) (occurs_oddly numbers.now i) }
{
    for number in numbers {
        let place = *number as usize;
        bits[place] = !bits[place];
    }
}

/// Flips the bits of the numbers of an edge, which lists by edge give. An edge beyond them has none.
fn flip_by_edge(holders: &[NumberList], edge: u32, bits: &mut [bool])
    requires size { length bits.old ≡ most_observables }
    requires numbers { AreNumbers holders.now }
    ensures size { length bits.new ≡ most_observables }
    ensures each { (i : ℕ) → get_or bits.new i false
        ≡ differ (get_or bits.old i false) (occurs_oddly (get_or holders.now edge []) i) }
{
    if let Some(numbers) = holders.get(edge as usize) {
        flip_each(bits, numbers.as_slice());
    }
}

/// Flips the bits of the numbers of each edge.
fn flip_by_edges(holders: &[NumberList], edges: &[u32], bits: &mut [bool])
    requires size { length bits.old ≡ most_observables }
    requires numbers { AreNumbers holders.now }
    ensures size { length bits.new ≡ most_observables }
    ensures each { (i : ℕ) → get_or bits.new i false
        ≡ differ (get_or bits.old i false) (is_odd_count (λ e. occurs_oddly (get_or holders.now e []) i) edges.now) }
{
    for edge in edges {
        flip_by_edge(holders, *edge, bits);
    }
}
