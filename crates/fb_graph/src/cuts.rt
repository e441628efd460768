ghost use Rattle.std.specs.Prelude.{◌≡◌, ◌<◌, ◌^◌, [], ◌∷◌, ◌++◌, filter, length, map, slice_range, OnOk, OnErr};
ghost use Rattle.std.specs.List.{AllZip};
ghost use Rattle.std.specs.List.Sorted.{IsPermutation, IsSortedBy};
ghost use Rattle.fb_graph.specs.CutLists.{cut_at};
ghost use Rattle.fb_graph.specs.InternalCutEntries.{HaveRanges, cut_cmp, cut_in, is_cut_below};
ghost use Rattle.fb_graph.specs.Printed.{IsResorted, is_positive};

use crate::faults::NoMemory;
use std::alloc::Global;
use std::cmp::Ordering;
use std::marker::Model;

/// The value of a cut, and where its vertices begin and end in a list that has those of other cuts too.
#[derive(Clone, Copy, Debug)]
struct CutEntry {
    value: u64,
    first: usize,
    end: usize,
}

/// Cuts, which contracts see as their list. The vertices of all cuts are in one vector.
#[derive(Debug, Drop)]
pub struct CutList {
    entries: Vec<CutEntry>,
    vertices: Vec<u32>,
}

impl Model for CutList {
    ghost use Rattle.std.specs.Prelude.{List, map};
    ghost use Rattle.fb_graph.specs.declared.parts.Cut.{Cut};

    ghost Value = { List Cut };

    ghost use Rattle.fb_graph.specs.InternalCutEntries.{HaveRanges, cut_in};

    ghost view = { λ l. map (cut_in l.vertices.items) l.entries.items };

    ghost invariant = { λ l. HaveRanges l.vertices.items l.entries.items };
}

impl CutList {
    /// No cuts. Takes no memory.
    pub fn new(alloc: Global) -> CutList
        ensures { result ≡ [] }
    {
        CutList {
            entries: Vec::new(alloc),
            vertices: Vec::new(alloc),
        }
    }

    /// The number of cuts.
    pub fn len(&self) -> usize
        ensures { result ≡ length self.now }
    {
        self.entries.len()
    }

    /// Does nothing. Its clause bounds the number of cuts.
    pub fn limits(&self)
        ensures { length self.now < 2 ^ 62 }
    {
        let _entries = self.entries.as_slice();
    }

    /// The value of the cut at a place.
    pub fn value(&self, place: usize) -> u64
        requires { place < length self.now }
        ensures { result ≡ (cut_at self.now place).value }
    {
        self.entries[place].value
    }

    /// The vertices of the cut at a place.
    pub fn vertices(&self, place: usize) -> &[u32]
        requires { place < length self.now }
        ensures { result.now ≡ (cut_at self.now place).vertices }
    {
        vertices_of(self.vertices.as_slice(), &self.entries[place])
    }

    /// Adds a cut at the end.
    pub fn push(&mut self, value: u64, vertices: &[u32]) -> Result<(), NoMemory>
        ensures ok { OnOk result (self.new ≡ self.old ++ record { value = value; vertices = vertices.now } ∷ []) }
        ensures err { OnErr result (self.new ≡ self.old) }
    {
        self.entries.reserve(1)?;
        let first = self.vertices.len();
        self.vertices.extend_from_slice(vertices)?;
        let end = self.vertices.len();
        self.entries.push_reserved(CutEntry { value, first, end });
        Ok(())
    }

    /// Drops the cuts of value 0.
    pub(crate) fn keep_positive(&mut self)
        ensures { self.new ≡ filter is_positive self.old }
    {
        self.entries.retain(|entry| entry.value > 0);
    }

    /// Sorts the vertices of each cut in place.
    pub(crate) fn sort_vertices(&mut self)
        ensures { AllZip IsResorted self.old self.new }
    {
        sort_each(&mut self.vertices, &self.entries);
    }

    /// Sorts the cuts by their vertices, compared entry by entry, a proper prefix first. Moves no vertex.
    pub(crate) fn sort(&mut self)
        ensures moved { IsPermutation self.old self.new }
        ensures sorted { IsSortedBy is_cut_below self.new }
    {
        let vertices = self.vertices.as_slice();
        self.entries
            .sort_unstable_by(|a, b| compare_entries(vertices, a, b));
    }
}

/// The vertices of an entry, as far as the list goes.
fn vertices_of<'a>(vertices: &'a [u32], entry: &CutEntry) -> &'a [u32]
    ensures { result.now ≡ slice_range vertices.now entry.now.first entry.now.end }
{
    let end = entry.end.min(vertices.len());
    &vertices[entry.first.min(end)..end]
}

/// Sorts the vertices of each entry in place.
fn sort_each(vertices: &mut [u32], entries: &[CutEntry])
    requires { HaveRanges vertices.old entries.now }
    ensures { AllZip IsResorted (map (cut_in vertices.old) entries.now) (map (cut_in vertices.new) entries.now) }
{
    for entry in entries {
        vertices[entry.first..entry.end].sort_unstable();
    }
}

/// The order of two entries by their vertices.
fn compare_entries(vertices: &[u32], a: &CutEntry, b: &CutEntry) -> Ordering
    ensures { result ≡ cut_cmp (cut_in vertices.now a.now) (cut_in vertices.now b.now) }
{
    vertices_of(vertices, a).cmp(vertices_of(vertices, b))
}
