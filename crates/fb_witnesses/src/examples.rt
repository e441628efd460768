//! Small graphs that meet the premises of laws, and what the definitions give on them.

ghost use Rattle.fb_witnesses.specs.RingWitnesses.{RingWitness};
ghost use Rattle.fb_witnesses.specs.OpenedWitnesses.{NestedExample, PartWitness, RingExample};
ghost use Rattle.fb_witnesses.specs.SearchWitnesses.{SearchWitness};

/// Meets the premises of the laws on opened blossoms, on a triangle, and shows what the definitions give on a nest of two
/// blossoms and round a ring of five.
pub fn opening_examples()
    ensures part { PartWitness }
    ensures nested { NestedExample }
    ensures ring { RingExample }
{}

/// Meets the premises of the laws on the state of a search, on a line.
pub fn search_witness()
    ensures { SearchWitness }
{}

/// Meets the premises of the laws on the way round a blossom's ring, in a pentagon.
pub fn ring_witness()
    ensures { RingWitness }
{}
