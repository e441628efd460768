//! The moves of a nest, in the form that the laws of searches have.

ghost use Rattle.fb_laws.specs.NestBridges.{BlossomNamed, JoiningAllowed, BlossomOuter, UncoveredBack, UncoveredLowers, AbsorbedLowers, JoiningLowers};

/// The blossom of children given by their names and sets is that of their names, and what may become a blossom of a tree
/// may be joined.
pub fn blossom_named()
    ensures named { BlossomNamed }
    ensures allowed { JoiningAllowed }
    ensures outer { BlossomOuter }
{}

/// A node whose empty top layer is taken off gives up one vertex, and taking that up again leads back.
pub fn uncovered_back()
    ensures { UncoveredBack }
{}

/// A minus node's layer taken off, a vertex absorbed by a plus node and nodes of a tree joined each leave less to do.
pub fn moves_lower()
    ensures uncovered { UncoveredLowers }
    ensures absorbed { AbsorbedLowers }
    ensures joined { JoiningLowers }
{}
