//! Layers without value in a search, and how each step leaves less to do.

ghost use Rattle.fb_laws.specs.SearchLayers.{SearchAlike, FreeLowers, AttachLowers, AbsorbLowers, UncoverLowers};
ghost use Rattle.fb_graph.specs.Alike.{TallerAlike, TallerCovers, TallerCovered};

/// A search stays one when a vertex is absorbed, or an empty layer taken off; only that vertex changes its node.
pub fn search_layers()
    ensures alike { SearchAlike }
    ensures taller { TallerAlike }
    ensures covers { TallerCovers }
    ensures covered { TallerCovered }
{}

/// A free step, attached nodes, a vertex absorbed and a layer taken off each leave less to do.
pub fn search_lowers()
    ensures free { FreeLowers }
    ensures attached { AttachLowers }
    ensures absorbed { AbsorbLowers }
    ensures uncovered { UncoverLowers }
{}
