//! Why the cuts that are printed differ as sets.

ghost use Rattle.fb_laws.specs.Differences.{LayersDiffer, ApartDiffer, InnerDiffers};

/// Layers of one node, sets that lie apart and a set within a larger one differ.
pub fn cuts_differ()
    ensures layers { LayersDiffer }
    ensures apart { ApartDiffer }
    ensures inner { InnerDiffers }
{}
