//! What follows from the definitions alone. A function does nothing: its clause is the law.

ghost use Rattle.fb_layers.specs.Laws.{NearLayers, OneLayer, OneLayering, OnePlan, PlannedOrTooFew};

/// A vertex has one layer.
pub fn one_layer()
    ensures { OneLayer }
{}

/// A graph has one list of layers.
pub fn one_layering()
    ensures { OneLayering }
{}

/// An edge with two real ends joins layers at most one apart. So no edge goes across a plan by layers.
pub fn near_layers()
    ensures { NearLayers }
{}

/// A graph has at most one plan by layers for so many units.
pub fn one_plan()
    ensures { OnePlan }
{}

/// A graph has a plan by layers for so many units, or its layers are too few for them, and never both.
pub fn planned_or_too_few()
    ensures { PlannedOrTooFew }
{}
