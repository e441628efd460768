//! What follows from what a half-solved part keeps.

ghost use Rattle.fb_half.specs.Agreements.{OuterInNodes, OuterInStore};

/// A node is outer in the dual state exactly if it is outer in the store of blossoms.
pub fn outer_agreed()
    ensures store { OuterInStore }
    ensures nodes { OuterInNodes }
{}
