//! The dual state with which a search begins.

ghost use Rattle.fb_graph.specs.Singles.{SinglesAreDual, BeginningIsDual};

/// Nodes of one defect each are a dual state if their cuts are feasible, as they are without values.
pub fn beginning()
    ensures singles { SinglesAreDual }
    ensures bare { BeginningIsDual }
{}
