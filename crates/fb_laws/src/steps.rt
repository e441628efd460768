//! One step of an alternating tree (Edmonds 1965; Wu and Zhong 2023): plus nodes grow and minus nodes shrink by one
//! length.

ghost use Rattle.fb_graph.specs.Steps.{LoadStepped, PackingStepped, StepsAdd, StepsSplit, SteppedTwice, TightStepped};

/// A step adds its length to the load of an edge once for each plus set that the edge crosses, and takes it off once
/// for each minus set. So a link that crosses as many plus as minus sets stays tight.
pub fn step_loads()
    ensures load { LoadStepped }
    ensures tight { TightStepped }
{}

/// A step by a length that each edge and each minus node allows keeps the cuts feasible.
pub fn step_keeps_packing()
    ensures { PackingStepped }
{}

/// Two steps one after the other are one step by both lengths.
pub fn steps_add()
    ensures add { StepsAdd }
    ensures split { StepsSplit }
    ensures twice { SteppedTwice }
{}
