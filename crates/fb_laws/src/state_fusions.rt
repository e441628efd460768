//! Half-solved parts fused (Wu and Zhong 2023).

ghost use Rattle.fb_laws.specs.StateFusions.{StateMerged, StateSeamed, StateFused};

/// Two parts beside one another are one part, and the seam between them may be made real.
pub fn state_fused()
    ensures merged { StateMerged }
    ensures seamed { StateSeamed }
    ensures fused { StateFused }
{}
