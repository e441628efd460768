//! The greatest step of an alternating tree (Edmonds 1965; Wu and Zhong 2023).

ghost use Rattle.fb_laws.specs.Lengths.{NoLength, GreatestStep, GreatestBounds, AfterGreatest};

/// If there is no obstacle, there is a greatest step, since a minus node bounds it or an edge leaves the plus nodes' odd
/// sets. After it no step is allowed.
pub fn greatest_step()
    ensures none { NoLength }
    ensures greatest { GreatestStep }
    ensures bounds { GreatestBounds }
    ensures after { AfterGreatest }
{}
