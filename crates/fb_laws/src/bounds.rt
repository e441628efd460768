//! How far an alternating tree may step, by each edge's ends (Edmonds 1965; Wu and Zhong 2023).

ghost use Rattle.fb_laws.specs.Bounds.{BoundedSteps, StepsBounded, NoObstacleBefore};

/// A step is allowed if and only if each edge can bear its length, once for each end under a plus node, and each minus
/// node's top layer is at least as thick. If one of length 1 or more is allowed, there is no obstacle.
pub fn step_bounds()
    ensures allowed { BoundedSteps }
    ensures bounded { StepsBounded }
    ensures clear { NoObstacleBefore }
{}
