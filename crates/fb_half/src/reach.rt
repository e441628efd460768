//! The vertices of a list within a reach.

ghost use Rattle.std.specs.Prelude.{◌≡◌, filter};
ghost use Rattle.std.specs.List.Sorted.{IsStrictlyIncreasing};
ghost use Rattle.fb_plan.specs.Reaches.{is_reached};

use fb_plan::Reach;

/// The vertices of a rising list within the reach, found by bisection.
pub(crate) fn within(vertices: &[u32], reach: Reach) -> &[u32]
    requires { IsStrictlyIncreasing vertices.now }
    ensures { result.now ≡ filter (is_reached reach) vertices.now }
{
    let from = &vertices[vertices.partition_point(|v| *v < reach.first)..];
    &from[..from.partition_point(|v| *v < reach.end)]
}
