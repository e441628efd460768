//! Sums of weights and of values.

ghost use Rattle.std.specs.Prelude.{◌≡◌, ◌<◌, ◌≤◌, ◌^◌, All, length};
ghost use Rattle.fb_graph.specs.Signs.{signed_weight_of};
ghost use Rattle.fb_graph.specs.Certificate.{total_value};

use fb_graph::{CutList, Graph, Shot};

/// The sum of what the edges weigh for the shot, with their signs.
pub(crate) fn sum_of_weights(graph: &Graph, shot: &Shot, edges: &[u32]) -> i128
    requires { All (λ k. k < length graph.now.edges) edges.now }
    ensures { result ≡ signed_weight_of graph.now shot.now edges.now }
{
    let mut total: i128 = 0;
    for edge in edges {
        total += i128::from(shot.weight(graph, *edge));
    }
    total
}

/// The sum of the cuts' values.
pub(crate) fn sum_of_values(cuts: &CutList) -> u128
    ensures value { result ≡ total_value cuts.now }
    ensures bound { result ≤ 2 ^ 126 }
{
    cuts.limits();
    let mut total: u128 = 0;
    for place in 0..cuts.len() {
        total += u128::from(cuts.value(place));
    }
    total
}
