//! Shots of a graph from what the readers of the formats give.

ghost use Rattle.std.specs.Prelude.{◌≡◌, ◌<◌, length, All};
ghost use Rattle.std.specs.List.Sorted.{IsStrictlyIncreasing};
ghost use Rattle.fb_graph.specs.Limits.{detectors_of};
ghost use Rattle.fb_shots.specs.Formats.{shot_of_detectors, vertices_of};

use fb_graph::{Graph, Shot};

/// Puts each detector's vertex in its place.
fn put_vertices(graph: &Graph, detectors: &mut [u32])
    requires { All (λ k. k < length (detectors_of graph.now)) detectors.old }
    ensures { detectors.new ≡ vertices_of graph.now detectors.old }
{
    for detector in detectors.iter_mut() {
        *detector = graph.detector_vertex(*detector);
    }
}

/// The detectors' vertices, in the memory of the detectors.
fn vertices_of(graph: &Graph, mut detectors: Vec<u32>) -> Vec<u32>
    requires { All (λ k. k < length (detectors_of graph.now)) detectors.items }
    ensures { result.items ≡ vertices_of graph.now detectors.items }
{
    put_vertices(graph, &mut detectors);
    detectors
}

/// The shot of these detectors. No memory is taken.
pub fn shot_of_detectors(graph: &Graph, detectors: Vec<u32>) -> Shot
    requires rising { IsStrictlyIncreasing detectors.items }
    requires below { All (λ k. k < length (detectors_of graph.now)) detectors.items }
    ensures { result ≡ shot_of_detectors graph.now detectors.items }
{
    Shot::from_rising(graph, vertices_of(graph, detectors))
}
