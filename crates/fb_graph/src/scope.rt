ghost use Rattle.std.specs.Prelude.{◌≡◌, ℕ, ◌<◌, true, length, filter};
ghost use Rattle.std.specs.List.{range_with_len};
ghost use Rattle.fb_graph.specs.Problem.{Problem, edge_at, touches};
ghost use Rattle.fb_graph.specs.Limits.{IsWithinLimits};
ghost use Rattle.fb_graph.specs.LocalPlaces.{ArePlaces};

/// A part of a decoding graph that is solved by itself: which of its vertices are real, all others being boundary
/// (the sub-problem of Wu and Zhong 2023). Edges keep their numbers; an edge without a real end does no harm.
/// The problem that contracts see has no defects of its own.
pub trait Scope: Copy + Drop {
    ghost problem: { Self → Problem };

    /// The place of each real vertex in a table of the scope's own.
    ghost place_of: { Self → ℕ → ℕ };

    ghost place_count: { Self → ℕ };

    /// The number of vertices, boundary ones counted.
    fn vertices(&self) -> u32
        ensures { result ≡ (problem self.now).vertices };

    /// The number of edges.
    fn edge_count(&self) -> u32
        ensures { result ≡ length (problem self.now).edges };

    /// Both ends of an edge.
    fn ends(&self, e: u32) -> (u32, u32)
        requires { e < length (problem self.now).edges }
        ensures first { result.0 ≡ (edge_at (problem self.now).edges e).first }
        ensures second { result.1 ≡ (edge_at (problem self.now).edges e).second };

    /// The weight of an edge, without its sign: even, at most `MOST_WEIGHT`.
    fn weight(&self, e: u32) -> u64
        requires { e < length (problem self.now).edges }
        ensures { result ≡ (edge_at (problem self.now).edges e).weight };

    /// The numbers of the edges with an end at a vertex, rising.
    fn edges_at(&self, v: u32) -> &[u32]
        requires { v < (problem self.now).vertices }
        ensures { result.now ≡ filter (λ k. touches v (edge_at (problem self.now).edges k))
            (range_with_len 0 (length (problem self.now).edges)) };

    /// Whether a vertex is real, that is, no boundary.
    fn is_real(&self, v: u32) -> bool
        requires { v < (problem self.now).vertices }
        ensures { result ≡ (problem self.now).is_real v };

    /// The number of places: at least that of the real vertices.
    fn places(&self) -> u32
        ensures { result ≡ place_count self.now };

    /// The place of a real vertex, below `places` and different from that of every other one. A table over the places
    /// of a part of the graph is as large as the part, not as the graph.
    fn place(&self, v: u32) -> u32
        requires { (problem self.now).is_real v ≡ true }
        ensures { result ≡ place_of self.now v };

    /// Does nothing. Its clause states what every scope keeps.
    fn limits(&self)
        ensures { IsWithinLimits (problem self.now) };

    /// Does nothing. Its clause states that the places of real vertices differ.
    fn places_differ(&self)
        ensures { ArePlaces (problem self.now) (place_of self.now) (place_count self.now) };
}
