//! The ends of matched links in sets of vertices (Edmonds 1965).

ghost use Rattle.fb_graph.specs.Ends.{EndsAppend, EndsPermuted, EndsUnion, EndsByCrossings, CrossedOnce};

/// The ends of links in a set add up over lists of links, and over sets that lie apart.
pub fn ends_add()
    ensures append { EndsAppend }
    ensures permuted { EndsPermuted }
    ensures union { EndsUnion }
{}

/// A set that holds one end of all links is crossed by just one of them.
pub fn crossed_once()
    ensures ends { EndsByCrossings }
    ensures once { CrossedOnce }
{}
