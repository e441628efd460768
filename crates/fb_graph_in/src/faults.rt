ghost use Rattle.std.specs.Prelude.{◌≡◌, option_map};
ghost use Rattle.fb_graph_in.specs.FaultTexts.{fault_name, fault_number, fault_place, member_name, member_of};

use fb_graph::{GraphFault, NoMemory};
use std::alloc::AllocFailed;

/// Why a text is no decoding graph.
#[derive(Clone, Copy, Debug, PartialEq, Eq)]
pub enum TextFault {
    /// The text has more than 268,435,456 bytes.
    TooLong,
    /// The text is no JSON value (RFC 8259).
    NotJson,
    /// The value is no object, or lacks this member.
    Missing(Member),
    /// The value at this place is not of its form.
    NotWhole(Place),
    /// The numbers break this rule of a graph, which is never `GraphFault::NoMemory`.
    Graph(GraphFault),
    /// Memory ran out.
    NoMemory,
}

/// A member of the text's object.
#[derive(Clone, Copy, Debug, PartialEq, Eq)]
pub enum Member {
    VertexNum,
    WeightedEdges,
    VirtualVertices,
}

/// A place in the text's object: a member, or one of its entries, counted from 0.
#[derive(Clone, Copy, Debug, PartialEq, Eq)]
pub enum Place {
    /// `vertex_num`, which is a whole number of at least 0.
    VertexNum,
    /// `weighted_edges`, which is a list.
    WeightedEdges,
    /// `virtual_vertices`, which is a list.
    VirtualVertices,
    /// An entry of `weighted_edges`, which is a list of three whole numbers, the first two of at least 0.
    Edge(u64),
    /// An entry of `virtual_vertices`, which is a whole number of at least 0.
    Virtual(u64),
}

impl From<NoMemory> for TextFault {
    ghost use Rattle.std.specs.Prelude.{◌≡◌};
    ghost use Rattle.fb_graph_in.specs.declared.faults.TextFault.{TextFault};

    ghost from_gives = { λ _ fault. fault ≡ TextFault.NoMemory };

    fn from(_: NoMemory) -> TextFault {
        TextFault::NoMemory
    }
}

/// So that a push's error converts too. The value that was to be pushed is dropped.
impl<T: Drop> From<AllocFailed<T>> for TextFault {
    ghost use Rattle.std.specs.Prelude.{◌≡◌};
    ghost use Rattle.fb_graph_in.specs.declared.faults.TextFault.{TextFault};

    ghost from_gives = { λ _ fault. fault ≡ TextFault.NoMemory };

    fn from(_: AllocFailed<T>) -> TextFault {
        TextFault::NoMemory
    }
}

impl TextFault {
    /// The name that is printed.
    pub fn name(self) -> &'static str
        ensures { result.now ≡ fault_name self }
    {
        match self {
            TextFault::TooLong => "TooLong",
            TextFault::NotJson => "NotJson",
            TextFault::Missing(_) => "Missing",
            TextFault::NotWhole(_) => "NotWhole",
            TextFault::Graph(rule) => rule.name(),
            TextFault::NoMemory => "NoMemory",
        }
    }

    /// The word of its place, if it has one.
    pub fn place(self) -> Option<&'static str>
        ensures { option_map (λ s. s.now) result ≡ fault_place self }
    {
        match self {
            TextFault::TooLong => Some("graph"),
            TextFault::Missing(member) => Some(member.name()),
            TextFault::NotWhole(place) => Some(place.member().name()),
            _ => None,
        }
    }

    /// The number of its place, if it has one: that of an entry, or that of the rule that is broken.
    pub fn number(self) -> Option<u64>
        ensures { result ≡ fault_number self }
    {
        match self {
            TextFault::NotWhole(Place::Edge(i)) => Some(i),
            TextFault::NotWhole(Place::Virtual(i)) => Some(i),
            TextFault::Graph(rule) => rule.number(),
            _ => None,
        }
    }
}

impl Member {
    /// Its name in the text.
    pub fn name(self) -> &'static str
        ensures { result.now ≡ member_name self }
    {
        match self {
            Member::VertexNum => "vertex_num",
            Member::WeightedEdges => "weighted_edges",
            Member::VirtualVertices => "virtual_vertices",
        }
    }
}

impl Place {
    /// The member that it is, or is in.
    pub fn member(self) -> Member
        ensures { result ≡ member_of self }
    {
        match self {
            Place::VertexNum => Member::VertexNum,
            Place::WeightedEdges | Place::Edge(_) => Member::WeightedEdges,
            Place::VirtualVertices | Place::Virtual(_) => Member::VirtualVertices,
        }
    }
}
