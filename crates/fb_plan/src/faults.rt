ghost use Rattle.std.specs.Prelude.{◌≡◌, option_map};
ghost use Rattle.fb_plan.specs.FaultTexts.{fault_name, fault_number, fault_place};

use fb_graph::NoMemory;
use thiserror::Error;

/// Why ranges and fusions, a text, or layers make no plan of a graph. A place is counted from 0.
///
/// Its texts are for other callers: `fusion` prints a fault's name and place.
#[derive(Clone, Copy, Debug, PartialEq, Eq, Error)]
pub enum PlanFault {
    #[error("the text has more than 268,435,456 bytes")]
    TooLong,
    #[error("the text is not JSON")]
    NotJson,
    #[error("the member {0} is missing")]
    Missing(PlanMember),
    #[error("{0} has not the form that it must have")]
    NotWhole(PlanPlace),
    #[error("more than 4,096 units")]
    TooManyUnits,
    #[error("node {0} has a range that ends before it starts or is out of range")]
    BadRange(u64),
    #[error("vertex {0} has no owner")]
    VertexUnowned(u64),
    #[error("vertex {0} has two owners")]
    VertexTwice(u64),
    #[error("a child of fusion {0} is not before it")]
    ChildOutOfRange(u64),
    #[error("a child of fusion {0} is used twice")]
    ChildUsedTwice(u64),
    #[error("the units are not one more than the fusions")]
    NotOneRoot,
    #[error("edge {0} joins vertices whose owners are not one above the other")]
    EdgeAcross(u64),
    #[error("{0} layers are too few")]
    TooFewLayers(u64),
    #[error("out of memory")]
    NoMemory,
}

/// A member of a plan text's object.
#[derive(Clone, Copy, Debug, PartialEq, Eq, Error)]
pub enum PlanMember {
    #[error("units")]
    Units,
    #[error("fusions")]
    Fusions,
}

/// A place in a plan text's object: a member, or one of its entries, counted from 0.
#[derive(Clone, Copy, Debug, PartialEq, Eq, Error)]
pub enum PlanPlace {
    #[error("units")]
    Units,
    #[error("fusions")]
    Fusions,
    #[error("units {0}")]
    Unit(u64),
    #[error("fusions {0}")]
    Fusion(u64),
}

impl From<NoMemory> for PlanFault {
    ghost use Rattle.std.specs.Prelude.{◌≡◌};
    ghost use Rattle.fb_plan.specs.declared.faults.PlanFault.{PlanFault};

    ghost from_gives = { λ _ fault. fault ≡ PlanFault.NoMemory };

    fn from(_: NoMemory) -> PlanFault {
        PlanFault::NoMemory
    }
}

impl PlanFault {
    /// Its name in the program's output.
    pub fn name(self) -> &'static str
        ensures { result.now ≡ fault_name self }
    {
        match self {
            PlanFault::TooLong => "TooLong",
            PlanFault::NotJson => "NotJson",
            PlanFault::Missing(_) => "Missing",
            PlanFault::NotWhole(_) => "NotWhole",
            PlanFault::TooManyUnits => "TooManyUnits",
            PlanFault::BadRange(_) => "BadRange",
            PlanFault::VertexUnowned(_) => "VertexUnowned",
            PlanFault::VertexTwice(_) => "VertexTwice",
            PlanFault::ChildOutOfRange(_) => "ChildOutOfRange",
            PlanFault::ChildUsedTwice(_) => "ChildUsedTwice",
            PlanFault::NotOneRoot => "NotOneRoot",
            PlanFault::EdgeAcross(_) => "EdgeAcross",
            PlanFault::TooFewLayers(_) => "TooFewLayers",
            PlanFault::NoMemory => "NoMemory",
        }
    }

    /// The word of its place, if it has one.
    pub fn place(self) -> Option<&'static str>
        ensures { option_map (λ s. s.now) result ≡ fault_place self }
    {
        match self {
            PlanFault::TooLong => Some("plan"),
            PlanFault::Missing(PlanMember::Units) => Some("units"),
            PlanFault::Missing(PlanMember::Fusions) => Some("fusions"),
            PlanFault::NotWhole(PlanPlace::Units | PlanPlace::Unit(_)) => Some("units"),
            PlanFault::NotWhole(PlanPlace::Fusions | PlanPlace::Fusion(_)) => Some("fusions"),
            _ => None,
        }
    }

    /// Its number, if it has one: that of its place, as an entry, a node, a vertex, a fusion or an edge; or how many layers
    /// there are.
    pub fn number(self) -> Option<u64>
        ensures { result ≡ fault_number self }
    {
        match self {
            PlanFault::NotWhole(PlanPlace::Unit(i)) => Some(i),
            PlanFault::NotWhole(PlanPlace::Fusion(i)) => Some(i),
            PlanFault::BadRange(i) => Some(i),
            PlanFault::VertexUnowned(i) => Some(i),
            PlanFault::VertexTwice(i) => Some(i),
            PlanFault::ChildOutOfRange(i) => Some(i),
            PlanFault::ChildUsedTwice(i) => Some(i),
            PlanFault::EdgeAcross(i) => Some(i),
            PlanFault::TooFewLayers(height) => Some(height),
            _ => None,
        }
    }
}
