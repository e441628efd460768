ghost use Rattle.std.specs.Prelude.{◌≡◌};
ghost use Rattle.fb_graph.specs.FaultTexts.{fault_name, fault_number};

use std::alloc::AllocFailed;
use thiserror::Error;

/// Memory ran out. It is the error of calls that fail in no other way, as of the standard library's allocating calls.
pub use std::alloc::AllocError as NoMemory;

/// Why numbers or a text make no decoding graph. A place is counted from 0.
///
/// Its texts are for other callers: `fusion` prints a fault's name and number.
#[derive(Clone, Copy, Debug, PartialEq, Eq, Error)]
pub enum GraphFault {
    #[error("more than 1,048,576 vertices")]
    TooManyVertices,
    #[error("more than 4,194,304 edges")]
    TooManyEdges,
    #[error("an end of edge {0} is out of range")]
    EndOutOfRange(u64),
    #[error("edge {0} is a self loop")]
    SelfLoop(u64),
    #[error("the weight of edge {0} is odd")]
    OddWeight(u64),
    #[error("the weight of edge {0} is above 1,073,741,824")]
    WeightTooLarge(u64),
    #[error("the weight of edge {0} is below -1,073,741,824")]
    WeightTooSmall(u64),
    #[error("virtual vertex {0} is out of range")]
    VirtualOutOfRange(u64),
    #[error("virtual vertex {0} repeats an earlier one")]
    VirtualRepeated(u64),
    #[error("out of memory")]
    NoMemory,
}

impl From<NoMemory> for GraphFault {
    ghost use Rattle.std.specs.Prelude.{◌≡◌};
    ghost use Rattle.fb_graph.specs.declared.faults.GraphFault.{GraphFault};

    ghost from_gives = { λ _ fault. fault ≡ GraphFault.NoMemory };

    fn from(_: NoMemory) -> GraphFault {
        GraphFault::NoMemory
    }
}

/// So that a push's error converts too. The value that was to be pushed is dropped.
impl<T: Drop> From<AllocFailed<T>> for GraphFault {
    ghost use Rattle.std.specs.Prelude.{◌≡◌};
    ghost use Rattle.fb_graph.specs.declared.faults.GraphFault.{GraphFault};

    ghost from_gives = { λ _ fault. fault ≡ GraphFault.NoMemory };

    fn from(_: AllocFailed<T>) -> GraphFault {
        GraphFault::NoMemory
    }
}

impl GraphFault {
    /// The name under which it is printed.
    pub fn name(self) -> &'static str
        ensures { result.now ≡ fault_name self }
    {
        match self {
            GraphFault::TooManyVertices => "TooManyVertices",
            GraphFault::TooManyEdges => "TooManyEdges",
            GraphFault::EndOutOfRange(_) => "EndOutOfRange",
            GraphFault::SelfLoop(_) => "SelfLoop",
            GraphFault::OddWeight(_) => "OddWeight",
            GraphFault::WeightTooLarge(_) => "WeightTooLarge",
            GraphFault::WeightTooSmall(_) => "WeightTooSmall",
            GraphFault::VirtualOutOfRange(_) => "VirtualOutOfRange",
            GraphFault::VirtualRepeated(_) => "VirtualRepeated",
            GraphFault::NoMemory => "NoMemory",
        }
    }

    /// Its place, if it has one: the number of an edge, or a place in the list of virtual vertices.
    pub fn number(self) -> Option<u64>
        ensures { result ≡ fault_number self }
    {
        match self {
            GraphFault::TooManyVertices | GraphFault::TooManyEdges | GraphFault::NoMemory => None,
            GraphFault::EndOutOfRange(i) => Some(i),
            GraphFault::SelfLoop(i) => Some(i),
            GraphFault::OddWeight(i) => Some(i),
            GraphFault::WeightTooLarge(i) => Some(i),
            GraphFault::WeightTooSmall(i) => Some(i),
            GraphFault::VirtualOutOfRange(i) => Some(i),
            GraphFault::VirtualRepeated(i) => Some(i),
        }
    }
}
