//! Why a text has no observables.

ghost use Rattle.std.specs.Prelude.{◌≡◌, option_map};
ghost use Rattle.fb_predict.specs.FaultTexts.{fault_name, fault_number, fault_place};

use thiserror::Error;

/// Why a text has no observables of a graph. Observables are counted from 0.
///
/// Its texts are for other callers: `fusion` prints a fault's name and place.
#[derive(Clone, Copy, Debug, PartialEq, Eq, Error)]
pub enum ObsFault {
    #[error("the text has more than 268,435,456 bytes")]
    TooLong,
    #[error("the text is not JSON")]
    NotJson,
    #[error("the member observables is missing")]
    Missing,
    #[error("the member observables is no list")]
    NotList,
    #[error("observable {0} is no list of whole numbers of at least 0")]
    NotWhole(u64),
    #[error("more than 1,024 observables")]
    TooMany,
    #[error("an edge of observable {0} is out of range")]
    EdgeOutOfRange(u64),
    #[error("observable {0} has an edge twice")]
    EdgeRepeated(u64),
    #[error("out of memory")]
    NoMemory,
}

impl ObsFault {
    /// Its name in the program's output.
    pub fn name(self) -> &'static str
        ensures { result.now ≡ fault_name self }
    {
        match self {
            ObsFault::TooLong => "TooLong",
            ObsFault::NotJson => "ObservablesNotJson",
            ObsFault::Missing => "ObservablesMissing",
            ObsFault::NotList | ObsFault::NotWhole(_) => "ObservablesNotWhole",
            ObsFault::TooMany => "TooManyObservables",
            ObsFault::EdgeOutOfRange(_) => "ObservableEdgeOutOfRange",
            ObsFault::EdgeRepeated(_) => "ObservableEdgeRepeated",
            ObsFault::NoMemory => "NoMemory",
        }
    }

    /// The word of its place, if it has one.
    pub fn place(self) -> Option<&'static str>
        ensures { option_map (λ s. s.now) result ≡ fault_place self }
    {
        match self {
            ObsFault::TooLong => Some("observables"),
            _ => None,
        }
    }

    /// The number of an observable, if its place has one.
    pub fn number(self) -> Option<u64>
        ensures { result ≡ fault_number self }
    {
        match self {
            ObsFault::NotWhole(i) => Some(i),
            ObsFault::EdgeOutOfRange(i) => Some(i),
            ObsFault::EdgeRepeated(i) => Some(i),
            _ => None,
        }
    }
}
