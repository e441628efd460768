//! What a stream of shots is asked for, and what it returns.

ghost use Rattle.std.specs.Prelude.{◌≡◌};
ghost use Rattle.fb_shots.specs.FaultTexts.{kind_name};

use fb_graph::Shot;

/// How shots are written.
pub use fb_request::Format;
/// There was not enough memory.
pub use std::alloc::AllocError as NoMemory;

/// Why a record is refused, or why no further one is given.
#[derive(Clone, Copy, Debug, PartialEq, Eq)]
pub enum Kind {
    /// A record in a format of Stim isn't in its form.
    Stim(fb_shots_stim::Kind),
    /// A line isn't the JSON value of a shot.
    Json(fb_shots_json::Kind),
    /// As many shots as the limit allows were given, and a good record follows.
    TooManyShots,
    /// The most bytes that are read, 2^62, don't settle how the next record ends, and a byte follows.
    InputTooLong,
}

impl Kind {
    /// The name that is printed.
    pub fn name(self) -> &'static str
        ensures { result.now ≡ kind_name self }
    {
        match self {
            Kind::Stim(kind) => kind.name(),
            Kind::Json(kind) => kind.name(),
            Kind::TooManyShots => "TooManyShots",
            Kind::InputTooLong => "InputTooLong",
        }
    }
}

/// A refusal in place of a shot: the number of that shot, counted from 0, and why.
#[derive(Clone, Copy, Debug, PartialEq, Eq)]
pub struct ShotFault {
    pub shot: u32,
    pub kind: Kind,
}

/// The result of asking a stream for its next shot.
#[derive(Debug, Drop)]
pub enum Step {
    /// A shot.
    Shot(Shot),
    /// The file was read to its end, and no record is left.
    End,
    /// The next record is refused, and so is each further call.
    Refused(ShotFault),
    /// A read failed. The next call goes on reading.
    ReadFault,
}
