//! The line of a cause on standard error.

ghost use Rattle.std.specs.Prelude.{◌≡◌, ◌≢◌, ◌<◌, ◌^◌, ◌-◌, ◌∷◌, [], OnOk, OnErr, option_map};
ghost use Rattle.fb_ports.specs.Causes.{AppendsPrefix, HasCause};
ghost use Rattle.std.specs.Io.KnownBytes.{Appends};
ghost use Rattle.fb_exits.specs.Causes.{line_of, fixed_line, refusal_line, refusal_name, refusal_place, refusal_number};

use crate::ending::{Cause, Refusal};
use fb_ports::{Failed, Sink, put_all, put_parts};
use fb_request::UsageKind;
use itoa::Buffer;

/// Puts the line of a cause into a sink: why a run ended. `Done`, `Odd` and `Bad` have none, and neither has a command
/// line that `clap` refuses, whose text is `clap`'s own. A fault of the sink is ignored: it may have taken a prefix.
pub fn say<E: Sink>(cause: Cause, err: &mut E)
    ensures prefix { AppendsPrefix (E.taken err.old) (E.taken err.new) (line_of cause) }
    ensures whole { E.faults err.old < 2 ^ 64 - 1 → E.faults err.new ≡ E.faults err.old
        → Appends (E.taken err.old) (E.taken err.new) (line_of cause) }
{
    let _ = put_line(cause, err);
}

/// Puts the line of a cause.
fn put_line<E: Sink>(cause: Cause, err: &mut E) -> Result<(), Failed>
    ensures all { OnOk result (Appends (E.taken err.old) (E.taken err.new) (line_of cause)) }
    ensures prefix { OnErr result (AppendsPrefix (E.taken err.old) (E.taken err.new) (line_of cause)) }
    ensures cause { HasCause (E.faults err.old) (E.faults err.new) result }
{
    match cause {
        Cause::Refused(refusal) => put_refusal(refusal, err),
        _ => put_all(err, fixed_line(cause).as_bytes()),
    }
}

/// The line of a cause that isn't a refusal.
fn fixed_line(cause: Cause) -> &'static str
    ensures { result.now ≡ fixed_line cause }
{
    match cause {
        Cause::Done | Cause::Odd | Cause::Bad(_) | Cause::Refused(_) => "",
        Cause::ReadFault => "fusion: read fault\n",
        Cause::WriteFault => "fusion: write fault\n",
        Cause::NoMemory => "fusion: out of memory\n",
        Cause::Usage(UsageKind::Parse) => "",
        Cause::Usage(UsageKind::Format) => "fusion: unknown format\n",
        Cause::Usage(UsageKind::TwoInputs) => "fusion: two names for standard input\n",
    }
}

/// Puts the line of a refusal: its name, and then its place.
fn put_refusal<E: Sink>(refusal: Refusal, err: &mut E) -> Result<(), Failed>
    ensures all { OnOk result (Appends (E.taken err.old) (E.taken err.new) (refusal_line refusal)) }
    ensures prefix { OnErr result (AppendsPrefix (E.taken err.old) (E.taken err.new) (refusal_line refusal)) }
    ensures cause { HasCause (E.faults err.old) (E.faults err.new) result }
{
    let name = refusal.name().as_bytes();
    match (refusal.place(), refusal.number()) {
        (None, None) => put_parts(err, &[b"fusion: refused ", name, b"\n"]),
        (Some(place), None) => put_parts(
            err,
            &[b"fusion: refused ", name, b" ", place.as_bytes(), b"\n"],
        ),
        (None, Some(number)) => {
            let mut buffer = Buffer::new();
            let number = buffer.format(number).as_bytes();
            put_parts(err, &[b"fusion: refused ", name, b" ", number, b"\n"])
        }
        (Some(place), Some(number)) => {
            let mut buffer = Buffer::new();
            let number = buffer.format(number).as_bytes();
            put_parts(
                err,
                &[
                    b"fusion: refused ",
                    name,
                    b" ",
                    place.as_bytes(),
                    b" ",
                    number,
                    b"\n",
                ],
            )
        }
    }
}

impl Refusal {
    /// The name of the rule that is broken.
    fn name(self) -> &'static str
        ensures { result.now ≡ refusal_name self }
    {
        match self {
            Refusal::Graph(fault) => fault.name(),
            Refusal::Plan(fault) => fault.name(),
            Refusal::Report(fault) => fault.name(),
            Refusal::Shot(fault) => fault.kind.name(),
            Refusal::Sample(fault) => fault.name(),
            Refusal::TooFewLayers(_) => "TooFewLayers",
            Refusal::Observables(fault) => fault.name(),
        }
    }

    /// The word of its place.
    fn place(self) -> Option<&'static str>
        ensures { option_map (λ s. s.now) result ≡ refusal_place self }
    {
        match self {
            Refusal::Graph(fault) => fault.place(),
            Refusal::Plan(fault) => fault.place(),
            Refusal::Report(fault) => fault.place(),
            Refusal::Shot(_) => Some("shot"),
            Refusal::Sample(_) | Refusal::TooFewLayers(_) => None,
            Refusal::Observables(fault) => fault.place(),
        }
    }

    /// The number of its place.
    fn number(self) -> Option<u64>
        ensures { result ≡ refusal_number self }
    {
        match self {
            Refusal::Graph(fault) => fault.number(),
            Refusal::Plan(fault) => fault.number(),
            Refusal::Report(fault) => fault.number(),
            Refusal::Shot(fault) => Some(u64::from(fault.shot)),
            Refusal::Sample(_) => None,
            Refusal::TooFewLayers(height) => Some(height),
            Refusal::Observables(fault) => fault.number(),
        }
    }
}
