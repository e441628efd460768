//! Why a run ends, and the status of its process.

ghost use Rattle.std.specs.Prelude.{◌≡◌};
ghost use Rattle.fb_exits.specs.Causes.{status_of};

use fb_gen::GenFault;
use fb_graph_in::TextFault;
use fb_plan::PlanFault;
use fb_predict::ObsFault;
use fb_request::UsageKind;
use fb_shots::ShotFault;
use fb_verify::ReportFault;

/// Why an input isn't accepted.
#[derive(Clone, Copy, Debug, PartialEq, Eq)]
pub enum Refusal {
    /// The graph's text is no decoding graph. The fault is never `NoMemory`.
    Graph(TextFault),
    /// The plan's text is no plan of the graph. The fault is never `NoMemory`.
    Plan(PlanFault),
    /// The report's text is no report. The fault is never `NoMemory`.
    Report(ReportFault),
    /// A record of the shots is none, or the shots are too many or too long.
    Shot(ShotFault),
    /// There is no such lattice to sample, or no such plan of it. The fault is never `NoMemory`.
    Sample(GenFault),
    /// There is no plan of the graph by its layers: this is how many there are, too few for its units.
    TooFewLayers(u64),
    /// The text of the observables is none. The fault is never `NoMemory`.
    Observables(ObsFault),
}

/// Why a run ended.
#[derive(Clone, Copy, Debug, PartialEq, Eq)]
pub enum Cause {
    /// The input was read to its end, and every row has a correction; or every row that is checked is good, and there are
    /// as many as shots.
    Done,
    /// The input was read to its end, and some shot, or row of a report, has no correction.
    Odd,
    /// The input was read to its end, and this many rows are bad, or there are more or fewer rows than shots.
    Bad(u64),
    /// An input isn't accepted.
    Refused(Refusal),
    /// A file can't be opened or read.
    ReadFault,
    /// Standard output can't be written.
    WriteFault,
    /// Memory ran out.
    NoMemory,
    /// The command line is invalid.
    Usage(UsageKind),
}

/// How a run ended: the status of the process, and why.
#[derive(Clone, Copy, Debug, PartialEq, Eq)]
pub struct Ended {
    pub status: u8,
    pub cause: Cause,
}

impl Cause {
    /// The status of the process.
    pub fn status(self) -> u8
        ensures { result ≡ status_of self }
    {
        match self {
            Cause::Done => 0,
            Cause::Odd | Cause::Bad(_) => 1,
            Cause::Refused(_) => 2,
            Cause::ReadFault => 3,
            Cause::WriteFault => 4,
            Cause::NoMemory => 5,
            Cause::Usage(_) => 6,
        }
    }
}
