ghost use Rattle.std.specs.Prelude.{◌≡◌, option_map};
ghost use Rattle.fb_verify.specs.FaultTexts.{fault_name, fault_number, fault_place};

use thiserror::Error;

/// Why a text is no report. Lines are counted from 1.
///
/// Its texts are for other callers: `fusion` prints a fault's name and number.
#[derive(Clone, Copy, Debug, PartialEq, Eq, Error)]
pub enum ReportFault {
    /// No such line may be there; or it is a done line whose numbers of rows aren't those of the text; or it follows the
    /// done line.
    #[error("bad line {0}")]
    BadLine(u64),
    /// The line is that of another shot than the next one.
    #[error("the shot of line {0} isn't the next one")]
    WrongShot(u64),
    /// No line is wrong, but there is no done line.
    #[error("no done line")]
    Unfinished,
    /// The text has more than 1,073,741,824 bytes.
    #[error("more than 1,073,741,824 bytes")]
    TooLong,
    /// Memory ran out.
    #[error("out of memory")]
    NoMemory,
}

impl ReportFault {
    /// The name that is printed.
    pub fn name(self) -> &'static str
        ensures { result.now ≡ fault_name self }
    {
        match self {
            ReportFault::BadLine(_) => "BadLine",
            ReportFault::WrongShot(_) => "WrongShot",
            ReportFault::Unfinished => "Unfinished",
            ReportFault::TooLong => "TooLong",
            ReportFault::NoMemory => "NoMemory",
        }
    }

    /// The word of its place, if it has one.
    pub fn place(self) -> Option<&'static str>
        ensures { option_map (λ s. s.now) result ≡ fault_place self }
    {
        match self {
            ReportFault::TooLong => Some("report"),
            _ => None,
        }
    }

    /// The number of its line, if it has one.
    pub fn number(self) -> Option<u64>
        ensures { result ≡ fault_number self }
    {
        match self {
            ReportFault::BadLine(line) => Some(line),
            ReportFault::WrongShot(line) => Some(line),
            _ => None,
        }
    }
}
