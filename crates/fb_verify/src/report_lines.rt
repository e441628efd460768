//! The lines of a report, one after another.

ghost use Rattle.std.specs.Prelude.{◌≡◌, ◌≢◌, [], Err, IfOk, IfErr, MatchResult};
ghost use Rattle.fb_verify.specs.InternalWalks.{walk};
ghost use Rattle.fb_verify.specs.Places.{Reading};
ghost use Rattle.fb_verify.specs.Places as place;
ghost use Rattle.fb_verify.specs.Positions.{IsAt, report_from};
ghost use Rattle.fb_verify.specs.ReportLines.{Gives, IsShorter};
ghost use Rattle.fb_verify.specs.Reports.{reading, report_of_text};
ghost use Rattle.fb_verify.specs.declared.report_faults.ReportFault.TheVariants.{NoMemory};
ghost use Rattle.fb_verify.specs.declared.walking.Stage.TheVariants as stage;

use crate::lines::{Line, read_line};
use crate::report_faults::ReportFault;
use crate::reports::Totals;
use crate::splitting::split_once;
use crate::walking::Walk;
use std::alloc::Global;
use std::marker::Model;

/// The most bytes that a report may have.
pub const MOST_REPORT_BYTES: usize = 1 << 30;

/// The lines of a report that are left to read. Each is judged by those before it as it is read.
#[derive(Drop)]
pub struct ReportLines<'a> {
    rest: &'a [u8],
    number: u64,
    walk: Walk,
}

impl<'a> Model for ReportLines<'a> {
    ghost use Rattle.std.specs.Prelude.{◌+◌, ◌<◌, ◌≤◌, ◌^◌, length};
    ghost use Rattle.fb_verify.specs.Positions.{Position};

    ghost Value = { Position };

    ghost view = { λ l. record { number = l.number; rest = l.rest.now; walk = l.walk } };

    ghost invariant = { λ l. (l.walk.odd ≤ l.walk.begun) × (l.number + length l.rest.now < 2 ^ 64) };
}

/// What comes next in a report.
#[derive(Drop)]
pub enum NextLine<'a> {
    /// A line that may follow those before it, and what is left after it.
    Line(Line, ReportLines<'a>),
    /// The report has ended, with these numbers.
    Done(Totals),
}

impl<'a> ReportLines<'a> {
    /// The lines of a text, unless it is too long.
    #[tactic(auto, unfolding(crate::specs::Reports::report_of_text))]
    pub fn new(text: &'a [u8]) -> Result<ReportLines<'a>, ReportFault>
        ensures start { IfOk result (λ l. l.walk ≡ walk 0 0 stage.Start) }
        ensures ok { IfOk result (λ l. report_of_text text.now ≡ report_from l (reading [] place.Start)) }
        ensures err { IfErr result (λ e. report_of_text text.now ≡ Err e) }
    {
        if text.len() > MOST_REPORT_BYTES {
            return Err(ReportFault::TooLong);
        }
        Ok(ReportLines {
            rest: text,
            number: 1,
            walk: Walk::new(),
        })
    }

    /// Reads the next line, or ends the report. Returns an error if the line may not follow those before it, or if the
    /// report doesn't end where its text does.
    pub fn next(self, alloc: Global) -> Result<NextLine<'a>, ReportFault>
        ensures ok { IfOk result (Gives self.entry) }
        ensures shorter { IfOk result (IsShorter self.entry) }
        ensures err { IfErr result (λ e. e ≢ NoMemory → (r : Reading) → IsAt self.entry r → report_from self.entry r ≡ Err e) }
    {
        let Some((text, more)) = split_once(self.rest, b'\n') else {
            return match self.walk.end(self.number, self.rest) {
                Ok(totals) => Ok(NextLine::Done(totals)),
                Err(fault) => Err(fault),
            };
        };
        let Ok(said) = read_line(alloc, text) else {
            return Err(ReportFault::NoMemory);
        };
        let Some(said) = said else {
            return Err(ReportFault::BadLine(self.number));
        };
        match self.walk.take(self.number, &said) {
            Ok(walk) => {
                let number = self.number + 1;
                let rest = more;
                Ok(NextLine::Line(said, ReportLines { rest, number, walk }))
            }
            Err(fault) => Err(fault),
        }
    }
}
