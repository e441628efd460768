//! Which line may follow which in a report.

ghost use Rattle.std.specs.Prelude.{◌≡◌, ◌≤◌, ◌==◌, ◌&&◌, IfOk};
ghost use Rattle.fb_verify.specs.InternalWalks.{stage_after_edges, walk, walk_on, walk_on_from_rows, walk_end};
ghost use Rattle.fb_verify.specs.Reports.{may_weigh};

use crate::lines::Line;
use crate::report_faults::ReportFault;
use crate::reports::{Totals, Version};

/// What the next line of a report follows.
#[derive(Clone, Copy)]
pub enum Stage {
    /// It is the first line.
    Start,
    /// It follows the line of a shot whose row is to come.
    InRow(Version),
    /// It follows the edges of a row, and is to say the row's base.
    Listed,
    /// It follows the base of a row, or its edges if no line says the base.
    Based(Version),
    /// It follows the weight of a row, or one of its cuts.
    Cuts(Version),
    /// It follows whole rows, or none, and no line of a row.
    Between(Version),
    /// It follows the done line.
    End(Totals),
}

/// What decides whether a line may follow those before it.
#[derive(Clone, Copy)]
pub struct Walk {
    /// How many rows have begun.
    pub begun: u64,
    /// How many of these are of shots without a correction.
    pub odd: u64,
    pub stage: Stage,
}

impl Walk {
    pub fn new() -> Walk
        ensures { result ≡ walk 0 0 Stage.Start }
    {
        Walk {
            begun: 0,
            odd: 0,
            stage: Stage::Start,
        }
    }

    /// Takes the line of this number, by what it says.
    pub fn take(self, number: u64, said: &Line) -> Result<Walk, ReportFault>
        requires { self.odd ≤ self.begun }
        ensures value { result ≡ walk_on number self.begun self.odd self.stage said.now }
        ensures fewer { IfOk result (λ w. w.odd ≤ w.begun) }
    {
        match (self.stage, said) {
            (Stage::Start, Line::Head(version)) => Ok(self.at(Stage::Between(*version))),
            (Stage::InRow(version), Line::Edges(_)) => Ok(self.at(after_edges(version))),
            (Stage::Listed, Line::Base(_)) => Ok(self.at(Stage::Based(Version::Two))),
            (Stage::Based(version), Line::Weight(weight)) if may_weigh(version, *weight) => {
                Ok(self.at(Stage::Cuts(version)))
            }
            (Stage::Cuts(_), Line::Cut(_)) => Ok(self),
            (Stage::Cuts(version) | Stage::Between(version), said) => {
                self.take_after_rows(number, version, said)
            }
            _ => Err(ReportFault::BadLine(number)),
        }
    }

    /// Takes the line of this number behind whole rows.
    fn take_after_rows(
        self,
        number: u64,
        version: Version,
        said: &Line,
    ) -> Result<Walk, ReportFault>
        requires { self.odd ≤ self.begun }
        ensures value { result ≡ walk_on_from_rows number self.begun self.odd version said.now }
        ensures fewer { IfOk result (λ w. w.odd ≤ w.begun) }
    {
        match said {
            Line::Shot(shot) if self.is_next(*shot) => Ok(Walk {
                begun: self.begun + 1,
                odd: self.odd,
                stage: Stage::InRow(version),
            }),
            Line::Odd(shot, _) if self.is_next(*shot) => Ok(Walk {
                begun: self.begun + 1,
                odd: self.odd + 1,
                stage: Stage::Between(version),
            }),
            Line::Shot(_) | Line::Odd(_, _) => Err(ReportFault::WrongShot(number)),
            Line::Trace if self.begun != 0 => Ok(self.at(Stage::Between(version))),
            Line::Done(totals) if self.has(*totals) => Ok(self.at(Stage::End(*totals))),
            _ => Err(ReportFault::BadLine(number)),
        }
    }

    /// The same numbers at another stage.
    fn at(self, stage: Stage) -> Walk
        ensures { result ≡ walk self.begun self.odd stage }
    {
        Walk {
            begun: self.begun,
            odd: self.odd,
            stage,
        }
    }

    /// Whether the shot is the one after those of the rows.
    fn is_next(self, shot: u32) -> bool
        ensures { result ≡ (shot == self.begun) }
    {
        u64::from(shot) == self.begun
    }

    /// Whether the numbers of rows are those of the rows so far.
    fn has(self, totals: Totals) -> bool
        ensures { result ≡ (totals.rows == self.begun && totals.odd == self.odd) }
    {
        totals.rows == self.begun && totals.odd == self.odd
    }

    /// Ends the text; `bytes` are left in the line of this number.
    pub fn end(self, number: u64, bytes: &[u8]) -> Result<Totals, ReportFault>
        ensures { result ≡ walk_end number self.stage bytes.now }
    {
        let Stage::End(totals) = self.stage else {
            return Err(ReportFault::Unfinished);
        };
        if bytes.is_empty() {
            Ok(totals)
        } else {
            Err(ReportFault::BadLine(number))
        }
    }
}

/// What follows the edges of a row in a report of this version.
fn after_edges(version: Version) -> Stage
    ensures { result ≡ stage_after_edges version }
{
    match version {
        Version::One => Stage::Based(version),
        Version::Two => Stage::Listed,
    }
}

/// Whether a row of a report of this version may have the weight, which is below 2^64 without its sign.
fn may_weigh(version: Version, weight: i128) -> bool
    ensures { result ≡ may_weigh version weight }
{
    match version {
        Version::One => weight >= 0,
        Version::Two => weight.unsigned_abs() < 1 << 63,
    }
}
