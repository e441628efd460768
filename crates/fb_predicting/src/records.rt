//! The records of a report's rows. They wait in memory until the whole report is judged.

ghost use Rattle.std.specs.Prelude.{ℕ, ◌≡◌, ◌≢◌, List, ◌++◌, IfErr, IfOk, OnOk};
ghost use Rattle.fb_files.specs.Judging.{IsNoReport};
ghost use Rattle.fb_ports.specs.Causes.{CountsFault};
ghost use Rattle.fb_predicting.specs.InternalRecords.{AreRecords, AreRecordsOfText, record_at};
ghost use Rattle.fb_predicting.specs.PredictEndings.{WritesPredictions};
ghost use Rattle.fb_request.specs.declared.coding.Coding.{Coding};
ghost use Rattle.fb_verify.specs.declared.reports.Report.{Report};
ghost use Rattle.fb_verify.specs.declared.report_faults.ReportFault.TheVariants.{NoMemory};

use fb_exits::Cause;
use fb_graph::{CutList, Row};
use fb_ports::{Outbox, Sink};
use fb_predict::{Observables, write_bits};
use fb_request::Coding;
use fb_verify::{Line, NextLine, ReportFault, ReportLines};
use std::alloc::Global;

/// The records of the rows of a whole report, which are still to be written.
#[derive(Drop)]
pub struct Records {
    pub waiting: Outbox,
    /// How many of the rows are those of shots without a correction.
    pub odd: u64,
}

impl Records {
    /// The records of the rows of the report that a text is, or the first line that fails. No row is kept.
    pub fn of_report(
        alloc: Global,
        to: Coding,
        observables: &Observables,
        text: &[u8],
    ) -> Result<Records, ReportFault>
        ensures ok { IfOk result (AreRecordsOfText to observables.now text.now) }
        ensures err { IfErr result (λ e. e ≢ NoMemory → IsNoReport e text.now) }
    {
        let mut lines = match ReportLines::new(text) {
            Ok(lines) => lines,
            Err(too_long) => return Err(too_long),
        };
        let mut waiting = Outbox::new(alloc);
        loop {
            match lines.next(alloc) {
                Ok(NextLine::Line(said, more)) => {
                    put_record(alloc, &mut waiting, to, observables, said)?;
                    lines = more;
                }
                Ok(NextLine::Done(totals)) => {
                    let odd = totals.odd;
                    return Ok(Records { waiting, odd });
                }
                Err(fault) => return Err(fault),
            }
        }
    }

    /// Writes the records.
    pub fn write<O: Sink>(self, out: &mut O) -> Cause
        ensures ends { (to : Coding) (observables : List (List ℕ)) (report : Report)
            → AreRecords to observables report self
            → WritesPredictions to observables report.rows (O.taken out.old) (O.taken out.new) result }
        ensures writes { CountsFault (result ≡ Cause.WriteFault) (O.faults out.old) (O.faults out.new) }
    {
        let Records { mut waiting, odd } = self;
        let Ok(()) = waiting.flush(out) else {
            return Cause::WriteFault;
        };
        if odd > 0 { Cause::Odd } else { Cause::Done }
    }
}

/// Puts the record of the row whose edges, or whose want of a correction, a line says. Other lines have none.
fn put_record(
    alloc: Global,
    waiting: &mut Outbox,
    to: Coding,
    observables: &Observables,
    said: Line,
) -> Result<(), ReportFault>
    ensures ok { OnOk result (waiting.new.text ≡ waiting.old.text ++ record_at to observables.now said) }
    ensures err { IfErr result (λ e. e ≡ NoMemory) }
{
    let row = match said {
        Line::Edges(edges) => Row::Best {
            edges,
            base: 0,
            weight: 0,
            cuts: CutList::new(alloc),
        },
        Line::Odd(_, vertex) => Row::Odd(vertex),
        _ => return Ok(()),
    };
    let Ok(()) = write_bits(waiting, to, observables, &row) else {
        return Err(ReportFault::NoMemory);
    };
    Ok(())
}
