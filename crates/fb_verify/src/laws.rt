//! Theorems on the definitions alone: functions that do nothing, and ensure them.

ghost use Rattle.std.specs.Prelude.{◌≡◌};
ghost use Rattle.fb_verify.specs.Reports.{most_bytes};
ghost use Rattle.fb_verify.specs.declared.report_lines.TheConstants.{MOST_REPORT_BYTES};
ghost use Rattle.fb_verify.specs.ReadBack.{ReadsBack, PlainReadsBack};
ghost use Rattle.fb_verify.specs.Readings.{ReadsAsIs, IsOneThing};

/// The limit that the reader of reports tests is that of the definitions.
pub fn limit_of_reports()
    ensures { MOST_REPORT_BYTES ≡ most_bytes }
{}

/// A report that is printed, with trace lines or without, is read as what was printed, however long it is.
pub fn reads_back()
    ensures traced { ReadsBack }
    ensures plain { PlainReadsBack }
{}

/// The result of reading a text, stated by the reports that can be printed: exactly those are read. A text is refused at
/// the first line with which no report begins any more, or as unfinished if it stops before the report that it begins.
pub fn reads_as_is()
    ensures is { ReadsAsIs }
    ensures alone { IsOneThing }
{}
