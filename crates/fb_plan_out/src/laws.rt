//! What follows from the definitions alone. A function does nothing: its clause is the law.

ghost use Rattle.fb_plan_out.specs.Laws.{RangesAreRuns};

/// The ranges of a node in a plan's text are the maximal runs of consecutive vertices that it owns, rising.
pub fn ranges_are_runs()
    ensures { RangesAreRuns }
{}
