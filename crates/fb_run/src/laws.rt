//! What follows from the definitions alone. Each function does nothing: its clauses are the law.

ghost use Rattle.std.specs.Prelude.{◌≡◌};
ghost use Rattle.fb_book.specs.declared.limits.TheConstants as crews;
ghost use Rattle.fb_request.specs.declared.limits.TheConstants as runs;
ghost use Rattle.fb_run.specs.Promise.{DecodesRight};
ghost use Rattle.fb_run.specs.ReadBack.{ReadsBackReport};

/// The whole report that a decode writes, with `--trace` or without, is read as its rows, however long it is.
pub fn reads_back()
    ensures { ReadsBackReport }
{
    fb_verify::reads_back();
}

/// A crew takes as many workers, and as many shots at once, as a run may have.
pub fn limits_of_crews()
    ensures workers { crews.MOST_WORKERS ≡ runs.MOST_WORKERS }
    ensures shots { crews.MOST_AT_ONCE ≡ runs.MOST_AT_ONCE }
{}

/// What the clause `ends` of `run` says of a decode that read its input to its end, in the words of the problem: it has
/// written a report in which each row is a correction than which none is lighter, or says that there is none.
pub fn decodes_right()
    ensures { DecodesRight }
{
    fb_graph::laws::best_corrections();
    fb_graph::odd_has_no_correction();
}
