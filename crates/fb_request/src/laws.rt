//! What follows from the definitions alone. The function does nothing: its clauses are the law.

ghost use Rattle.std.specs.Prelude.{◌≡◌};
ghost use Rattle.fb_request.specs.Ranges.{windows, workers};
ghost use Rattle.fb_request.specs.declared.limits.TheConstants.{MOST_AT_ONCE, MOST_WORKERS};

/// The most workers and the most shots at once are those of the definitions.
pub fn limits_of_runs()
    ensures workers { MOST_WORKERS ≡ workers.high }
    ensures windows { MOST_AT_ONCE ≡ windows.high }
{}
