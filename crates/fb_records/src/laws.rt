//! Theorems on the definitions alone: functions that do nothing, and ensure them.

ghost use Rattle.fb_records.specs.Laws.{LinesGoOn, FirstLineLeaves};

/// An input whose records are lines may be cut anywhere: the shots that a prefix settles are the first shots of the
/// whole, and what that prefix refuses is refused. Without its first record's bytes the input gives the same without its
/// first shot. `S` is a shot as a format gives it, and `K` says why a line is refused.
pub fn goes_on_by_lines<S, K>()
    ensures whole { LinesGoOn S K }
    ensures first { FirstLineLeaves S K }
{}
