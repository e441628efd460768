//! Theorems on the definitions alone: a function that does nothing, and ensures them.

ghost use Rattle.fb_records.specs.Answers.{FirstRecordLeaves, GoesOnAnywhere};
ghost use Rattle.fb_shots_json.specs.TextJson.{records_json, prefix_json, after_record};

/// However an input of JSON lines is cut into pieces, the results are the same: what is settled by a prefix are
/// the first shots of the whole, and what that prefix refuses is refused. Without its first record's bytes it gives the
/// same without its first shot.
pub fn goes_on_json()
    ensures whole { GoesOnAnywhere records_json prefix_json }
    ensures first { FirstRecordLeaves records_json prefix_json (λ g. after_record) }
{}
