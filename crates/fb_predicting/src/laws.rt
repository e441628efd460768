//! What follows from the definitions alone. The function does nothing: its clauses are the law.

ghost use Rattle.fb_predicting.specs.PredictLaws.{PredictionsReadBack};
ghost use Rattle.fb_shots_stim.specs.BlocksB8.{records_b8};
ghost use Rattle.fb_shots_stim.specs.RunsR8.{records_r8};
ghost use Rattle.fb_shots_stim.specs.Text01.{records_01};
ghost use Rattle.fb_shots_stim.specs.TextHits.{records_hits};

use fb_request::Coding;

/// Predictions in `01`, `b8`, `hits` and `r8` are read back, as shots of as many bits as there are observables.
pub fn predictions_read_back()
    ensures text_01 { PredictionsReadBack records_01 Coding.Text01 }
    ensures b8 { PredictionsReadBack records_b8 Coding.B8 }
    ensures hits { PredictionsReadBack records_hits Coding.Hits }
    ensures r8 { PredictionsReadBack records_r8 Coding.R8 }
{}
