//! Theorems on the definitions alone: functions that do nothing, and ensure them.

ghost use Rattle.std.specs.Prelude.{drop};
ghost use Rattle.fb_records.specs.Lines.{after_line};
ghost use Rattle.fb_records.specs.Answers.{FirstRecordLeaves, GoesOnAnywhere};
ghost use Rattle.fb_shots_stim.specs.Text01.{records_01, prefix_01};
ghost use Rattle.fb_shots_stim.specs.BlocksB8.{block_len, records_b8, prefix_b8};
ghost use Rattle.fb_shots_stim.specs.TextDets.{after_record, records_dets, prefix_dets};
ghost use Rattle.fb_shots_stim.specs.TextHits.{records_hits, prefix_hits};
ghost use Rattle.fb_shots_stim.specs.RunsR8.{after_r8, records_r8, prefix_r8};
ghost use Rattle.fb_shots_stim.specs.CodedShots.{coded_01, coded_b8, coded_hits, coded_r8, ReadsBack};

/// However an input in the format `01` is cut into pieces, the results are the same: what is settled by a
/// prefix are the first shots of the whole, and what that prefix refuses is refused. Without its first record's bytes it
/// gives the same without its first shot.
pub fn goes_on_01()
    ensures whole { GoesOnAnywhere records_01 prefix_01 }
    ensures first { FirstRecordLeaves records_01 prefix_01 (λ n. after_line) }
{}

/// The same of the format `b8`.
pub fn goes_on_b8()
    ensures whole { GoesOnAnywhere records_b8 prefix_b8 }
    ensures first { FirstRecordLeaves records_b8 prefix_b8 (λ n. drop (block_len n)) }
{}

/// The same of the format `dets`.
pub fn goes_on_dets()
    ensures whole { GoesOnAnywhere records_dets prefix_dets }
    ensures first { FirstRecordLeaves records_dets prefix_dets (λ n. after_record) }
{}

/// The same of the format `hits`.
pub fn goes_on_hits()
    ensures whole { GoesOnAnywhere records_hits prefix_hits }
    ensures first { FirstRecordLeaves records_hits prefix_hits (λ n. after_line) }
{}

/// The same of the format `r8`.
pub fn goes_on_r8()
    ensures whole { GoesOnAnywhere records_r8 prefix_r8 }
    ensures first { FirstRecordLeaves records_r8 prefix_r8 after_r8 }
{}

/// Bits that are written in the format `01`, shot by shot, are read back: a reader of the whole text gives the places of
/// the bits that are set, for each shot, and then the end.
pub fn reads_back_01()
    ensures { ReadsBack records_01 coded_01 }
{}

/// The same of the format `b8`.
pub fn reads_back_b8()
    ensures { ReadsBack records_b8 coded_b8 }
{}

/// The same of the format `hits`.
pub fn reads_back_hits()
    ensures { ReadsBack records_hits coded_hits }
{}

/// The same of the format `r8`.
pub fn reads_back_r8()
    ensures { ReadsBack records_r8 coded_r8 }
{}
