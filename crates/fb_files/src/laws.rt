//! What follows from the definitions alone. The function does nothing: its clause is the law.

ghost use Rattle.std.specs.Prelude.{◌≡◌};
ghost use Rattle.fb_files.specs.Judging.{most_shots};
ghost use Rattle.fb_files.specs.declared.taking.TheConstants.{MOST_SHOTS};

/// The limit of shots that commands give to a stream is that of the definitions.
pub fn limit_of_shots()
    ensures { MOST_SHOTS ≡ most_shots }
{}
