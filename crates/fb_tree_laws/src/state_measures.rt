//! Why a search of a half-solved part ends.

ghost use Rattle.fb_laws.specs.StateMeasures.{SteppedLess, AbsorbedLess, UncoveredLess, AttachedLess, ClosedLess, RoundedLess, OpenedLess};

/// Each move of a search leaves less to do.
pub fn state_lowers()
    ensures stepped { SteppedLess }
    ensures absorbed { AbsorbedLess }
    ensures uncovered { UncoveredLess }
    ensures attached { AttachedLess }
    ensures closed { ClosedLess }
    ensures rounded { RoundedLess }
    ensures opened { OpenedLess }
{}
