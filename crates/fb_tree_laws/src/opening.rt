//! Blossoms opened level by level (Edmonds 1965).

ghost use Rattle.fb_laws.specs.Opening.{WithinOnce, FirstLevel, NextLevel, LevelPermuted, LevelsOpened, LastLevel, LevelSolved};

/// Each cut is crossed at most once by the outer nodes' links, and still so when a blossom among them is opened.
pub fn levels()
    ensures within { WithinOnce }
    ensures first { FirstLevel }
    ensures next { NextLevel }
    ensures permuted { LevelPermuted }
    ensures opened { LevelsOpened }
{}

/// When all blossoms are open, the links match the defects, and their walks add up to a correction of least weight.
pub fn last_level()
    ensures perfect { LastLevel }
    ensures solved { LevelSolved }
{}
