//! Why a search ends.

ghost use Rattle.fb_laws.specs.Measures.{RankFalls, CountFalls};

/// Counts of which each step lowers one, and none before it is raised, are a number that falls.
pub fn search_ends()
    ensures rank { RankFalls }
    ensures count { CountFalls }
{}
