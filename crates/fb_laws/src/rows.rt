//! From a solved part to the row of a report (Edmonds and Johnson 1973).

ghost use Rattle.fb_laws.specs.Rows.{OddOnesOnly, OddEdgesOnly, BestOfWhole, SolvedIsBest};

/// Strictly rising numbers with the parities of a list are the ones that occur in it an odd number of times, so that
/// a correction is known by its parities.
pub fn odd_ones_only()
    ensures numbers { OddOnesOnly }
    ensures edges { OddEdgesOnly }
{}

/// The correction and the cuts of a solved nest are a best row of its problem, and one of the whole problem if the part
/// has all its real vertices.
pub fn solved_is_best()
    ensures best { SolvedIsBest }
    ensures whole { BestOfWhole }
{}
