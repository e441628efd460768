//! What follows from the definitions alone. Each function does nothing: its clauses are the law.

ghost use Rattle.std.specs.Prelude.{◌≡◌};
ghost use Rattle.fb_graph.specs.Limits.{most_edges, most_vertices, most_weight};
ghost use Rattle.fb_graph.specs.declared.graph.TheConstants.{MOST_VERTICES, MOST_EDGES, MOST_WEIGHT};
ghost use Rattle.fb_graph.specs.ShotGraphs.{SameFirstOdd, SameFlips};
ghost use Rattle.fb_graph.specs.Answers.{BestHasNoOdd, BestWeighsLeast, UnshiftedIsBest};
ghost use Rattle.fb_graph.specs.Signed.{ShiftedFirstOdd, ShiftedNoOddClosed, SignedDuality, SignedLeast, SignedSolved};
ghost use Rattle.fb_graph.specs.Signs.{NegativesByTurns, SameShiftedOdd, ShiftedByTurns, ShotDuality, ShotGraphIsGraph};
ghost use Rattle.fb_graph.specs.Laws.{WeakDuality, LeastWeight, EqualWeights, NoCorrection, CertifiedHasNoOdd, ClosedIsOdd, LeastIsFirstOdd, SomeIsFirstOdd, PartHasNoOddClosed, EdgeLeaves, PackingOfPart, PackingsJoined, WalkParity, OddOnesRise, OddOnesCount, OddOnesWeigh, Resolving, NoOddComponent, NoOddClosedSet};

/// The limits that `Graph::build` tests are those of the definitions.
pub fn limits_of_graphs()
    ensures vertices { MOST_VERTICES ≡ most_vertices }
    ensures edges { MOST_EDGES ≡ most_edges }
    ensures weight { MOST_WEIGHT ≡ most_weight }
{}

/// Weak duality (Edmonds and Johnson 1973): feasible odd cuts add up to at most what any correction weighs.
pub fn weak_duality()
    ensures { WeakDuality }
{}

/// A correction whose weight is the sum of feasible odd cuts weighs least (Edmonds and Johnson 1973), so two of them
/// weigh the same.
pub fn least_weight()
    ensures least { LeastWeight }
    ensures same { EqualWeights }
{}

/// A component without boundary that holds an odd number of defects has no correction, since each edge has both
/// ends in it or none. So a problem with a certified correction has no such component.
pub fn odd_has_no_correction()
    ensures none { NoCorrection }
    ensures certified { CertifiedHasNoOdd }
{}

/// A set of real vertices that no edge leaves, all of it joined to one of them, is a component; if it holds an odd
/// number of defects, it is odd. If it holds all defects, its least vertex is the first of an odd component.
pub fn closed_odd_set()
    ensures odd { ClosedIsOdd }
    ensures first { LeastIsFirstOdd }
    ensures some { SomeIsFirstOdd }
{}

/// A part of a problem without odd closed sets (Wu and Zhong 2023) has none either, and in such a problem some edge
/// leaves each odd cut.
pub fn no_odd_closed_set()
    ensures part { PartHasNoOddClosed }
    ensures leaves { EdgeLeaves }
{}

/// Feasible odd cuts of a part of a problem are such of the whole (Wu and Zhong 2023), and so are those of two parts
/// that share no real vertex and that no edge links.
pub fn packings_of_parts()
    ensures part { PackingOfPart }
    ensures joined { PackingsJoined }
{}

/// An odd number of a walk's edges end at a vertex if and only if exactly one of the walk's own ends is there.
pub fn walk_parity()
    ensures { WalkParity }
{}

/// The numbers that occur in a list an odd number of times are a strictly rising list below the bound, of the list's
/// parity for every test and of at most its weight for all weights.
pub fn odd_occurrences()
    ensures rise { OddOnesRise }
    ensures count { OddOnesCount }
    ensures weigh { OddOnesWeigh }
{}

/// The walks of a perfect matching of tight links add up to a correction of least weight (Edmonds 1965).
pub fn resolving()
    ensures { Resolving }
{}

/// If no component without boundary holds an odd number of defects, neither does any set of real vertices that no edge
/// leaves, and the other way round.
pub fn no_odd_component()
    ensures closed { NoOddComponent }
    ensures component { NoOddClosedSet }
{}

/// A graph with the weights of one of its shots is a graph, and has the same shot. Neither which edge sets are
/// corrections nor whether there is one depends on weights.
pub fn weights_of_shots()
    ensures graph { ShotGraphIsGraph }
    ensures odd { SameFirstOdd }
    ensures flips { SameFlips }
{}

/// Weak duality for weights of either sign (Edmonds and Johnson 1973): feasible odd cuts of the shifted problem are
/// worth at most what a correction weighs above the base.
pub fn signed_duality()
    ensures problem { SignedDuality }
    ensures shot { ShotDuality }
{}

/// A solution of the shifted problem, taken together with the negative edges, is a correction of least signed weight.
pub fn signed_solution()
    ensures solved { SignedSolved }
    ensures least { SignedLeast }
{}

/// What solves a shot's shifted problem, taken together with the negative edges, is a best correction of the shot. A
/// best one weighs least, so that two of them weigh the same; and a shot that has one has no odd component.
pub fn best_corrections()
    ensures best { UnshiftedIsBest }
    ensures least { BestWeighsLeast }
    ensures even { BestHasNoOdd }
{}

/// Shifting the defects leaves the parity of each component and of each closed set.
pub fn shifted_parity()
    ensures first { ShiftedFirstOdd }
    ensures closed { ShiftedNoOddClosed }
    ensures shot { SameShiftedOdd }
{}

/// The negative edges and the shifted defects of a shot follow from those of the graph and from the signs that the shot
/// turns.
pub fn turned_signs()
    ensures negatives { NegativesByTurns }
    ensures defects { ShiftedByTurns }
{}
