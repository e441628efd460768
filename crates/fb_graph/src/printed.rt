//! What a solver found, in the form in which a report prints it.

ghost use Rattle.std.specs.Prelude.{◌≡◌, ℕ, ◌≤◌, Bool, true, All, AllPairs, length, sum_by, take};
ghost use Rattle.std.specs.List.Sorted.{IsNonDecreasing, IsStrictlyIncreasing};
ghost use Rattle.fb_graph.specs.Parity.{is_odd_count, is_in};
ghost use Rattle.fb_graph.specs.Problem.{Problem};
ghost use Rattle.fb_graph.specs.Certificate.{IsOddCut, IsPrintedCut, AreRising, load_of, total_value};
ghost use Rattle.fb_graph.specs.InternalCancelledPairs.{CancelsTo};
ghost use Rattle.fb_graph.specs.Printed.{DifferAsSets, HasPositiveCuts};
ghost use Rattle.fb_graph.specs.declared.parts.Edge.{Edge};

use crate::cuts::CutList;
use crate::lists::NumberList;

/// The numbers that occur an odd number of times, rising. Of the edges of several walks these are the edges of
/// their sum modulo 2. Takes no memory.
pub fn odd_ones(mut numbers: Vec<u32>) -> NumberList
    ensures rising { IsStrictlyIncreasing result }

    // So they touch each vertex with the same parity.
    ensures parity { (test : ℕ → Bool) → is_odd_count test result ≡ is_odd_count test numbers.items }
    ensures weight { (f : ℕ → ℕ) → sum_by f result ≤ sum_by f numbers.items }
    ensures inside { (v : ℕ) → is_in result v ≡ true → is_in numbers.items v ≡ true }
{
    numbers.sort_unstable();
    let kept = cancel_pairs(&mut numbers);
    numbers.truncate(kept);
    NumberList::from_vec(numbers)
}

/// Moves the numbers that occur an odd number of times to the beginning, once each, and returns their count.
fn cancel_pairs(numbers: &mut [u32]) -> usize
    requires { IsNonDecreasing numbers.old }
    ensures short { result ≤ length numbers.old }
    ensures cancelled { CancelsTo numbers.old (take result numbers.new) }
{
    let mut kept = 0;
    for i in 0..numbers.len() {
        let number = numbers[i];
        if kept > 0 && numbers[kept - 1] == number {
            kept -= 1;
        } else {
            numbers[kept] = number;
            kept += 1;
        }
    }
    kept
}

/// The cuts of value at least 1 as a report prints them: the vertices of each rise, and so do the cuts, compared
/// entry by entry, a proper prefix first. Any two of the cuts have to differ as sets. Takes no memory.
pub fn printed_cuts(mut cuts: CutList) -> CutList
    requires { AllPairs DifferAsSets cuts }
    ensures kept { HasPositiveCuts cuts result }
    ensures odd { (p : Problem) → All (IsOddCut p) cuts → All (IsPrintedCut p) result }
    ensures rising { AreRising result }
    ensures loads { (e : Edge) → load_of result e ≡ load_of cuts e }
    ensures total { total_value result ≡ total_value cuts }
{
    cuts.keep_positive();
    cuts.sort_vertices();
    cuts.sort();
    cuts
}
