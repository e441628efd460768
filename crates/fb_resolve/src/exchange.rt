//! The edges that a row has: those of its walks or of negative weight, but not both.

ghost use Rattle.std.specs.Prelude.{◌≡◌, ◌≤◌, ℕ, ◌++◌, Bool, length, take, IfOk};
ghost use Rattle.std.specs.List.Sorted.{IsStrictlyIncreasing};
ghost use Rattle.fb_graph.specs.Parity.{is_odd_count};

use fb_graph::{NoMemory, odd_ones};
use fb_half::differences::symmetric_difference;
use std::alloc::Global;

/// How many numbers at the beginning of the list rise.
fn rising_count(numbers: &[u32]) -> usize
    ensures within { result ≤ length numbers.now }
    ensures rising { IsStrictlyIncreasing (take result numbers.now) }
{
    for i in 1..numbers.len() {
        if numbers[i] <= numbers[i - 1] {
            return i;
        }
    }
    numbers.len()
}

/// The numbers that occur an odd number of times in both lists together, rising. The numbers with which the second list
/// begins are merged as long as they rise, and all others sorted.
pub fn odd_of_both(
    alloc: Global,
    mut numbers: Vec<u32>,
    others: &[u32],
) -> Result<Vec<u32>, NoMemory>
    ensures rising { IfOk result (λ odd. IsStrictlyIncreasing odd.items) }
    ensures parity { IfOk result (λ odd. (test : ℕ → Bool) → is_odd_count test odd.items
        ≡ is_odd_count test (numbers.items ++ others.now)) }
{
    let (rising, rest) = others.split_at(rising_count(others));
    numbers.extend_from_slice(rest)?;
    symmetric_difference(alloc, odd_ones(numbers).into_vec(), rising)
}
