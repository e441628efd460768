//! Rising lists of numbers put together, without those that both of two lists have.

ghost use Rattle.std.specs.Prelude.{◌≡◌, ℕ, ◌++◌, Bool, IfOk};
ghost use Rattle.std.specs.List.Sorted.{IsStrictlyIncreasing};
ghost use Rattle.fb_graph.specs.Parity.{is_odd_count};

use fb_graph::NoMemory;
use std::alloc::Global;

/// The numbers that exactly one of two rising lists has, rising. Takes no time if the second list is empty, else time linear
/// in both.
pub fn symmetric_difference(
    alloc: Global,
    first: Vec<u32>,
    second: &[u32],
) -> Result<Vec<u32>, NoMemory>
    requires first { IsStrictlyIncreasing first.items }
    requires second { IsStrictlyIncreasing second.now }
    ensures rising { IfOk result (λ odd. IsStrictlyIncreasing odd.items) }
    ensures parity { IfOk result (λ odd. (test : ℕ → Bool) → is_odd_count test odd.items
        ≡ is_odd_count test (first.items ++ second.now)) }
{
    if second.is_empty() {
        return Ok(first);
    }
    merged_odd(alloc, &first, second)
}

/// Merges the lists, and leaves out both of two equal numbers.
fn merged_odd(alloc: Global, first: &[u32], second: &[u32]) -> Result<Vec<u32>, NoMemory>
    requires first { IsStrictlyIncreasing first.now }
    requires second { IsStrictlyIncreasing second.now }
    ensures rising { IfOk result (λ odd. IsStrictlyIncreasing odd.items) }
    ensures parity { IfOk result (λ odd. (test : ℕ → Bool) → is_odd_count test odd.items
        ≡ is_odd_count test (first.now ++ second.now)) }
{
    let mut odd = Vec::with_capacity(alloc, first.len() + second.len())?;
    let mut i = 0;
    let mut j = 0;
    while i < first.len() && j < second.len() {
        if first[i] < second[j] {
            odd.push_reserved(first[i]);
            i += 1;
        } else if second[j] < first[i] {
            odd.push_reserved(second[j]);
            j += 1;
        } else {
            i += 1;
            j += 1;
        }
    }
    odd.extend_from_slice(&first[i..])?;
    odd.extend_from_slice(&second[j..])?;
    Ok(odd)
}
