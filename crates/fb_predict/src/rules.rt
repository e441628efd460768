//! The rules of observables.

ghost use Rattle.std.specs.Prelude.{◌≡◌, ℕ, ◌<◌, ◌≤◌, [], None, All, IfOk, length, map, slice_index};
ghost use Rattle.fb_predict.specs.ObservableText.{first_where, is_beyond, repeats, most_observables};

use fb_graph::NoMemory;
use std::alloc::Global;

/// Whether a list has an edge that isn't below their count.
fn is_beyond(edge_count: u32, list: &[u64]) -> bool
    ensures { result ≡ is_beyond edge_count list.now }
{
    for edge in list {
        if *edge >= u64::from(edge_count) {
            return true;
        }
    }
    false
}

/// The number of the first list with an edge that isn't below their count.
pub fn first_beyond(edge_count: u32, lists: &[Vec<u64>]) -> Option<usize>
    ensures { result ≡ first_where (is_beyond edge_count) 0 (map (λ l. l.items) lists.now) }
{
    for (i, list) in lists.iter().enumerate() {
        if is_beyond(edge_count, list.as_slice()) {
            return Some(i);
        }
    }
    None
}

/// Whether an edge of a list comes again. Each edge gets this number as its mark, and no mark is as large before.
fn has_repeat(marks: &mut [u32], list: &[u64], number: u32) -> bool
    requires below { All (λ e. e < length marks.old) list.now }
    requires older { (k : ℕ) → slice_index marks.old k < number }
    ensures value { result ≡ repeats [] list.now }
    ensures newer { (k : ℕ) → slice_index marks.new k ≤ number }
{
    for edge in list {
        let place = *edge as usize;
        if marks[place] == number {
            return true;
        }
        marks[place] = number;
    }
    false
}

/// The number of the first list in which an edge comes again.
pub fn first_repeated(
    alloc: Global,
    edge_count: u32,
    lists: &[Vec<u64>],
) -> Result<Option<usize>, NoMemory>
    requires few { length lists.now ≤ most_observables }
    requires below { first_where (is_beyond edge_count) 0 (map (λ l. l.items) lists.now) ≡ None }
    ensures { IfOk result (λ found.
        found ≡ first_where (repeats []) 0 (map (λ l. l.items) lists.now)) }
{
    let mut marks = vec![in alloc; 0; edge_count as usize]?;
    for (i, list) in lists.iter().enumerate() {
        if has_repeat(marks.as_mut_slice(), list.as_slice(), i as u32 + 1) {
            return Ok(Some(i));
        }
    }
    Ok(None)
}
