//! The observables that have an edge, by the edge.

ghost use Rattle.std.specs.Prelude.{◌≡◌, ℕ, ◌<◌, ◌≤◌, ◌==◌, ◌&&◌, [], None, All, IfOk, OnOk, length, map, get_or};
ghost use Rattle.fb_graph.specs.Parity.{differ};
ghost use Rattle.fb_predict.specs.ObservableText.{first_where, is_beyond, repeats, most_observables};
ghost use Rattle.fb_predict.specs.InternalHolders.{AreHolders, AreNumbers, occurs_oddly};

use fb_graph::{NoMemory, NumberList};
use std::alloc::Global;

/// A list of `n` empty lists.
fn empty_lists(alloc: Global, n: u32) -> Result<Vec<NumberList>, NoMemory>
    ensures len { IfOk result (λ v. length v.items ≡ n) }
    ensures each { IfOk result (λ v. (e : ℕ) → get_or v.items e [] ≡ []) }
{
    let mut lists = Vec::with_capacity(alloc, n as usize)?;
    for i in 0..n {
        lists.push(NumberList::from_vec(Vec::new(alloc)))?;
    }
    Ok(lists)
}

/// Adds the number of an observable to the lists of its edges.
fn add_number(holders: &mut Vec<NumberList>, list: &[u64], number: u32) -> Result<(), NoMemory>
    requires below { All (λ e. e < length holders.old.items) list.now }
    requires number { number < most_observables }
    requires numbers { AreNumbers holders.old.items }
    ensures len { OnOk result (length holders.new.items ≡ length holders.old.items) }
    ensures each { OnOk result ((i e : ℕ) → occurs_oddly (get_or holders.new.items e []) i
        ≡ differ (occurs_oddly (get_or holders.old.items e []) i) ((number == i) && occurs_oddly list.now e)) }
    ensures numbers { OnOk result (AreNumbers holders.new.items) }
{
    for edge in list {
        holders[*edge as usize].push(number)?;
    }
    Ok(())
}

/// For each edge the numbers of the observables that have it.
pub fn holders_by_edge(
    alloc: Global,
    edge_count: u32,
    lists: &[Vec<u64>],
) -> Result<Vec<NumberList>, NoMemory>
    requires few { length lists.now ≤ most_observables }
    requires below { first_where (is_beyond edge_count) 0 (map (λ l. l.items) lists.now) ≡ None }
    requires distinct { first_where (repeats []) 0 (map (λ l. l.items) lists.now) ≡ None }
    ensures { IfOk result (λ v. AreHolders (map (λ l. l.items) lists.now) v.items) }
{
    let mut holders = empty_lists(alloc, edge_count)?;
    for (i, list) in lists.iter().enumerate() {
        add_number(&mut holders, list.as_slice(), i as u32)?;
    }
    Ok(holders)
}
