//! The history of a run, from what each worker did.

ghost use Rattle.std.specs.Prelude.{◌≤◌, ◌≡◌, ℕ, ◌+◌, ◌*◌, ◌^◌, ◌<◌, List, [], ◌∷◌, ◌++◌, length, get_or, IfOk};
ghost use Rattle.fb_book.specs.declared.entries.Entry.{Entry};
ghost use Rattle.std.specs.List.{All};
ghost use Rattle.fb_book.specs.Machine.{IsComplete, trace};
ghost use Rattle.fb_plan.specs.Plans.{node_count};
ghost use Rattle.fb_slots.specs.Listed.{IsOrdered, IsWhole, listed_by, listing, gains, taker_of};
ghost use Rattle.fb_slots.specs.Ordered.{IsByItem};
ghost use Rattle.fb_slots.specs.Slots.{IsWithin, layout_of};
ghost use Rattle.fb_book.specs.InternalBoard.{node_limit};

use fb_book::moves::{count_of, entry_of, place_of};
use fb_book::{Board, Entry, EntryKind};
use fb_graph::NoMemory;
use fb_plan::Job;
use std::alloc::Global;

/// Notes the worker of an entry, if an item was taken.
fn note(workers: &mut Vec<u32>, nodes: usize, entry: Entry)
    requires nodes { nodes < node_limit }
    requires inside { entry.slot * nodes + entry.node < length workers.old.items }
    ensures count { length workers.new.items ≡ length workers.old.items }
    ensures each { (es : List Entry) → ((k : ℕ) → k < length workers.old.items
        → get_or workers.old.items k 0 ≡ taker_of (trace nodes k es) 0)
        → (k : ℕ) → k < length workers.old.items → get_or workers.new.items k 0 ≡ taker_of
        (trace nodes k (es ++ entry ∷ [])) 0 }
{
    match entry.kind {
        EntryKind::Took => workers[place_of(nodes, entry.slot, entry.node)] = entry.worker,
        EntryKind::Gave => {}
        EntryKind::Left => {}
    }
}

/// Which worker took each item, by places.
fn takers(
    alloc: Global,
    entries: &[Entry],
    nodes: usize,
    count: usize,
) -> Result<Vec<u32>, NoMemory>
    requires nodes { nodes < node_limit }
    requires inside { All (λ e. (e.slot * nodes + e.node) < count) entries.now }
    ensures count { IfOk result (λ v. length v.items ≡ count) }
    ensures each { IfOk result (λ v. (k : ℕ) → k < count → get_or v.items k 0 ≡ taker_of
        (trace nodes k entries.now) 0) }
{
    let mut workers = vec![in alloc; 0u32; count]?;
    for entry in entries {
        note(&mut workers, nodes, *entry);
    }
    Ok(workers)
}

/// All entries by slot, then node, each item's in the order in which they were made. The machine allows the list, and
/// it is complete. No order in time is told between items.
pub fn history_of<N: Board>(
    alloc: Global,
    job: &Job<'_>,
    entries: &[Entry],
) -> Result<Vec<Entry>, NoMemory>
    requires job { N.job ≡ job.now }
    requires workers { N.workers < 2 ^ 32 }
    requires ordered { IsOrdered (layout_of N.job N.workers) entries.now }
    requires whole { IsWhole (layout_of N.job N.workers) entries.now }
    ensures listing { IfOk result (λ h. h.items ≡ listing (layout_of N.job N.workers).nodes
        (layout_of N.job N.workers).count entries.now) }
    ensures order { IfOk result (λ h. IsByItem (node_count N.job.plan) h.items) }
    ensures count { IfOk result (λ h. length h.items ≡ length entries.now) }
    ensures workers { IfOk result (λ h. All (λ e. e.worker ≤ N.workers) h.items) }
    ensures complete { IfOk result (λ h. IsComplete (layout_of N.job N.workers).kids
        (layout_of N.job N.workers).nodes (layout_of N.job N.workers).count h.items) }
{
    job.keeps();
    let plan = job.plan();
    plan.keeps();
    let nodes = plan.nodes() as usize;
    let count = count_of(job.shots().len(), nodes);
    let workers = takers(alloc, entries, nodes, count)?;
    let mut history = Vec::with_capacity(alloc, 2 * count)?;
    for place in 0..count {
        let worker = workers[place];
        history.push_reserved(entry_of(EntryKind::Took, worker, nodes, place));
        history.push_reserved(entry_of(EntryKind::Gave, worker, nodes, place));
    }
    Ok(history)
}
