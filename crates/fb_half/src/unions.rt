//! Rising lists of numbers put together.

ghost use Rattle.std.specs.Prelude.{◌++◌, OnOk};
ghost use Rattle.std.specs.List.Sorted.{IsStrictlyIncreasing};
ghost use Rattle.fb_half.specs.InternalUnions.{IsRisingUnion};

use fb_graph::NoMemory;
use std::alloc::Global;

/// Adds two rising lists to numbers that are below both, so that all of them rise. A number of both lists is added once.
fn push_merged(all: &mut Vec<u32>, first: &[u32], second: &[u32]) -> Result<(), NoMemory>
    requires first { IsStrictlyIncreasing (all.old.items ++ first.now) }
    requires second { IsStrictlyIncreasing (all.old.items ++ second.now) }
    ensures { OnOk result (IsRisingUnion (all.old.items ++ first.now) second.now all.new.items) }
{
    let mut i = 0;
    let mut j = 0;
    while i < first.len() && j < second.len() {
        if first[i] < second[j] {
            all.push(first[i])?;
            i += 1;
        } else if second[j] < first[i] {
            all.push(second[j])?;
            j += 1;
        } else {
            j += 1;
        }
    }
    all.extend_from_slice(&first[i..])?;
    all.extend_from_slice(&second[j..])?;
    Ok(())
}

/// Adds the numbers of a rising list to another one, which goes on rising. Takes time for the added numbers, for those above
/// the first of them, and for the logarithm of all.
pub(crate) fn add_rising(alloc: Global, all: &mut Vec<u32>, others: &[u32]) -> Result<(), NoMemory>
    requires rising { IsStrictlyIncreasing all.old.items }
    requires others { IsStrictlyIncreasing others.now }
    ensures { OnOk result (IsRisingUnion all.old.items others.now all.new.items) }
{
    if others.is_empty() {
        return Ok(());
    }
    let least = others[0];
    let below = all.partition_point(|v| *v < least);
    let above = all[below..].to_vec(alloc)?;
    all.truncate(below);
    push_merged(all, &above, others)
}
