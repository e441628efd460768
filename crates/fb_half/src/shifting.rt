//! The defects that are solved: those of a shot, shifted by the ends of the edges of negative weight.

ghost use Rattle.std.specs.Prelude.{◌≡◌, ℕ, ◌++◌, Bool, IfOk};
ghost use Rattle.std.specs.List.Sorted.{IsStrictlyIncreasing};
ghost use Rattle.fb_graph.specs.Parity.{is_odd_count};

use crate::differences::symmetric_difference;
use fb_graph::NoMemory;
use std::alloc::Global;

/// The defects of a shot that belong to a node of the plan. Both lists rise.
#[derive(Drop)]
pub(crate) struct NodeDefects {
    /// Those that the shot has.
    pub(crate) given: Vec<u32>,
    /// The shifted ones, which are solved.
    pub(crate) shifted: Vec<u32>,
}

/// The numbers that an odd number of the rising lists have, rising. Takes time linear in the lists.
pub(crate) fn odd_among(
    alloc: Global,
    first: &[u32],
    second: &[u32],
    third: &[u32],
) -> Result<Vec<u32>, NoMemory>
    requires first { IsStrictlyIncreasing first.now }
    requires second { IsStrictlyIncreasing second.now }
    requires third { IsStrictlyIncreasing third.now }
    ensures rising { IfOk result (λ odd. IsStrictlyIncreasing odd.items) }
    ensures parity { IfOk result (λ odd. (test : ℕ → Bool) → is_odd_count test odd.items
        ≡ is_odd_count test ((first.now ++ second.now) ++ third.now)) }
{
    let own = Vec::from_slice(alloc, first)?;
    let odd = symmetric_difference(alloc, own, second)?;
    symmetric_difference(alloc, odd, third)
}
