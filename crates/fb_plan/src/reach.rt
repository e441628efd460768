//! The least and the greatest vertex that each node owns itself.

ghost use Rattle.std.specs.Prelude.{◌≡◌, ℕ, ◌+◌, ◌<◌, ◌≤◌, ◌^◌, length, get_or, Some, None, IfOk};
ghost use Rattle.fb_graph.specs.Limits.{most_vertices};
ghost use Rattle.fb_plan.specs.Reaches.{IsReach, reach_at, widened_reach};

use fb_graph::NoMemory;
use std::alloc::Global;

/// The range of the vertices that a node owns itself: `first` is the least of them, `end` the number after the greatest.
/// Both are equal if it owns none. Vertices of other nodes may lie between them.
#[derive(Clone, Copy, Debug)]
pub struct Reach {
    pub first: u32,
    pub end: u32,
}

impl Reach {
    /// The range with one more vertex, which is greater than all before it.
    fn with(self, v: u32) -> Reach
        requires { v + 1 < 2 ^ 32 }
        ensures { result ≡ widened_reach self v }
    {
        let first = if self.first == self.end {
            v
        } else {
            self.first
        };
        Reach { first, end: v + 1 }
    }
}

/// The reach of each node, by the owner of each vertex.
pub fn reaches_of(
    alloc: Global,
    nodes: usize,
    owners: &[Option<u32>],
) -> Result<Vec<Reach>, NoMemory>
    requires count { length owners.now ≤ most_vertices }
    requires owners { (v n : ℕ) → get_or owners.now v None ≡ Some n → n < nodes }
    ensures count { IfOk result (λ r. length r.items ≡ nodes) }
    ensures each { IfOk result (λ r. (n : ℕ) → n < nodes → IsReach owners.now n (reach_at r.items n)) }
{
    let mut reaches = vec![in alloc; Reach { first: 0, end: 0 }; nodes]?;
    for (v, owner) in owners.iter().enumerate() {
        if let Some(node) = owner {
            reaches[*node as usize] = reaches[*node as usize].with(v as u32);
        }
    }
    Ok(reaches)
}
