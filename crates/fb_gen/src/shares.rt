//! How rounds, or layers, are shared out among units.

ghost use Rattle.std.specs.Prelude.{◌≡◌, ℕ, ◌+◌, ◌<◌, ◌≤◌, ◌^◌, length, get_or, IfOk};
ghost use Rattle.fb_gen.specs.TimePlan.{rounds_of_unit, first_round};
ghost use Rattle.fb_gen.specs.InternalSharing.{IsShared};

use fb_graph::NoMemory;
use std::alloc::Global;

/// How many rounds a unit has.
fn rounds_of_unit(rounds: u64, units: u64, j: u64) -> u64
    requires shared { IsShared rounds units }
    requires limit { rounds < 2 ^ 32 }
    ensures value { result ≡ rounds_of_unit rounds units j }
    ensures limit { result ≤ 2 ^ 32 }
{
    let shared = rounds - (units - 1);
    let more = if j < shared % units { 1 } else { 0 };
    shared / units + more
}

/// The first round of each unit, and one more than the last unit's seam round would be.
pub fn first_rounds(alloc: Global, rounds: u64, units: u64) -> Result<Vec<u64>, NoMemory>
    requires shared { IsShared rounds units }
    requires limit { rounds < 2 ^ 32 }
    ensures len { IfOk result (λ v. length v.items ≡ units + 1) }
    ensures each { IfOk result (λ v. (k : ℕ) → k < units + 1 → get_or v.items k 0 ≡ first_round rounds units k) }
{
    let mut found = Vec::new(alloc);
    let mut first = 0;
    found.push(first)?;
    for j in 0..units {
        first += rounds_of_unit(rounds, units, j) + 1;
        found.push(first)?;
    }
    Ok(found)
}
