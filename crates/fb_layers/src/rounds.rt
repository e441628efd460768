//! Which node has each layer.

ghost use Rattle.std.specs.Prelude.{◌≡◌, ℕ, ◌+◌, ◌<◌, ◌≤◌, ◌^◌, length, get_or, IfOk};
ghost use Rattle.fb_plan.specs.Plans.{most_units};
ghost use Rattle.fb_gen.specs.TimePlan.{IsRoundOf, first_round, no_fusion, time_fusions};
ghost use Rattle.fb_gen.specs.InternalSharing.{IsShared};

use fb_gen::Fusion;
use fb_graph::NoMemory;
use std::alloc::Global;

/// The node of the fusion by the seam before each unit; 0 for the first unit, which has none.
fn seam_nodes(alloc: Global, units: u64, fusions: &[Fusion]) -> Result<Vec<u64>, NoMemory>
    requires some { 1 ≤ units }
    requires limit { units ≤ most_units }
    requires fusions { fusions.now ≡ time_fusions units }
    ensures len { IfOk result (λ v. length v.items ≡ units) }
    ensures each { IfOk result (λ v. (i : ℕ) → i < length (time_fusions units)
        → get_or v.items (get_or (time_fusions units) i no_fusion).seam 0 ≡ units + i) }
{
    let mut nodes = vec![in alloc; 0; units as usize]?;
    for (i, fusion) in fusions.iter().enumerate() {
        nodes[fusion.seam as usize] = units + i as u64;
    }
    Ok(nodes)
}

/// The node of each of `rounds` layers, by the first layer of each unit.
pub fn layer_nodes(
    alloc: Global,
    rounds: u64,
    units: u64,
    firsts: &[u64],
    fusions: &[Fusion],
) -> Result<Vec<u64>, NoMemory>
    requires shared { IsShared rounds units }
    requires limit { rounds < 2 ^ 32 }
    requires len { length firsts.now ≡ units + 1 }
    requires each { (k : ℕ) → k < units + 1 → get_or firsts.now k 0 ≡ first_round rounds units k }
    requires fusions { fusions.now ≡ time_fusions units }
    ensures len { IfOk result (λ v. length v.items ≡ rounds) }
    ensures each { IfOk result (λ v. (k : ℕ) → k < rounds → IsRoundOf rounds units k (get_or v.items k 0)) }
{
    let seams = seam_nodes(alloc, units, fusions)?;
    let mut nodes = Vec::new(alloc);
    let mut unit = 0;
    for layer in 0..rounds {
        let mut node = unit as u64;
        if layer + 1 == firsts[unit + 1] {
            unit += 1;
            node = seams[unit];
        }
        nodes.push(node)?;
    }
    Ok(nodes)
}
