//! Which nodes of a plan by time are joined, level by level.

ghost use Rattle.std.specs.Prelude.{◌≡◌, ◌+◌, ◌*◌, ◌<◌, ◌≤◌, ◌++◌, length, All, IfOk, OnOk};
ghost use Rattle.fb_plan.specs.Plans.{most_units};
ghost use Rattle.fb_gen.specs.TimePlan.{first_level, fusions_of_level, level_above, time_fusions};

use fb_graph::NoMemory;
use std::alloc::Global;

/// A node of a level, with the number of the seam before it, which is that of the first unit below the node.
#[derive(Clone, Copy)]
pub struct Part {
    pub seam: u64,
    pub node: u64,
}

/// The fusion of two nodes by a seam.
#[derive(Clone, Copy)]
pub struct Fusion {
    pub left: u64,
    pub right: u64,
    pub seam: u64,
}

/// The units, each with its own number as that of the seam before it.
fn units_in_order(alloc: Global, units: u64) -> Result<Vec<Part>, NoMemory>
    ensures { IfOk result (λ v. v.items ≡ first_level units) }
{
    let mut level = Vec::new(alloc);
    for j in 0..units {
        level.push(Part { seam: j, node: j })?;
    }
    Ok(level)
}

/// Adds the fusions of a level, and gives the level above, whose new nodes are numbered from `next` on.
fn join_level(
    alloc: Global,
    level: &[Part],
    next: u64,
    fusions: &mut Vec<Fusion>,
) -> Result<Vec<Part>, NoMemory>
    requires { next + length level.now ≤ 2 * most_units }
    ensures fusions { OnOk result (fusions.new.items ≡ fusions.old.items ++ fusions_of_level level.now) }
    ensures above { IfOk result (λ v. v.items ≡ level_above next level.now) }
{
    let mut above = Vec::new(alloc);
    let mut node = next;
    let mut i = 0;
    while i + 1 < level.len() {
        let (left, right) = (level[i], level[i + 1]);
        let fusion = Fusion {
            left: left.node,
            right: right.node,
            seam: right.seam,
        };
        fusions.push(fusion)?;
        let part = Part {
            seam: left.seam,
            node,
        };
        above.push(part)?;
        node += 1;
        i += 2;
    }
    above.extend_from_slice(&level[i..])?;
    Ok(above)
}

/// All fusions of a plan of `units` units, in the order in which they are made.
pub fn all_fusions(alloc: Global, units: u64) -> Result<Vec<Fusion>, NoMemory>
    requires { units ≤ most_units }
    ensures { IfOk result (λ v. v.items ≡ time_fusions units) }
{
    let mut fusions = Vec::new(alloc);
    let mut level = units_in_order(alloc, units)?;
    for turn in 0..units {
        if level.len() < 2 {
            return Ok(fusions);
        }
        let next = units + fusions.len() as u64;
        let above = join_level(alloc, &level, next, &mut fusions)?;
        level = above;
    }
    Ok(fusions)
}
