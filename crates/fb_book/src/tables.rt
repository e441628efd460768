//! Copies of a plan's tables.

ghost use Rattle.std.specs.Prelude.{◌≡◌, ℕ, ◌<◌, None, length, get_or, IfOk};
ghost use Rattle.fb_plan.specs.Plans.{node_count, parent_of};

use fb_graph::NoMemory;
use fb_plan::Plan;
use std::alloc::Global;

/// The two children of each fusion.
pub fn copy_joins(alloc: Global, plan: &Plan) -> Result<Vec<(u32, u32)>, NoMemory>
    ensures { IfOk result (λ v. v.items ≡ plan.now.joins) }
{
    let mut joins = Vec::new(alloc);
    for node in plan.units()..plan.nodes() {
        let Some(join) = plan.children(node) else {
            unreachable!()
        };
        if joins.push(join).is_err() {
            return Err(NoMemory);
        }
    }
    Ok(joins)
}

/// The parent of each node.
pub fn copy_parents(alloc: Global, plan: &Plan) -> Result<Vec<Option<u32>>, NoMemory>
    ensures count { IfOk result (λ v. length v.items ≡ node_count plan.now) }
    ensures each { IfOk result (λ v. (n : ℕ) → n < node_count plan.now
        → get_or v.items n None ≡ parent_of plan.now n) }
{
    let mut parents = Vec::new(alloc);
    for node in 0..plan.nodes() {
        if parents.push(plan.parent(node)).is_err() {
            return Err(NoMemory);
        }
    }
    Ok(parents)
}
