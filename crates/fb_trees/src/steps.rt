ghost use Rattle.std.specs.Prelude.{◌≡◌, ◌≤◌, ◌<◌, ◌==◌, get_or, ◌++◌, ◌∷◌, [], map, length, IfOk, OnOk, if◌then◌else◌};
ghost use Rattle.fb_laws.specs.Trees.{branches_beside};
ghost use Rattle.fb_laws.specs.TreeCycles.{last_plus};
ghost use Rattle.fb_trees.specs.Branches.{entries_of, entry_of};
ghost use Rattle.fb_trees.specs.declared.branch.Branch.{Branch};
ghost use Rattle.fb_trees.specs.TreeSteps.{steps_up};
ghost use Rattle.fb_trees.specs.InternalPaths.{common_count, steps_down};

use crate::{Branch, CycleStep, LinkId, NoMemory, NodeId};
use std::alloc::Global;

/// The number of branches with which both paths begin.
pub fn shared_count(up: &[Branch], down: &[Branch]) -> usize
    ensures count { result ≡ common_count (map entry_of up.now) (map entry_of down.now) }
    ensures up { result ≤ length up.now }
    ensures down { result ≤ length down.now }
{
    let shorter = up.len().min(down.len());
    for i in 0..shorter {
        if up[i].minus != down[i].minus {
            return i;
        }
    }
    shorter
}

/// The branch at the place.
pub fn branch_in(branches: &[Branch], place: usize) -> Branch
    requires { place < length branches.now }
    ensures { (b : Branch) → result ≡ get_or branches.now place b }
{
    branches[place]
}

/// The branches that are not on the way to the plus node, the newest one first.
pub fn branches_beside(
    alloc: Global,
    branches: &[Branch],
    plus: NodeId,
) -> Result<Vec<Branch>, NoMemory>
    ensures { IfOk result (λ others. map entry_of others.items ≡ branches_beside (entries_of branches.now) plus) }
{
    let mut others = Vec::new(alloc);
    let mut node = plus;
    let mut i = branches.len();
    while i > 0 {
        i -= 1;
        node = pass(&mut others, &branches[i], node)?;
    }
    Ok(others)
}

/// The node to which the way goes on below the branch: its parent if the branch leads to the node. Else the branch is
/// beside the way, and added to the others.
fn pass(others: &mut Vec<Branch>, branch: &Branch, node: NodeId) -> Result<NodeId, NoMemory>
    ensures next { IfOk result (λ next. next ≡ (if branch.now.plus == node then branch.now.parent else node)) }
    ensures others { OnOk result (others.new.items ≡ (if branch.now.plus == node then others.old.items else others.old.items ++ branch.now ∷ [])) }
{
    if branch.plus == node {
        return Ok(branch.parent);
    }
    others.push(*branch)?;
    Ok(node)
}

/// The plus node to which the branches lead from the node.
pub fn last_plus(node: NodeId, path: &[Branch]) -> NodeId
    ensures { result ≡ last_plus node (map entry_of path.now) }
{
    match path.last() {
        Some(branch) => branch.plus,
        None => node,
    }
}

/// The cycle of the branches up to one plus node and down from another, which the closing link joins. It begins at the
/// base, on which both first branches hang.
pub fn cycle_along(
    alloc: Global,
    base: NodeId,
    up: &[Branch],
    closing: LinkId,
    down: &[Branch],
) -> Result<Vec<CycleStep>, NoMemory>
    ensures { IfOk result (λ cycle. cycle.items ≡ steps_down base (map entry_of up.now) closing ++ steps_up (map entry_of down.now)) }
{
    let mut cycle = Vec::new(alloc);
    push_down(&mut cycle, base, up, closing)?;
    push_up(&mut cycle, down)?;
    Ok(cycle)
}

/// Adds the nodes down the branches from the one on which the first of them hangs, each with the link to its child, the
/// last one with the closing link.
fn push_down(
    steps: &mut Vec<CycleStep>,
    from: NodeId,
    path: &[Branch],
    closing: LinkId,
) -> Result<(), NoMemory>
    ensures { OnOk result (steps.new.items ≡ steps.old.items ++ steps_down from (map entry_of path.now) closing) }
{
    let mut node = from;
    for branch in path {
        push_step(steps, node, branch.tree)?;
        push_step(steps, branch.minus, branch.matched)?;
        node = branch.plus;
    }
    push_step(steps, node, closing)
}

/// Adds the nodes up the branches from the last plus node, each with the link to its parent.
pub fn push_up(steps: &mut Vec<CycleStep>, path: &[Branch]) -> Result<(), NoMemory>
    ensures { OnOk result (steps.new.items ≡ steps.old.items ++ steps_up (map entry_of path.now)) }
{
    let mut i = path.len();
    while i > 0 {
        i -= 1;
        push_step(steps, path[i].plus, path[i].matched)?;
        push_step(steps, path[i].minus, path[i].tree)?;
    }
    Ok(())
}

/// Adds a step.
pub fn push_step(steps: &mut Vec<CycleStep>, node: NodeId, link: LinkId) -> Result<(), NoMemory>
    ensures { OnOk result (steps.new.items ≡ steps.old.items ++ record { node = node; link = link } ∷ []) }
{
    steps.push(CycleStep { node, link })?;
    Ok(())
}
