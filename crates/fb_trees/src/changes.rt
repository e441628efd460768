ghost use Rattle.std.specs.Prelude.{◌≡◌, ◌+◌, ◌%◌, ◌<◌, ◌++◌, ◌∷◌, [], take, drop, length, get_or, nat_eq, IfOk, OnOk};
ghost use Rattle.std.specs.HashSet.{contains};
ghost use Rattle.fb_graph.specs.Parity.{is_in};
ghost use Rattle.fb_laws.specs.SearchBlossoms.{joined_tree, renamed_name, renamed_entry};
ghost use Rattle.fb_laws.specs.OpenedCycles.{opened_branches, opened_tree};
ghost use Rattle.fb_trees.specs.Branches.{entries_of, entry_of};
ghost use Rattle.fb_trees.specs.Replacements.{first_node, way_of};
ghost use Rattle.fb_trees.specs.declared.branch.Branch.{Branch};
ghost use Rattle.fb_trees.specs.InternalNames.{AreNames};

use crate::{Branch, CycleStep, NoMemory, NodeId};
use std::alloc::Global;
use std::collections::HashSet;

/// The names of nodes.
pub type Names = HashSet<NodeId>;

/// The set of the names in the list.
pub fn names_of(alloc: Global, nodes: &[NodeId]) -> Result<Names, NoMemory>
    ensures { IfOk result (λ names. AreNames names nodes.now) }
{
    let mut names = HashSet::new(alloc);
    for node in nodes {
        names.insert(*node)?;
    }
    Ok(names)
}

/// The node, or the name in the place of one that the blossom takes in.
pub fn renamed_name(node: NodeId, inside: &Names, name: NodeId) -> NodeId
    ensures { result ≡ renamed_name (contains nat_eq inside.now) name node }
{
    if inside.contains(&node) { name } else { node }
}

/// The branches that the blossom does not take in, with its name in the place of its nodes.
pub fn joined_branches(
    alloc: Global,
    branches: &[Branch],
    inside: &Names,
    name: NodeId,
) -> Result<Vec<Branch>, NoMemory>
    ensures { IfOk result (λ joined. entries_of joined.items ≡ joined_tree (contains nat_eq inside.now) name (entries_of branches.now)) }
{
    let mut joined = Vec::new(alloc);
    for branch in branches {
        push_joined(&mut joined, branch, inside, name)?;
    }
    Ok(joined)
}

fn push_joined(
    joined: &mut Vec<Branch>,
    branch: &Branch,
    inside: &Names,
    name: NodeId,
) -> Result<(), NoMemory>
    ensures { OnOk result (entries_of joined.new.items ≡ joined_tree (contains nat_eq inside.now) name (entry_of branch.now ∷ []) ++ entries_of joined.old.items) }
{
    if inside.contains(&branch.minus) {
        return Ok(());
    }
    joined.push(Branch {
        parent: renamed_name(branch.parent, inside, name),
        plus: renamed_name(branch.plus, inside, name),
        ..*branch
    })?;
    Ok(())
}

/// The branches with those along the path in the place of the one at the place.
pub fn opened_branches(
    alloc: Global,
    branches: &[Branch],
    place: usize,
    path: &[CycleStep],
) -> Result<Vec<Branch>, NoMemory>
    requires within { place < length branches.now }
    requires odd { length path.now % 2 ≡ 1 }
    ensures { IfOk result (λ opened. (b : Branch) → entries_of opened.items ≡ opened_tree (entries_of (drop (place + 1) branches.now)) (entry_of (get_or branches.now place b)) (entries_of (take place branches.now)) (first_node path.now) (way_of path.now)) }
{
    let (older, rest) = branches.split_at(place);
    let (branch, newer) = rest.split_at(1);
    let mut opened = Vec::new(alloc);
    opened.extend_from_slice(older)?;
    push_opened(&mut opened, &branch[0], path)?;
    opened.extend_from_slice(newer)?;
    Ok(opened)
}

/// Adds the branches along the path, from the parent of the branch on to its plus node.
fn push_opened(
    opened: &mut Vec<Branch>,
    branch: &Branch,
    path: &[CycleStep],
) -> Result<(), NoMemory>
    requires { length path.now % 2 ≡ 1 }
    ensures { OnOk result (entries_of opened.new.items ≡ opened_branches branch.now.parent branch.now.tree (first_node path.now) (way_of path.now) branch.now.matched branch.now.plus ++ entries_of opened.old.items) }
{
    let mut parent = branch.parent;
    let mut tree = branch.tree;
    let mut i = 0;
    while i + 1 < path.len() {
        opened.push(Branch {
            parent,
            tree,
            minus: path[i].node,
            matched: path[i].link,
            plus: path[i + 1].node,
        })?;
        parent = path[i + 1].node;
        tree = path[i + 1].link;
        i += 2;
    }
    opened.push(Branch {
        parent,
        tree,
        minus: path[i].node,
        ..*branch
    })?;
    Ok(())
}
