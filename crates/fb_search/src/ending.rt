ghost use Rattle.std.specs.Prelude.{◌≡◌, ◌++◌, ◌∷◌, [], true, All, map, IfOk, OnOk};
ghost use Rattle.fb_graph.specs.Certificate.{AreDistinct};
ghost use Rattle.fb_links.specs.Table.{is_live};
ghost use Rattle.fb_half.specs.Matchings.{listed_names, matched_names};
ghost use Rattle.fb_trees.specs.Branches.{entry_of};
ghost use Rattle.fb_search.specs.InternalEndings.{Forgets, beside_match, swapped_from, swapped_match};
ghost use Rattle.fb_search.specs.InternalOpenings.{between_on};

use fb_graph::NoMemory;
use fb_half::{Match, Matching};
use fb_links::{LinkId, Links};
use fb_regions::NodeId;
use fb_trees::{Branch, CycleStep};
use std::alloc::Global;

/// How the nodes of a tree are matched when it ends at one of its plus nodes.
#[derive(Drop)]
pub(crate) struct TreeEnd {
    /// The matches of all its nodes but that one.
    pub(crate) matches: Vec<Match>,
    /// Its links that match no node.
    pub(crate) gone: Vec<LinkId>,
}

/// Along a path down from the root each parent is matched with the minus node under it, and no longer this one with its
/// plus node.
pub(crate) fn swapped_along(
    alloc: Global,
    root: NodeId,
    path: &[CycleStep],
) -> Result<TreeEnd, NoMemory>
    ensures matches { IfOk result (λ end. end.matches.items ≡ swapped_from root path.now) }
    ensures gone { IfOk result (λ end. end.gone.items ≡ between_on path.now) }
{
    let mut end = TreeEnd {
        matches: Vec::new(alloc),
        gone: Vec::new(alloc),
    };
    let mut parent = root;
    let mut i = 0;
    while i + 1 < path.len() {
        push_swap(&mut end, parent, path[i], path[i + 1])?;
        parent = path[i + 1].node;
        i += 2;
    }
    Ok(end)
}

/// The parent is matched with the minus node, and this one no longer with the plus node.
fn push_swap(
    end: &mut TreeEnd,
    parent: NodeId,
    minus: CycleStep,
    plus: CycleStep,
) -> Result<(), NoMemory>
    ensures matches { OnOk result (end.new.matches.items ≡ end.old.matches.items ++ swapped_match parent minus ∷ []) }
    ensures gone { OnOk result (end.new.gone.items ≡ end.old.gone.items ++ plus.link ∷ []) }
{
    end.matches.push(Match {
        link: minus.link,
        first: parent,
        second: Some(minus.node),
    })?;
    end.gone.push(plus.link)?;
    Ok(())
}

/// Beside the path each minus node stays matched with its plus node.
pub(crate) fn push_beside(end: &mut TreeEnd, others: &[Branch]) -> Result<(), NoMemory>
    ensures matches { OnOk result (end.new.matches.items
        ≡ end.old.matches.items ++ map (λ b. beside_match (entry_of b)) others.now) }
    ensures gone { OnOk result (end.new.gone.items ≡ end.old.gone.items ++ map (λ b. b.tree) others.now) }
{
    for branch in others {
        end.matches.push(Match {
            link: branch.matched,
            first: branch.minus,
            second: Some(branch.plus),
        })?;
        end.gone.push(branch.tree)?;
    }
    Ok(())
}

/// Adds matches of nodes that are not listed yet.
pub(crate) fn add_matches(
    alloc: Global,
    matching: &mut Matching,
    matches: &[Match],
) -> Result<(), NoMemory>
    requires { AreDistinct (listed_names matching.old ++ matched_names matches.now) }
    ensures { OnOk result (matching.new ≡ record { matches = matching.old.matches ++ matches.now; unmatched = matching.old.unmatched }) }
{
    for m in matches {
        matching.add_match(alloc, *m)?;
    }
    Ok(())
}

/// Removes the links, each of which is listed once.
pub(crate) fn forget_all(links: &mut Links, gone: &[LinkId])
    requires live { All (λ id. is_live links.old id ≡ true) gone.now }
    requires distinct { AreDistinct gone.now }
    ensures { Forgets gone.now links.old links.new }
{
    for id in gone {
        links.forget(*id);
    }
}
