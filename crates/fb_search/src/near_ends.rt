//! The ways in which a single defect is matched at once.

ghost use Rattle.std.specs.Prelude.{◌≡◌, true, false, IfOk, IfSome, OnOk};
ghost use Rattle.fb_graph.specs.Parity.{is_in};
ghost use Rattle.fb_graph.specs.Steps.{MayStep, stepped_nodes};
ghost use Rattle.fb_half.specs.Parts.{IsPart, problem_in};
ghost use Rattle.fb_half.specs.Values.{HasScope, part_of};
ghost use Rattle.fb_trees.specs.Rooted.{bare};
ghost use Rattle.fb_search.specs.InternalNear.{IsNear, IsNearBoundary, IsNearPair, alone};
ghost use Rattle.fb_search.specs.InternalPieces.{AreSearched};
ghost use Rattle.fb_trees.specs.TreesOver.{IsTreeOver};
ghost use Rattle.fb_search.specs.Progress.{IsSearched};

use crate::ending::add_matches;
use crate::near::{Near, NearPair, near_of};
use crate::scratch::Scratch;
use fb_graph::{NoMemory, Scope};
use fb_half::both::both;
use fb_half::{Match, Parts, Work, far_owner};
use fb_regions::{NodeId, Regions};
use fb_trees::{link_between, link_out};
use std::alloc::Global;

/// The outer node grows by this length.
fn grow_node<S: Scope>(regions: &mut Regions<S>, node: NodeId, length: u64)
    requires tree { IsTreeOver (S.problem regions.old.scope) (bare node) regions.old.nodes }
    requires may { MayStep (S.problem regions.old.scope) (alone node) regions.old.nodes length }
    ensures { regions.new ≡ record regions.old { nodes = stepped_nodes (alone node) length regions.old.nodes } }
{
    regions.grow(node, length);
}

/// Grows the root until the edge to the boundary is tight, and matches it over the edge.
fn reach_boundary(
    alloc: Global,
    parts: &mut Parts<'_>,
    root: NodeId,
    edge: u32,
    length: u64,
) -> Result<(), NoMemory>
    requires scope { HasScope parts.old }
    requires part { IsPart (part_of parts.old) }
    requires unmatched { is_in parts.old.matching.unmatched root ≡ true }
    requires near { IsNearBoundary (problem_in (part_of parts.old)) parts.old.regions.nodes root edge length }
    ensures { OnOk result (AreSearched root (part_of parts.old) parts.new) }
{
    parts.regions.scope().limits();
    grow_node(&mut parts.regions, root, length);
    let link = link_out(alloc, &parts.regions, &mut parts.links, edge)?;
    let owner = far_owner(&parts.links, link, parts.regions.scope());
    parts.seams.list(alloc, owner, root)?;
    parts.matching.take_unmatched(root);
    let out = Match {
        link,
        first: root,
        second: None,
    };
    add_matches(alloc, &mut parts.matching, &[out])?;
    Ok(())
}

/// Grows the other defect and the root until the edge between them is tight, and matches them over the edge.
fn join_pair(
    alloc: Global,
    parts: &mut Parts<'_>,
    root: NodeId,
    pair: NearPair,
) -> Result<(), NoMemory>
    requires scope { HasScope parts.old }
    requires part { IsPart (part_of parts.old) }
    requires unmatched { is_in parts.old.matching.unmatched root ≡ true }
    requires near { IsNearPair (problem_in (part_of parts.old)) parts.old.regions.nodes parts.old.matching.unmatched root pair }
    ensures { OnOk result (AreSearched root (part_of parts.old) parts.new) }
{
    parts.regions.scope().limits();
    grow_node(&mut parts.regions, pair.other, pair.other_length);
    grow_node(&mut parts.regions, root, pair.length);
    let link = link_between(alloc, &parts.regions, &mut parts.links, pair.edge)?;
    parts.matching.take_unmatched(pair.other);
    parts.matching.take_unmatched(root);
    let out = Match {
        link,
        first: root,
        second: Some(pair.other),
    };
    add_matches(alloc, &mut parts.matching, &[out])?;
    Ok(())
}

/// Matches the root in this way.
fn match_by(alloc: Global, parts: &mut Parts<'_>, root: NodeId, near: Near) -> Result<(), NoMemory>
    requires scope { HasScope parts.old }
    requires part { IsPart (part_of parts.old) }
    requires unmatched { is_in parts.old.matching.unmatched root ≡ true }
    requires near { IsNear (problem_in (part_of parts.old)) parts.old.regions.nodes parts.old.matching.unmatched root near }
    ensures { OnOk result (AreSearched root (part_of parts.old) parts.new) }
{
    match near {
        Near::Boundary { edge, length } => reach_boundary(alloc, parts, root, edge, length),
        Near::Pair(pair) => join_pair(alloc, parts, root, pair),
    }
}

/// Matches the root at once, in place, if that is possible, and returns whether it is.
pub(crate) fn match_near(
    alloc: Global,
    parts: &mut Parts<'_>,
    root: NodeId,
) -> Result<bool, NoMemory>
    requires scope { HasScope parts.old }
    requires part { IsPart (part_of parts.old) }
    requires unmatched { is_in parts.old.matching.unmatched root ≡ true }
    ensures scope { OnOk result (HasScope parts.new) }
    ensures part { OnOk result (IsPart (part_of parts.new)) }
    ensures matched { IfOk result (λ is. is ≡ true → IsSearched root (part_of parts.old) (part_of parts.new)) }
    ensures unchanged { IfOk result (λ is. is ≡ false → part_of parts.new ≡ part_of parts.old) }
{
    let Some(near) = near_in(parts, root) else {
        return Ok(false);
    };
    match_by(alloc, parts, root, near)?;
    Ok(true)
}

/// How the root can be matched at once, if it can.
fn near_in(parts: &Parts<'_>, root: NodeId) -> Option<Near>
    requires scope { HasScope parts.now }
    requires part { IsPart (part_of parts.now) }
    requires unmatched { is_in parts.now.matching.unmatched root ≡ true }
    ensures { IfSome result (IsNear (problem_in (part_of parts.now)) parts.now.regions.nodes parts.now.matching.unmatched root) }
{
    near_of(&parts.regions, &parts.matching, root)
}

/// Matches the root at once if that is possible, and returns whether it is.
pub(crate) fn match_one_near<'a>(
    alloc: Global,
    work: Work<'a>,
    root: NodeId,
    scratch: Scratch,
) -> Result<(bool, Work<'a>, Scratch), NoMemory>
    requires { is_in work.matching.unmatched root ≡ true }
    ensures matched { IfOk result (λ r. r.0 ≡ true → IsSearched root work.entry r.1) }
    ensures unchanged { IfOk result (λ r. r.0 ≡ false → r.1 ≡ work.entry) }
    ensures scratch { IfOk result (λ r. r.2 ≡ scratch) }
{
    work.keeps();
    let mut parts = work.into_parts();
    let near = match_near(alloc, &mut *parts, root);
    let (is_matched, (parts, scratch)) = both(near, (parts, scratch))?;
    Ok((is_matched, Work::from_parts(parts), scratch))
}
