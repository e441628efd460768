//! The cycle of a blossom that is opened, taken apart.

ghost use Rattle.std.specs.Prelude.{◌≡◌, ◌≢◌, ◌<◌, ℕ, true, false, [], ◌∷◌, All, IfOk, OnOk, length};
ghost use Rattle.fb_graph.specs.Dual.{is_live};
ghost use Rattle.fb_regions.specs.declared.roles.Role.TheVariants.{Minus};
ghost use Rattle.fb_graph.specs.Parity.{is_in};
ghost use Rattle.fb_blossoms.specs.Nodes.{IsOuter, cycle_at, defects_at, is_on};
ghost use Rattle.fb_half.specs.Values.{part_of};
ghost use Rattle.fb_search.specs.InternalOpenings.{EndsAtChild, EntersWay, MayEnter, between_on, couples_on, even_on, links_left, place_on, rest_on, round_on, turned_on, way_on};

use fb_blossoms::Blossoms;
use fb_graph::{NoMemory, Scope};
use fb_half::{Match, Parts};
use fb_obstacles::{Watch, enter_minus, watch_node};
use fb_regions::{NodeId, Regions, Role, Roles};
use fb_trees::{CycleStep, LinkId};
use std::alloc::Global;

/// Watches the minus nodes among those of the steps.
pub(crate) fn enter_way<S: Scope, R: Roles>(
    watch: &mut Watch,
    regions: &Regions<S>,
    roles: &R,
    steps: &[CycleStep],
) -> Result<(), NoMemory>
    requires { All (λ s. R.role_of roles.now s.node ≡ Minus → is_live regions.now.nodes s.node ≡ true) steps.now }
    ensures { OnOk result (EntersWay regions.now.nodes (R.role_of roles.now) steps.now watch.old watch.new) }
{
    for step in steps {
        match roles.role(step.node) {
            Role::Minus => enter_minus(watch, regions, step.node)?,
            Role::Plus => continue,
            Role::Out => continue,
        }
    }
    Ok(())
}

/// The child of the blossom at which the link ends.
pub(crate) fn child_at(parts: &Parts, node: NodeId, link: LinkId) -> NodeId
    requires { (other : ℕ) × MayEnter (part_of parts.now) node other link }
    ensures { (other : ℕ) → MayEnter (part_of parts.now) node other link
        → EndsAtChild (part_of parts.now) node other link result }
{
    parts.blossoms.keeps();
    let (from, to) = parts.links.ends(link);
    let end = end_under(&parts.blossoms, node, from, to);
    parts.blossoms.child_holding(node, end)
}

/// The first of the two vertices if it is a defect in the outer blossom, otherwise the second.
fn end_under(blossoms: &Blossoms, node: NodeId, first: u32, second: u32) -> u32
    requires blossom { cycle_at blossoms.now node ≢ [] }
    requires outer { IsOuter blossoms.now node }
    ensures first { is_in (defects_at blossoms.now node) first ≡ true → result ≡ first }
    ensures second { is_in (defects_at blossoms.now node) first ≡ false → result ≡ second }
{
    blossoms.keeps();
    let Some(leaf) = blossoms.leaf_of(first) else {
        return second;
    };
    if blossoms.outer_of(leaf) == node {
        first
    } else {
        second
    }
}

/// The cycle of an opened blossom taken apart.
#[derive(Drop)]
pub(crate) struct Apart {
    /// The steps that take the blossom's place in the tree.
    pub(crate) way: Vec<CycleStep>,
    /// Matches of all other nodes.
    pub(crate) matches: Vec<Match>,
    /// The links that are neither between nodes of the way nor those of the matches.
    pub(crate) left: Vec<LinkId>,
}

/// Takes the cycle apart: the steps of the way from the first node to the second one by an even number of links, and
/// the nodes beside the way in pairs.
pub(crate) fn taken_apart(
    alloc: Global,
    cycle: &[CycleStep],
    first: NodeId,
    second: NodeId,
) -> Result<Apart, NoMemory>
    requires first { is_on cycle.now first ≡ true }
    requires second { is_on cycle.now second ≡ true }
    ensures way { IfOk result (λ apart.
        apart.way.items ≡ way_on (even_on (round_on cycle.now first) second) second) }
    ensures matches { IfOk result (λ apart.
        apart.matches.items ≡ couples_on (rest_on (even_on (round_on cycle.now first) second) second)) }
    ensures left { IfOk result (λ apart.
        apart.left.items ≡ links_left (even_on (round_on cycle.now first) second) second) }
{
    let mut way = round_between(alloc, cycle, first, second)?;
    let end = place_of(&way, second);
    let (_, rest) = way.split_at(end + 1);
    let matches = couples(alloc, rest)?;
    let left = links_left(alloc, way[end].link, rest)?;
    way.truncate(end + 1);
    Ok(Apart { way, matches, left })
}

/// The place of the node's step.
fn place_of(cycle: &[CycleStep], node: NodeId) -> usize
    requires { is_on cycle.now node ≡ true }
    ensures place { result ≡ place_on cycle.now node }
    ensures within { result < length cycle.now }
{
    for (place, step) in cycle.iter().enumerate() {
        if step.node == node {
            return place;
        }
    }
    unreachable!()
}

/// The steps of the cycle from the first node's on, by the way on which the second one is an even number of links on.
fn round_between(
    alloc: Global,
    cycle: &[CycleStep],
    first: NodeId,
    second: NodeId,
) -> Result<Vec<CycleStep>, NoMemory>
    requires first { is_on cycle.now first ≡ true }
    requires second { is_on cycle.now second ≡ true }
    ensures round { IfOk result (λ round. round.items ≡ even_on (round_on cycle.now first) second) }
    ensures second { IfOk result (λ round. is_on round.items second ≡ true) }
{
    let round = round_from(alloc, cycle, first)?;
    even_round(alloc, round, second)
}

/// The steps of the cycle from the node's on.
fn round_from(alloc: Global, cycle: &[CycleStep], node: NodeId) -> Result<Vec<CycleStep>, NoMemory>
    requires { is_on cycle.now node ≡ true }
    ensures { IfOk result (λ round. round.items ≡ round_on cycle.now node) }
{
    let (before, after) = cycle.split_at(place_of(cycle, node));
    let mut round = Vec::new(alloc);
    round.extend_from_slice(after)?;
    round.extend_from_slice(before)?;
    Ok(round)
}

/// The round by the way on which the node is an even number of links from the first one.
fn even_round(
    alloc: Global,
    round: Vec<CycleStep>,
    node: NodeId,
) -> Result<Vec<CycleStep>, NoMemory>
    requires { is_on round.items node ≡ true }
    ensures { IfOk result (λ even. even.items ≡ even_on round.items node) }
{
    if place_of(&round, node) % 2 == 0 {
        return Ok(round);
    }
    turned_round(alloc, &round)
}

/// The same round from the same node in the other direction.
fn turned_round(alloc: Global, round: &[CycleStep]) -> Result<Vec<CycleStep>, NoMemory>
    requires { 0 < length round.now }
    ensures { IfOk result (λ turned. turned.items ≡ turned_on round.now) }
{
    let mut turned = Vec::new(alloc);
    let mut node = round[0].node;
    let mut i = round.len();
    while i > 0 {
        i -= 1;
        turned.push(CycleStep {
            node,
            link: round[i].link,
        })?;
        node = round[i].node;
    }
    Ok(turned)
}

/// Matches of the nodes of the steps two by two, each two by the link between them.
fn couples(alloc: Global, steps: &[CycleStep]) -> Result<Vec<Match>, NoMemory>
    ensures { IfOk result (λ matches. matches.items ≡ couples_on steps.now) }
{
    let mut matches = Vec::new(alloc);
    let mut i = 0;
    while i + 1 < steps.len() {
        matches.push(Match {
            link: steps[i].link,
            first: steps[i].node,
            second: Some(steps[i + 1].node),
        })?;
        i += 2;
    }
    Ok(matches)
}

/// The first link, and those that lead on from each two of the steps.
fn links_left(alloc: Global, first: LinkId, steps: &[CycleStep]) -> Result<Vec<LinkId>, NoMemory>
    ensures { IfOk result (λ links. links.items ≡ first ∷ between_on steps.now) }
{
    let mut links = Vec::new(alloc);
    links.push(first)?;
    let mut i = 0;
    while i + 1 < steps.len() {
        links.push(steps[i + 1].link)?;
        i += 2;
    }
    Ok(links)
}
