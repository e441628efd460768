//! The path inside a blossom, leg by leg.

ghost use Rattle.std.specs.Prelude.{◌≡◌, ◌≢◌, true, [], ◌∷◌, ◌++◌, IfOk, OnOk};
ghost use Rattle.fb_links.specs.Lists.{is_in};
ghost use Rattle.fb_blossoms.specs.Nodes.{cycle_at, defects_at, is_on};
ghost use Rattle.fb_blossoms.specs.Links.{AllLinked, IsLinkBetween, LeadsOver};
ghost use Rattle.fb_blossoms.specs.Paths.{IsEvenPath};
ghost use Rattle.fb_blossoms.specs.InternalLegs.{AreEndWays, GoesOn, IsLeg, IsRoundOf, Replaces};
ghost use Rattle.fb_blossoms.specs.InternalWays.{IsWay};

use crate::cycles::{Crossing, Round, crossing_before, first_of, round_from};
use crate::ways::Way;
use crate::{Blossoms, LinkId, Links, NoMemory, NodeId};
use std::alloc::Global;

/// What a path is traced through.
#[derive(Drop)]
pub struct Nest<'a> {
    pub alloc: Global,
    pub blossoms: &'a Blossoms,
    pub links: &'a Links,
}

/// The ways down to the defects where a path inside a node begins and ends, or where a link does.
#[derive(Drop)]
pub struct Ends {
    pub from: Way,
    pub to: Way,
}

/// What is left to do of a path.
#[derive(Drop)]
pub enum Leg {
    /// To go on inside the node.
    Inside(NodeId, Ends),
    /// To go over the link.
    Over(LinkId),
}

/// The way down from the node to a defect that it holds.
fn way_from(nest: &Nest, node: NodeId, defect: u32) -> Result<Way, NoMemory>
    requires { is_in (defects_at nest.now.blossoms.now node) defect ≡ true }
    ensures way { IfOk result (λ way. IsWay nest.now.blossoms.now node way) }
    ensures defect { IfOk result (λ way. way.defect ≡ defect) }
{
    let through = nest.blossoms.way_to(nest.alloc, node, defect)?;
    Ok(Way { defect, through })
}

/// The ends of a link between two children of the node: where it leaves the one, and where it enters the other.
fn ends_of(nest: &Nest, node: NodeId, over: Crossing) -> (u32, u32)
    requires first { is_on (cycle_at nest.now.blossoms.now node) over.from ≡ true }
    requires second { is_on (cycle_at nest.now.blossoms.now node) over.to ≡ true }
    requires apart { over.from ≢ over.to }
    requires link { IsLinkBetween nest.now.links.now nest.now.blossoms.now over.link over.from over.to }
    ensures { LeadsOver nest.now.links.now nest.now.blossoms.now over.link over.from result.0 over.to result.1 }
{
    nest.blossoms.keeps();
    let (start, end) = nest.links.ends(over.link);
    if nest.blossoms.child_holding(node, start) == over.from {
        (start, end)
    } else {
        (end, start)
    }
}

/// The same with the ways down to them.
fn ways_over(nest: &Nest, node: NodeId, over: Crossing) -> Result<Ends, NoMemory>
    requires first { is_on (cycle_at nest.now.blossoms.now node) over.from ≡ true }
    requires second { is_on (cycle_at nest.now.blossoms.now node) over.to ≡ true }
    requires apart { over.from ≢ over.to }
    requires link { IsLinkBetween nest.now.links.now nest.now.blossoms.now over.link over.from over.to }
    ensures { IfOk result (λ ends. AreEndWays nest.now.links.now nest.now.blossoms.now over.link over.from over.to ends) }
{
    let (exit, entry) = ends_of(nest, node, over);
    let from = way_from(nest, over.from, exit)?;
    let to = way_from(nest, over.to, entry)?;
    Ok(Ends { from, to })
}

fn push_leg(legs: &mut Vec<Leg>, leg: Leg) -> Result<(), NoMemory>
    ensures { OnOk result (legs.new.items ≡ legs.old.items ++ leg ∷ []) }
{
    legs.push(leg)?;
    Ok(())
}

/// Puts the legs of a way round the node's cycle on those that are left, the last leg first.
fn push_round(
    nest: &Nest,
    todo: &mut Vec<Leg>,
    node: NodeId,
    round: Round,
    ends: Ends,
) -> Result<(), NoMemory>
    requires round { IsRoundOf nest.now.blossoms.now node round ends }
    requires linked { AllLinked nest.now.links.now nest.now.blossoms.now }
    ensures { OnOk result (Replaces nest.now.links.now nest.now.blossoms.now todo.old.items (Leg.Inside node ends) [] todo.new.items) }
{
    nest.blossoms.keeps();
    let cycle = nest.blossoms.cycle(node);
    let Ends { from, to } = ends;
    let mut at = to;
    for k in 0..round.steps {
        let over = crossing_before(cycle, round, k);
        let link_ends = ways_over(nest, node, over)?;
        let Ends {
            from: exit,
            to: entry,
        } = link_ends;
        push_leg(
            todo,
            Leg::Inside(
                over.to,
                Ends {
                    from: entry,
                    to: at,
                },
            ),
        )?;
        push_leg(todo, Leg::Over(over.link))?;
        at = exit;
    }
    push_leg(
        todo,
        Leg::Inside(first_of(cycle, round), Ends { from, to: at }),
    )
}

/// Does a leg inside a node: puts the legs that it is made of on those that are left.
fn go_inside(nest: &Nest, todo: &mut Vec<Leg>, node: NodeId, ends: Ends) -> Result<(), NoMemory>
    requires leg { IsLeg nest.now.blossoms.now (Leg.Inside node ends) }
    requires linked { AllLinked nest.now.links.now nest.now.blossoms.now }
    ensures { OnOk result (Replaces nest.now.links.now nest.now.blossoms.now todo.old.items (Leg.Inside node ends) [] todo.new.items) }
{
    nest.blossoms.keeps();
    let Ends { mut from, mut to } = ends;
    if from.defect == to.defect {
        return Ok(());
    }
    let (Some(first), Some(last)) = (from.through.pop(), to.through.pop()) else {
        unreachable!()
    };
    if first == last {
        return push_leg(todo, Leg::Inside(first, Ends { from, to }));
    }
    let count = nest.blossoms.cycle(node).len();
    let begin = nest.blossoms.place(first);
    let end = nest.blossoms.place(last);
    let round = round_from(count, begin, end);
    push_round(nest, todo, node, round, Ends { from, to })
}

/// Does a leg that was taken off those that are left.
fn go(nest: &Nest, todo: &mut Vec<Leg>, path: &mut Vec<LinkId>, leg: Leg) -> Result<(), NoMemory>
    requires leg { IsLeg nest.now.blossoms.now leg }
    requires linked { AllLinked nest.now.links.now nest.now.blossoms.now }
    ensures { OnOk result (GoesOn nest.now.links.now nest.now.blossoms.now todo.old.items leg path.old.items todo.new.items path.new.items) }
{
    match leg {
        Leg::Over(link) => push_link(path, link),
        Leg::Inside(node, ends) => go_inside(nest, todo, node, ends),
    }
}

fn push_link(path: &mut Vec<LinkId>, link: LinkId) -> Result<(), NoMemory>
    ensures { OnOk result (path.new.items ≡ path.old.items ++ link ∷ []) }
{
    path.push(link)?;
    Ok(())
}

/// The even path between two defects of a node.
pub fn even_path(nest: &Nest, node: NodeId, a: u32, b: u32) -> Result<Vec<LinkId>, NoMemory>
    requires first { is_in (defects_at nest.now.blossoms.now node) a ≡ true }
    requires second { is_in (defects_at nest.now.blossoms.now node) b ≡ true }
    requires linked { AllLinked nest.now.links.now nest.now.blossoms.now }
    ensures { IfOk result (λ path. IsEvenPath nest.now.links.now nest.now.blossoms.now node a b path.items) }
{
    let mut path = Vec::new(nest.alloc);
    let mut todo = Vec::new(nest.alloc);
    let from = way_from(nest, node, a)?;
    let to = way_from(nest, node, b)?;
    push_leg(&mut todo, Leg::Inside(node, Ends { from, to }))?;
    while let Some(leg) = todo.pop() {
        go(nest, &mut todo, &mut path, leg)?;
    }
    Ok(path)
}
