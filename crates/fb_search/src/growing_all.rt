//! Trees that grow together from unmatched nodes of a part until each of these is matched.

ghost use Rattle.std.specs.Prelude.{◌≡◌, ◌<◌, ◌+◌, true, All, IfOk, OnErr, length};
ghost use Rattle.fb_graph.specs.Certificate.{AreDistinct};
ghost use Rattle.fb_graph.specs.Parity.{is_in};
ghost use Rattle.fb_half.specs.Parts.{problem_in};
ghost use Rattle.fb_search.specs.InternalGrowthRuns.{AreMatched, HasGrownThrough};

use crate::growing::Growing;
use crate::scratch::Scratch;
use fb_graph::{NoMemory, Steps};
use fb_half::Work;
use fb_obstacles::Obstacle;
use fb_regions::NodeId;
use std::alloc::Global;
use std::marker::Brand;
use std::sync::ledger::{Blank, Ledger};

/// Trees grow together from these unmatched nodes of the part until each is matched. Where a tree meets another unmatched
/// node, the two are matched; the others stay as they are. Counts one step for each of the nodes, or none if memory runs out.
pub(crate) fn grow_from<'a, L: Ledger>(
    alloc: Global,
    work: Work<'a>,
    roots: &[NodeId],
    scratch: Scratch,
    steps: &mut Steps<L>,
) -> Result<(Work<'a>, Scratch), NoMemory>
    requires distinct { AreDistinct roots.now }
    requires unmatched { All (λ n. is_in work.matching.unmatched n ≡ true) roots.now }
    requires room { scratch.edge_count ≡ length (problem_in work).edges }
    ensures matched { IfOk result (λ r. AreMatched roots.now work.entry r.0) }
    ensures room { IfOk result (λ r. r.1.edge_count ≡ scratch.edge_count) }
    ensures step { IfOk result (λ _. steps.new ≡ steps.old + length roots.now) }
    ensures kept { OnErr result (steps.new ≡ steps.old) }
{
    let matched = scratch.matched().saturating_add(roots.len() as u64);
    let (watch, mut forest) = scratch.into_pieces();
    forest.restart(alloc, roots)?;
    let growing = Growing::begin(work, roots, forest, watch);
    let grown = grow_through::<Brand>(alloc, growing, Blank::new(1))?;
    let (work, forest, watch) = grown.finish(alloc)?;
    let scratch = Scratch::of(alloc, watch, forest, matched)?;
    for _root in 0..roots.len() {
        steps.tick();
    }
    Ok((work, scratch))
}

/// Removes what is in the trees' way, one obstacle after another, until no tree is left. The looks at edges are counted by
/// themselves.
fn grow_through<'a, L: Ledger>(
    alloc: Global,
    growing: Growing<'a>,
    looks: Blank,
) -> Result<Growing<'a>, NoMemory>
    requires name { looks.name ≡ L.name }
    requires parts { looks.parts ≡ L.parts }
    requires some { 0 < looks.parts }
    ensures { IfOk result (HasGrownThrough growing.entry) }
{
    let mut looks = Steps::<L>::new(looks);
    let mut growing = growing;
    while !growing.is_done() {
        growing.make_room()?;
        growing.keeps();
        match growing.next_event(&mut looks) {
            Obstacle::Absorb(edge) => growing.absorb(edge, &mut looks),
            Obstacle::LayerEmpty(node) => growing.uncover(node, &mut looks),
            Obstacle::Boundary(edge) => growing = growing.end_at_boundary(alloc, edge)?,
            Obstacle::Meet(edge) => growing = growing.meet(alloc, edge)?,
            Obstacle::PlusPair(edge) => growing = growing.join_or_match(alloc, edge)?,
            Obstacle::BlossomEmpty(node) => growing = growing.open(alloc, node)?,
            Obstacle::ZeroMinus(node) => growing = growing.round(alloc, node)?,
            Obstacle::Free(_) => unreachable!(),
        }
        growing.keeps();
    }
    Ok(growing)
}
