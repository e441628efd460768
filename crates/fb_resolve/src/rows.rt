//! The row of a solved root.

ghost use Rattle.std.specs.Prelude.{◌≡◌, ℕ, Bool, ◌≤◌, ◌^◌, ◌++◌, true, map, flat_map, All, IfOk, OnOk};
ghost use Rattle.std.specs.List.Sorted.{IsStrictlyIncreasing};
ghost use Rattle.fb_graph.specs.Answers.{IsRight};
ghost use Rattle.fb_graph.specs.Certificate.{total_value};
ghost use Rattle.fb_graph.specs.Dual.{all_cuts};
ghost use Rattle.fb_graph.specs.Parity.{is_odd_count};
ghost use Rattle.fb_graph.specs.Signs.{base_of};
ghost use Rattle.fb_links.specs.Table.{is_live, walk_at};
ghost use Rattle.fb_plan.specs.Plans.{root_of};
ghost use Rattle.fb_half.specs.Parts.{graph_in, shot_of};

use crate::exchange::odd_of_both;
use crate::opening::opened;
use fb_graph::{CutList, NoMemory, NumberList, Row, Scope, printed_cuts};
use fb_half::Half;
use fb_links::{LinkId, Links, NodeId};
use fb_regions::Regions;
use std::alloc::Global;

/// The row of the shot of a solved root: the edges that lie on an odd number of its links, once all blossoms are opened, or
/// weigh less than 0 for the shot, but not both; and the cuts of positive value, which together with all negative weights add
/// up to the edges' weight. Its time is that of the part's nodes, of their vertices, of the layers that are printed, of the
/// links' walks, and of the edges that weigh less than 0.
pub fn resolve(alloc: Global, half: &Half) -> Result<Row, NoMemory>
    requires { half.now.node ≡ root_of half.now.job.plan }
    ensures { IfOk result (IsRight half.now.job.graph (shot_of half.now)) }
{
    half.keeps();
    half.blossoms().keeps();
    half.job().graph().limits();
    let names = names_of(alloc, half.regions())?;
    let ids = opened(alloc, half.blossoms(), half.links(), &names, half.matches())?;
    let walked = edges_of(alloc, half.links(), &ids)?;
    let (edges, base) = with_negatives(alloc, half, walked)?;
    let cuts = half.regions().cuts(alloc)?;
    let base = i128::from(base);
    let total = total_of(&cuts);
    Ok(Row::Best {
        edges: NumberList::from_vec(edges),
        base,
        weight: base + i128::from(total),
        cuts: printed_cuts(cuts),
    })
}

/// The names of the nodes, in the order in which they were made.
fn names_of<S: Scope>(alloc: Global, regions: &Regions<S>) -> Result<Vec<NodeId>, NoMemory>
    ensures { IfOk result (λ names. names.items ≡ map (λ n. n.name) regions.now.nodes) }
{
    let mut names = Vec::with_capacity(alloc, regions.len())?;
    for place in 0..regions.len() {
        names.push(regions.name_at(place))?;
    }
    Ok(names)
}

/// The edges of the links' walks, one walk after another.
fn edges_of(alloc: Global, links: &Links, ids: &[LinkId]) -> Result<Vec<u32>, NoMemory>
    requires { All (λ id. is_live links.now id ≡ true) ids.now }
    ensures { IfOk result (λ edges. edges.items ≡ flat_map (λ id. map (λ s. s.edge) (walk_at links.now id)) ids.now) }
{
    let mut edges = Vec::new(alloc);
    for id in ids {
        push_walk(links, &mut edges, *id)?;
    }
    Ok(edges)
}

/// Adds the edges of the link's walk.
fn push_walk(links: &Links, edges: &mut Vec<u32>, id: LinkId) -> Result<(), NoMemory>
    requires { is_live links.now id ≡ true }
    ensures { OnOk result (edges.new.items ≡ edges.old.items ++ map (λ s. s.edge) (walk_at links.now id)) }
{
    for step in links.steps(id) {
        edges.push(step.edge)?;
    }
    Ok(())
}

/// The edges that are an odd number of times among the walked ones or weigh less than 0 for the part's shot, but not both,
/// rising. With them, what all edges below 0 weigh together. The graph's edges below 0 are merged, and only the walked ones
/// and those whose sign the shot turns are sorted.
fn with_negatives(alloc: Global, half: &Half, walked: Vec<u32>) -> Result<(Vec<u32>, i64), NoMemory>
    ensures rising { IfOk result (λ r. IsStrictlyIncreasing r.0.items) }
    ensures parity { IfOk result (λ r. (test : ℕ → Bool) → is_odd_count test r.0.items
        ≡ is_odd_count test (walked.items ++ (graph_in half.now).negatives)) }
    ensures base { IfOk result (λ r. r.1 ≡ base_of half.now.job.graph (shot_of half.now)) }
{
    half.keeps();
    let job = half.job();
    job.keeps();
    let slot = half.slot();
    let shot = &job.shots()[slot as usize];
    let mut negatives = Vec::new(alloc);
    shot.add_negatives(job.graph(), &mut negatives)?;
    let edges = odd_of_both(alloc, walked, &negatives)?;
    Ok((edges, shot.base(job.graph())))
}

/// The sum of the cuts' values.
fn total_of(cuts: &CutList) -> u64
    requires { total_value cuts.now ≤ 2 ^ 52 }
    ensures { result ≡ total_value cuts.now }
{
    let mut total = 0;
    for place in 0..cuts.len() {
        total += cuts.value(place);
    }
    total
}
