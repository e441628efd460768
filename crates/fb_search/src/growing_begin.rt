//! Trees that begin at unmatched nodes of a part.

ghost use Rattle.std.specs.Prelude.{◌≡◌, true, All, length};
ghost use Rattle.fb_graph.specs.Certificate.{AreDistinct};
ghost use Rattle.fb_graph.specs.Dual.{is_live};
ghost use Rattle.fb_graph.specs.Parity.{is_in};
ghost use Rattle.fb_half.specs.Parts.{problem_in};
ghost use Rattle.fb_half.specs.Values.{HasScope, part_of};
ghost use Rattle.fb_trees.specs.Forests.{bare_trees};
ghost use Rattle.fb_search.specs.InternalGrowingEnds.{WatchesEach};
ghost use Rattle.fb_search.specs.InternalGrowth.{HasBegunAt};

use crate::growing::Growing;
use fb_graph::Scope;
use fb_half::{Parts, Work};
use fb_obstacles::{Watch, watch_node};
use fb_regions::{NodeId, Regions};
use fb_trees::{Forest, set_paces};

impl<'a> Growing<'a> {
    /// The trees of the forest, each an unmatched node of the part alone: the roots, in this order, which grow from now on. Of
    /// all edges those at the roots are watched. The other unmatched nodes wait.
    pub(crate) fn begin(
        work: Work<'a>,
        roots: &[NodeId],
        forest: Forest,
        watch: Watch,
    ) -> Growing<'a>
        requires forest { forest ≡ bare_trees roots.now }
        requires distinct { AreDistinct roots.now }
        requires unmatched { All (λ n. is_in work.matching.unmatched n ≡ true) roots.now }
        requires room { watch.edge_count ≡ length (problem_in work).edges }
        ensures { HasBegunAt roots.now work.entry result }
    {
        work.keeps();
        let mut watch = watch;
        watch.clear();
        let mut parts = pieces_of(work);
        let scope = *parts.regions.scope();
        scope.limits();
        watch_nodes(&mut watch, &parts.regions, roots);
        watch.keeps();
        set_paces(&mut parts.regions, &forest, roots);
        Growing {
            parts,
            forest,
            watch,
        }
    }
}

/// The pieces of the part, out of their box.
fn pieces_of<'a>(work: Work<'a>) -> Parts<'a>
    ensures value { part_of result ≡ work.entry }
    ensures scope { HasScope result }
{
    Box::into_inner(work.into_parts())
}

/// Watches the edges at these nodes.
fn watch_nodes<S: Scope>(watch: &mut Watch, regions: &Regions<S>, nodes: &[NodeId])
    requires live { All (λ n. is_live regions.now.nodes n ≡ true) nodes.now }
    requires room { watch.old.edge_count ≡ length (S.problem regions.now.scope).edges }
    ensures { WatchesEach (S.problem regions.now.scope) regions.now.nodes nodes.now watch.old watch.new }
{
    for node in nodes {
        watch_node(watch, regions.scope(), regions, *node);
    }
}
