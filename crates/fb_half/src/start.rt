ghost use Rattle.std.specs.Prelude.{◌≡◌, ◌≢◌, ◌<◌, ℕ, true, false, [], ◌∷◌, ◌++◌, length, filter, get_or, All, IfOk, OnOk, Some, None};
ghost use Rattle.std.specs.List.Sorted.{IsStrictlyIncreasing};
ghost use Rattle.fb_graph.specs.Certificate.{AreDistinct};
ghost use Rattle.fb_graph.specs.Dual.{cover_of, is_live, leaf};
ghost use Rattle.fb_graph.specs.Limits.{no_shot};
ghost use Rattle.fb_graph.specs.Parity.{is_in};
ghost use Rattle.fb_graph.specs.Signs.{shifted_defects};
ghost use Rattle.fb_plan.specs.Plans.{problem_at};
ghost use Rattle.fb_plan.specs.Scopes.{scope_problem};
ghost use Rattle.fb_blossoms.specs.Nodes as blossoms;
ghost use Rattle.fb_half.specs.InternalBeginnings.{IsStarted, LiesWithin, empty_part};
ghost use Rattle.fb_half.specs.Matchings.{listed_names};
ghost use Rattle.fb_half.specs.Values.{IsScopeOf, part_of};
ghost use Rattle.fb_regions.specs.Paces.{IsAtRest};

use crate::matching::Matching;
use crate::parts::Parts;
use crate::reach::within;
use crate::shifting::{NodeDefects, odd_among};
use fb_blossoms::Blossoms;
use fb_graph::{NoMemory, NumberList, Scope};
use fb_links::NodeId;
use fb_plan::{Job, NodeScope, Reach};
use fb_regions::Regions;
use std::alloc::Global;

/// The listed vertices that are real in a scope, in their order. Passes over those within a reach alone, which has all its
/// real vertices.
fn own_vertices(
    alloc: Global,
    scope: &NodeScope<'_>,
    reach: Reach,
    vertices: &[u32],
) -> Result<Vec<u32>, NoMemory>
    requires reach { LiesWithin (scope_problem scope.now) reach }
    requires rising { IsStrictlyIncreasing vertices.now }
    requires below { All (λ v. v < scope.now.graph.now.vertices) vertices.now }
    ensures { IfOk result (λ own. own.items ≡ filter (scope_problem scope.now).is_real vertices.now) }
{
    if vertices.is_empty() {
        return Ok(Vec::new(alloc));
    }
    let reached = within(vertices, reach);
    let mut own = NumberList::from_vec(Vec::new(alloc));
    for v in reached {
        own.push_if(scope.is_real(*v), *v)?;
    }
    Ok(own.into_vec())
}

/// The defects of a scope's shot at its real vertices, and the shifted ones there. Passes over the vertices of the shot's
/// lists and the graph's within a reach alone, which has all real vertices of the scope.
fn own_defects(alloc: Global, scope: &NodeScope<'_>, reach: Reach) -> Result<NodeDefects, NoMemory>
    requires { LiesWithin (scope_problem scope.now) reach }
    ensures given { IfOk result (λ own. own.given.items ≡ filter (scope_problem scope.now).is_real scope.now.shot.now.defects) }
    ensures shifted { IfOk result (λ own. own.shifted.items
        ≡ filter (scope_problem scope.now).is_real (shifted_defects scope.now.graph.now scope.now.shot.now)) }
{
    let (graph, shot) = (scope.graph, scope.shot);
    graph.limits();
    let given = own_vertices(alloc, scope, reach, shot.as_slice())?;
    let by_graph = own_vertices(alloc, scope, reach, graph.turned())?;
    let by_shot = own_vertices(alloc, scope, reach, shot.turned())?;
    let shifted = odd_among(alloc, &given, &by_graph, &by_shot)?;
    Ok(NodeDefects { given, shifted })
}

/// The defects of a shot of the job at vertices of a unit, and the shifted ones there. Passes over the vertices of the shot's
/// lists and the graph's within the unit's reach alone.
pub(crate) fn defects_at(
    alloc: Global,
    job: &Job<'_>,
    slot: u32,
    node: u32,
) -> Result<NodeDefects, NoMemory>
    requires slot { slot < length job.now.shots }
    requires unit { node < job.now.plan.units }
    ensures given { IfOk result (λ own. own.given.items ≡ filter (problem_at job.now.graph job.now.plan node no_shot).is_real (get_or job.now.shots slot no_shot).defects) }
    ensures shifted { IfOk result (λ own. own.shifted.items ≡ filter (problem_at job.now.graph job.now.plan node no_shot).is_real (shifted_defects job.now.graph (get_or job.now.shots slot no_shot))) }
{
    let scope = job.scope(slot, node);
    let reach = job.plan().reach(node);
    let own = own_defects(alloc, &scope, reach)?;
    Ok(own)
}

/// Makes the vertex a node of radius 0, without a match.
pub(crate) fn add_leaf(
    alloc: Global,
    regions: &mut Regions<NodeScope<'_>>,
    store: &mut Blossoms,
    matching: &mut Matching,
    v: u32,
) -> Result<NodeId, NoMemory>
    requires below { v < regions.old.scope.graph.now.vertices }
    requires real { (scope_problem regions.old.scope).is_real v ≡ true }
    requires uncovered { cover_of regions.old.nodes v ≡ None }
    requires leafless { (x : ℕ) → blossoms.node_at store.old x ≢ Some (blossoms.leaf v) }
    requires live { (name : ℕ) → blossoms.node_at store.old name ≡ None → is_live regions.old.nodes name ≡ false }
    requires listed { (name : ℕ) → blossoms.node_at store.old name ≡ None → is_in (listed_names matching.old) name ≡ false }
    ensures store { IfOk result (λ name. blossoms.Adds store.old store.new name (blossoms.leaf v)) }
    ensures nodes { IfOk result (λ name. regions.new.nodes ≡ regions.old.nodes ++ leaf name v ∷ []) }
    ensures matching { IfOk result (λ name. matching.new ≡ record { matches = matching.old.matches; unmatched = matching.old.unmatched ++ name ∷ [] }) }
    ensures scope { IfOk result (λ name. regions.new.scope ≡ regions.old.scope) }
    ensures rest { IfOk result (λ name. IsAtRest regions.old → IsAtRest regions.new) }
{
    let name = store.leaf(alloc, v)?;
    regions.open_leaf(alloc, name, v)?;
    matching.add_unmatched(alloc, name)?;
    Ok(name)
}

/// Makes each of these defects a node of a part without nodes, none of them matched.
pub(crate) fn start(alloc: Global, parts: &mut Parts<'_>, own: &[u32]) -> Result<(), NoMemory>
    requires scope { IsScopeOf parts.old.regions.scope (part_of parts.old) }
    requires empty { part_of parts.old ≡ empty_part parts.old.job.0.now parts.old.slot parts.old.node }
    requires distinct { AreDistinct own.now }
    requires real { All (λ v. (problem_at parts.old.job.0.now.graph parts.old.job.0.now.plan parts.old.node no_shot).is_real v ≡ true) own.now }
    ensures started { OnOk result (IsStarted own.now parts.new.regions.nodes parts.new.blossoms parts.new.matching) }
    ensures scope { OnOk result (IsScopeOf parts.new.regions.scope (part_of parts.new)) }
    ensures rest { OnOk result (IsAtRest parts.old.regions → IsAtRest parts.new.regions) }
    ensures links { OnOk result (parts.new.links ≡ []) }
    ensures job { OnOk result (parts.new.job.0.now ≡ parts.old.job.0.now) }
    ensures slot { OnOk result (parts.new.slot ≡ parts.old.slot) }
    ensures node { OnOk result (parts.new.node ≡ parts.old.node) }
{
    let Parts {
        regions,
        blossoms,
        matching,
        ..
    } = parts;
    regions.scope().limits();
    for v in own {
        add_leaf(alloc, regions, blossoms, matching, *v)?;
    }
    Ok(())
}
