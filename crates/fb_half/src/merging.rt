//! How the solved parts of two children become their parent's part.

ghost use Rattle.std.specs.Prelude.{◌≡◌, ◌≢◌, ◌<◌, ◌++◌, ℕ, List, Option, true, false, length, map, filter, get_or, drop, All, IfOk, IfSome, OnOk, Some, None, option_to_list, []};
ghost use Rattle.std.specs.List.Sorted.{IsStrictlyIncreasing};
ghost use Rattle.fb_graph.specs.Certificate.{AreDistinct};
ghost use Rattle.fb_graph.specs.Dual.{cover_of, is_live as is_node};
ghost use Rattle.fb_graph.specs.Laws.{IsPart};
ghost use Rattle.fb_graph.specs.Parity.{is_in};
ghost use Rattle.fb_graph.specs.RenamedNodes.{renamed_nodes};
ghost use Rattle.fb_regions.specs.Merged.{AreNewNames};
ghost use Rattle.fb_regions.specs.Paces.{IsAtRest};
ghost use Rattle.fb_plan.specs.Plans.{node_count};
ghost use Rattle.fb_plan.specs.Scopes.{scope_problem};
ghost use Rattle.fb_links.specs.Merged.{AreMerged};
ghost use Rattle.fb_links.specs.Names.{name_by};
ghost use Rattle.fb_links.specs.Table.{is_live};
ghost use Rattle.fb_blossoms.specs.Merged.{AreLeavesApart};
ghost use Rattle.fb_blossoms.specs.Merged as merged;
ghost use Rattle.fb_blossoms.specs.Nodes as blossoms;
ghost use Rattle.fb_half.specs.InternalMerging.{AreSiblings, IsExtended, IsJoined};
ghost use Rattle.fb_half.specs.InternalSeams.{AddsSingles, AreBesideListed, IsFreed, IsOpened, meets_seam, met_nodes};
ghost use Rattle.fb_half.specs.InternalStandings.{has_name, no_match};
ghost use Rattle.fb_half.specs.Matchings.{listed_names, match_links, matched_names};
ghost use Rattle.fb_half.specs.InternalUnions.{IsRisingUnion};
ghost use Rattle.fb_half.specs.Merged.{IsPlanned, is_owned_by, leads_to_seam, renamed_match, seam_defects, shot_seam};
ghost use Rattle.fb_half.specs.Parts.{problem_in};
ghost use Rattle.fb_half.specs.Seams.{AreListed, names_under};
ghost use Rattle.fb_half.specs.Translations.{link_by};
ghost use Rattle.fb_half.specs.Values.{IsScopeOf, part_of};

use crate::matches::{Match, Standing};
use crate::matching::Matching;
use crate::parts::Parts;
use crate::reach::within;
use crate::seams::{Seams, far_owner};
use crate::shifting::{NodeDefects, odd_among};
use crate::spare::{EmptyTables, Spare};
use crate::start::add_leaf;
use crate::unions::add_rising;
use fb_blossoms::Blossoms;
use fb_graph::{NoMemory, NumberList};
use fb_links::names::{Names, names_of};
use fb_links::{LinkId, Links, NodeId};
use fb_plan::{Job, NodeScope, Plan};
use fb_regions::Regions;
use std::alloc::Global;

/// The links and the blossoms of two parts as those of one, the old and new numbers of what was the right part's, and the
/// right part's tables, emptied.
#[derive(Drop)]
struct Tables {
    links: Links,
    blossoms: Blossoms,
    link_names: Vec<(LinkId, LinkId)>,
    names: Vec<(NodeId, NodeId)>,
    emptied: EmptyTables,
}

/// The right part's links and blossoms beside the left one's.
fn merged_tables(
    alloc: Global,
    left_links: Links,
    right_links: Links,
    left_blossoms: Blossoms,
    right_blossoms: Blossoms,
) -> Result<Tables, NoMemory>
    requires { AreLeavesApart left_blossoms right_blossoms }
    ensures links { IfOk result (λ t. AreMerged left_links right_links t.link_names.items t.links) }
    ensures blossoms { IfOk result (λ t. merged.IsMerged left_blossoms right_blossoms t.blossoms t.link_names.items t.names.items) }
{
    let (links, link_names, no_links) = Links::merged_with_spare(alloc, left_links, right_links)?;
    let (blossoms, names, no_nodes) = Blossoms::merged_with_spare(
        alloc,
        left_blossoms,
        right_blossoms,
        &link_names,
    )?;
    Ok(Tables {
        links,
        blossoms,
        link_names,
        names,
        emptied: EmptyTables::on(alloc, no_links, no_nodes),
    })
}

/// The parts of two children as one, for a scope that has the real vertices of both: all nodes, links and matches of both. If
/// one of them has no node, the other one stays in its box as it is. Else the left part's numbers stay, and the emptied room
/// of the right part is added to the spares, if there is memory to list it.
pub(crate) fn joined<'a>(
    alloc: Global,
    scope: &NodeScope<'a>,
    left: Box<Parts<'a>, Global>,
    right: Box<Parts<'a>, Global>,
    spares: &mut Vec<Spare>,
) -> Result<Box<Parts<'a>, Global>, NoMemory>
    requires { AreSiblings scope.now left.value right.value }
    ensures { IfOk result (λ p. IsJoined scope.now left.entry.value right.entry.value p.value) }
{
    if right.regions.len() == 0 {
        return extended(alloc, scope, left, &right);
    }
    if left.regions.len() == 0 {
        return extended(alloc, scope, right, &left);
    }
    joined_beside(alloc, scope, left, right, spares)
}

/// The part in a larger scope, with the defects of a part without nodes.
fn extended<'a>(
    alloc: Global,
    scope: &NodeScope<'a>,
    parts: Box<Parts<'a>, Global>,
    empty: &Parts<'_>,
) -> Result<Box<Parts<'a>, Global>, NoMemory>
    requires part { IsPart (scope_problem parts.value.regions.scope) (scope_problem scope.now) }
    requires vertices { parts.value.regions.scope.graph.now.vertices ≡ scope.now.graph.now.vertices }
    requires defects { IsStrictlyIncreasing parts.value.defects.items }
    requires other_defects { IsStrictlyIncreasing empty.now.defects.items }
    ensures { IfOk result (λ p. IsExtended scope.now parts.entry.value empty.now p.value) }
{
    let mut parts = parts;
    extend(alloc, scope, &mut *parts, empty)?;
    Ok(parts)
}

/// The same in place.
fn extend<'a>(
    alloc: Global,
    scope: &NodeScope<'a>,
    parts: &mut Parts<'a>,
    empty: &Parts<'_>,
) -> Result<(), NoMemory>
    requires part { IsPart (scope_problem parts.old.regions.scope) (scope_problem scope.now) }
    requires vertices { parts.old.regions.scope.graph.now.vertices ≡ scope.now.graph.now.vertices }
    requires defects { IsStrictlyIncreasing parts.old.defects.items }
    requires other_defects { IsStrictlyIncreasing empty.now.defects.items }
    ensures { OnOk result (IsExtended scope.now parts.old empty.now parts.new) }
{
    parts.regions.widen(scope);
    parts.node = scope.node;
    add_rising(alloc, &mut parts.defects, &empty.defects)
}

/// The right part's nodes, links and matches beside the left one's, under new numbers.
fn joined_beside<'a>(
    alloc: Global,
    scope: &NodeScope<'a>,
    left: Box<Parts<'a>, Global>,
    right: Box<Parts<'a>, Global>,
    spares: &mut Vec<Spare>,
) -> Result<Box<Parts<'a>, Global>, NoMemory>
    requires { AreSiblings scope.now left.value right.value }
    ensures { IfOk result (λ p. IsJoined scope.now left.entry.value right.entry.value p.value) }
{
    let left = Box::into_inner(left);
    let right = Box::into_inner(right);
    let tables = merged_tables(
        alloc,
        left.links,
        right.links,
        left.blossoms,
        right.blossoms,
    )?;
    let (regions, room) = Regions::merged_with_spare(
        alloc,
        left.regions,
        right.regions,
        &tables.names,
        scope,
    )?;
    let seams = Seams::merged(alloc, left.seams, right.seams, &tables.names)?;
    let mut defects = left.defects;
    add_rising(alloc, &mut defects, &right.defects)?;
    let mut matching = left.matching;
    take_matches(
        alloc,
        &mut matching,
        right.matching.matches(),
        &tables.link_names,
        &tables.names,
    )?;
    let parts = Box::new(
        alloc,
        Parts {
            regions,
            links: tables.links,
            blossoms: tables.blossoms,
            matching,
            seams,
            defects,
            job: left.job,
            slot: left.slot,
            node: scope.node,
        },
    )?;
    let _kept = spares.push(Spare::beside(room, tables.emptied, right.matching));
    Ok(parts)
}

/// The match with new numbers of its link and of its nodes.
fn renamed_match(m: Match, links: &Names, nodes: &Names) -> Match
    ensures { result ≡ renamed_match (name_by links.now) (name_by nodes.now) m }
{
    Match {
        link: links.of(m.link),
        first: nodes.of(m.first),
        second: nodes.of_option(m.second),
    }
}

/// Adds the matches of the other part, under their new numbers.
pub(crate) fn take_matches(
    alloc: Global,
    matching: &mut Matching,
    others: &[Match],
    links: &[(LinkId, LinkId)],
    nodes: &[(NodeId, NodeId)],
) -> Result<(), NoMemory>
    requires { AreDistinct (listed_names matching.old ++ matched_names (map (renamed_match (name_by links.now) (name_by nodes.now)) others.now)) }
    ensures { OnOk result (matching.new ≡ record { matches = matching.old.matches ++ map (renamed_match (name_by links.now) (name_by nodes.now)) others.now; unmatched = matching.old.unmatched }) }
{
    let new_links = names_of(alloc, links)?;
    let new_nodes = names_of(alloc, nodes)?;
    for m in others {
        matching.add_match(alloc, renamed_match(*m, &new_links, &new_nodes))?;
    }
    Ok(())
}

/// The vertices that a node of a plan owns, as a fusion opens them.
#[derive(Clone, Copy)]
struct Seam<'a> {
    plan: &'a Plan,
    node: u32,
}

/// Whether the match leads to the boundary by a link with an end on the seam.
fn meets_seam(links: &Links, m: Match, seam: &Seam<'_>) -> bool
    requires live { is_live links.now m.link ≡ true }
    requires ends { IsPlanned seam.now.plan.now (link_by links.now m.link) }
    ensures { result ≡ meets_seam seam.now.plan.now seam.now.node links.now m }
{
    if m.second.is_some() {
        return false;
    }
    let (from, to) = links.ends(m.link);
    seam.plan.owner(from) == Some(seam.node) || seam.plan.owner(to) == Some(seam.node)
}

/// Whether the match leads to a vertex at the boundary of the scope that this node of the plan owns.
pub fn leads_to_seam(links: &Links, m: Match, scope: &NodeScope<'_>, node: u32) -> bool
    requires live { is_live links.now m.link ≡ true }
    requires ends { IsPlanned scope.now.plan.now (link_by links.now m.link) }
    requires vertices { length scope.now.plan.now.owners ≡ scope.now.graph.now.vertices }
    ensures { result ≡ leads_to_seam (scope_problem scope.now).is_real
        scope.now.plan.now node links.now m }
{
    m.second.is_none() && far_owner(links, m.link, scope) == Some(node)
}

/// The place of the node's match, if that meets the seam.
fn seam_place(links: &Links, matching: &Matching, name: NodeId, seam: &Seam<'_>) -> Option<usize>
    requires live { All (λ m. is_live links.now m.link ≡ true) matching.now.matches }
    requires ends { All (λ m. IsPlanned seam.now.plan.now (link_by links.now m.link)) matching.now.matches }
    ensures some { IfSome result (λ i. (i < length matching.now.matches)
        × (meets_seam seam.now.plan.now seam.now.node links.now (get_or matching.now.matches i no_match) ≡ true)) }
    ensures all { (i : ℕ) → i < length matching.now.matches → has_name matching.now.matches i name ≡ true
        → meets_seam seam.now.plan.now seam.now.node links.now (get_or matching.now.matches i no_match) ≡ true → result ≡ Some i }
{
    let Standing::Matched(place) = matching.standing(name) else {
        return None;
    };
    if meets_seam(links, matching.matches()[place], seam) {
        return Some(place);
    }
    None
}

/// Adds the place, if there is one.
fn push_place(places: &mut Vec<usize>, place: Option<usize>) -> Result<(), NoMemory>
    ensures { OnOk result (places.new.items ≡ places.old.items ++ option_to_list place) }
{
    if let Some(place) = place {
        places.push(place)?;
    }
    Ok(())
}

/// The places of the matches that meet the seam, rising. Looks at the matches of the listed nodes alone, which has those of
/// all such matches.
fn seam_places(
    alloc: Global,
    links: &Links,
    matching: &Matching,
    listed: &[NodeId],
    seam: &Seam<'_>,
) -> Result<Vec<usize>, NoMemory>
    requires live { All (λ m. is_live links.now m.link ≡ true) matching.now.matches }
    requires ends { All (λ m. IsPlanned seam.now.plan.now (link_by links.now m.link)) matching.now.matches }
    requires listed { All (λ m. meets_seam seam.now.plan.now seam.now.node links.now m ≡ true → is_in listed.now m.first ≡ true) matching.now.matches }
    ensures rising { IfOk result (λ places. IsStrictlyIncreasing places.items) }
    ensures meets { IfOk result (λ places. (i : ℕ) → is_in places.items i ≡ true
        → (i < length matching.now.matches) × (meets_seam seam.now.plan.now seam.now.node links.now (get_or matching.now.matches i no_match) ≡ true)) }
    ensures all { IfOk result (λ places. (i : ℕ) → i < length matching.now.matches
        → meets_seam seam.now.plan.now seam.now.node links.now (get_or matching.now.matches i no_match) ≡ true → is_in places.items i ≡ true) }
{
    let mut places = Vec::new(alloc);
    for name in listed {
        push_place(&mut places, seam_place(links, matching, *name, seam))?;
    }
    places.sort_unstable();
    places.dedup();
    Ok(places)
}

/// The nodes whose matches meet the seam, in the order of their matches. Looks at the listed nodes alone.
fn freed_nodes(
    alloc: Global,
    links: &Links,
    matching: &Matching,
    listed: &[NodeId],
    seam: &Seam<'_>,
) -> Result<Vec<NodeId>, NoMemory>
    requires live { All (λ m. is_live links.now m.link ≡ true) matching.now.matches }
    requires ends { All (λ m. IsPlanned seam.now.plan.now (link_by links.now m.link)) matching.now.matches }
    requires listed { All (λ m. meets_seam seam.now.plan.now seam.now.node links.now m ≡ true → is_in listed.now m.first ≡ true) matching.now.matches }
    ensures { IfOk result (λ freed. freed.items ≡ map (λ m. m.first) (filter (meets_seam seam.now.plan.now seam.now.node links.now) matching.now.matches)) }
{
    let places = seam_places(alloc, links, matching, listed, seam)?;
    let mut freed = Vec::new(alloc);
    for place in &places {
        freed.push(matching.matches()[*place].first)?;
    }
    Ok(freed)
}

/// Removes each match that meets the seam, and its link. The node that was matched becomes unmatched.
fn free_nodes(
    alloc: Global,
    matching: &mut Matching,
    links: &mut Links,
    listed: &[NodeId],
    seam: &Seam<'_>,
) -> Result<(), NoMemory>
    requires names { AreDistinct (listed_names matching.old) }
    requires links { AreDistinct (match_links matching.old.matches) }
    requires live { All (λ m. is_live links.old m.link ≡ true) matching.old.matches }
    requires ends { All (λ m. IsPlanned seam.now.plan.now (link_by links.old m.link)) matching.old.matches }
    requires listed { All (λ m. meets_seam seam.now.plan.now seam.now.node links.old m ≡ true → is_in listed.now m.first ≡ true) matching.old.matches }
    ensures { OnOk result (IsFreed (filter (meets_seam seam.now.plan.now seam.now.node links.old) matching.old.matches) matching.old matching.new links.old links.new) }
{
    let freed = freed_nodes(alloc, links, matching, listed, seam)?;
    for name in &freed {
        let m = matching.take_match(*name);
        links.forget(m.link);
        matching.add_unmatched(alloc, *name)?;
    }
    Ok(())
}

/// The listed vertices that the node of the plan owns, in their order. Passes over those within the node's reach alone.
fn seam_vertices(
    alloc: Global,
    plan: &Plan,
    node: u32,
    vertices: &[u32],
) -> Result<Vec<u32>, NoMemory>
    requires node { node < node_count plan.now }
    requires rising { IsStrictlyIncreasing vertices.now }
    requires below { All (λ v. v < length plan.now.owners) vertices.now }
    ensures { IfOk result (λ own. own.items ≡ filter (is_owned_by plan.now node) vertices.now) }
{
    if vertices.is_empty() {
        return Ok(Vec::new(alloc));
    }
    let reached = within(vertices, plan.reach(node));
    let mut own = NumberList::from_vec(Vec::new(alloc));
    for v in reached {
        let is_owned = plan.owner(*v) == Some(node);
        own.push_if(is_owned, *v)?;
    }
    Ok(own.into_vec())
}

/// The defects of a shot of the job that the node of the plan owns, and the shifted ones. Passes over the vertices of the
/// shot's lists and the graph's within the node's reach alone.
fn seam_defects(alloc: Global, job: &Job<'_>, slot: u32, node: u32) -> Result<NodeDefects, NoMemory>
    requires slot { slot < length job.now.shots }
    requires node { node < node_count job.now.plan }
    ensures given { IfOk result (λ own. own.given.items ≡ shot_seam job.now slot node) }
    ensures shifted { IfOk result (λ own. own.shifted.items ≡ seam_defects job.now slot node) }
{
    job.keeps();
    let graph = job.graph();
    graph.limits();
    let plan = job.plan();
    let shot = &job.shots()[slot as usize];
    let given = seam_vertices(alloc, plan, node, shot.as_slice())?;
    let by_graph = seam_vertices(alloc, plan, node, graph.turned())?;
    let by_shot = seam_vertices(alloc, plan, node, shot.turned())?;
    let shifted = odd_among(alloc, &given, &by_graph, &by_shot)?;
    Ok(NodeDefects { given, shifted })
}

/// Makes each of the vertices a node of radius 0, without a match.
fn add_leaves(
    alloc: Global,
    regions: &mut Regions<NodeScope<'_>>,
    store: &mut Blossoms,
    matching: &mut Matching,
    vertices: &[u32],
) -> Result<(), NoMemory>
    requires distinct { AreDistinct vertices.now }
    requires real { All (λ v. (scope_problem regions.old.scope).is_real v ≡ true) vertices.now }
    requires uncovered { All (λ v. cover_of regions.old.nodes v ≡ None) vertices.now }
    requires leafless { All (λ v. (x : ℕ) → blossoms.node_at store.old x ≢ Some (blossoms.leaf v)) vertices.now }
    requires live { (name : ℕ) → blossoms.node_at store.old name ≡ None → is_node regions.old.nodes name ≡ false }
    requires listed { (name : ℕ) → blossoms.node_at store.old name ≡ None → is_in (listed_names matching.old) name ≡ false }
    ensures singles_added { OnOk result (AddsSingles (drop (length matching.old.unmatched) matching.new.unmatched) vertices.now regions.old.nodes regions.new.nodes store.old store.new matching.old matching.new) }
    ensures scope { OnOk result (regions.new.scope ≡ regions.old.scope) }
    ensures rest { OnOk result (IsAtRest regions.old → IsAtRest regions.new) }
{
    for v in vertices {
        add_leaf(alloc, regions, store, matching, *v)?;
    }
    Ok(())
}

/// Makes the vertices that the part's node owns real: removes the matches to them, and makes the shifted defects there
/// further nodes.
pub(crate) fn open_seam(alloc: Global, parts: &mut Parts<'_>) -> Result<(), NoMemory>
    requires scope { IsScopeOf parts.old.regions.scope (part_of parts.old) }
    requires beside { AreBesideListed parts.old.seams (part_of parts.old) }
    requires defects { IsStrictlyIncreasing parts.old.defects.items }
    ensures opened { OnOk result (IsOpened (drop (length (parts.old.matching.unmatched ++ met_nodes (part_of parts.old))) parts.new.matching.unmatched) (part_of parts.old) (part_of parts.new)) }
    ensures scope { OnOk result (IsScopeOf parts.new.regions.scope (part_of parts.new)) }
    ensures rest { OnOk result (IsAtRest parts.old.regions → IsAtRest parts.new.regions) }
    ensures listed { OnOk result (AreListed (problem_in (part_of parts.new)).is_real parts.new.job.0.now.plan parts.new.seams parts.new.links parts.new.matching.matches) }
    ensures defects { OnOk result (IsRisingUnion parts.old.defects.items (shot_seam parts.old.job.0.now parts.old.slot parts.old.node) parts.new.defects.items) }
{
    let Parts {
        regions,
        links,
        blossoms,
        matching,
        seams,
        defects,
        job,
        slot,
        node,
    } = parts;
    let job = job.0;
    job.keeps();
    job.graph().limits();
    links.keeps();
    let plan = job.plan();
    let listed = seams.take(alloc, *node);
    let seam = Seam { plan, node: *node };
    free_nodes(alloc, matching, links, &listed, &seam)?;
    let own = seam_defects(alloc, job, *slot, *node)?;
    add_rising(alloc, defects, &own.given)?;
    add_leaves(alloc, regions, blossoms, matching, &own.shifted)
}
