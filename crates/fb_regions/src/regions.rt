ghost use Rattle.std.specs.Prelude.{◌≡◌, ◌+◌, ◌-◌, ◌<◌, ◌≤◌, ◌==◌, ◌&&◌, ℕ, if◌then◌else◌, not, true, false, [], ◌∷◌, ◌++◌, length, take, drop, filter, reverse, IfOk, OnOk, OnErr, IsSome, None, Some};
ghost use Rattle.std.specs.List.{last_or};
ghost use Rattle.fb_graph.specs.Parity.{is_in};
ghost use Rattle.fb_graph.specs.Problem.{edge_at};
ghost use Rattle.fb_graph.specs.Certificate.{load_of};
ghost use Rattle.fb_graph.specs.Covers.{AreRoles};
ghost use Rattle.fb_graph.specs.Laws.{IsPart};
ghost use Rattle.fb_graph.specs.Dual.{AreUnderOne, all_cuts, change_at, cover_of, height_of, is_empty, is_live, is_outer, leaf, leaves, node_at, thicker_node, AllowsGrowth, IsCrossed, layers_at, top_at};
ghost use Rattle.fb_graph.specs.NestUnions.{AreParts};
ghost use Rattle.fb_graph.specs.Printed.{is_positive};
ghost use Rattle.fb_graph.specs.RenamedNodes.{renamed_nodes};
ghost use Rattle.fb_links.specs.Names.{name_by};
ghost use Rattle.fb_regions.specs.Holders.{IsHolder};
ghost use Rattle.fb_regions.specs.Listed.{back_from, listed_before};
ghost use Rattle.fb_regions.specs.Merged.{AreNewNames};
ghost use Rattle.fb_graph.specs.Moves.{MayJoin, MaySplit, MayUncover, joined_nodes, split_nodes, uncovered_nodes};
ghost use Rattle.fb_graph.specs.Nests.{IsNest};
ghost use Rattle.fb_graph.specs.SourceWalks.{HaveWalks};
ghost use Rattle.fb_graph.specs.Steps.{AreExclusive, MayStep, stepped_nodes};
ghost use Rattle.fb_graph.specs.Turns.{thinner_node};
ghost use Rattle.fb_regions.specs.Paces.{IsAtRest, IsRepaced, pace_in, paces_of};
ghost use Rattle.fb_regions.specs.declared.roles.Role.TheVariants.{Out};
ghost use Rattle.fb_regions.specs.Moves.{AddsSourceWalk, BeginsWith, IsOver, IsSourceWalk, absorbed_over, inner_end, node_named, outer_end};

use crate::clock::{settle, settle_all, top_at};
use crate::heads::{Link, joint_of, rejoin};
use crate::listing::list_together;
use crate::marks::{Hop, Mark, Marks};
use crate::merging::{take_marks, take_nodes};
use crate::places::{enter, enter_from, make_room, place_of, set_place};
use crate::region::{self, Buffers, Region, climb_from};
use crate::residues::residue_left;
use crate::{Layer, NodeId, Role, Roles, Step, Walk};
use fb_graph::{CutList, NoMemory, Scope};
use std::alloc::Global;
use std::marker::Model;

/// The dual state over a scope: nodes, each a stack of layers, which are vertex sets with values. The top layers of nodes to
/// which a pace is set grow or shrink together as time passes, at no cost for each. A node is a defect,
/// or a blossom of an odd number of nodes (Edmonds 1965). The caller names each node by a number that isn't live
/// there. A node is found by its name in constant time, which takes room for each number up to the largest name. A
/// call that returns `NoMemory` leaves the state as it was.
///
/// No layer is kept as a list. A vertex that a node absorbs begins a layer, and its mark has the vertex before it and
/// the value below.
#[derive(Drop)]
pub struct Regions<S: Scope> {
    scope: S,
    /// The nodes, in the order in which they were made.
    regions: Vec<Region>,
    /// The place of each node, by its name.
    places: Vec<Option<usize>>,
    /// A mark for each vertex that a node holds.
    marks: Marks,
    /// The time: by how much each node that moves has moved since its pace began.
    clock: u64,
}

/// The outer node that holds a vertex, and the vertex's potential.
#[derive(Clone, Copy, Debug, PartialEq, Eq)]
pub struct Holder {
    pub node: NodeId,
    /// The sum of the values of the sets that hold the vertex.
    pub potential: u64,
}

/// The room of a dual state that is no longer used, for another one: emptied lists, and marks of no vertex. Contracts see
/// the number of vertices for which it has marks.
#[derive(Drop)]
pub struct SpareRegions {
    regions: Vec<Region>,
    places: Vec<Option<usize>>,
    marks: Marks,
}

impl Model for SpareRegions {
    ghost use Rattle.std.specs.Prelude.{ℕ, ◌≡◌, [], length, replicate, None};

    ghost Value = { ℕ };

    ghost view = { λ s. length s.marks };

    ghost invariant = { λ s. (s.regions.items ≡ []) × (s.places.items ≡ []) × (s.marks ≡ replicate (length s.marks) None) };
}

impl SpareRegions {
    /// These lists and marks, emptied.
    fn from_used(
        mut regions: Vec<Region>,
        mut places: Vec<Option<usize>>,
        mut marks: Marks,
    ) -> SpareRegions
        ensures { result ≡ length marks }
    {
        regions.clear();
        places.clear();
        marks.clear();
        SpareRegions {
            regions,
            places,
            marks,
        }
    }
}

impl<S: Scope> Model for Regions<S> {
    ghost use Rattle.fb_regions.specs.InternalClock.{HaveBegun, all_at, names_paced};
    ghost use Rattle.fb_regions.specs.InternalCodes.{paced_code};
    ghost use Rattle.fb_regions.specs.Paces.{Paced, grows, shrinks};
    ghost use Rattle.fb_regions.specs.InternalHeads.{HaveHeads};
    ghost use Rattle.fb_regions.specs.InternalKept.{IsKept};
    ghost use Rattle.fb_regions.specs.InternalListings.{region_named};
    ghost use Rattle.fb_regions.specs.InternalNodes.{nodes_of};
    ghost use Rattle.fb_regions.specs.InternalPlaces.{IsIndex};

    ghost Value = { Paced S };

    ghost coded = { paced_code S.code };

    ghost view = { λ r. record {
      scope = r.scope;
      nodes = nodes_of r.marks (all_at r.clock r.regions.items);
      plus = names_paced grows r.regions.items;
      minus = names_paced shrinks r.regions.items;
    } };

    ghost invariant = { λ r. IsKept (S.problem r.scope) (all_at r.clock r.regions.items) r.marks
        × IsIndex r.regions.items r.places.items
        × HaveBegun r.clock r.regions.items
        × HaveHeads (region_named (all_at r.clock r.regions.items)) };
}

impl<S: Scope> Regions<S> {
    /// The state without nodes. Takes no memory: the first node takes room for a mark of each vertex of the scope, and time
    /// for each 512 vertices.
    pub fn new(alloc: Global, scope: &S) -> Result<Regions<S>, NoMemory>
        ensures { IfOk result (λ r. r ≡ record { scope = scope.now; nodes = []; plus = []; minus = [] }) }
    {
        Ok(Regions {
            scope: *scope,
            regions: Vec::new(alloc),
            places: Vec::new(alloc),
            marks: Marks::new(alloc, scope.vertices()),
            clock: 0,
        })
    }

    /// The state without nodes, in the room of another one if that was over as many vertices, else without room. Takes no
    /// memory.
    pub fn on(alloc: Global, spare: SpareRegions, scope: &S) -> Result<Regions<S>, NoMemory>
        ensures { IfOk result (λ r. r ≡ record { scope = scope.now; nodes = []; plus = []; minus = [] }) }
    {
        if spare.marks.vertices() != scope.vertices() {
            return Regions::new(alloc, scope);
        }
        let SpareRegions {
            regions,
            places,
            marks,
        } = spare;
        Ok(Regions {
            scope: *scope,
            regions,
            places,
            marks,
            clock: 0,
        })
    }

    /// The room of the state, emptied at the cost of what it holds. Takes no memory.
    pub fn into_spare(self) -> SpareRegions
        ensures { result ≡ (S.problem self.scope).vertices }
    {
        let Regions {
            scope: _,
            regions,
            places,
            marks,
            clock: _,
        } = self;
        SpareRegions::from_used(regions, places, marks)
    }

    /// The nodes of two separated parts as those of a whole. The left one's names and paces stay, and the right one's nodes,
    /// none of which moves, get the new names that the list has beside their old ones. Its time is that of the right one's
    /// nodes and vertices.
    pub fn merged(
        alloc: Global,
        left: Regions<S>,
        right: Regions<S>,
        nodes: &[(NodeId, NodeId)],
        scope: &S,
    ) -> Result<Regions<S>, NoMemory>
        requires rest { IsAtRest right }
        requires names { AreNewNames left.nodes right.nodes (name_by nodes.now) }
        requires parts { AreParts (S.problem left.scope) (S.problem right.scope) (S.problem scope.now) }
        requires left_vertices { (S.problem left.scope).vertices ≡ (S.problem scope.now).vertices }
        requires right_vertices { (S.problem right.scope).vertices ≡ (S.problem scope.now).vertices }
        ensures { IfOk result (λ r. r ≡ record left { scope = scope.now; nodes = left.nodes ++ renamed_nodes (name_by nodes.now) right.nodes }) }
    {
        let (merged, _spare) = Regions::merged_with_spare(alloc, left, right, nodes, scope)?;
        Ok(merged)
    }

    /// The same, and the emptied room of the right one.
    pub fn merged_with_spare(
        alloc: Global,
        left: Regions<S>,
        right: Regions<S>,
        nodes: &[(NodeId, NodeId)],
        scope: &S,
    ) -> Result<(Regions<S>, SpareRegions), NoMemory>
        requires rest { IsAtRest right }
        requires names { AreNewNames left.nodes right.nodes (name_by nodes.now) }
        requires parts { AreParts (S.problem left.scope) (S.problem right.scope) (S.problem scope.now) }
        requires left_vertices { (S.problem left.scope).vertices ≡ (S.problem scope.now).vertices }
        requires right_vertices { (S.problem right.scope).vertices ≡ (S.problem scope.now).vertices }
        ensures { IfOk result (λ r. r.0 ≡ record left { scope = scope.now; nodes = left.nodes ++ renamed_nodes (name_by nodes.now) right.nodes }) }
    {
        scope.limits();
        let Regions {
            scope: _,
            mut regions,
            mut places,
            mut marks,
            clock,
        } = left;
        let Regions {
            scope: _,
            regions: mut others,
            places: other_places,
            marks: more,
            clock: _,
        } = right;
        let names = take_nodes(alloc, &mut regions, &mut places, &mut others, nodes)?;
        take_marks(alloc, &mut marks, &more, &names)?;
        let spare = SpareRegions::from_used(others, other_places, more);
        let merged = Regions {
            scope: *scope,
            regions,
            places,
            marks,
            clock,
        };
        Ok((merged, spare))
    }

    /// The same state over a larger part of the graph. Takes constant time.
    pub fn widen(&mut self, scope: &S)
        requires part { IsPart (S.problem self.old.scope) (S.problem scope.now) }
        requires vertices { (S.problem self.old.scope).vertices ≡ (S.problem scope.now).vertices }
        ensures { self.new ≡ record self.old { scope = scope.now } }
    {
        scope.limits();
        self.scope = *scope;
    }

    /// Does nothing. Its clauses say what every dual state keeps.
    pub fn keeps(&self)
        ensures nest { IsNest (S.problem self.now.scope) self.now.nodes }
        ensures walks { HaveWalks (S.problem self.now.scope) self.now.nodes }
        ensures paces { AreExclusive (paces_of self.now) }
    {
        let _regions = &self.regions;
    }

    /// The scope.
    pub fn scope(&self) -> &S
        ensures { result.now ≡ self.now.scope }
    {
        &self.scope
    }

    /// Makes the vertex a defect: a node of its own with one layer of value 0. The first one takes room for a mark of each
    /// vertex of the scope, if there is none.
    pub fn open_leaf(&mut self, alloc: Global, node: NodeId, v: u32) -> Result<(), NoMemory>
        requires below { v < (S.problem self.old.scope).vertices }
        requires real { (S.problem self.old.scope).is_real v ≡ true }
        requires uncovered { cover_of self.old.nodes v ≡ None }
        requires fresh { is_live self.old.nodes node ≡ false }
        ensures ok { OnOk result (self.new ≡ record self.old { nodes = self.old.nodes ++ leaf node v ∷ [] }) }
        ensures err { OnErr result (self.new ≡ self.old) }
    {
        make_room(&mut self.regions, &mut self.places, node)?;
        let mark = Mark {
            source: v,
            leaf: node,
            distance: 0,
            rank: 0,
            by: None,
            before: v,
            under: 0,
        };
        self.marks.put(alloc, v, mark)?;
        let leaf = Region {
            name: node,
            children: Vec::new(alloc),
            parent: None,
            head: node,
            inside: 0,
            size: 1,
            link: Link {
                top: node,
                beside: None,
            },
            first: v,
            base: 1,
            base_last: v,
            added: 0,
            last: v,
            top_value: 0,
            radius: 0,
            pace: Role::Out,
            since: 0,
        };
        enter(&mut self.regions, &mut self.places, leaf);
        Ok(())
    }

    /// Joins an odd number of outer nodes in a blossom, with one layer of value 0 over their vertices. Takes time for
    /// these nodes alone.
    pub fn join_nodes(
        &mut self,
        alloc: Global,
        node: NodeId,
        children: &[NodeId],
    ) -> Result<(), NoMemory>
        requires { MayJoin self.old.nodes node children.now }
        ensures ok { OnOk result (self.new ≡ record self.old { nodes = joined_nodes node children.now self.old.nodes }) }
        ensures err { OnErr result (self.new ≡ self.old) }
    {
        self.scope.limits();
        make_room(&mut self.regions, &mut self.places, node)?;
        let names = Vec::from_slice(alloc, children)?;
        let joint = joint_of(&self.places, &self.regions, self.clock, node, children);
        let listing = list_together(&self.places, &self.regions, &mut self.marks, children);
        let blossom = Region {
            name: node,
            children: names,
            parent: None,
            head: joint.head,
            inside: joint.inside,
            size: joint.size,
            link: Link {
                top: node,
                beside: None,
            },
            first: listing.first,
            base: listing.count,
            base_last: listing.last,
            added: 0,
            last: listing.last,
            top_value: 0,
            radius: 0,
            pace: Role::Out,
            since: 0,
        };
        enter(&mut self.regions, &mut self.places, blossom);
        rejoin(
            &self.places,
            &mut self.regions,
            self.clock,
            children,
            Some(joint),
        );
        Ok(())
    }

    /// Takes away an outer blossom that doesn't move and has one layer, of value 0, so that the nodes that it joins are outer
    /// again. Takes time for these and for each node that was made after the blossom.
    pub fn split_node(&mut self, node: NodeId) -> Result<(), NoMemory>
        requires empty { MaySplit self.old.nodes node }
        requires rest { pace_in self.old node ≡ Out }
        ensures ok { OnOk result (self.new ≡ record self.old { nodes = split_nodes node self.old.nodes }) }
        ensures err { OnErr result (self.new ≡ self.old) }
    {
        let Some(place) = place_of(&self.places, node) else {
            unreachable!()
        };
        let blossom = self.regions.remove(place);
        set_place(&mut self.places, node, None);
        enter_from(&mut self.places, &self.regions, place);
        rejoin(
            &self.places,
            &mut self.regions,
            self.clock,
            blossom.children.as_slice(),
            None,
        );
        Ok(())
    }

    /// Adds k to the value of the top layer of an outer node.
    pub fn grow(&mut self, node: NodeId, k: u64)
        requires live { is_live self.old.nodes node ≡ true }
        requires outer { is_outer self.old.nodes node ≡ true }
        requires leaves { IsCrossed (S.problem self.old.scope) (top_at self.old.nodes node) }
        requires room { AllowsGrowth (S.problem self.old.scope) self.old.nodes (top_at self.old.nodes node) k }
        ensures { self.new ≡ record self.old { nodes = change_at node (thicker_node k) self.old.nodes } }
    {
        self.scope.limits();
        let Some(place) = place_of(&self.places, node) else {
            unreachable!()
        };
        let region = &mut self.regions[place];
        settle(region, self.clock);
        region.top_value += k;
        region.radius += k;
    }

    /// Takes k from the value of the top layer of an outer node.
    pub fn shrink(&mut self, node: NodeId, k: u64)
        requires live { is_live self.old.nodes node ≡ true }
        requires outer { is_outer self.old.nodes node ≡ true }
        requires value { k ≤ (node_named self.old.nodes node).top.value }
        ensures { self.new ≡ record self.old { nodes = change_at node (thinner_node k) self.old.nodes } }
    {
        self.scope.limits();
        let Some(place) = place_of(&self.places, node) else {
            unreachable!()
        };
        let region = &mut self.regions[place];
        settle(region, self.clock);
        region.top_value -= k;
        region.radius -= k;
    }

    /// Sets how the top layer of a node moves from now on; nothing happens if no node has the name. Takes constant time.
    pub fn set_pace(&mut self, node: NodeId, pace: Role)
        ensures same { IsRepaced self.old self.new }
        ensures paces { (n : ℕ) → pace_in self.new n ≡ (if (n == node) && is_live self.old.nodes node then pace else pace_in self.old n) }
    {
        self.scope.limits();
        if let Some(place) = place_of(&self.places, node) {
            let region = &mut self.regions[place];
            settle(region, self.clock);
            region.pace = pace;
        }
    }

    /// Lets the time pass: the top layer of each node that moves grows or shrinks by the length. Takes constant time, but
    /// that of all nodes where the time would be 2^64 or more.
    pub fn advance(&mut self, length: u64)
        requires roles { AreRoles (paces_of self.old) self.old.nodes }
        requires crossed { (n : ℕ) → is_in self.old.plus n ≡ true → IsCrossed (S.problem self.old.scope) (top_at self.old.nodes n) }
        requires may { MayStep (S.problem self.old.scope) (paces_of self.old) self.old.nodes length }
        ensures { self.new ≡ record self.old { nodes = stepped_nodes (paces_of self.old) length self.old.nodes } }
    {
        self.scope.limits();
        if let Some(clock) = self.clock.checked_add(length) {
            self.clock = clock;
        } else {
            settle_all(&mut self.regions, self.clock);
            self.clock = length;
        }
    }

    /// Absorbs the outer end of a tight edge into the outer node that holds its inner end.
    pub fn absorb(&mut self, edge: u32)
        requires below { edge < length (S.problem self.old.scope).edges }
        requires tight { let e = edge_at (S.problem self.old.scope).edges edge in load_of (all_cuts self.old.nodes) e ≡ e.weight }
        requires inner { IsSome (cover_of self.old.nodes (inner_end self.old.nodes (edge_at (S.problem self.old.scope).edges edge))) }
        requires outer { cover_of self.old.nodes (outer_end self.old.nodes (edge_at (S.problem self.old.scope).edges edge)) ≡ None }
        requires real { (S.problem self.old.scope).is_real (outer_end self.old.nodes (edge_at (S.problem self.old.scope).edges edge)) ≡ true }
        ensures { self.new ≡ record self.old { nodes = absorbed_over self.old.nodes (edge_at (S.problem self.old.scope).edges edge) } }
    {
        self.scope.limits();
        let step = self.step_over(edge);
        let Some(node) = self.cover_of(step.from) else {
            unreachable!()
        };
        let Some(mark) = self.marks.at(step.from) else {
            unreachable!()
        };
        let Some(place) = place_of(&self.places, node) else {
            unreachable!()
        };
        let region = &mut self.regions[place];
        settle(region, self.clock);
        let taken = Mark {
            source: mark.source,
            leaf: mark.leaf,
            distance: mark.distance + step.weight,
            rank: region.base + region.added,
            by: Some(Hop {
                from: step.from,
                edge: step.edge,
            }),
            before: region.last,
            under: region.top_value,
        };
        region.added += 1;
        region.last = step.to;
        region.top_value = 0;
        self.marks.put_beside(step.from, step.to, taken);
    }

    /// Takes off the top layer, of value 0, of an outer node that has more than one, so that its last vertex is
    /// uncovered.
    pub fn uncover(&mut self, node: NodeId)
        requires { MayUncover self.old.nodes node }
        ensures { self.new ≡ record self.old { nodes = uncovered_nodes node self.old.nodes } }
    {
        let Some(place) = place_of(&self.places, node) else {
            unreachable!()
        };
        let region = &mut self.regions[place];
        settle(region, self.clock);
        let last = region.last;
        let Some(mark) = self.marks.at(last) else {
            unreachable!()
        };
        region.added -= 1;
        region.last = mark.before;
        region.top_value = mark.under;
        self.marks.take(last);
    }

    /// The step over an edge from its end that an outer node holds: from the first one, if both are held, and from the second,
    /// if neither is.
    pub fn step_over(&self, edge: u32) -> Step
        requires { edge < length (S.problem self.now.scope).edges }
        ensures { IsOver (S.problem self.now.scope) self.now.nodes edge result }
    {
        let (first, second) = self.scope.ends(edge);
        let weight = self.scope.weight(edge);
        if self.cover_of(first).is_some() {
            Step {
                from: first,
                to: second,
                edge,
                weight,
            }
        } else {
            Step {
                from: second,
                to: first,
                edge,
                weight,
            }
        }
    }

    /// The sum of the values of the sets that hold the vertex.
    pub fn potential(&self, v: u32) -> u64
        ensures { result ≡ height_of (all_cuts self.now.nodes) v }
    {
        match self.holder(v) {
            Some(holder) => holder.potential,
            None => 0,
        }
    }

    /// The slack of the edge if no outer node holds both of its ends: its weight less its load.
    pub fn residue(&self, edge: u32) -> u64
        requires { edge < length (S.problem self.now.scope).edges }
        ensures heights { let e = edge_at (S.problem self.now.scope).edges edge in
            result ≡ e.weight - (height_of (all_cuts self.now.nodes) e.first + height_of (all_cuts self.now.nodes) e.second) }
        ensures load { let e = edge_at (S.problem self.now.scope).edges edge in
            ¬ AreUnderOne self.now.nodes e.first e.second → result ≡ e.weight - load_of (all_cuts self.now.nodes) e }
    {
        let (first, second) = self.scope.ends(edge);
        residue_left(
            self.scope.weight(edge),
            self.potential(first),
            self.potential(second),
        )
    }

    /// The outer node that holds the vertex; none for an uncovered vertex.
    pub fn cover_of(&self, v: u32) -> Option<NodeId>
        ensures { result ≡ cover_of self.now.nodes v }
    {
        Some(self.holder(v)?.node)
    }

    /// The outer node that holds the vertex, with the vertex's potential; none for an uncovered vertex. Takes a few hops,
    /// at most one for each time that the number of the node's leaves doubles, and `cover_of` and `potential` as many each.
    pub fn holder(&self, v: u32) -> Option<Holder>
        ensures { IsHolder self.now.nodes v result }
    {
        let mark = self.marks.at(v)?;
        let climb = climb_from(&self.places, &self.regions, self.clock, mark.leaf);
        Some(Holder {
            node: climb.root,
            potential: climb.radii - mark.distance,
        })
    }

    /// The walk by which a covered vertex came, from its source defect.
    pub fn source_walk(&self, alloc: Global, v: u32) -> Result<Walk, NoMemory>
        requires { IsSome (cover_of self.now.nodes v) }
        ensures { IfOk result (λ walk. IsSourceWalk (S.problem self.now.scope) self.now.nodes v walk) }
    {
        let mut steps = Vec::new(alloc);
        self.push_source_walk(&mut steps, v)?;
        Ok(Walk::from_vec(steps))
    }

    /// Adds the walk by which a covered vertex came, from its source defect, at the end of the steps.
    pub fn push_source_walk(&self, steps: &mut Vec<Step>, v: u32) -> Result<(), NoMemory>
        requires { IsSome (cover_of self.now.nodes v) }
        ensures { OnOk result (AddsSourceWalk
            (S.problem self.now.scope) self.now.nodes v steps.old.items steps.new.items) }
    {
        let first = steps.len();
        let mut at = v;
        while let Some(hop) = self.marks.hop_to(at) {
            let weight = self.scope.weight(hop.edge);
            steps.push(Step {
                from: hop.from,
                to: at,
                edge: hop.edge,
                weight,
            })?;
            at = hop.from;
        }
        reverse_from(steps, first);
        Ok(())
    }

    /// Copies of the node's own layers, from the first to the top.
    pub fn layers(&self, alloc: Global, node: NodeId) -> Result<Vec<Layer>, NoMemory>
        requires { is_live self.now.nodes node ≡ true }
        ensures { IfOk result (λ layers. layers.items ≡ layers_at self.now.nodes node) }
    {
        let Some(place) = place_of(&self.places, node) else {
            unreachable!()
        };
        region::layers(alloc, &self.marks, &self.regions[place], self.clock)
    }

    /// Copies of the layers of positive value of all nodes: for each node in the order in which they were made, from its
    /// first layer to its top one. Its time is that of the nodes, of the sets that it copies, and of the vertices that were
    /// absorbed, once each.
    pub fn cuts(&self, alloc: Global) -> Result<CutList, NoMemory>
        ensures { IfOk result (λ cuts. cuts ≡ filter is_positive (all_cuts self.now.nodes)) }
    {
        self.scope.limits();
        let mut cuts = CutList::new(alloc);
        let mut buffers = Buffers::new(alloc);
        for region in &self.regions {
            region::put_cuts(&self.marks, region, self.clock, &mut buffers, &mut cuts)?;
        }
        Ok(cuts)
    }

    /// The node's vertices: a copy of the set of its top layer.
    pub fn vertices(&self, alloc: Global, node: NodeId) -> Result<Vec<u32>, NoMemory>
        requires { is_live self.now.nodes node ≡ true }
        ensures { IfOk result (λ vertices. vertices.items ≡ top_at self.now.nodes node) }
    {
        let Some(place) = place_of(&self.places, node) else {
            unreachable!()
        };
        region::vertices(alloc, &self.marks, &self.regions[place])
    }

    /// The sum of the values of the sets that hold the defect.
    pub fn radius(&self, defect: u32) -> u64
        requires { is_in (leaves self.now.nodes) defect ≡ true }
        ensures { result ≡ height_of (all_cuts self.now.nodes) defect }
    {
        self.potential(defect)
    }

    /// The first of the node's vertices.
    pub fn first_vertex(&self, node: NodeId) -> u32
        requires { is_live self.now.nodes node ≡ true }
        ensures { BeginsWith result (top_at self.now.nodes node) }
    {
        let Some(place) = place_of(&self.places, node) else {
            unreachable!()
        };
        self.regions[place].first
    }

    /// The last of the node's vertices. Going back from it by `vertex_before` passes each of them once, in the reverse of the
    /// order that `vertices` gives, without a copy.
    pub fn last_vertex(&self, node: NodeId) -> u32
        requires { is_live self.now.nodes node ≡ true }
        ensures last { last_or None (top_at self.now.nodes node) ≡ Some result }
        ensures all { let vertices = top_at self.now.nodes node in
            back_from vertices (Some result) ≡ reverse vertices }
    {
        let Some(place) = place_of(&self.places, node) else {
            unreachable!()
        };
        self.regions[place].last
    }

    /// Which of the node's vertices is listed before this one; none is before the first. Takes constant time.
    pub fn vertex_before(&self, node: NodeId, v: u32) -> Option<u32>
        requires live { is_live self.now.nodes node ≡ true }
        requires held { is_in (top_at self.now.nodes node) v ≡ true }
        ensures before { result ≡ last_or None (listed_before (top_at self.now.nodes node) v) }
        ensures rest { let vertices = top_at self.now.nodes node in
            back_from vertices (Some v) ≡ v ∷ back_from vertices result }
    {
        let Some(place) = place_of(&self.places, node) else {
            unreachable!()
        };
        if v == self.regions[place].first {
            None
        } else {
            Some(self.marks.before(v))
        }
    }

    /// The number of the node's own layers.
    pub fn layer_count(&self, node: NodeId) -> usize
        requires { is_live self.now.nodes node ≡ true }
        ensures { result ≡ length (layers_at self.now.nodes node) }
    {
        self.scope.limits();
        let Some(place) = place_of(&self.places, node) else {
            unreachable!()
        };
        self.regions[place].added + 1
    }

    /// The value of the node's top layer.
    pub fn top_value(&self, node: NodeId) -> u64
        requires { is_live self.now.nodes node ≡ true }
        ensures { result ≡ (node_named self.now.nodes node).top.value }
    {
        let Some(place) = place_of(&self.places, node) else {
            unreachable!()
        };
        top_at(&self.regions[place], self.clock)
    }

    /// Whether the node joins others.
    pub fn is_joined(&self, node: NodeId) -> bool
        requires { is_live self.now.nodes node ≡ true }
        ensures { result ≡ not (is_empty (node_named self.now.nodes node).children) }
    {
        let Some(place) = place_of(&self.places, node) else {
            unreachable!()
        };
        !self.regions[place].children.is_empty()
    }

    /// The number of nodes.
    pub fn len(&self) -> usize
        ensures { result ≡ length self.now.nodes }
    {
        self.regions.len()
    }

    /// The name of the node at a place in the order in which the nodes were made.
    pub fn name_at(&self, place: usize) -> NodeId
        requires { place < length self.now.nodes }
        ensures { result ≡ (node_at self.now.nodes place).name }
    {
        self.regions[place].name
    }
}

impl<S: Scope> Roles for Regions<S> {
    ghost role_of = { λ r name. pace_in r name };

    fn role(&self, node: NodeId) -> Role {
        match place_of(&self.places, node) {
            Some(place) => self.regions[place].pace,
            None => Role::Out,
        }
    }
}

/// Reverses the order of the steps from this place on.
fn reverse_from(steps: &mut Vec<Step>, first: usize)
    requires { first ≤ length steps.old.items }
    ensures { steps.new.items ≡ take first steps.old.items ++ reverse (drop first steps.old.items) }
{
    steps[first..].reverse();
}
