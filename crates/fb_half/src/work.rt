ghost use Rattle.std.specs.Prelude.{◌≡◌, ◌<◌, [], length, IfOk, Some};
ghost use Rattle.fb_plan.specs.Plans.{children_of};
ghost use Rattle.fb_half.specs.Merged.{IsMerged};
ghost use Rattle.fb_half.specs.Beginnings.{IsBegun, shot_defects};
ghost use Rattle.fb_half.specs.Matchings.{match_links};
ghost use Rattle.fb_half.specs.Parts.{IsPart};
ghost use Rattle.fb_half.specs.Values.{HasScope, IsScopeOf, part_of};

use crate::half::Half;
use crate::matching::Matching;
use crate::merging::{joined, open_seam};
use crate::parts::Parts;
use crate::shifting::NodeDefects;
use crate::spare::{Spare, empty_parts, spare_for};
use crate::start::{defects_at, start};
use fb_blossoms::Blossoms;
use fb_graph::{NoMemory, Scope};
use fb_laws::state_begins;
use fb_links::{LinkId, Links, NodeId};
use fb_plan::{Job, NodeScope};
use fb_regions::Regions;
use std::alloc::Global;
use std::marker::Model;

/// A node of a plan with a shot, half solved: its dual state, its blossoms, its links, and which of its nodes are
/// matched. Each outer node is matched once or is unmatched. Its pieces stand in a box, so that it moves as one pointer.
#[derive(Drop)]
pub struct Work<'a> {
    parts: Box<Parts<'a>, Global>,
}

impl<'a> Model for Work<'a> {
    ghost use Rattle.fb_half.specs.Parts.{PartValue, IsPart};
    ghost use Rattle.fb_half.specs.Values.{HasScope, part_of};

    ghost Value = { PartValue };

    ghost view = { λ w. part_of w.parts.value };

    ghost invariant = { λ w. HasScope w.parts.value × IsPart (part_of w.parts.value) };
}

impl<'a> Work<'a> {
    /// Does nothing. Its clause says what every half-solved part keeps.
    pub fn keeps(&self)
        ensures { IsPart self.now }
    {
        let _parts = &self.parts;
    }

    /// The part made of these pieces.
    pub fn from_parts(parts: Box<Parts<'a>, Global>) -> Work<'a>
        requires scope { HasScope parts.value }
        requires part { IsPart (part_of parts.value) }
        ensures { result ≡ part_of parts.entry.value }
    {
        Work { parts }
    }

    /// Its pieces, in their box.
    pub fn into_parts(self) -> Box<Parts<'a>, Global>
        ensures value { part_of result.value ≡ self.entry }
        ensures scope { HasScope result.value }
    {
        let Work { parts } = self;
        parts
    }

    /// The part with nothing unmatched. Takes no memory.
    pub fn close(self) -> Half<'a>
        requires { self.matching.unmatched ≡ [] }
        ensures { result ≡ self.entry }
    {
        let Work { parts } = self;
        Half::of(parts)
    }

    /// The job.
    pub fn job(&self) -> &'a Job<'a>
        ensures { result.now ≡ self.now.job }
    {
        self.parts.job.0
    }

    /// Which shot of the job.
    pub fn slot(&self) -> u32
        ensures { result ≡ self.now.slot }
    {
        self.parts.slot
    }

    /// Which node of the job's plan.
    pub fn node(&self) -> u32
        ensures { result ≡ self.now.node }
    {
        self.parts.node
    }

    /// The dual state.
    pub fn regions(&self) -> &Regions<NodeScope<'a>>
        ensures nodes { result.now.nodes ≡ self.now.nodes }
        ensures scope { IsScopeOf result.now.scope self.now }
    {
        &self.parts.regions
    }

    /// The links: the matched ones, and those round blossoms.
    pub fn links(&self) -> &Links
        ensures { result.now ≡ self.now.links }
    {
        &self.parts.links
    }

    /// The leaves and blossoms.
    pub fn blossoms(&self) -> &Blossoms
        ensures { result.now ≡ self.now.store }
    {
        &self.parts.blossoms
    }

    /// Which outer nodes are matched, and which are not.
    pub fn matching(&self) -> &Matching
        ensures { result.now ≡ self.now.matching }
    {
        &self.parts.matching
    }

    /// The names of the unmatched nodes.
    pub fn unmatched(&self) -> &[NodeId]
        ensures { result.now ≡ self.now.matching.unmatched }
    {
        self.parts.matching.unmatched()
    }

    /// The shot's defects at the part's real vertices, rising.
    pub fn defects(&self) -> &[u32]
        ensures { result.now ≡ shot_defects self.now }
    {
        &self.parts.defects
    }

    /// The numbers of the matched links.
    pub fn matches(&self) -> &[LinkId]
        ensures { result.now ≡ match_links self.now.matching.matches }
    {
        self.parts.matching.links()
    }

    /// A unit's part before any search: each shifted defect of the shot at a vertex of the unit is a node of radius 0, and
    /// none is matched. Takes time for each defect of the shot and each vertex that shifts one within the unit's reach, for
    /// the logarithm of all, and for each 512 vertices of the graph.
    pub fn begin(
        alloc: Global,
        job: &'a Job<'a>,
        slot: u32,
        node: u32,
    ) -> Result<Work<'a>, NoMemory>
        requires slot { slot < length job.now.shots }
        requires unit { node < job.now.plan.units }
        ensures { IfOk result (λ w. IsBegun job.now slot node w) }
    {
        Work::begin_on(alloc, job, slot, node, &mut Vec::new(alloc))
    }

    /// The same as `begin`, in the last of the spares, which are the rooms of parts that are no longer used. With that of a part
    /// of the same graph it takes no time for the graph's vertices. A unit without a shifted defect leaves the spares as they
    /// are: its new room takes no memory but the box of its pieces.
    pub fn begin_on(
        alloc: Global,
        job: &'a Job<'a>,
        slot: u32,
        node: u32,
        spares: &mut Vec<Spare>,
    ) -> Result<Work<'a>, NoMemory>
        requires slot { slot < length job.now.shots }
        requires unit { node < job.now.plan.units }
        ensures { IfOk result (λ w. IsBegun job.now slot node w) }
    {
        job.keeps();
        let own = defects_at(alloc, job, slot, node)?;
        let NodeDefects { given, shifted } = own;
        let spare = spare_for(spares, &shifted);
        let mut parts = empty_parts(alloc, job, slot, node, spare)?;
        start(alloc, &mut *parts, &shifted)?;
        state_begins();
        parts.defects = given;
        Ok(Work { parts })
    }

    /// The part of a fusion, made of its children's solved parts (Wu and Zhong 2023): all their cuts, and all their links
    /// but those of matches to vertices that the fusion owns. The nodes of these matches and the shifted defects that the
    /// fusion owns are unmatched: first the left part's nodes, then the right part's, then the defects in rising order. Takes
    /// time for the nodes that are or were matched to those vertices, for the defects of a part without nodes, if there is
    /// one, and else for the right part, for the other part's defects above the least one that is added, for each defect of
    /// the shot and each vertex that shifts one within the fusion's reach, and for the logarithm of all; if neither part has
    /// nodes, with the first node also for each 512 vertices of the graph.
    pub fn merge(
        alloc: Global,
        job: &'a Job<'a>,
        node: u32,
        left: Half<'a>,
        right: Half<'a>,
    ) -> Result<Work<'a>, NoMemory>
        requires left { left.job ≡ job.now }
        requires right { right.job ≡ job.now }
        requires slot { left.slot ≡ right.slot }
        requires children { children_of job.now.plan node ≡ Some (left.node, right.node) }
        ensures { IfOk result (λ w. IsMerged job.now node left.entry right.entry w) }
    {
        Work::merge_with_spare(alloc, job, node, left, right, &mut Vec::new(alloc))
    }

    /// The same as `merge`. If both parts have nodes, the room that is left of the right one is added to the spares.
    pub fn merge_with_spare(
        alloc: Global,
        job: &'a Job<'a>,
        node: u32,
        left: Half<'a>,
        right: Half<'a>,
        spares: &mut Vec<Spare>,
    ) -> Result<Work<'a>, NoMemory>
        requires left { left.job ≡ job.now }
        requires right { right.job ≡ job.now }
        requires slot { left.slot ≡ right.slot }
        requires children { children_of job.now.plan node ≡ Some (left.node, right.node) }
        ensures { IfOk result (λ w. IsMerged job.now node left.entry right.entry w) }
    {
        job.keeps();
        left.keeps();
        right.keeps();
        let scope = job.scope(left.slot(), node);
        let left = left.into_parts();
        let right = right.into_parts();
        scope.limits();
        let mut parts = joined(alloc, &scope, left, right, spares)?;
        open_seam(alloc, &mut *parts)?;
        Ok(Work { parts })
    }
}
