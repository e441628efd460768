ghost use Rattle.std.specs.Prelude.{◌≡◌, []};
ghost use Rattle.fb_graph.specs.Certificate.{IsPacking};
ghost use Rattle.fb_graph.specs.Laws.{IsSolved, odd_edges};
ghost use Rattle.fb_laws.specs.OpenedLinks.{opened_links};
ghost use Rattle.fb_laws.specs.Works.{positive_cuts};
ghost use Rattle.fb_half.specs.Beginnings.{shot_defects};
ghost use Rattle.fb_half.specs.Matchings.{match_links};
ghost use Rattle.fb_half.specs.Parts.{IsPart, problem_in, state_of};
ghost use Rattle.fb_half.specs.Values.{HasScope, IsScopeOf, part_of};

use crate::matching::Matching;
use crate::parts::Parts;
use crate::spare::Spare;
use fb_blossoms::Blossoms;
use fb_laws::{half_opened, part_solved};
use fb_links::{LinkId, Links};
use fb_plan::{Job, NodeScope};
use fb_regions::Regions;
use std::alloc::Global;
use std::marker::Model;

/// A node of a plan with a shot, solved as if the plan ended there: a half-solved part with nothing unmatched. Its pieces
/// stand in a box, so that it moves as one pointer.
#[derive(Drop)]
pub struct Half<'a> {
    parts: Box<Parts<'a>, Global>,
}

impl<'a> Model for Half<'a> {
    ghost use Rattle.std.specs.Prelude.{◌≡◌, []};
    ghost use Rattle.fb_half.specs.Parts.{PartValue, IsPart};
    ghost use Rattle.fb_half.specs.Values.{HasScope, part_of};

    ghost Value = { PartValue };

    ghost view = { λ h. part_of h.parts.value };

    ghost invariant = { λ h. HasScope h.parts.value × IsPart (part_of h.parts.value) × (h.parts.value.matching.unmatched ≡ []) };
}

impl<'a> Half<'a> {
    /// Does nothing. Its clauses say what every solved part keeps. The cuts of its nodes that have a value are odd cuts of
    /// the sub-problem of its node, within the weights of all edges; with them the edges that lie on an odd number of its
    /// links once all blossoms are opened solve the sub-problem.
    pub fn keeps(&self)
        ensures part { IsPart self.now }
        ensures matched { self.now.matching.unmatched ≡ [] }
        ensures packing { IsPacking (problem_in self.now) (positive_cuts self.now.nodes) }
        ensures solved { IsSolved (problem_in self.now) (positive_cuts self.now.nodes) (odd_edges (problem_in self.now) (opened_links (state_of self.now))) }
    {
        let _parts = &self.parts;
        half_opened();
        part_solved();
    }

    /// The part made of these pieces.
    pub(crate) fn of(parts: Box<Parts<'a>, Global>) -> Half<'a>
        requires scope { HasScope parts.value }
        requires part { IsPart (part_of parts.value) }
        requires matched { parts.value.matching.unmatched ≡ [] }
        ensures { result ≡ part_of parts.entry.value }
    {
        Half { parts }
    }

    /// Its pieces, in their box.
    pub fn into_parts(self) -> Box<Parts<'a>, Global>
        ensures value { part_of result.value ≡ self.entry }
        ensures scope { HasScope result.value }
    {
        let Half { parts } = self;
        parts
    }

    /// The part's room, for another part. Its time is that of the most that the room ever held. Takes no memory.
    pub fn into_spare(self) -> Spare {
        let Half { parts } = self;
        Spare::of(Box::into_inner(parts))
    }

    /// The job.
    pub fn job(&self) -> &'a Job<'a>
        ensures { result.now ≡ self.now.job }
    {
        self.parts.job.0
    }

    /// Which shot of the job.
    pub fn slot(&self) -> u32
        ensures { result ≡ self.now.slot }
    {
        self.parts.slot
    }

    /// Which node of the job's plan.
    pub fn node(&self) -> u32
        ensures { result ≡ self.now.node }
    {
        self.parts.node
    }

    /// The dual state.
    pub fn regions(&self) -> &Regions<NodeScope<'a>>
        ensures nodes { result.now.nodes ≡ self.now.nodes }
        ensures scope { IsScopeOf result.now.scope self.now }
    {
        &self.parts.regions
    }

    /// The links: the matched ones, and those round blossoms.
    pub fn links(&self) -> &Links
        ensures { result.now ≡ self.now.links }
    {
        &self.parts.links
    }

    /// The leaves and blossoms.
    pub fn blossoms(&self) -> &Blossoms
        ensures { result.now ≡ self.now.store }
    {
        &self.parts.blossoms
    }

    /// Which outer nodes are matched, and by which links.
    pub fn matching(&self) -> &Matching
        ensures { result.now ≡ self.now.matching }
    {
        &self.parts.matching
    }

    /// The shot's defects at the part's real vertices, rising.
    pub fn defects(&self) -> &[u32]
        ensures { result.now ≡ shot_defects self.now }
    {
        &self.parts.defects
    }

    /// The numbers of the matched links.
    pub fn matches(&self) -> &[LinkId]
        ensures { result.now ≡ match_links self.now.matching.matches }
    {
        self.parts.matching.links()
    }
}
