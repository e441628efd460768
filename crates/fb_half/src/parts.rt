ghost use Rattle.std.specs.Prelude.{◌≡◌};
ghost use Rattle.fb_half.specs.Values.{part_of};

use crate::matching::Matching;
use crate::seams::Seams;
use fb_blossoms::Blossoms;
use fb_links::Links;
use fb_plan::{Job, NodeScope};
use fb_regions::Regions;

/// The job of a part. It is a type of its own since contracts lose what is written through a box whose value has a plain
/// reference to a type with a lifetime.
#[derive(Clone, Copy)]
pub struct PartJob<'a>(pub(crate) &'a Job<'a>);

/// The pieces that a half-solved part is made of, so that each can be changed by itself. `Work` has what they keep together
/// as its invariant.
#[derive(Drop)]
pub struct Parts<'a> {
    pub regions: Regions<NodeScope<'a>>,
    pub links: Links,
    pub blossoms: Blossoms,
    pub matching: Matching,
    pub seams: Seams,
    /// The shot's defects at the part's real vertices, rising.
    pub(crate) defects: Vec<u32>,
    pub(crate) job: PartJob<'a>,
    pub(crate) slot: u32,
    pub(crate) node: u32,
}

impl<'a> Parts<'a> {
    /// The job.
    pub fn job(&self) -> &'a Job<'a>
        ensures { result.now ≡ (part_of self.now).job }
    {
        self.job.0
    }

    /// Which node of the job's plan.
    pub fn node(&self) -> u32
        ensures { result ≡ (part_of self.now).node }
    {
        self.node
    }
}
