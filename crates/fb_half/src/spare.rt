ghost use Rattle.std.specs.Prelude.{◌≡◌, ◌≢◌, ◌<◌, ◌++◌, [], length, option_to_list, IfOk, IsNone};
ghost use Rattle.fb_half.specs.InternalBeginnings.{empty_part};
ghost use Rattle.fb_half.specs.Values.{IsScopeOf, part_of};
ghost use Rattle.fb_regions.specs.Paces.{IsAtRest};

use crate::matching::Matching;
use crate::parts::{PartJob, Parts};
use crate::seams::Seams;
use fb_blossoms::Blossoms;
use fb_graph::NoMemory;
use fb_links::Links;
use fb_plan::{Job, NodeScope};
use fb_regions::{Regions, SpareRegions};
use std::alloc::Global;
use std::marker::Model;

/// The room of a part that is no longer used, for another part.
#[derive(Drop)]
pub struct Spare {
    regions: SpareRegions,
    tables: EmptyTables,
    matching: Matching,
}

impl Model for Spare {
    ghost use Rattle.std.specs.Prelude.{◌≡◌, []};

    ghost Value = { Unit {0} };

    ghost view = { λ s. tt };

    ghost invariant = { λ s. s.matching ≡ record { matches = []; unmatched = [] } };
}

impl Spare {
    /// The room of these pieces, emptied. Takes no memory.
    pub(crate) fn of(parts: Parts<'_>) -> Spare {
        Spare {
            regions: parts.regions.into_spare(),
            tables: EmptyTables {
                links: parts.links.into_empty(),
                blossoms: parts.blossoms.into_empty(),
                seams: parts.seams.into_empty(),
            },
            matching: parts.matching.into_empty(),
        }
    }

    /// The room of a part whose nodes another part has taken over: its dual state's and its tables', and that of its matching,
    /// emptied.
    pub(crate) fn beside(regions: SpareRegions, tables: EmptyTables, matching: Matching) -> Spare {
        Spare {
            regions,
            tables,
            matching: matching.into_empty(),
        }
    }
}

/// The links, the blossoms and the index of a part without nodes.
#[derive(Drop)]
pub(crate) struct EmptyTables {
    links: Links,
    blossoms: Blossoms,
    seams: Seams,
}

impl Model for EmptyTables {
    ghost use Rattle.std.specs.Prelude.{◌≡◌, []};

    ghost Value = { Unit {0} };

    ghost view = { λ s. tt };

    ghost invariant = { λ s. (s.links ≡ []) × (s.blossoms ≡ []) };
}

impl EmptyTables {
    /// New tables. Takes no memory.
    fn new(alloc: Global) -> Result<EmptyTables, NoMemory> {
        let links = Links::new(alloc)?;
        let blossoms = Blossoms::new(alloc)?;
        Ok(EmptyTables::on(alloc, links, blossoms))
    }

    /// These tables, and a new index. Takes no memory.
    pub(crate) fn on(alloc: Global, links: Links, blossoms: Blossoms) -> EmptyTables
        requires links { links ≡ [] }
        requires blossoms { blossoms ≡ [] }
    {
        EmptyTables {
            links,
            blossoms,
            seams: Seams::new(alloc),
        }
    }
}

/// The last of the spares, which it loses, if there is a defect that needs room.
pub(crate) fn spare_for(spares: &mut Vec<Spare>, defects: &[u32]) -> Option<Spare>
    ensures none { defects.now ≡ [] → IsNone result × (spares.new.items ≡ spares.old.items) }
    ensures last { defects.now ≢ [] → (spares.old.items ≡ spares.new.items ++ option_to_list result) × (IsNone result → spares.old.items ≡ []) }
{
    if defects.is_empty() {
        return None;
    }
    spares.pop()
}

/// The pieces of a part without nodes, in the spare's room if there is one, else in new room.
pub(crate) fn empty_parts<'a>(
    alloc: Global,
    job: &'a Job<'a>,
    slot: u32,
    node: u32,
    spare: Option<Spare>,
) -> Result<Box<Parts<'a>, Global>, NoMemory>
    requires slot { slot < length job.now.shots }
    ensures value { IfOk result (λ p. part_of p.value ≡ empty_part job.now slot node) }
    ensures scope { IfOk result (λ p. IsScopeOf p.value.regions.scope (part_of p.value)) }
    ensures rest { IfOk result (λ p. IsAtRest p.value.regions) }
{
    let scope = job.scope(slot, node);
    match spare {
        Some(spare) => {
            let regions = Regions::on(alloc, spare.regions, &scope)?;
            boxed(alloc, job, slot, regions, spare.tables, spare.matching)
        }
        None => {
            let regions = Regions::new(alloc, &scope)?;
            let tables = EmptyTables::new(alloc)?;
            boxed(alloc, job, slot, regions, tables, Matching::new(alloc))
        }
    }
}

/// The pieces of a part of the scope's node, of an empty dual state, empty tables and an empty matching.
fn boxed<'a>(
    alloc: Global,
    job: &'a Job<'a>,
    slot: u32,
    regions: Regions<NodeScope<'a>>,
    tables: EmptyTables,
    matching: Matching,
) -> Result<Box<Parts<'a>, Global>, NoMemory>
    requires matching { matching ≡ record { matches = []; unmatched = [] } }
    ensures value { IfOk result (λ p. part_of p.value ≡ record (empty_part job.entry.now slot regions.entry.scope.node) { nodes = regions.entry.nodes }) }
    ensures regions { IfOk result (λ p. p.value.regions ≡ regions.entry) }
{
    let node = regions.scope().node;
    let EmptyTables {
        links,
        blossoms,
        seams,
    } = tables;
    let parts = Box::new(
        alloc,
        Parts {
            regions,
            links,
            blossoms,
            matching,
            seams,
            defects: Vec::new(alloc),
            job: PartJob(job),
            slot,
            node,
        },
    )?;
    Ok(parts)
}
