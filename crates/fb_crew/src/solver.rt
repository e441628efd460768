//! The solver as the hands of workers.

ghost use Rattle.std.specs.Prelude.{◌≡◌, ◌≢◌, ◌<◌, Some, None, length, IfOk, IfSome, IfNone};
ghost use Rattle.fb_half.specs.Parts.{IsPartOf};
ghost use Rattle.fb_plan.specs.Plans.{children_of, root_of};
ghost use Rattle.fb_crew.specs.InternalSolved.{IsFoundAt, item_at, item_of, shot_at};
ghost use Rattle.fb_crew.specs.Windows.{IsShotRow};

use fb_book::Piece;
use fb_fuse::fuse_from;
use fb_graph::{Graph, NoMemory, Row, Steps, Whole};
use fb_half::{Half, Spare};
use fb_hands::Hands;
use fb_plan::Job;
use fb_resolve::resolve;
use fb_search::Scratch;
use fb_unit::solve_unit_from;
use std::alloc::Global;
use std::marker::{Brand, Model};
use std::sync::ledger::{Blank, Ledger};

/// A solved item of a job: what its worker posts, and what waits until the item above it takes it.
#[derive(Drop)]
pub struct Solved<'a> {
    job: &'a Job<'a>,
    slot: u32,
    node: u32,
    found: Found<'a>,
}

/// What is kept of a solved item. Nothing is fused with the plan's root, so only the room of its part is kept, in the
/// worker's tools. A row is in a box, as a part is by itself, since a book has room for a piece at each item.
#[derive(Drop)]
enum Found<'a> {
    /// The part of a node below the root.
    Part(Half<'a>),
    /// The row of the root's shot.
    Row(Box<Row, Global>),
}

impl<'a> Model for Solved<'a> {
    ghost use Rattle.fb_crew.specs.InternalSolved.{IsFoundAt, SolvedValue};

    ghost Value = { SolvedValue };

    ghost view = { λ s. record { job = s.job.now; slot = s.slot; node = s.node } };

    ghost invariant = { λ s. IsFoundAt (record { job = s.job.now; slot = s.slot; node = s.node }) s.found };
}

impl<'a> Solved<'a> {
    /// The solved item of this part: at the root the row of its shot, elsewhere the part. The tools keep the room of the
    /// root's.
    fn of(alloc: Global, tools: &mut Tools, half: Half<'a>) -> Result<Solved<'a>, NoMemory>
        ensures { IfOk result (λ s. s ≡ item_of half.entry) }
    {
        let (job, slot, node) = (half.job(), half.slot(), half.node());
        if node != job.plan().root() {
            return Ok(Solved {
                job,
                slot,
                node,
                found: Found::Part(half),
            });
        }
        let row = row_of(alloc, &half);
        tools.keep_root(half);
        let found = Found::Row(row?);
        Ok(Solved {
            job,
            slot,
            node,
            found,
        })
    }

    /// The item's part, unless the item is the root's.
    pub fn part(&self) -> Option<&Half<'a>>
        ensures part { IfSome result (λ half. IsPartOf self.now.job self.now.slot self.now.node half.now) }
        ensures root { IfNone result (self.now.node ≡ root_of self.now.job.plan) }
    {
        match &self.found {
            Found::Part(half) => Some(half),
            Found::Row(_) => None,
        }
    }

    /// The part of a node below the root.
    fn into_half(self) -> Half<'a>
        requires { self.node ≢ root_of self.job.plan }
        ensures { IsPartOf self.entry.job self.entry.slot self.entry.node result }
    {
        let Solved { found, .. } = self;
        match found {
            Found::Part(half) => half,
            Found::Row(_) => unreachable!(),
        }
    }

    /// The row of the root's shot.
    pub fn into_row(self) -> Row
        requires { self.node ≡ root_of self.job.plan }
        ensures { IsShotRow self.entry.job.graph (shot_at self.entry) result }
    {
        let Solved { found, .. } = self;
        match found {
            Found::Row(row) => Box::into_inner(row),
            Found::Part(_) => unreachable!(),
        }
    }
}

/// The row of the shot of a solved root.
fn row_of(alloc: Global, half: &Half<'_>) -> Result<Box<Row, Global>, NoMemory>
    requires { half.now.node ≡ root_of half.now.job.plan }
    ensures { IfOk result (λ row. IsShotRow half.now.job.graph (shot_at (item_of half.now)) row.value) }
{
    let row = resolve(alloc, half)?;
    Ok(Box::new(alloc, row)?)
}

impl<'a> Piece for Solved<'a> {
    ghost use Rattle.std.specs.Prelude.{None};

    ghost job_of = { λ p. p.job };

    ghost slot_of = { λ p. p.slot };

    ghost node_of = { λ p. p.node };

    ghost made_of = { λ p. None };

    fn slot(&self) -> u32 {
        self.slot
    }

    fn node(&self) -> u32 {
        self.node
    }
}

/// The most parts whose room a worker keeps: more than it has at once with a balanced plan of the most units that a plan may
/// have.
const MOST_SPARES: usize = 16;

/// The most nodes of a root whose room is kept. To empty a larger one would cost as much as it once held, for a small shot
/// too.
const MOST_KEPT_NODES: usize = 1_024;

/// What a worker has done with its tools: units solved, fusions made, and the searches of both that have matched their
/// roots. A count stays at its greatest number.
#[derive(Clone, Copy)]
pub struct Counts {
    pub units: u64,
    pub unit_searches: u64,
    pub fusions: u64,
    pub fusion_searches: u64,
}

/// What a worker keeps from one part to the next, so that less memory is taken anew: the scratch space of its
/// searches, and the room of roots that it has solved and of right parts that it has fused. They count what is done with
/// them.
#[derive(Drop)]
pub struct Tools {
    /// None at first, and if memory ran out while it was lent.
    scratch: Option<Scratch>,
    /// The number of edges that it is for.
    edges: u32,
    /// At most `MOST_SPARES`. The last one goes to the next unit that has a defect.
    spares: Vec<Spare>,
    counts: Counts,
}

impl Model for Tools {
    ghost use Rattle.std.specs.Prelude.{ℕ, ◌≡◌, IfSome};

    ghost Value = { ℕ };

    ghost view = { λ t. t.edges };

    ghost invariant = { λ t. IfSome t.scratch (λ s. s.edge_count ≡ t.edges) };
}

impl Tools {
    /// Tools with nothing in them yet.
    pub fn new(alloc: Global) -> Tools {
        Tools {
            scratch: None,
            edges: 0,
            spares: Vec::new(alloc),
            counts: Counts {
                units: 0,
                unit_searches: 0,
                fusions: 0,
                fusion_searches: 0,
            },
        }
    }

    /// What has been done with them.
    pub fn counts(&self) -> Counts {
        self.counts
    }

    /// Keeps the room of a part for another one, unless there is enough already or no memory to list it.
    fn keep(&mut self, spare: Spare)
        ensures { self.new ≡ self.old }
    {
        if self.spares.len() < MOST_SPARES {
            let _kept = self.spares.push(spare);
        } else {
            drop(spare);
        }
    }

    /// Keeps the room of a solved root, unless that has no nodes or many.
    fn keep_root(&mut self, half: Half<'_>)
        ensures { self.new ≡ self.old }
    {
        if has_nodes(&half) && has_few_nodes(&half) {
            self.keep(half.into_spare());
        } else {
            drop(half);
        }
    }

    /// Scratch space for searches over the edges of a graph.
    fn lend(&mut self, alloc: Global, graph: &Graph) -> Result<Scratch, NoMemory>
        ensures { IfOk result (λ s. s.edge_count ≡ length graph.now.edges) }
    {
        if self.edges == graph.edge_count() {
            if let Some(scratch) = self.scratch.take() {
                return Ok(scratch);
            }
        }
        Scratch::new(alloc, &Whole(graph))
    }

    /// Counts a unit and its searches.
    fn count_unit(&mut self, searches: u64)
        ensures { self.new ≡ self.old }
    {
        self.counts.units = self.counts.units.saturating_add(1);
        self.counts.unit_searches = self.counts.unit_searches.saturating_add(searches);
    }

    /// Counts a fusion and its searches.
    fn count_fusion(&mut self, searches: u64)
        ensures { self.new ≡ self.old }
    {
        self.counts.fusions = self.counts.fusions.saturating_add(1);
        self.counts.fusion_searches = self.counts.fusion_searches.saturating_add(searches);
    }

    /// Takes the scratch space for the edges of a graph back.
    fn put_back(&mut self, scratch: Scratch, graph: &Graph)
        requires { scratch.edge_count ≡ length graph.now.edges }
    {
        self.edges = graph.edge_count();
        self.scratch = Some(scratch);
    }
}

/// What solves the parts of a job.
#[derive(Clone, Copy)]
pub struct Solver<'a> {
    job: &'a Job<'a>,
}

impl<'a> Solver<'a> {
    /// What solves the parts of this job.
    pub fn new(job: &'a Job<'a>) -> Solver<'a>
        ensures { result.job.now ≡ job.entry.now }
    {
        Solver { job }
    }
}

impl<'a> Hands<Solved<'a>, Tools> for Solver<'a> {
    ghost job = { λ s. s.job.now };

    fn unit(
        &self,
        alloc: Global,
        tools: &mut Tools,
        slot: u32,
        node: u32,
    ) -> Result<Solved<'a>, NoMemory> {
        let half = unit_by::<Brand>(alloc, self.job, tools, slot, node, Blank::new(1))?;
        Solved::of(alloc, tools, half)
    }

    fn fusion(
        &self,
        alloc: Global,
        tools: &mut Tools,
        _slot: u32,
        node: u32,
        left: Solved<'a>,
        right: Solved<'a>,
    ) -> Result<Solved<'a>, NoMemory> {
        self.job.keeps();
        let (left, right) = (left.into_half(), right.into_half());
        let half = fusion_by::<Brand>(alloc, self.job, tools, node, left, right, Blank::new(1))?;
        Solved::of(alloc, tools, half)
    }
}

/// The part of a unit. The tools count it and its searches.
fn unit_by<'a, L: Ledger>(
    alloc: Global,
    job: &'a Job<'a>,
    tools: &mut Tools,
    slot: u32,
    node: u32,
    blank: Blank,
) -> Result<Half<'a>, NoMemory>
    requires name { blank.name ≡ L.name }
    requires parts { blank.parts ≡ L.parts }
    requires some { 0 < blank.parts }
    requires slot { slot < length job.now.shots }
    requires unit { node < job.now.plan.units }
    ensures { IfOk result (IsPartOf job.now slot node) }
{
    let scratch = tools.lend(alloc, job.graph())?;
    let mut steps = Steps::<L>::new(blank);
    let before = scratch.matched();
    let (half, scratch) = solve_unit_from(
        alloc,
        job,
        slot,
        node,
        &mut tools.spares,
        scratch,
        &mut steps,
    )?;
    tools.count_unit(scratch.matched().saturating_sub(before));
    tools.put_back(scratch, job.graph());
    Ok(half)
}

/// The part of a fusion. The tools count it and its searches.
fn fusion_by<'a, L: Ledger>(
    alloc: Global,
    job: &'a Job<'a>,
    tools: &mut Tools,
    node: u32,
    left: Half<'a>,
    right: Half<'a>,
    blank: Blank,
) -> Result<Half<'a>, NoMemory>
    requires name { blank.name ≡ L.name }
    requires parts { blank.parts ≡ L.parts }
    requires some { 0 < blank.parts }
    requires left { left.job ≡ job.now }
    requires right { right.job ≡ job.now }
    requires slot { left.slot ≡ right.slot }
    requires children { children_of job.now.plan node ≡ Some (left.node, right.node) }
    ensures { IfOk result (IsPartOf job.now left.entry.slot node) }
{
    let scratch = tools.lend(alloc, job.graph())?;
    let mut steps = Steps::<L>::new(blank);
    let before = scratch.matched();
    let (half, scratch) = fuse_from(
        alloc,
        job,
        node,
        left,
        right,
        &mut tools.spares,
        scratch,
        &mut steps,
    )?;
    tools.count_fusion(scratch.matched().saturating_sub(before));
    tools.put_back(scratch, job.graph());
    tools.spares.truncate(MOST_SPARES);
    Ok(half)
}

/// Whether a part has nodes: one that never had any has no room either.
fn has_nodes(half: &Half<'_>) -> bool {
    half.regions().len() > 0
}

/// Whether a part has at most `MOST_KEPT_NODES` nodes.
fn has_few_nodes(half: &Half<'_>) -> bool {
    half.regions().len() <= MOST_KEPT_NODES
}
