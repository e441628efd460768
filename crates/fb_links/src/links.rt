ghost use Rattle.std.specs.Prelude.{◌≡◌, ◌<◌, ◌^◌, ℕ, true, List, [], length, reverse, vec_capacity, Some, All, IfOk, OnOk, OnErr};
ghost use Rattle.fb_links.specs.declared.walk.Step.{Step};
ghost use Rattle.fb_links.specs.Walks.{walk_weight, start_of, end_of, share_end, joined_walk};
ghost use Rattle.fb_links.specs.Table.{IsLink, Adds, Removes, is_live, link_at, walk_at};
ghost use Rattle.fb_links.specs.Merged.{AreMerged};
ghost use Rattle.fb_links.specs.InternalKept.{AreNumbered, IsEntry, IsPacked, Stores};

use crate::span::{Span, span_of};
use crate::steps::{copied, end_of, push_joined, start_of, weight_of};
use crate::{LinkId, NoMemory, Step, Walk};
use std::alloc::Global;
use std::marker::Model;
use std::mem;

/// Walks between vertices, each kept under a number. Contracts see them as the table of the walks by their numbers.
/// A call that returns `NoMemory` leaves them unchanged.
#[derive(Drop)]
pub struct Links {
    spans: Vec<Option<Span>>,
    /// The numbers in the table that no link has, with room for all numbers of the table.
    free: Vec<usize>,
    /// The steps of all walks, one walk after another. Those that no span has are of links that were forgotten.
    steps: Vec<Step>,
    /// How many of the steps are of links that were forgotten.
    unused: usize,
    /// Room for the steps of the next walk, which may hold those of the last one.
    buffer: Vec<Step>,
    /// Room for the spans and the steps when those of forgotten links are left out.
    spare_spans: Vec<Option<Span>>,
    spare_steps: Vec<Step>,
}

/// The table may have this many steps of forgotten links, however few it has of others.
const FEW_STEPS: usize = 64;

impl Model for Links {
    ghost use Rattle.std.specs.Prelude.{List, Option, reverse, vec_capacity};
    ghost use Rattle.fb_links.specs.declared.walk.Step.{Step};
    ghost use Rattle.fb_links.specs.InternalKept.{IsKept, walks_in};

    ghost Value = { List (Option (List Step)) };

    ghost view = { λ l. walks_in l.steps.items l.spans.items };

    ghost invariant = { λ l. IsKept l.steps.items l.spans.items (reverse l.free.items) (vec_capacity l.free) };
}

impl Links {
    /// The table without links.
    pub fn new(alloc: Global) -> Result<Links, NoMemory>
        ensures { IfOk result (λ links. links ≡ []) }
    {
        Ok(Links {
            spans: Vec::new(alloc),
            free: Vec::new(alloc),
            steps: Vec::new(alloc),
            unused: 0,
            buffer: Vec::new(alloc),
            spare_spans: Vec::new(alloc),
            spare_steps: Vec::new(alloc),
        })
    }

    /// The table without links, in the room of this one. Its time is that of the table's length. Takes no memory.
    pub fn into_empty(self) -> Links
        ensures { result ≡ [] }
    {
        let mut links = self;
        links.spans.clear();
        links.free.clear();
        links.steps.clear();
        links.unused = 0;
        links
    }

    /// Does nothing. Its clause states what holds of every link's walk.
    pub fn keeps(&self)
        ensures { (id : ℕ) (walk : List Step) → link_at self.now id ≡ Some walk → IsLink walk }
    {
        let _ = &self.spans;
    }

    /// An empty vector for the steps of the walk that is made a link next, with the room of the last one's. Takes no
    /// memory.
    pub fn take_buffer(&mut self, alloc: Global) -> Vec<Step>
        ensures empty { result.items ≡ [] }
        ensures unchanged { self.new ≡ self.old }
    {
        let mut steps = mem::replace(&mut self.buffer, Vec::new(alloc));
        steps.clear();
        steps
    }

    /// Makes the walk a link, under a number that no link has. Its time is that of the walk's steps, which are copied: their
    /// vector is what `take_buffer` lends next.
    pub fn make(&mut self, _alloc: Global, walk: Walk) -> Result<LinkId, NoMemory>
        requires some { 0 < length walk }
        requires light { walk_weight walk < 2 ^ 64 }
        ensures ok { IfOk result (λ id. Adds self.old self.new id walk) }
        ensures err { OnErr result (self.new ≡ self.old) }
    {
        // The vectors grow by the allocator that they were made with.
        walk.keeps();
        self.close_gaps()?;
        let made = self.put(walk.steps());
        self.buffer = walk.into_vec();
        made
    }

    /// Makes a further link of the walks of two links that share an end: from the other end of the first link over the
    /// shared end to the other end of the second. Both links stay.
    pub fn join_ends(&mut self, _alloc: Global, a: LinkId, b: LinkId) -> Result<LinkId, NoMemory>
        requires first { is_live self.old a ≡ true }
        requires second { is_live self.old b ≡ true }
        requires meet { share_end (walk_at self.old a) (walk_at self.old b) ≡ true }
        requires light { walk_weight (joined_walk (walk_at self.old a) (walk_at self.old b)) < 2 ^ 64 }
        ensures ok { IfOk result (λ id. Adds self.old self.new id (joined_walk (walk_at self.old a) (walk_at self.old b))) }
        ensures err { OnErr result (self.new ≡ self.old) }
    {
        self.close_gaps()?;
        self.put_joined(a, b)
    }

    /// Removes the link, whose number may then be used again. Takes constant time and no memory: a later call that adds a
    /// link leaves out the steps of those that were removed.
    pub fn forget(&mut self, link: LinkId)
        requires { is_live self.old link ≡ true }
        ensures { Removes self.old self.new link }
    {
        let span = span_of(&self.spans, link as usize);
        self.spans[link as usize] = None;
        self.free.push_reserved(link as usize);
        self.unused = self.unused.saturating_add(span.end - span.start);
        if self.free.len() == self.spans.len() {
            self.steps.clear();
            self.unused = 0;
        }
    }

    /// The left table with the right one's links, each under a number that no link of the left one has, and the pairs of
    /// their old and new numbers. Takes time proportional to the right table's length and its walks' steps.
    pub fn merged(
        alloc: Global,
        left: Links,
        right: Links,
    ) -> Result<(Links, Vec<(LinkId, LinkId)>), NoMemory>
        ensures { IfOk result (λ r. AreMerged left right r.1.items r.0) }
    {
        let (links, pairs, _spare) = Links::merged_with_spare(alloc, left, right)?;
        Ok((links, pairs))
    }

    /// The same, and the right table without links, in its room.
    pub fn merged_with_spare(
        alloc: Global,
        left: Links,
        right: Links,
    ) -> Result<(Links, Vec<(LinkId, LinkId)>, Links), NoMemory>
        ensures merged { IfOk result (λ r. AreMerged left right r.1.items r.0) }
        ensures spare { IfOk result (λ r. r.2 ≡ []) }
    {
        let mut links = left;
        let mut spare = right;
        let mut pairs = Vec::new(alloc);
        while let Some(entry) = spare.spans.pop() {
            if let Some(span) = entry {
                pairs.reserve(1)?;
                let new = links.put(span.of(&spare.steps))?;
                pairs.push_reserved((spare.spans.len() as LinkId, new));
            }
        }
        // By rising old numbers, as `names_of` takes them without sorting.
        pairs.reverse();
        spare.free.clear();
        spare.steps.clear();
        spare.unused = 0;
        Ok((links, pairs, spare))
    }

    /// The first and the last vertex of the link's walk.
    pub fn ends(&self, link: LinkId) -> (u32, u32)
        requires { is_live self.now link ≡ true }
        ensures { result ≡ (start_of (walk_at self.now link), end_of (walk_at self.now link)) }
    {
        let steps = self.steps(link);
        (start_of(steps), end_of(steps))
    }

    /// The steps of the link's walk.
    pub fn steps(&self, link: LinkId) -> &[Step]
        requires { is_live self.now link ≡ true }
        ensures { result.now ≡ walk_at self.now link }
    {
        span_of(&self.spans, link as usize).of(&self.steps)
    }

    /// A copy of the link's walk.
    pub fn walk(&self, alloc: Global, link: LinkId) -> Result<Walk, NoMemory>
        requires { is_live self.now link ≡ true }
        ensures { IfOk result (λ walk. walk ≡ walk_at self.now link) }
    {
        self.keeps();
        let steps = copied(alloc, self.steps(link))?;
        Ok(Walk::from_vec(steps))
    }

    /// The sum of the weights of the link's steps.
    pub fn weight(&self, link: LinkId) -> u64
        requires { is_live self.now link ≡ true }
        ensures { result ≡ walk_weight (walk_at self.now link) }
    {
        span_of(&self.spans, link as usize).weight
    }

    /// Adds a copy of the walk, under a number that no link has.
    fn put(&mut self, walk: &[Step]) -> Result<LinkId, NoMemory>
        requires { IsLink walk.now }
        ensures ok { IfOk result (λ id. Adds self.old self.new id walk.now) }
        ensures err { OnErr result (self.new ≡ self.old) }
    {
        let start = self.steps.len();
        self.steps.extend_from_slice(walk)?;
        let span = Span {
            start,
            end: self.steps.len(),
            weight: weight_of(walk),
        };
        let id = store(&mut self.spans, &mut self.free, span)?;
        Ok(id as LinkId)
    }

    /// Adds the joined walk of the two links, under a number that no link has.
    fn put_joined(&mut self, a: LinkId, b: LinkId) -> Result<LinkId, NoMemory>
        requires first { is_live self.old a ≡ true }
        requires second { is_live self.old b ≡ true }
        requires meet { share_end (walk_at self.old a) (walk_at self.old b) ≡ true }
        requires light { walk_weight (joined_walk (walk_at self.old a) (walk_at self.old b)) < 2 ^ 64 }
        ensures ok { IfOk result (λ id. Adds self.old self.new id (joined_walk (walk_at self.old a) (walk_at self.old b))) }
        ensures err { OnErr result (self.new ≡ self.old) }
    {
        let first = span_of(&self.spans, a as usize);
        let second = span_of(&self.spans, b as usize);
        let start = self.steps.len();
        push_joined(&mut self.steps, first, second)?;
        let joined = Span {
            start,
            end: self.steps.len(),
            weight: first.weight + second.weight,
        };
        let id = store(&mut self.spans, &mut self.free, joined)?;
        Ok(id as LinkId)
    }

    /// Leaves out the steps of forgotten links if they are more than half of the table's, so that this takes constant time
    /// for each step that was added. The links stay, with their numbers.
    fn close_gaps(&mut self) -> Result<(), NoMemory>
        ensures { self.new ≡ self.old }
    {
        if self.unused <= FEW_STEPS || self.unused <= self.steps.len() / 2 {
            return Ok(());
        }
        self.spare_spans.clear();
        self.spare_steps.clear();
        pack(
            &self.spans,
            &self.steps,
            &mut self.spare_spans,
            &mut self.spare_steps,
        )?;
        mem::swap(&mut self.spans, &mut self.spare_spans);
        mem::swap(&mut self.steps, &mut self.spare_steps);
        self.unused = 0;
        Ok(())
    }
}

/// Copies the walks of the spans to another table, one after another.
fn pack(
    spans: &[Option<Span>],
    steps: &[Step],
    new_spans: &mut Vec<Option<Span>>,
    new_steps: &mut Vec<Step>,
) -> Result<(), NoMemory>
    requires entries { All (IsEntry steps.now) spans.now }
    requires no_spans { new_spans.old.items ≡ [] }
    ensures { OnOk result (IsPacked steps.now spans.now new_steps.new.items new_spans.new.items) }
{
    for entry in spans {
        let Some(span) = entry else {
            new_spans.push(None)?;
            continue;
        };
        let start = new_steps.len();
        new_steps.extend_from_slice(span.of(steps))?;
        new_spans.push(Some(Span {
            start,
            end: new_steps.len(),
            weight: span.weight,
        }))?;
    }
    Ok(())
}

/// Stores the span under a number that no link has: the one freed last, if any is free.
fn store(
    spans: &mut Vec<Option<Span>>,
    free: &mut Vec<usize>,
    span: Span,
) -> Result<usize, NoMemory>
    requires { AreNumbered spans.old.items (reverse free.old.items) (vec_capacity free.old) }
    ensures numbers { AreNumbered spans.new.items (reverse free.new.items) (vec_capacity free.new) }
    ensures ok { IfOk result (λ id. Stores spans.old.items spans.new.items id span) }
    ensures err { OnErr result (spans.new.items ≡ spans.old.items) }
{
    if let Some(id) = free.pop() {
        spans[id] = Some(span);
        return Ok(id);
    }
    let id = spans.len();
    free.reserve(id + 1)?;
    spans.reserve(1)?;
    spans.push_reserved(Some(span));
    Ok(id)
}
