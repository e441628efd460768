//! The check of a row.

ghost use Rattle.std.specs.Prelude.{◌≡◌, ◌<◌, ◌↔◌, All, IfOk, IfSome, length};
ghost use Rattle.fb_graph.specs.Answers.{IsRight};
ghost use Rattle.fb_graph.specs.Certificate.{AreDistinct};
ghost use Rattle.fb_graph.specs.Components.{IsFirstOdd};
ghost use Rattle.fb_graph.specs.Leasts.{least};
ghost use Rattle.fb_graph.specs.Limits.{IsShot, problem_of};
ghost use Rattle.fb_graph.specs.Signs.{solved_problem};
ghost use Rattle.fb_verify.specs.Verdicts.{HasPositiveValues, IsLeastWeight, IsOddVerdict, IsVerdict, certificate_fault, choice_fault, is_overloaded, sums_fault};
ghost use Rattle.fb_verify.specs.declared.verdicts.Verdict.TheVariants.{Good};

use crate::cuts::first_cut_fault;
use crate::load_table::LoadTable;
use crate::loads::{overloaded, overloaded_by};
use crate::numbers::{beyond, fall};
use crate::parities::wrong_parity;
use crate::sums::{sum_of_values, sum_of_weights};
use crate::verdicts::Verdict;
use fb_graph::{Components, CutList, Graph, NoMemory, Row, Shot, Whole, components, first_odd};
use std::alloc::Global;
use std::marker::Model;

/// What a check finds of the row of a shot: the first rule that it breaks, or that it is right, by what the edges weigh
/// for the shot. A row of a correction takes time by its own length, the number of defects and that of the edges at its
/// cuts' vertices, and looks up a weight for each; an odd row takes time by the size of the graph. For many rows of one
/// graph, a `Judge` looks at the graph once.
pub fn check_row(alloc: Global, graph: &Graph, shot: &Shot, row: &Row) -> Result<Verdict, NoMemory>
    requires shot { IsShot graph.now shot.now }
    requires values { HasPositiveValues row.now }
    ensures verdict { IfOk result (IsVerdict graph.now shot.now row.now) }
    ensures good { IfOk result (λ v. (v ≡ Good) ↔ IsRight graph.now shot.now row.now) }
    ensures least { IfOk result (λ v. v ≡ Good → IsLeastWeight graph.now shot.now row.now) }
{
    Judge::new(graph).check_row(alloc, shot, row)
}

/// A check of the rows of one graph, which contracts see as that graph. Its components are found for the first odd
/// row and kept, so that each further one takes time by the number of defects. A table of its edges, of 16 bytes each,
/// is made for the second certificate and kept, so that loads are added up without a sort.
#[derive(Drop)]
pub struct Judge<'a> {
    graph: &'a Graph,
    parts: Option<Components<Whole<'a>>>,
    /// Whether a certificate's loads were added up before.
    has_added: bool,
    loads: Option<LoadTable>,
}

impl<'a> Model for Judge<'a> {
    ghost use Rattle.std.specs.Prelude.{◌≡◌, IfSome, length};
    ghost use Rattle.fb_graph.specs.Limits.{DecodingGraph};

    ghost Value = { DecodingGraph };

    ghost view = { λ j. j.graph.now };

    ghost invariant = { λ j. IfSome j.parts (λ parts. parts.0.now ≡ j.graph.now)
        × IfSome j.loads (λ loads. loads ≡ length j.graph.now.edges) };
}

impl<'a> Judge<'a> {
    /// A check of the rows of the graph. Takes no time.
    pub fn new(graph: &'a Graph) -> Judge<'a>
        ensures { result ≡ graph.now }
    {
        Judge {
            graph,
            parts: None,
            has_added: false,
            loads: None,
        }
    }

    /// As the function `check_row`, for the judge's graph.
    pub fn check_row(&mut self, alloc: Global, shot: &Shot, row: &Row) -> Result<Verdict, NoMemory>
        requires shot { IsShot self.old shot.now }
        requires values { HasPositiveValues row.now }
        ensures verdict { IfOk result (IsVerdict self.old shot.now row.now) }
        ensures good { IfOk result (λ v. (v ≡ Good) ↔ IsRight self.old shot.now row.now) }
        ensures least { IfOk result (λ v. v ≡ Good → IsLeastWeight self.old shot.now row.now) }
        ensures same { self.new ≡ self.old }
    {
        self.graph.limits();
        self.find_verdict(alloc, shot, row)
    }

    /// The verdict alone.
    fn find_verdict(&mut self, alloc: Global, shot: &Shot, row: &Row) -> Result<Verdict, NoMemory>
        requires { IsShot self.old shot.now }
        ensures verdict { IfOk result (IsVerdict self.old shot.now row.now) }
        ensures same { self.new ≡ self.old }
    {
        match row {
            Row::Best {
                edges,
                base,
                weight,
                cuts,
            } => {
                let edges = edges.as_slice();
                if let Some(fault) = choice_fault(alloc, self.graph, shot, edges)? {
                    return Ok(fault);
                }
                if let Some(fault) = sums_fault(self.graph, shot, edges, *base, *weight) {
                    return Ok(fault);
                }
                if let Some(fault) = self.certificate_fault(alloc, shot, *weight, cuts)? {
                    return Ok(fault);
                }
                Ok(Verdict::Good)
            }
            Row::Odd(vertex) => self.check_odd(alloc, shot, *vertex),
        }
    }

    /// The first fault of the certificate of a correction.
    fn certificate_fault(
        &mut self,
        alloc: Global,
        shot: &Shot,
        weight: i128,
        cuts: &CutList,
    ) -> Result<Option<Verdict>, NoMemory>
        requires { IsShot self.old shot.now }
        ensures fault { IfOk result (λ f. f ≡ certificate_fault self.old shot.now weight cuts.now) }
        ensures same { self.new ≡ self.old }
    {
        if let Some(fault) = first_cut_fault(self.graph, shot, cuts) {
            return Ok(Some(fault));
        }
        if let Some(edge) = self.overloaded(alloc, shot, cuts)? {
            return Ok(Some(Verdict::Overloaded(edge)));
        }
        let total = i128::from(shot.base(self.graph)) + sum_of_values(cuts) as i128;
        if weight != total {
            return Ok(Some(Verdict::SumDiffers(weight, total)));
        }
        Ok(None)
    }

    /// The least edge that the cuts load above what it weighs for the shot, without its sign. A table over the graph is
    /// made for the second correction, so that a check of one row takes no time by the size of the graph.
    fn overloaded(
        &mut self,
        alloc: Global,
        shot: &Shot,
        cuts: &CutList,
    ) -> Result<Option<u32>, NoMemory>
        requires distinct { All (λ c. AreDistinct c.vertices) cuts.now }
        requires below { All (λ c. All (λ v. v < self.old.vertices) c.vertices) cuts.now }
        ensures least { IfOk result (λ e. e ≡ least (length self.old.edges)
            (is_overloaded (solved_problem self.old shot.now) cuts.now)) }
        ensures same { self.new ≡ self.old }
    {
        if !self.has_added {
            self.has_added = true;
            return overloaded(alloc, self.graph, shot, cuts);
        }
        let mut table = kept_or_new(alloc, self.graph, self.loads.take())?;
        let first = overloaded_by(alloc, self.graph, shot, cuts, &mut table);
        self.loads = Some(table);
        first
    }

    /// What a check finds of an odd row.
    fn check_odd(&mut self, alloc: Global, shot: &Shot, vertex: u32) -> Result<Verdict, NoMemory>
        requires { IsShot self.old shot.now }
        ensures verdict { IfOk result (IsOddVerdict self.old shot.now vertex) }
        ensures same { self.new ≡ self.old }
    {
        let mut parts = kept_or_found(alloc, self.graph, self.parts.take())?;
        let first = first_odd(&mut parts, shot);
        self.parts = Some(parts);
        Ok(compare_odd(self.graph, shot, first, vertex))
    }
}

/// The components that were kept, else those of the graph anew.
fn kept_or_found<'a>(
    alloc: Global,
    graph: &'a Graph,
    kept: Option<Components<Whole<'a>>>,
) -> Result<Components<Whole<'a>>, NoMemory>
    requires { IfSome kept (λ parts. parts.0.now ≡ graph.now) }
    ensures { IfOk result (λ parts. parts.0.now ≡ graph.entry.now) }
{
    match kept {
        Some(parts) => Ok(parts),
        None => components(alloc, graph),
    }
}

/// The table that was kept, else one of the graph.
fn kept_or_new(alloc: Global, graph: &Graph, kept: Option<LoadTable>) -> Result<LoadTable, NoMemory>
    requires { IfSome kept (λ loads. loads ≡ length graph.now.edges) }
    ensures { IfOk result (λ loads. loads ≡ length graph.now.edges) }
{
    match kept {
        Some(table) => Ok(table),
        None => LoadTable::new(alloc, graph.edge_count()),
    }
}

/// The verdict of an odd row, given the first odd component's vertex.
fn compare_odd(graph: &Graph, shot: &Shot, first: Option<u32>, vertex: u32) -> Verdict
    requires { IsFirstOdd (problem_of graph.now shot.now) first }
    ensures { IsOddVerdict graph.now shot.now vertex result }
{
    let Some(found) = first else {
        return Verdict::OddWrong(vertex);
    };
    if found == vertex {
        Verdict::Good
    } else {
        Verdict::OddWrong(vertex)
    }
}

/// The first fault of the edges of a correction.
fn choice_fault(
    alloc: Global,
    graph: &Graph,
    shot: &Shot,
    edges: &[u32],
) -> Result<Option<Verdict>, NoMemory>
    requires { IsShot graph.now shot.now }
    ensures { IfOk result (λ f. f ≡ choice_fault graph.now shot.now edges.now) }
{
    if let Some(edge) = beyond(edges, graph.edge_count()) {
        return Ok(Some(Verdict::EdgeOutOfRange(edge)));
    }
    if let Some(edge) = fall(edges) {
        return Ok(Some(Verdict::EdgesNotRising(edge)));
    }
    if let Some(vertex) = wrong_parity(alloc, graph, shot, edges)? {
        return Ok(Some(Verdict::WrongParity(vertex)));
    }
    Ok(None)
}

/// The first fault of the weight and the base of a correction.
fn sums_fault(
    graph: &Graph,
    shot: &Shot,
    edges: &[u32],
    base: i128,
    weight: i128,
) -> Option<Verdict>
    requires shot { IsShot graph.now shot.now }
    requires within { All (λ k. k < length graph.now.edges) edges.now }
    ensures { result ≡ sums_fault graph.now shot.now edges.now base weight }
{
    let sum = sum_of_weights(graph, shot, edges);
    if weight != sum {
        return Some(Verdict::WeightNotSum(weight, sum));
    }
    let negative = i128::from(shot.base(graph));
    if base != negative {
        return Some(Verdict::BaseDiffers(base, negative));
    }
    None
}
