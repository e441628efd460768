//! The rows that the lines of a report say.

ghost use Rattle.std.specs.Prelude.{◌≡◌, ◌∷◌, ◌++◌, [], None, IfOk, IfErr};
ghost use Rattle.fb_verify.specs.InternalGathers.{based, closed, gather, gathered, weighed, with_cut};
ghost use Rattle.fb_verify.specs.declared.report_faults.ReportFault.TheVariants.{NoMemory};

use crate::lines::Line;
use crate::report_faults::ReportFault;
use crate::reports::RowList;
use fb_graph::{Cut, CutList, NumberList, Row};
use std::alloc::Global;

/// A correction that lines may still add to.
#[derive(Drop)]
pub struct Correction {
    pub edges: NumberList,
    pub base: i128,
    pub weight: i128,
    pub cuts: CutList,
}

/// The rows that lines say.
#[derive(Drop)]
pub struct Gathered {
    /// The rows that no line can add to.
    pub rows: RowList,
    /// The row that lines may still add to, if there is one.
    pub last: Option<Correction>,
}

impl Gathered {
    pub fn new(alloc: Global) -> Gathered
        ensures { result ≡ gathered [] None }
    {
        Gathered {
            rows: RowList::from_vec(Vec::new(alloc)),
            last: None,
        }
    }

    /// Adds what a line says that may follow those before it.
    pub fn add(self, alloc: Global, said: Line) -> Result<Gathered, ReportFault>
        ensures ok { IfOk result (λ g. g ≡ gather self.rows self.last said) }
        ensures err { IfErr result (λ e. e ≡ NoMemory) }
    {
        let Gathered { rows, last } = self;
        match said {
            Line::Edges(edges) => {
                let last = Some(Correction {
                    edges,
                    base: 0,
                    weight: 0,
                    cuts: CutList::new(alloc),
                });
                Ok(Gathered { rows, last })
            }
            Line::Base(base) => {
                let last = based(base, last);
                Ok(Gathered { rows, last })
            }
            Line::Weight(weight) => {
                let last = weighed(weight, last);
                Ok(Gathered { rows, last })
            }
            Line::Cut(cut) => {
                let last = with_cut(cut, last)?;
                Ok(Gathered { rows, last })
            }
            Line::Odd(_, vertex) => {
                let rows = push_row(closed(rows, last)?, Row::Odd(vertex))?;
                Ok(Gathered { rows, last: None })
            }
            Line::Head(_) | Line::Shot(_) | Line::Trace | Line::Done(_) => {
                let rows = closed(rows, last)?;
                Ok(Gathered { rows, last: None })
            }
        }
    }
}

/// The rows, with the one that lines may still add to.
fn closed(rows: RowList, last: Option<Correction>) -> Result<RowList, ReportFault>
    ensures ok { IfOk result (λ r. r ≡ closed rows last) }
    ensures err { IfErr result (λ e. e ≡ NoMemory) }
{
    match last {
        None => Ok(rows),
        Some(
            Correction {
                edges,
                base,
                weight,
                cuts,
            },
        ) => push_row(
            rows,
            Row::Best {
                edges,
                base,
                weight,
                cuts,
            },
        ),
    }
}

/// The correction with this base.
fn based(base: i128, last: Option<Correction>) -> Option<Correction>
    ensures { result ≡ based base last }
{
    let Correction {
        edges,
        weight,
        cuts,
        ..
    } = last?;
    Some(Correction {
        edges,
        base,
        weight,
        cuts,
    })
}

/// The correction with this weight.
fn weighed(weight: i128, last: Option<Correction>) -> Option<Correction>
    ensures { result ≡ weighed weight last }
{
    let Correction {
        edges,
        base,
        cuts,
        ..
    } = last?;
    Some(Correction {
        edges,
        base,
        weight,
        cuts,
    })
}

/// The correction with one more cut.
fn with_cut(cut: Cut, last: Option<Correction>) -> Result<Option<Correction>, ReportFault>
    ensures ok { IfOk result (λ r. r ≡ with_cut cut last) }
    ensures err { IfErr result (λ e. e ≡ NoMemory) }
{
    match last {
        None => Ok(None),
        Some(
            Correction {
                edges,
                base,
                weight,
                cuts,
            },
        ) => {
            let cuts = push_cut(cuts, cut)?;
            Ok(Some(Correction {
                edges,
                base,
                weight,
                cuts,
            }))
        }
    }
}

/// The rows with one more.
fn push_row(rows: RowList, row: Row) -> Result<RowList, ReportFault>
    ensures ok { IfOk result (λ r. r ≡ rows ++ row ∷ []) }
    ensures err { IfErr result (λ e. e ≡ NoMemory) }
{
    let mut rows = rows.into_vec();
    if rows.push(row).is_err() {
        return Err(ReportFault::NoMemory);
    }
    Ok(RowList::from_vec(rows))
}

/// The cuts with one more.
fn push_cut(cuts: CutList, cut: Cut) -> Result<CutList, ReportFault>
    ensures ok { IfOk result (λ r. r ≡ cuts ++ cut ∷ []) }
    ensures err { IfErr result (λ e. e ≡ NoMemory) }
{
    let mut cuts = cuts;
    if cuts.push(cut.value, cut.vertices.as_slice()).is_err() {
        return Err(ReportFault::NoMemory);
    }
    Ok(cuts)
}
