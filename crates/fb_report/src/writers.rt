ghost use Rattle.std.specs.Prelude.{◌≡◌, [], ◌∷◌, ◌++◌, if◌then◌else◌, codes, decimal, map, OnOk, OnErr};
ghost use Rattle.fb_ports.specs.Causes.{Appends, AppendsPrefix, HasCause, concat};
ghost use Rattle.fb_report.specs.Texts.{base_line, cut_line, done_text, head_text, line, line_end, row_text, trace_line, weight_line};
ghost use Rattle.fb_graph.specs.declared.parts.Row.TheVariants.{Odd};

use crate::pieces::{put_cuts, put_line_end, put_number};
use fb_graph::{CutList, Row};
use fb_ports::{Failed, Sink, put_all, put_parts};
use itoa::Buffer;

/// Puts the first line of a report, `fusion-report 2`.
///
/// After [`Failed`], here and in the other writers, the sink has taken a prefix of the text.
#[tactic(auto, unfolding(crate::specs::Texts::head_text))]
pub fn write_head<S: Sink>(sink: &mut S) -> Result<(), Failed>
    ensures all { OnOk result (Appends (S.taken sink.old) (S.taken sink.new) head_text) }
    ensures prefix { OnErr result (AppendsPrefix (S.taken sink.old) (S.taken sink.new) head_text) }
    ensures cause { HasCause (S.faults sink.old) (S.faults sink.new) result }
{
    put_all(sink, b"fusion-report 2\n")
}

/// The first word of a trace line.
fn event_word(gave: bool) -> &'static [u8]
    ensures { result.now ≡ (if gave then codes "gave" else codes "took") }
{
    if gave { b"gave" } else { b"took" }
}

/// Puts the trace line `took W K N`, or if `gave` the line `gave W K N`: worker W took node N of the
/// plan for shot K, or gave what it had made of it.
#[tactic(auto, unfolding(crate::specs::Texts::trace_line))]
pub fn write_trace<S: Sink>(
    sink: &mut S,
    gave: bool,
    worker: u32,
    shot: u32,
    node: u32,
) -> Result<(), Failed>
    ensures all { OnOk result (Appends (S.taken sink.old) (S.taken sink.new)
        (trace_line gave worker shot node)) }
    ensures prefix { OnErr result (AppendsPrefix (S.taken sink.old) (S.taken sink.new)
        (trace_line gave worker shot node)) }
    ensures cause { HasCause (S.faults sink.old) (S.faults sink.new) result }
{
    let mut one = Buffer::new();
    let mut two = Buffer::new();
    let mut three = Buffer::new();
    let worker = one.format(worker).as_bytes();
    let shot = two.format(shot).as_bytes();
    let node = three.format(node).as_bytes();
    put_parts(
        sink,
        &[
            event_word(gave),
            b" ",
            worker,
            b" ",
            shot,
            b" ",
            node,
            b"\n",
        ],
    )
}

/// Puts the last line of a report, `done N odd M units U fusions F`: how many rows it has, how many of
/// them are odd, and how many units and fusions were solved for the others.
#[tactic(auto, unfolding(crate::specs::Texts::done_text))]
pub fn write_done<S: Sink>(
    sink: &mut S,
    rows: u64,
    odd: u64,
    units: u64,
    fusions: u64,
) -> Result<(), Failed>
    ensures all { OnOk result (Appends (S.taken sink.old) (S.taken sink.new)
        (done_text rows odd units fusions)) }
    ensures prefix { OnErr result (AppendsPrefix (S.taken sink.old) (S.taken sink.new)
        (done_text rows odd units fusions)) }
    ensures cause { HasCause (S.faults sink.old) (S.faults sink.new) result }
{
    let mut one = Buffer::new();
    let mut two = Buffer::new();
    let mut three = Buffer::new();
    let mut four = Buffer::new();
    let rows = one.format(rows).as_bytes();
    let odd = two.format(odd).as_bytes();
    let units = three.format(units).as_bytes();
    let fusions = four.format(fusions).as_bytes();
    put_parts(
        sink,
        &[
            b"done ",
            rows,
            b" odd ",
            odd,
            b" units ",
            units,
            b" fusions ",
            fusions,
            b"\n",
        ],
    )
}

/// Puts the first two lines of a correction: that of its shot, and that of its edges.
fn put_chosen<S: Sink>(sink: &mut S, shot: u32, edges: &[u32]) -> Result<(), Failed>
    ensures all { OnOk result (Appends (S.taken sink.old) (S.taken sink.new)
        (line (codes "shot") (decimal shot ∷ []) ++ line (codes "edges") (map decimal edges.now))) }
    ensures prefix { OnErr result (AppendsPrefix (S.taken sink.old) (S.taken sink.new)
        (line (codes "shot") (decimal shot ∷ []) ++ line (codes "edges") (map decimal edges.now))) }
    ensures cause { HasCause (S.faults sink.old) (S.faults sink.new) result }
{
    let Ok(()) = put_number(sink, b"shot ", u64::from(shot), b"\nedges") else {
        return Err(Failed);
    };
    put_line_end(sink, edges)
}

/// Puts the lines of a correction's base and weight.
fn put_sums<S: Sink>(sink: &mut S, base: i128, weight: i128) -> Result<(), Failed>
    ensures all { OnOk result (Appends (S.taken sink.old) (S.taken sink.new)
        (base_line base ++ weight_line weight)) }
    ensures prefix { OnErr result (AppendsPrefix (S.taken sink.old) (S.taken sink.new)
        (base_line base ++ weight_line weight)) }
    ensures cause { HasCause (S.faults sink.old) (S.faults sink.new) result }
{
    let mut one = Buffer::new();
    let mut two = Buffer::new();
    let base = one.format(base).as_bytes();
    let weight = two.format(weight).as_bytes();
    put_parts(sink, &[b"base ", base, b"\nweight ", weight, b"\n"])
}

/// Puts the further lines of a correction: those of its base and weight, and then those of its cuts.
fn put_certificate<S: Sink>(
    sink: &mut S,
    base: i128,
    weight: i128,
    cuts: &CutList,
) -> Result<(), Failed>
    ensures all { OnOk result (Appends (S.taken sink.old) (S.taken sink.new)
        ((base_line base ++ weight_line weight) ++ concat (map cut_line cuts.now))) }
    ensures prefix { OnErr result (AppendsPrefix (S.taken sink.old) (S.taken sink.new)
        ((base_line base ++ weight_line weight) ++ concat (map cut_line cuts.now))) }
    ensures cause { HasCause (S.faults sink.old) (S.faults sink.new) result }
{
    let Ok(()) = put_sums(sink, base, weight) else {
        return Err(Failed);
    };
    put_cuts(sink, cuts)
}

/// Puts the line of a shot that has no correction.
#[tactic(auto, unfolding(crate::specs::Texts::row_text))]
fn put_odd<S: Sink>(sink: &mut S, shot: u32, vertex: u32) -> Result<(), Failed>
    ensures all { OnOk result (Appends (S.taken sink.old) (S.taken sink.new) (row_text shot (Odd vertex))) }
    ensures prefix { OnErr result (AppendsPrefix (S.taken sink.old) (S.taken sink.new) (row_text shot (Odd vertex))) }
    ensures cause { HasCause (S.faults sink.old) (S.faults sink.new) result }
{
    let mut one = Buffer::new();
    let mut two = Buffer::new();
    let shot = one.format(shot).as_bytes();
    let vertex = two.format(vertex).as_bytes();
    put_parts(sink, &[b"shot ", shot, b" odd ", vertex, b"\n"])
}

/// Puts the row of a shot, numbered from 0. The row of a correction is the line `shot K`, the line
/// `edges E1 E2 ..` with its edges, the line `base B` with the sum of all negative weights, the line
/// `weight W` and, for each of its cuts (Edmonds and Johnson 1973), a line `cut Y V1 V2 ..` with the
/// cut's value and vertices. The row of a shot that has no correction is the one line `shot K odd V`.
pub fn write_row<S: Sink>(sink: &mut S, shot: u32, row: &Row) -> Result<(), Failed>
    ensures all { OnOk result (Appends (S.taken sink.old) (S.taken sink.new) (row_text shot row.now)) }
    ensures prefix { OnErr result (AppendsPrefix (S.taken sink.old) (S.taken sink.new) (row_text shot row.now)) }
    ensures cause { HasCause (S.faults sink.old) (S.faults sink.new) result }
{
    match row {
        Row::Best {
            edges,
            base,
            weight,
            cuts,
        } => {
            let Ok(()) = put_chosen(sink, shot, edges.as_slice()) else {
                return Err(Failed);
            };
            put_certificate(sink, *base, *weight, cuts)
        }
        Row::Odd(vertex) => put_odd(sink, shot, *vertex),
    }
}
