//! The reader of JSON lines.

ghost use Rattle.std.specs.Prelude.{◌≡◌, ℕ, ◌+◌, ◌-◌, ◌<◌, ◌≤◌, ◌++◌, ◌&&◌, [], Bool, true, false, length, take, drop, slice_index, IfOk, IfErr, IfSome, IfNone, OnOk, OnErr};
ghost use Rattle.fb_records.specs.Lines.{holds};
ghost use Rattle.fb_records.specs.Steps.{part_of, IfFound, IfRefused, answer_at, used_of};
ghost use Rattle.fb_records.specs.Answers.{answer_of, reading, Answers, IfShot};
ghost use Rattle.fb_records.specs.declared.answer.Next.TheVariants as next;
ghost use Rattle.fb_shots_json.specs.TextJson.{is_blank, records_json, prefix_json, after_record};
ghost use Rattle.fb_graph.specs.Limits.{IsShot};
ghost use Rattle.fb_shots_json.specs.InternalPlaces.{IsPlace};
ghost use Rattle.fb_shots_json.specs.InternalAnswers.{AnswersJson};

use crate::answer::Kind;
use crate::judging::{is_too_long, shot_of_line};
use fb_graph::{Graph, Shot};
use fb_records::{Found, Next, NoMemory, Pending, Stop};
use std::alloc::Global;
use std::marker::Model;

/// A reader of shots as JSON values, one to a line: objects whose `defect_vertices` lists the defects, and whose
/// `erasures` and `dynamic_weights` list the edges that weigh otherwise than in the graph. Contracts see the graph, the
/// bytes fed that no result has used, and whether they are all.
#[derive(Drop)]
pub struct RecordsJson<'a> {
    alloc: Global,
    graph: &'a Graph,
    pending: Pending,
    place: Place,
    finished: bool,
}

/// How far a reader has come in the bytes that no result has used.
#[derive(Clone, Copy)]
struct Place {
    /// The line that is read starts here. The lines before it are blank.
    line: usize,
    /// From the line's start to here there is no newline.
    seen: usize,
    /// Whether the line is blank as far as it is seen.
    is_blank: bool,
}

impl<'a> Model for RecordsJson<'a> {
    ghost use Rattle.fb_graph.specs.Limits.{DecodingGraph};
    ghost use Rattle.fb_records.specs.Records.{Reader};
    ghost use Rattle.fb_shots_json.specs.InternalPlaces.{IsPlace};

    ghost Value = { Reader DecodingGraph };

    ghost view = { λ r. record { subject = r.graph.now; rest = r.pending; finished = r.finished } };

    ghost invariant = { λ r. IsPlace r.graph.now r.pending r.place.line r.place.seen r.place.is_blank };
}

impl<'a> RecordsJson<'a> {
    /// A reader of shots of a graph, with no bytes yet.
    pub fn new(alloc: Global, graph: &'a Graph) -> Self
        ensures { result ≡ record { subject = graph.now; rest = []; finished = false } }
    {
        RecordsJson {
            alloc,
            graph,
            pending: Pending::new(alloc),
            place: START,
            finished: false,
        }
    }

    /// Takes the next piece of the input. Without memory nothing is taken.
    pub fn feed(&mut self, piece: &[u8]) -> Result<(), NoMemory>
        requires { self.old.finished ≡ false }
        ensures ok { OnOk result (self.new ≡ record self.old { rest = self.old.rest ++ piece.now }) }
        ensures err { OnErr result (self.new ≡ self.old) }
    {
        self.pending.put(piece)
    }

    /// Says that the input has no further piece.
    pub fn finish(&mut self)
        ensures { self.new ≡ record self.old { finished = true } }
    {
        self.finished = true;
    }

    /// Reads the first record of the bytes that no result has used. A shot uses up its line and the blank lines
    /// before it, and nothing else uses any byte.
    pub fn next(&mut self) -> Result<Next<Shot, Kind>, NoMemory>
        ensures answer { IfOk result (λ a. a ≡ answer_of (reading records_json prefix_json self.old)) }
        ensures meaning { IfOk result (Answers records_json prefix_json after_record self.old self.new) }
        ensures graph { self.new.subject ≡ self.old.subject }
        ensures finished { self.new.finished ≡ self.old.finished }
        ensures shot { IfOk result (IfShot (IsShot self.old.subject)) }
        ensures err { OnErr result (self.new ≡ self.old) }
    {
        let rest = self.pending.as_slice();
        match advance(self.alloc, self.graph, &mut self.place, rest, self.finished) {
            Ok(Found::Shot(shot, used)) => {
                self.pending.take_off(used);
                Ok(Next::Shot(shot))
            }
            Ok(Found::NotYet) => Ok(Next::NotYet),
            Ok(Found::End) => Ok(Next::End),
            Err(Stop::Refused(kind)) => Ok(Next::Refused(kind)),
            Err(Stop::NoMemory) => Err(NoMemory),
        }
    }
}

const START: Place = Place {
    line: 0,
    seen: 0,
    is_blank: true,
};

/// Reads lines up to the end of a record or of the bytes.
fn advance(
    alloc: Global,
    graph: &Graph,
    place: &mut Place,
    rest: &[u8],
    finished: bool,
) -> Result<Found<Shot>, Stop<Kind>>
    requires { IsPlace graph.now rest.now place.old.line place.old.seen place.old.is_blank }
    ensures ok { IfOk result (λ found. AnswersJson graph.now rest.now finished (drop (used_of found) rest.now) (answer_at found)
        × IsPlace graph.now (drop (used_of found) rest.now) place.new.line place.new.seen place.new.is_blank) }
    ensures used { IfOk result (λ found. used_of found ≤ length rest.now) }
    ensures shot { IfOk result (IfFound (IsShot graph.now)) }
    ensures refused { IfErr result (IfRefused (λ kind. AnswersJson graph.now rest.now finished rest.now (next.Refused kind))) }
    ensures err { OnErr result (IsPlace graph.now rest.now place.new.line place.new.seen place.new.is_blank) }
{
    loop {
        *place = see_line(*place, rest);
        let is_last = place.seen == rest.len();
        if is_last && !finished {
            if !place.is_blank && is_too_long(&rest[place.line..place.seen]) {
                return Err(Stop::Refused(Kind::LineTooLong));
            }
            return Ok(Found::NotYet);
        }
        if !place.is_blank {
            let shot = shot_of_line(alloc, graph, &rest[place.line..place.seen])?;
            let used = if is_last { place.seen } else { place.seen + 1 };
            *place = START;
            return Ok(Found::Shot(shot, used));
        }
        if is_last {
            return Ok(Found::End);
        }
        place.seen += 1;
        place.line = place.seen;
    }
}

/// Goes on to the end of the line: its newline or the end of the bytes.
fn see_line(place: Place, bytes: &[u8]) -> Place
    requires { place.seen ≤ length bytes.now }
    ensures line { result.line ≡ place.line }
    ensures onward { place.seen ≤ result.seen }
    ensures within { result.seen ≤ length bytes.now }
    ensures in_line { holds 10 (part_of bytes.now place.seen result.seen) ≡ false }
    ensures blank { result.is_blank ≡ (place.is_blank && is_blank (part_of bytes.now place.seen result.seen)) }
    ensures stops { result.seen < length bytes.now → slice_index bytes.now result.seen ≡ 10 }
{
    let seen = line_end(bytes, place.seen);
    Place {
        line: place.line,
        seen,
        is_blank: place.is_blank && is_blank(&bytes[place.seen..seen]),
    }
}

/// Where the line ends that goes on from a place: at a newline or the end of the bytes.
fn line_end(bytes: &[u8], from: usize) -> usize
    requires { from ≤ length bytes.now }
    ensures onward { from ≤ result }
    ensures within { result ≤ length bytes.now }
    ensures in_line { holds 10 (part_of bytes.now from result) ≡ false }
    ensures stops { result < length bytes.now → slice_index bytes.now result ≡ 10 }
{
    let mut i = from;
    while i < bytes.len() && bytes[i] != b'\n' {
        i += 1;
    }
    i
}

fn is_blank(bytes: &[u8]) -> bool
    ensures { result ≡ is_blank bytes.now }
{
    bytes
        .iter()
        .all(|b| *b == b' ' || *b == b'\t' || *b == b'\r')
}
