//! One reader for all formats.

ghost use Rattle.std.specs.Prelude.{◌≡◌, ◌++◌, [], false, true, length, IfOk, OnOk, OnErr};
ghost use Rattle.fb_graph.specs.Limits.{detectors_of};
ghost use Rattle.fb_records.specs.Answers.{IfShot};
ghost use Rattle.fb_shots_stim.specs.Shots.{IsShotOf};
ghost use Rattle.fb_shots.specs.InternalAnswers.{Answers, stim_answer, json_answer};
ghost use Rattle.fb_shots.specs.InternalReaders.{source_of, IsReaderOf};

use crate::answer::{Format, Kind, NoMemory};
use crate::mapping::shot_of_detectors;
use fb_graph::{Graph, Shot};
use fb_records::{Next, Numbers};
use fb_shots_json::RecordsJson;
use fb_shots_stim::{Records01, RecordsB8, RecordsDets, RecordsHits, RecordsR8};
use std::alloc::Global;
use std::marker::Model;

/// The reader of a format.
#[derive(Drop)]
enum FormatReader<'a> {
    Text01(Records01),
    B8(RecordsB8),
    Dets(RecordsDets),
    Hits(RecordsHits),
    R8(RecordsR8),
    Json(RecordsJson<'a>),
}

impl<'a> FormatReader<'a> {
    fn new(alloc: Global, format: Format, graph: &'a Graph) -> Self
        ensures source { source_of graph.now result
            ≡ record { format = format; graph = graph.now; rest = []; finished = false } }
        ensures reader { IsReaderOf graph.now result }
    {
        let detectors = graph.detectors();
        match format {
            Format::Text01 => FormatReader::Text01(Records01::new(alloc, detectors)),
            Format::B8 => FormatReader::B8(RecordsB8::new(alloc, detectors)),
            Format::Dets => FormatReader::Dets(RecordsDets::new(alloc, detectors)),
            Format::Hits => FormatReader::Hits(RecordsHits::new(alloc, detectors)),
            Format::R8 => FormatReader::R8(RecordsR8::new(alloc, detectors)),
            Format::Json => FormatReader::Json(RecordsJson::new(alloc, graph)),
        }
    }

    fn feed(&mut self, graph: &Graph, piece: &[u8]) -> Result<(), NoMemory>
        requires reader { IsReaderOf graph.now self.old }
        requires open { (source_of graph.now self.old).finished ≡ false }
        ensures ok { OnOk result (source_of graph.now self.new
            ≡ record (source_of graph.now self.old) { rest = (source_of graph.now self.old).rest ++ piece.now }) }
        ensures err { OnErr result (self.new ≡ self.old) }
        ensures reader { IsReaderOf graph.now self.new }
    {
        match self {
            FormatReader::Text01(reader) => reader.feed(piece),
            FormatReader::B8(reader) => reader.feed(piece),
            FormatReader::Dets(reader) => reader.feed(piece),
            FormatReader::Hits(reader) => reader.feed(piece),
            FormatReader::R8(reader) => reader.feed(piece),
            FormatReader::Json(reader) => reader.feed(piece),
        }
    }

    fn finish(&mut self, graph: &Graph)
        requires { IsReaderOf graph.now self.old }
        ensures source { source_of graph.now self.new ≡ record (source_of graph.now self.old) { finished = true } }
        ensures reader { IsReaderOf graph.now self.new }
    {
        match self {
            FormatReader::Text01(reader) => reader.finish(),
            FormatReader::B8(reader) => reader.finish(),
            FormatReader::Dets(reader) => reader.finish(),
            FormatReader::Hits(reader) => reader.finish(),
            FormatReader::R8(reader) => reader.finish(),
            FormatReader::Json(reader) => reader.finish(),
        }
    }

    fn next(&mut self, graph: &Graph) -> Result<Next<Shot, Kind>, NoMemory>
        requires { IsReaderOf graph.now self.old }
        ensures meaning { IfOk result (Answers (source_of graph.now self.old) (source_of graph.now self.new)) }
        ensures err { OnErr result (self.new ≡ self.old) }
        ensures reader { IsReaderOf graph.now self.new }
    {
        match self {
            FormatReader::Text01(reader) => Ok(on_vertices(graph, reader.next()?)),
            FormatReader::B8(reader) => Ok(on_vertices(graph, reader.next()?)),
            FormatReader::Dets(reader) => Ok(on_vertices(graph, reader.next()?)),
            FormatReader::Hits(reader) => Ok(on_vertices(graph, reader.next()?)),
            FormatReader::R8(reader) => Ok(on_vertices(graph, reader.next()?)),
            FormatReader::Json(reader) => Ok(of_lines(reader.next()?)),
        }
    }
}

/// The result of a reader of detectors, as one of vertices.
fn on_vertices(graph: &Graph, answer: Next<Numbers, fb_shots_stim::Kind>) -> Next<Shot, Kind>
    requires { IfShot (IsShotOf (length (detectors_of graph.now))) answer }
    ensures { result ≡ stim_answer graph.now answer }
{
    match answer {
        Next::Shot(detectors) => { Next::Shot(shot_of_detectors(graph, detectors.into_vec())) }
        Next::NotYet => Next::NotYet,
        Next::End => Next::End,
        Next::Refused(kind) => Next::Refused(Kind::Stim(kind)),
    }
}

/// The result of the reader of JSON lines.
fn of_lines(answer: Next<Shot, fb_shots_json::Kind>) -> Next<Shot, Kind>
    ensures { result ≡ json_answer answer }
{
    match answer {
        Next::Shot(shot) => Next::Shot(shot),
        Next::NotYet => Next::NotYet,
        Next::End => Next::End,
        Next::Refused(kind) => Next::Refused(Kind::Json(kind)),
    }
}

/// A reader of the shots of a graph in one of the formats, from bytes that come in pieces. Contracts see its format and
/// graph, the bytes fed that no result has used, and whether they are all.
#[derive(Drop)]
pub struct Reader<'a> {
    graph: &'a Graph,
    by_format: FormatReader<'a>,
}

impl<'a> Model for Reader<'a> {
    ghost use Rattle.fb_shots.specs.InternalSources.{Source};
    ghost use Rattle.fb_shots.specs.InternalReaders.{source_of, IsReaderOf};

    ghost Value = { Source };

    ghost view = { λ r. source_of r.graph.now r.by_format };

    ghost invariant = { λ r. IsReaderOf r.graph.now r.by_format };
}

impl<'a> Reader<'a> {
    pub fn new(alloc: Global, format: Format, graph: &'a Graph) -> Self
        ensures { result ≡ record { format = format; graph = graph.now; rest = []; finished = false } }
    {
        Reader {
            graph,
            by_format: FormatReader::new(alloc, format, graph),
        }
    }

    /// Takes the next piece of the input. Without memory nothing is taken.
    pub fn feed(&mut self, piece: &[u8]) -> Result<(), NoMemory>
        requires { self.old.finished ≡ false }
        ensures ok { OnOk result (self.new ≡ record self.old { rest = self.old.rest ++ piece.now }) }
        ensures err { OnErr result (self.new ≡ self.old) }
    {
        self.by_format.feed(self.graph, piece)
    }

    /// Says that the input has no further piece.
    pub fn finish(&mut self)
        ensures { self.new ≡ record self.old { finished = true } }
    {
        self.by_format.finish(self.graph);
    }

    /// Reads the first record of the bytes that no result has used. A shot uses up its record, and nothing else
    /// uses any byte.
    pub fn next(&mut self) -> Result<Next<Shot, Kind>, NoMemory>
        ensures meaning { IfOk result (Answers self.old self.new) }
        ensures err { OnErr result (self.new ≡ self.old) }
    {
        self.by_format.next(self.graph)
    }
}
