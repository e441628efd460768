//! The shots of a file, one after another.

ghost use Rattle.std.specs.Prelude.{◌≡◌, ℕ, ◌+◌, ◌-◌, ◌<◌, ◌++◌, [], List, true, Ok, Some, None, IfOk, OnOk, OnErr, MatchOption};
ghost use Rattle.fb_ports.specs.Causes.{CountsFault};
ghost use Rattle.fb_shots.specs.Streams.{Stream, follows, fresh, most_bytes, stream_of};
ghost use Rattle.fb_shots.specs.InternalAnswers.{Answers as ReaderAnswers};
ghost use Rattle.fb_shots.specs.InternalReads.{ReadsOn, may_read};
ghost use Rattle.fb_shots.specs.InternalSources.{with_piece};
ghost use Rattle.fb_shots.specs.Steps.{Answers, OnlyTakes};

use crate::answer::{Format, Kind, NoMemory, Step};
use crate::pieces::Piece;
use crate::reader::Reader;
use crate::tally::Tally;
use fb_graph::{Graph, Shot};
use fb_ports::Files;
use fb_records::Next;
use std::alloc::Global;
use std::marker::Model;

/// The most bytes that are taken of a file.
const MOST_BYTES: u64 = 1 << 62;

/// The shots of a graph in the current file, one after another. Contracts see what it has taken, given and refused.
#[derive(Drop)]
pub struct ShotStream<'a> {
    reader: Reader<'a>,
    piece: Piece,
    /// How many bytes may still be taken.
    untaken: u64,
    tally: Tally,
}

impl<'a> Model for ShotStream<'a> {
    ghost use Rattle.std.specs.Prelude.{◌≡◌, [], true};
    ghost use Rattle.fb_shots.specs.Streams.{Stream};
    ghost use Rattle.fb_shots.specs.InternalSources.{stream_by};

    ghost Value = { Stream };

    ghost view = { λ s. stream_by s.reader s.piece s.untaken s.tally.given s.tally.limit s.tally.stopped };

    ghost invariant = { λ s. s.reader.finished ≡ true → s.piece ≡ [] };
}

impl<'a> ShotStream<'a> {
    /// A stream of the shots of a graph, of which at most `limit` are given. The room for pieces is taken here.
    pub fn new(
        alloc: Global,
        format: Format,
        graph: &'a Graph,
        limit: u32,
    ) -> Result<ShotStream<'a>, NoMemory>
        ensures fresh { IfOk result (λ s. s ≡ fresh format graph.now limit) }
        ensures whole { IfOk result (λ s. (bytes : List ℕ)
            → follows s bytes ≡ stream_of format graph.now limit most_bytes bytes) }
    {
        let piece = Piece::new(alloc)?;
        Ok(ShotStream {
            reader: Reader::new(alloc, format, graph),
            piece,
            untaken: MOST_BYTES,
            tally: Tally {
                given: 0,
                limit,
                stopped: None,
            },
        })
    }

    /// The next shot of the current file. All shots that the bytes taken decide are given before a further read, and a
    /// read asks for at most 65,536 bytes. Bytes may have been taken before `NoMemory` and `ReadFault`; none is lost.
    pub fn next_shot<F: Files>(&mut self, files: &mut F) -> Result<Step, NoMemory>
        ensures step { IfOk result (Answers self.old self.new (F.left files.old) (F.left files.new)) }
        ensures kept { OnErr result (OnlyTakes self.old self.new (F.left files.old) (F.left files.new)) }

        // The result is an error exactly if one occurred.
        ensures faults { CountsFault (result ≡ Ok Step.ReadFault) (F.faults files.old) (F.faults files.new) }

        ensures names { F.named files.new ≡ F.named files.old }
        ensures asks { F.asked files.new ≡ F.asked files.old }
    {
        loop {
            if let Some(step) = self.turn(files)? {
                return Ok(step);
            }
        }
    }

    /// Returns a step that the bytes taken decide, or else makes one read.
    fn turn<F: Files>(&mut self, files: &mut F) -> Result<Option<Step>, NoMemory>
        ensures step { IfOk result (λ o. MatchOption o
            (OnlyTakes self.old self.new (F.left files.old) (F.left files.new)
            × (may_read self.new < may_read self.old))
            (Answers self.old self.new (F.left files.old) (F.left files.new))) }
        ensures kept { OnErr result ((self.new ≡ self.old) × (F.left files.new ≡ F.left files.old)) }
        ensures faults { CountsFault (result ≡ Ok (Some Step.ReadFault)) (F.faults files.old) (F.faults files.new) }
        ensures names { F.named files.new ≡ F.named files.old }
        ensures asks { F.asked files.new ≡ F.asked files.old }
    {
        if let Some(kind) = self.tally.stopped {
            return Ok(Some(self.tally.refusal(kind)));
        }
        let answer = ask(&mut self.reader, &mut self.piece)?;
        if let Some(step) = self.tally.step_after(answer) {
            return Ok(Some(step));
        }
        let read = read_on(&mut self.reader, &mut self.piece, &mut self.untaken, files);
        Ok(self.tally.step_after_read(read))
    }
}

/// Asks the reader, once it is fed the piece that was read. No byte is lost without memory.
fn ask(reader: &mut Reader<'_>, piece: &mut Piece) -> Result<Next<Shot, Kind>, NoMemory>
    requires { reader.old.finished ≡ true → piece.old ≡ [] }
    ensures meaning { IfOk result (ReaderAnswers (with_piece reader.old piece.old) reader.new) }
    ensures fed { OnOk result (piece.new ≡ []) }
    ensures err { OnErr result (with_piece reader.new piece.new ≡ with_piece reader.old piece.old) }
    ensures unfed { reader.new.finished ≡ true → piece.new ≡ [] }
{
    feed(reader, piece)?;
    reader.next()
}

/// Feeds the reader the piece that was read. Without memory nothing changes.
fn feed(reader: &mut Reader<'_>, piece: &mut Piece) -> Result<(), NoMemory>
    requires { reader.old.finished ≡ true → piece.old ≡ [] }
    ensures ok { OnOk result ((reader.new ≡ record reader.old { rest = reader.old.rest ++ piece.old })
        × (piece.new ≡ [])) }
    ensures err { OnErr result ((reader.new ≡ reader.old) × (piece.new ≡ piece.old)) }
{
    if piece.is_empty() {
        return Ok(());
    }
    reader.feed(piece.as_slice())?;
    piece.clear();
    Ok(())
}

/// The outcome of a read.
#[derive(Drop)]
pub enum Read {
    /// A piece of the file.
    Piece,
    /// The file's end.
    End,
    /// A fault.
    Fault,
    /// A byte that may not be taken.
    TooLong,
}

/// Reads a piece of the file. At the file's end it finishes the reader.
fn read_on<F: Files>(
    reader: &mut Reader<'_>,
    piece: &mut Piece,
    untaken: &mut u64,
    files: &mut F,
) -> Read
    requires { piece.old ≡ [] }
    ensures reads { ReadsOn reader.old reader.new piece.new untaken.old untaken.new
        (F.left files.old) (F.left files.new) result }
    ensures faults { CountsFault (result ≡ Read.Fault) (F.faults files.old) (F.faults files.new) }
    ensures names { F.named files.new ≡ F.named files.old }
    ensures asks { F.asked files.new ≡ F.asked files.old }
{
    let most = (*untaken).max(1) as usize;
    let Ok(count) = piece.read(files, most) else {
        return Read::Fault;
    };
    if count == 0 {
        reader.finish();
        return Read::End;
    }
    if *untaken == 0 {
        piece.clear();
        return Read::TooLong;
    }
    *untaken -= count as u64;
    Read::Piece
}
