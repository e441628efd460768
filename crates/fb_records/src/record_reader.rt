//! One reader for all formats.

ghost use Rattle.std.specs.Prelude.{◌≡◌, false, true, [], ◌++◌, IfOk, OnOk, OnErr};
ghost use Rattle.fb_records.specs.Records.{Reader};
ghost use Rattle.fb_records.specs.Answers.{answer_of, reading, Answers, IfShot};

use crate::answer::{Found, Next, NoMemory, Stop};
use crate::pending::Pending;
use crate::record_format::RecordFormat;
use std::alloc::Global;
use std::marker::Model;

/// A reader of the shots of a format, from bytes that are fed in pieces. Contracts see what the shots are of, the bytes
/// fed that no result has used, and whether they are all.
#[derive(Drop)]
pub struct RecordReader<F: RecordFormat> {
    format: F,
    pending: Pending,
    begun: F::Begun,
    finished: bool,
}

impl<F: RecordFormat> Model for RecordReader<F> {
    ghost use Rattle.fb_records.specs.Records.{Reader, reader_code};

    ghost Value = { Reader F };

    ghost coded = { reader_code F.code };

    ghost view = { λ r. record { subject = r.format; rest = r.pending; finished = r.finished } };

    ghost invariant = { λ r. F.IsBegun r.format r.begun r.pending };
}

impl<F: RecordFormat> RecordReader<F> {
    /// A reader with no bytes yet.
    pub fn new(alloc: Global, subject: F::Subject) -> Self
        ensures { result ≡ record { subject = F.subject_of subject; rest = []; finished = false } }
    {
        let format = F::new(alloc, subject);
        let begun = format.start();
        RecordReader {
            format,
            pending: Pending::new(alloc),
            begun,
            finished: false,
        }
    }

    /// Takes the next piece of the input. Without memory nothing is taken.
    pub fn feed(&mut self, piece: &[u8]) -> Result<(), NoMemory>
        requires { self.old.finished ≡ false }
        ensures ok { OnOk result (self.new ≡ record self.old { rest = self.old.rest ++ piece.now }) }
        ensures err { OnErr result (self.new ≡ self.old) }
    {
        self.pending.put(piece)
    }

    /// Says that the input has no further piece.
    pub fn finish(&mut self)
        ensures { self.new ≡ record self.old { finished = true } }
    {
        self.finished = true;
    }

    /// Reads the first record of the bytes that no result has used. A shot uses up its record and what the format skips
    /// before it, and nothing else uses any byte.
    pub fn next(&mut self) -> Result<Next<F::Shot, F::Kind>, NoMemory>
        ensures answer { IfOk result (λ a. a ≡ answer_of (reading F.records F.prefix self.old)) }
        ensures meaning { IfOk result (Answers F.records F.prefix (F.after self.old.subject) self.old self.new) }
        ensures subject { self.new.subject ≡ self.old.subject }
        ensures finished { self.new.finished ≡ self.old.finished }
        ensures shot { IfOk result (IfShot (F.IsShot self.old.subject)) }
        ensures err { OnErr result (self.new ≡ self.old) }
    {
        let rest = self.pending.as_slice();
        match self.format.advance(&mut self.begun, rest, self.finished) {
            Ok(Found::Shot(shot, used)) => {
                self.pending.take_off(used);
                Ok(Next::Shot(shot))
            }
            Ok(Found::NotYet) => Ok(Next::NotYet),
            Ok(Found::End) => Ok(Next::End),
            Err(Stop::Refused(kind)) => Ok(Next::Refused(kind)),
            Err(Stop::NoMemory) => Err(NoMemory),
        }
    }
}
