//! The format `r8`: for each shot, how many detectors didn't fire before each that did and after the last.

ghost use Rattle.std.specs.Prelude.{◌≡◌, ◌<◌, ◌==◌, [], length, IfOk, IfErr, OnErr, slice_index};
ghost use Rattle.fb_records.specs.Steps.{IfRefused, used_of};

use crate::answer::Kind;
use fb_records::{Found, NoMemory, Numbers, RecordFormat, RecordReader, Stop};
use std::alloc::Global;
use std::marker::Model;
use std::mem;

/// The byte of a run after which no detector fires: the run goes on with the next byte.
const LONG_RUN: u8 = 255;

/// A reader of shots in the format `r8`. Contracts see the bytes fed that no result has used, and whether they are all.
pub type RecordsR8 = RecordReader<Runs>;

/// The format `r8` of shots of some detectors. Contracts see the number of them.
#[derive(Drop)]
pub struct Runs {
    alloc: Global,
    detectors: u32,
}

impl Model for Runs {
    ghost use Rattle.std.specs.Prelude.{ℕ};

    ghost Value = { ℕ };

    ghost view = { λ f. f.detectors };
}

/// The record begun: how far its bytes lead.
#[derive(Drop)]
pub struct Begun {
    /// The runs so far, and the detectors between them, are of the detectors before this one.
    place: u64,
    /// The detectors before the place that fired.
    named: Vec<u32>,
    /// How many bytes of the record are read.
    seen: usize,
}

impl RecordFormat for Runs {
    ghost use Rattle.std.specs.Prelude.{ℕ, List};
    ghost use Rattle.std.proofs.Common.{sym, subst, arith};
    ghost use Rattle.std.proofs.lemmas.List.{take-append-le, length-append};
    ghost use Rattle.fb_shots_stim.specs.Shots.{IsShotOf};
    ghost use Rattle.fb_shots_stim.specs.RunsR8.{records_r8, prefix_r8, after_r8};
    ghost use Rattle.fb_shots_stim.specs.InternalRuns.{LeadTo, IsInRun};

    type Subject = u32;

    type Begun = Begun;

    type Shot = Numbers;

    type Kind = Kind;

    ghost subject_of = { λ n. n };

    ghost records = { records_r8 };

    ghost prefix = { prefix_r8 };

    ghost after = { after_r8 };

    ghost IsShot = { IsShotOf };

    ghost IsBegun = { λ n begun bytes. IsInRun n begun.place begun.named.items begun.seen bytes };

    fn new(alloc: Global, detectors: u32) -> Self {
        Runs { alloc, detectors }
    }

    fn start(&self) -> Begun {
        Begun {
            place: 0,
            named: Vec::new(self.alloc),
            seen: 0,
        }
    }

    /// Reads bytes up to the end of a record or of the bytes.
    fn advance(
        &self,
        begun: &mut Begun,
        rest: &[u8],
        finished: bool,
    ) -> Result<Found<Numbers>, Stop<Kind>> {
        let detectors = u64::from(self.detectors);
        while begun.seen < rest.len() {
            let byte = rest[begun.seen];
            let next = begun.place + u64::from(byte);
            if next > detectors {
                return Err(Stop::Refused(Kind::LongRecord));
            }
            if byte == LONG_RUN {
                begun.place = next;
            } else if next == detectors {
                let used = begun.seen + 1;
                let named = mem::replace(&mut begun.named, Vec::new(self.alloc));
                begun.place = 0;
                begun.seen = 0;
                return Ok(Found::Shot(Numbers::from_vec(named), used));
            } else {
                begun.named.push(next as u32)?;
                begun.place = next + 1;
            }
            begun.seen += 1;
        }
        if !finished {
            Ok(Found::NotYet)
        } else if begun.place == 0 {
            Ok(Found::End)
        } else {
            Err(Stop::Refused(Kind::ShortRecord))
        }
    }

    ghost grows = { λ n begun bytes more h. record {
      within = Prim.omega (arith, length-append bytes more, h.within);
      lead = subst (λ (l : List ℕ). LeadTo n l begun.place begun.named.items)
          (sym (take-append-le begun.seen bytes more h.within)) h.lead;
    } };
}
