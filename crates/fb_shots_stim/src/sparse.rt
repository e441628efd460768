//! The format `dets`: a line for each shot, the word `shot` and a word for each detector that fired.

use crate::answer::Kind;
use crate::indices::index_of;
use crate::parts::{Begun, LineParts, advance};
use crate::record::SoFar;
use fb_records::{Found, Numbers, RecordFormat, RecordReader, Stop};
use std::alloc::Global;
use std::marker::Model;

/// A reader of shots in the format `dets`. Contracts see the bytes fed that no result has used, and whether they are
/// all.
pub type RecordsDets = RecordReader<Sparse>;

/// The format `dets` of shots of some detectors. Contracts see the number of them.
#[derive(Drop)]
pub struct Sparse {
    alloc: Global,
    detectors: u32,
}

impl Model for Sparse {
    ghost use Rattle.std.specs.Prelude.{ℕ};

    ghost Value = { ℕ };

    ghost view = { λ f. f.detectors };
}

impl LineParts for Sparse {
    ghost use Rattle.fb_shots_stim.specs.InternalParts.{dets_rules};

    ghost rules = { dets_rules };

    fn separator() -> u8 {
        b' '
    }

    /// Takes the next word. An empty one is none.
    fn take(so_far: &mut SoFar, word: &[u8]) -> Result<(), Stop<Kind>> {
        let [letter, digits @ ..] = word else {
            return Ok(());
        };
        if !so_far.is_begun() {
            if word != b"shot".as_slice() {
                return Err(Stop::Refused(Kind::BadToken));
            }
            so_far.begin();
            return Ok(());
        }
        let Some(index) = index_of(digits, so_far.detectors()) else {
            return Err(Stop::Refused(Kind::BadToken));
        };
        match letter {
            b'D' => so_far.name(index),
            b'L' => Ok(()),
            b'M' => Err(Stop::Refused(Kind::MeasurementToken)),
            _ => Err(Stop::Refused(Kind::BadToken)),
        }
    }

    /// Takes the last word of a line. A line without a word is skipped.
    fn end(so_far: &mut SoFar, word: &[u8]) -> Result<Option<Numbers>, Stop<Kind>> {
        Self::take(so_far, word)?;
        Ok(so_far.take())
    }
}

impl RecordFormat for Sparse {
    ghost use Rattle.std.specs.Prelude.{◌≡◌};
    ghost use Rattle.std.proofs.Common.{rules};
    ghost use Rattle.std.proofs.lemmas.Grind.{common_steps};
    ghost use Rattle.fb_shots_stim.specs.Shots.{IsShotOf};
    ghost use Rattle.fb_shots_stim.specs.TextDets.{records_dets, prefix_dets, after_record};
    ghost use Rattle.fb_shots_stim.specs.InternalParts.{dets_rules, IsAtPlace};

    type Subject = u32;

    type Begun = Begun;

    type Shot = Numbers;

    type Kind = Kind;

    ghost subject_of = { λ n. n };

    ghost records = { records_dets };

    ghost prefix = { prefix_dets };

    ghost after = { λ n. after_record };

    ghost IsShot = { IsShotOf };

    ghost IsBegun = { λ n begun bytes. (begun.so_far.detectors ≡ n)
        × IsAtPlace dets_rules begun.so_far bytes begun.place };

    fn new(alloc: Global, detectors: u32) -> Self {
        Sparse { alloc, detectors }
    }

    fn start(&self) -> Begun {
        Begun::new(self.alloc, self.detectors)
    }

    fn advance(
        &self,
        begun: &mut Begun,
        rest: &[u8],
        finished: bool,
    ) -> Result<Found<Numbers>, Stop<Kind>> {
        advance::<Sparse>(begun, rest, finished)
    }

    ghost grows = { λ n begun bytes more h. (h.0, Prim.search (rules, common_steps)) };
}
