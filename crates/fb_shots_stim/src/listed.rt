//! The format `hits`: a line for each shot, the indices of the detectors that fired, parted by commas.

use crate::answer::Kind;
use crate::indices::index_of;
use crate::parts::{Begun, LineParts, advance};
use crate::record::SoFar;
use fb_records::{Found, Numbers, RecordFormat, RecordReader, Stop};
use std::alloc::Global;
use std::marker::Model;

/// A reader of shots in the format `hits`. Contracts see the bytes fed that no result has used, and whether they are
/// all.
pub type RecordsHits = RecordReader<Listed>;

/// The format `hits` of shots of some detectors. Contracts see the number of them.
#[derive(Drop)]
pub struct Listed {
    alloc: Global,
    detectors: u32,
}

impl Model for Listed {
    ghost use Rattle.std.specs.Prelude.{ℕ};

    ghost Value = { ℕ };

    ghost view = { λ f. f.detectors };
}

impl LineParts for Listed {
    ghost use Rattle.fb_shots_stim.specs.InternalParts.{hits_rules};

    ghost rules = { hits_rules };

    fn separator() -> u8 {
        b','
    }

    fn take(so_far: &mut SoFar, hit: &[u8]) -> Result<(), Stop<Kind>> {
        let Some(index) = index_of(hit, so_far.detectors()) else {
            return Err(Stop::Refused(Kind::BadToken));
        };
        so_far.name(index)
    }

    /// Takes the last part of a line. An empty line is a shot without hits.
    fn end(so_far: &mut SoFar, hit: &[u8]) -> Result<Option<Numbers>, Stop<Kind>> {
        if hit.is_empty() && !so_far.is_begun() {
            so_far.begin();
        } else {
            Self::take(so_far, hit)?;
        }
        Ok(so_far.take())
    }
}

impl RecordFormat for Listed {
    ghost use Rattle.std.specs.Prelude.{◌≡◌};
    ghost use Rattle.std.proofs.Common.{rules};
    ghost use Rattle.std.proofs.lemmas.Grind.{common_steps};
    ghost use Rattle.fb_shots_stim.specs.Shots.{IsShotOf};
    ghost use Rattle.fb_records.specs.Lines.{after_line};
    ghost use Rattle.fb_shots_stim.specs.TextHits.{records_hits, prefix_hits};
    ghost use Rattle.fb_shots_stim.specs.InternalParts.{hits_rules, IsAtPlace};

    type Subject = u32;

    type Begun = Begun;

    type Shot = Numbers;

    type Kind = Kind;

    ghost subject_of = { λ n. n };

    ghost records = { records_hits };

    ghost prefix = { prefix_hits };

    ghost after = { λ n. after_line };

    ghost IsShot = { IsShotOf };

    ghost IsBegun = { λ n begun bytes. (begun.so_far.detectors ≡ n)
        × IsAtPlace hits_rules begun.so_far bytes begun.place };

    fn new(alloc: Global, detectors: u32) -> Self {
        Listed { alloc, detectors }
    }

    fn start(&self) -> Begun {
        Begun::new(self.alloc, self.detectors)
    }

    fn advance(
        &self,
        begun: &mut Begun,
        rest: &[u8],
        finished: bool,
    ) -> Result<Found<Numbers>, Stop<Kind>> {
        advance::<Listed>(begun, rest, finished)
    }

    ghost grows = { λ n begun bytes more h. (h.0, Prim.search (rules, common_steps)) };
}
