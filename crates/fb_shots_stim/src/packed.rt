//! The format `b8`: a block of bytes for each shot, a bit for each detector, the least significant first.

ghost use Rattle.std.specs.Prelude.{◌≡◌, ℕ, ◌+◌, ◌*◌, ◌^◌, ◌<◌, ◌≤◌, ◌++◌, [], length, drop, IfOk, IfErr, OnOk};
ghost use Rattle.std.specs.List.{list_any};
ghost use Rattle.fb_records.specs.Steps.{IfFound, IfRefused, answer_at, used_of};
ghost use Rattle.fb_records.specs.declared.answer.Next.TheVariants as next;
ghost use Rattle.fb_shots_stim.specs.Shots.{IsShotOf, places_from};
ghost use Rattle.fb_shots_stim.specs.BlocksB8.{block_len, low_bits, bits_of, is_set, records_b8, prefix_b8};
ghost use Rattle.fb_shots_stim.specs.InternalAnswers.{AnswersB8};

use crate::answer::Kind;
use fb_records::{Found, NoMemory, Numbers, RecordFormat, RecordReader, Stop};
use std::alloc::Global;
use std::marker::Model;

/// How many bytes of a block are looked at together.
const WORD_BYTES: usize = 8;

/// A reader of shots in the format `b8`. Contracts see the bytes fed that no result has used, and whether they are all.
pub type RecordsB8 = RecordReader<Packed>;

/// The format `b8` of shots of some detectors. Contracts see the number of them.
#[derive(Drop)]
pub struct Packed {
    alloc: Global,
    detectors: u32,
}

impl Model for Packed {
    ghost use Rattle.std.specs.Prelude.{ℕ};

    ghost Value = { ℕ };

    ghost view = { λ f. f.detectors };
}

impl RecordFormat for Packed {
    type Subject = u32;

    type Begun = ();

    type Shot = Numbers;

    type Kind = Kind;

    ghost subject_of = { λ n. n };

    ghost records = { records_b8 };

    ghost prefix = { prefix_b8 };

    ghost after = { λ n. drop (block_len n) };

    ghost IsShot = { IsShotOf };

    ghost IsBegun = { λ n begun bytes. Unit {0} };

    fn new(alloc: Global, detectors: u32) -> Self {
        Packed { alloc, detectors }
    }

    fn start(&self) -> () {}

    fn advance(
        &self,
        _: &mut (),
        rest: &[u8],
        finished: bool,
    ) -> Result<Found<Numbers>, Stop<Kind>> {
        let size = (self.detectors as usize + 7) / 8;
        if size == 0 || rest.len() < size {
            return unfilled(self.detectors, finished, rest);
        }
        let block = &rest[..size];
        if has_padding(self.detectors, block) {
            return Err(Stop::Refused(Kind::PaddingBit));
        }
        Ok(Found::Shot(set_bits(self.alloc, block)?, size))
    }

    ghost grows = { λ n begun bytes more h. h };
}

/// The result for bytes that hold no whole block.
fn unfilled(detectors: u32, finished: bool, rest: &[u8]) -> Result<Found<Numbers>, Stop<Kind>>
    requires { 0 < detectors → length rest.now < block_len detectors }
    ensures ok { IfOk result (λ found. AnswersB8 detectors rest.now finished (drop (used_of found) rest.now) (answer_at found)) }
    ensures used { IfOk result (λ found. used_of found ≤ length rest.now) }
    ensures shot { IfOk result (IfFound (IsShotOf detectors)) }
    ensures refused { IfErr result (IfRefused (λ kind. AnswersB8 detectors rest.now finished rest.now (next.Refused kind))) }
{
    if rest.is_empty() {
        Ok(if finished { Found::End } else { Found::NotYet })
    } else if detectors == 0 {
        Err(Stop::Refused(Kind::LongRecord))
    } else if finished {
        Err(Stop::Refused(Kind::ShortRecord))
    } else {
        Ok(Found::NotYet)
    }
}

/// Whether a bit after the detectors' is set in their block.
fn has_padding(detectors: u32, block: &[u8]) -> bool
    requires some { 0 < detectors }
    requires size { length block.now ≡ block_len detectors }
    ensures { result ≡ list_any is_set (drop detectors (bits_of block.now)) }
{
    let taken = detectors % 8;
    taken != 0 && block[block.len() - 1] >> taken != 0
}

/// The places of the set bits, the first byte's first.
fn set_bits(alloc: Global, block: &[u8]) -> Result<Numbers, NoMemory>
    requires { length block.now * 8 ≤ 2 ^ 32 }
    ensures { IfOk result (λ shot. shot ≡ places_from is_set 0 (bits_of block.now)) }
{
    let mut places = Vec::new(alloc);
    let mut first = 0;
    for bytes in block.chunks(WORD_BYTES) {
        push_set_bits(&mut places, first, bytes)?;
        first += bytes.len() * 8;
    }
    Ok(Numbers::from_vec(places))
}

/// Pushes the places of the set bits of at most eight bytes, of which the first begins at `first`. It goes from set bit
/// to set bit, so zeros take no time of their own.
fn push_set_bits(places: &mut Vec<u32>, first: usize, bytes: &[u8]) -> Result<(), NoMemory>
    requires size { length bytes.now ≤ 8 }
    requires fits { first + length bytes.now * 8 ≤ 2 ^ 32 }
    ensures { OnOk result (places.new.items ≡ places.old.items ++ places_from is_set first (bits_of bytes.now)) }
{
    let mut place = first;
    let mut left = word_of(bytes);
    while left != 0 {
        let zeros = left.trailing_zeros();
        place += zeros as usize;
        places.push(place as u32)?;
        place += 1;
        left = left >> zeros >> 1;
    }
    Ok(())
}

/// At most eight bytes as a number, the least significant first.
fn word_of(bytes: &[u8]) -> u64
    requires { length bytes.now ≤ 8 }
    ensures bits { low_bits (length bytes.now * 8) result ≡ bits_of bytes.now }
    ensures size { result < 2 ^ (length bytes.now * 8) }
{
    if let Some(whole) = bytes.first_chunk::<WORD_BYTES>() {
        return u64::from_le_bytes(*whole);
    }
    match bytes {
        [byte, rest @ ..] => u64::from(*byte) + word_of(rest) * 256,
        [] => 0,
    }
}
