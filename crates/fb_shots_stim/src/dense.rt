//! The format `01`: a line for each shot, a byte `0` or `1` for each detector.

ghost use Rattle.std.specs.Prelude.{◌≡◌, ℕ, ◌+◌, ◌^◌, ◌<◌, ◌≤◌, ◌++◌, [], true, false, length, replicate, take, slice_index, IfOk, OnOk};
ghost use Rattle.std.specs.List.{list_all};
ghost use Rattle.fb_shots_stim.specs.Shots.{places_from};
ghost use Rattle.fb_shots_stim.specs.Text01.{is_bit, is_one};
ghost use Rattle.fb_shots_stim.specs.InternalStep01.{step_01, line_end_01};

use crate::answer::Kind;
use fb_records::{Found, NoMemory, Numbers, RecordFormat, RecordReader, Stop};
use std::alloc::Global;
use std::marker::Model;

/// How many bytes of a line are looked at together.
const WORD_BYTES: usize = 8;

/// A word of bytes `0`.
const ZEROS: u64 = 0x3030_3030_3030_3030;

/// A reader of shots in the format `01`. Contracts see the bytes fed that no result has used, and whether they are all.
pub type Records01 = RecordReader<Dense>;

/// The format `01` of shots of some detectors. Contracts see the number of them.
#[derive(Drop)]
pub struct Dense {
    alloc: Global,
    detectors: u32,
}

impl Model for Dense {
    ghost use Rattle.std.specs.Prelude.{ℕ};

    ghost Value = { ℕ };

    ghost view = { λ f. f.detectors };
}

impl RecordFormat for Dense {
    ghost use Rattle.std.specs.Prelude.{◌≡◌, ◌≤◌, true, length, take};
    ghost use Rattle.std.specs.List.{list_all};
    ghost use Rattle.std.proofs.Common.{rules};
    ghost use Rattle.std.proofs.lemmas.Grind.{common_steps};
    ghost use Rattle.fb_records.specs.Lines.{after_line};
    ghost use Rattle.fb_shots_stim.specs.Shots.{IsShotOf};
    ghost use Rattle.fb_shots_stim.specs.Text01.{is_bit, records_01, prefix_01};

    type Subject = u32;

    /// How far the bytes of the record begun are known to be bits.
    type Begun = usize;

    type Shot = Numbers;

    type Kind = Kind;

    ghost subject_of = { λ n. n };

    ghost records = { records_01 };

    ghost prefix = { prefix_01 };

    ghost after = { λ n. after_line };

    ghost IsShot = { IsShotOf };

    ghost IsBegun = { λ n scanned bytes. (scanned ≤ length bytes) × (scanned ≤ n) × (list_all is_bit (take scanned bytes) ≡ true) };

    fn new(alloc: Global, detectors: u32) -> Self {
        Dense { alloc, detectors }
    }

    fn start(&self) -> usize {
        0
    }

    fn advance(
        &self,
        scanned: &mut usize,
        rest: &[u8],
        finished: bool,
    ) -> Result<Found<Numbers>, Stop<Kind>> {
        let good = leading_bits(rest, *scanned, self.detectors as usize);
        *scanned = good;
        match step_at(self.detectors, finished, good, &rest[good..]) {
            Step::Line(used) => {
                let shot = ones(self.alloc, &rest[..good])?;
                *scanned = 0;
                Ok(Found::Shot(shot, used))
            }
            Step::NotYet => Ok(Found::NotYet),
            Step::End => Ok(Found::End),
            Step::Refused(kind) => Err(Stop::Refused(kind)),
        }
    }

    ghost grows = { λ n scanned bytes more h. Prim.search (rules, common_steps) };
}

/// What follows the bits that a line begins with.
enum Step {
    /// The line's end; the line and its end have this many bytes.
    Line(usize),
    NotYet,
    End,
    Refused(Kind),
}

/// How many bits the bytes begin with, at most `limit`. The first `known` bytes are known to be bits.
fn leading_bits(bytes: &[u8], known: usize, limit: usize) -> usize
    requires within { known ≤ length bytes.now }
    requires most { known ≤ limit }
    requires bits { list_all is_bit (take known bytes.now) ≡ true }
    ensures within { result ≤ length bytes.now }
    ensures most { result ≤ limit }
    ensures bits { list_all is_bit (take result bytes.now) ≡ true }
    ensures stops { result < limit → result < length bytes.now → is_bit (slice_index bytes.now result) ≡ false }
{
    let end = bytes.len().min(limit);
    let mut i = known;
    while i < end {
        let word = &bytes[i..end.min(i + WORD_BYTES)];
        let bits = leading_bits_of(word);
        i += bits;
        if bits < word.len() {
            break;
        }
    }
    i
}

/// How many bits a word begins with.
fn leading_bits_of(word: &[u8]) -> usize
    ensures within { result ≤ length word.now }
    ensures bits { list_all is_bit (take result word.now) ≡ true }
    ensures stops { result < length word.now → is_bit (slice_index word.now result) ≡ false }
{
    if are_zeros(word) {
        return word.len();
    }
    let mut i = 0;
    while i < word.len() && (word[i] == b'0' || word[i] == b'1') {
        i += 1;
    }
    i
}

/// Whether the bytes are a whole word of `0`, as most words of a shot with few defects are.
fn are_zeros(bytes: &[u8]) -> bool
    ensures { result ≡ true → bytes.now ≡ replicate 8 48 }
{
    match bytes.first_chunk::<WORD_BYTES>() {
        Some(word) => bytes.len() == WORD_BYTES && u64::from_le_bytes(*word) == ZEROS,
        None => false,
    }
}

/// What a line comes to that begins by `good` bits, of the `detectors` that it is to have, and goes on by `tail`.
fn step_at(detectors: u32, finished: bool, good: usize, tail: &[u8]) -> Step
    requires { good ≤ detectors }
    ensures { result ≡ step_01 detectors finished good tail.now }
{
    match tail {
        [] if !finished => Step::NotYet,
        [] if good == 0 => Step::End,
        [] => line_end(detectors, good, 0),
        [b'\n', ..] => line_end(detectors, good, 1),
        [b'\r'] if !finished => Step::NotYet,
        [b'\r'] => line_end(detectors, good, 1),
        [b'\r', b'\n', ..] => line_end(detectors, good, 2),
        _ => {
            if good == detectors as usize {
                Step::Refused(Kind::LongRecord)
            } else {
                Step::Refused(Kind::BadByte)
            }
        }
    }
}

fn line_end(detectors: u32, good: usize, ending: usize) -> Step
    requires bits { good ≤ detectors }
    requires ending { ending ≤ 2 }
    ensures { result ≡ line_end_01 detectors good ending }
{
    if good == detectors as usize {
        Step::Line(good + ending)
    } else {
        Step::Refused(Kind::ShortRecord)
    }
}

/// The places of `1` among bits.
fn ones(alloc: Global, bits: &[u8]) -> Result<Numbers, NoMemory>
    requires { length bits.now < 2 ^ 32 }
    ensures { IfOk result (λ shot. shot ≡ places_from is_one 0 bits.now) }
{
    let mut places = Vec::new(alloc);
    let mut first = 0;
    for word in bits.chunks(WORD_BYTES) {
        push_ones(&mut places, first, word)?;
        first += word.len();
    }
    Ok(Numbers::from_vec(places))
}

/// Pushes the places of `1` among the bits of a word, of which the first is at `first`.
fn push_ones(places: &mut Vec<u32>, first: usize, word: &[u8]) -> Result<(), NoMemory>
    requires { first + length word.now < 2 ^ 32 }
    ensures { OnOk result (places.new.items ≡ places.old.items ++ places_from is_one first word.now) }
{
    if are_zeros(word) {
        return Ok(());
    }
    for (i, bit) in word.iter().enumerate() {
        if *bit == b'1' {
            places.push((first + i) as u32)?;
        }
    }
    Ok(())
}
