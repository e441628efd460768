//! Formats whose records are lines of parts: a reader of them, by what each part and the last one of a line give.

ghost use Rattle.std.specs.Prelude.{◌≡◌, ◌≢◌, ℕ, List, ◌+◌, ◌-◌, ◌<◌, ◌≤◌, [], Bool, true, false, length, drop, slice_index, Ok, Err, Some, None, IfOk, IfErr, IfSome, IfNone, OnOk, OnErr};
ghost use Rattle.fb_records.specs.Lines.{holds};
ghost use Rattle.fb_records.specs.Steps.{part_of, IfFound, IfRefused, answer_at, used_of};
ghost use Rattle.fb_records.specs.declared.answer.Next.TheVariants as next;
ghost use Rattle.fb_shots_stim.specs.Shots.{IsShotOf};
ghost use Rattle.fb_shots_stim.specs.InternalParts.{PartRules, IsAtPlace, is_part_end, start_place};
ghost use Rattle.fb_shots_stim.specs.InternalAnswers.{AnswersParts};

use crate::answer::Kind;
use crate::record::SoFar;
use fb_records::{Found, Numbers, Stop, without_return};
use std::alloc::Global;

/// What a format says of the parts of a line.
pub trait LineParts {
    ghost rules: { PartRules };

    /// The byte that ends a part, but at the end of a line.
    fn separator() -> u8
        ensures { result ≡ rules.separator };

    /// Takes a part that the separator has ended.
    fn take(so_far: &mut SoFar, part: &[u8]) -> Result<(), Stop<Kind>>
        ensures ok { OnOk result
            (rules.with_part so_far.old.detectors so_far.old.named part.now ≡ Ok so_far.new.named) }
        ensures same { so_far.new.detectors ≡ so_far.old.detectors }
        ensures refused { IfErr result (IfRefused (λ kind.
            rules.with_part so_far.old.detectors so_far.old.named part.now ≡ Err kind)) }
        ensures err { OnErr result (so_far.new ≡ so_far.old) };

    /// Takes the last part of a line, and ends the record: the shot of the line, unless the line is skipped.
    fn end(so_far: &mut SoFar, part: &[u8]) -> Result<Option<Numbers>, Stop<Kind>>
        ensures ok { IfOk result (λ found.
            rules.with_last so_far.old.detectors so_far.old.named part.now ≡ Ok found) }
        ensures shot { IfOk result (λ found. IfSome found (IsShotOf so_far.old.detectors)) }
        ensures ended { OnOk result (so_far.new.named ≡ None) }
        ensures same { so_far.new.detectors ≡ so_far.old.detectors }
        ensures refused { IfErr result (IfRefused (λ kind.
            rules.with_last so_far.old.detectors so_far.old.named part.now ≡ Err kind)) }
        ensures err { OnErr result (so_far.new ≡ so_far.old) };
}

/// The record begun: what its parts name, and how far a reader has come in the bytes that no result has used.
#[derive(Drop)]
pub struct Begun {
    pub so_far: SoFar,
    pub place: Place,
}

/// How far a reader has come in the bytes that no result has used.
#[derive(Clone, Copy)]
pub struct Place {
    /// The line that is read starts here. The lines before it are skipped.
    pub line: usize,
    /// The part that is read starts here. The parts before it are taken.
    pub part: usize,
    /// From the part's start to here there is no separator and no newline.
    pub seen: usize,
}

const START: Place = Place {
    line: 0,
    part: 0,
    seen: 0,
};

impl Begun {
    /// No bytes yet.
    pub fn new(alloc: Global, detectors: u32) -> Self
        ensures detectors { result.so_far.detectors ≡ detectors }
        ensures named { result.so_far.named ≡ None }
        ensures place { result.place ≡ start_place }
    {
        Begun {
            so_far: SoFar::new(alloc, detectors),
            place: START,
        }
    }
}

/// Reads parts up to the end of a record or of the bytes.
pub fn advance<P: LineParts>(
    begun: &mut Begun,
    rest: &[u8],
    finished: bool,
) -> Result<Found<Numbers>, Stop<Kind>>
    requires { IsAtPlace P.rules begun.old.so_far rest.now begun.old.place }
    ensures ok { IfOk result (λ found. AnswersParts P.rules begun.old.so_far.detectors rest.now
        finished (drop (used_of found) rest.now) (answer_at found)) }
    ensures used { IfOk result (λ found. used_of found ≤ length rest.now) }
    ensures shot { IfOk result (IfFound (IsShotOf begun.old.so_far.detectors)) }
    ensures begun { IfOk result (λ found.
        IsAtPlace P.rules begun.new.so_far (drop (used_of found) rest.now) begun.new.place) }
    ensures same { begun.new.so_far.detectors ≡ begun.old.so_far.detectors }
    ensures refused { IfErr result (IfRefused (λ kind. AnswersParts P.rules
        begun.old.so_far.detectors rest.now finished rest.now (next.Refused kind))) }
    ensures err { OnErr result (IsAtPlace P.rules begun.new.so_far rest.now begun.new.place) }
{
    loop {
        begun.place.seen = part_end(rest, begun.place.seen, P::separator());
        if begun.place.seen == rest.len() {
            if !finished {
                return Ok(Found::NotYet);
            }
            if begun.place.line == rest.len() {
                return Ok(Found::End);
            }
            let last = take_last::<P>(&mut begun.so_far, begun.place, rest)?;
            begun.place = START;
            return Ok(match last {
                Some(shot) => Found::Shot(shot, rest.len()),
                None => Found::End,
            });
        }
        let used = begun.place.seen + 1;
        if rest[begun.place.seen] != b'\n' {
            take_part::<P>(&mut begun.so_far, &mut begun.place, rest)?;
        } else if let Some(shot) = take_line::<P>(&mut begun.so_far, &mut begun.place, rest)? {
            begun.place = START;
            return Ok(Found::Shot(shot, used));
        }
    }
}

/// Where the part ends that goes on from a place: at a separator, a newline or the end of the bytes.
fn part_end(bytes: &[u8], from: usize, separator: u8) -> usize
    requires { from ≤ length bytes.now }
    ensures onward { from ≤ result }
    ensures within { result ≤ length bytes.now }
    ensures in_line { holds 10 (part_of bytes.now from result) ≡ false }
    ensures in_part { holds separator (part_of bytes.now from result) ≡ false }
    ensures stops { result < length bytes.now
        → is_part_end separator (slice_index bytes.now result) ≡ true }
{
    let mut i = from;
    while i < bytes.len() && bytes[i] != separator && bytes[i] != b'\n' {
        i += 1;
    }
    i
}

/// Takes the part that a separator has ended.
fn take_part<P: LineParts>(
    so_far: &mut SoFar,
    place: &mut Place,
    rest: &[u8],
) -> Result<(), Stop<Kind>>
    requires at { IsAtPlace P.rules so_far.old rest.now place.old }
    requires more { place.old.seen < length rest.now }
    requires separator { slice_index rest.now place.old.seen ≡ P.rules.separator }
    ensures ok { OnOk result (IsAtPlace P.rules so_far.new rest.now place.new) }
    ensures onward { OnOk result (place.new.seen ≡ place.old.seen + 1) }
    ensures same { so_far.new.detectors ≡ so_far.old.detectors }
    ensures refused { IfErr result (IfRefused (λ kind. (finished : Bool) →
        AnswersParts P.rules so_far.old.detectors rest.now finished rest.now (next.Refused kind))) }
    ensures err { OnErr result (IsAtPlace P.rules so_far.new rest.now place.new) }
{
    P::take(so_far, &rest[place.part..place.seen])?;
    place.seen += 1;
    place.part = place.seen;
    Ok(())
}

/// Takes the last part of a line that its newline has ended: the shot of the line, unless the line is skipped.
fn take_line<P: LineParts>(
    so_far: &mut SoFar,
    place: &mut Place,
    rest: &[u8],
) -> Result<Option<Numbers>, Stop<Kind>>
    requires at { IsAtPlace P.rules so_far.old rest.now place.old }
    requires more { place.old.seen < length rest.now }
    requires newline { slice_index rest.now place.old.seen ≡ 10 }
    ensures skipped { IfOk result (λ found. IfNone found (IsAtPlace P.rules so_far.new rest.now place.new)) }
    ensures onward { IfOk result (λ found. IfNone found (place.new.seen ≡ place.old.seen + 1)) }
    ensures shot { IfOk result (λ found. IfSome found (λ shot. IsShotOf so_far.old.detectors shot
        × ((finished : Bool) → AnswersParts P.rules so_far.old.detectors rest.now finished
        (drop (place.old.seen + 1) rest.now) (next.Shot shot)))) }
    ensures begun { IfOk result (λ found. IfSome found (λ _.
        (bytes : List ℕ) → IsAtPlace P.rules so_far.new bytes start_place)) }
    ensures same { so_far.new.detectors ≡ so_far.old.detectors }
    ensures refused { IfErr result (IfRefused (λ kind. (finished : Bool) →
        AnswersParts P.rules so_far.old.detectors rest.now finished rest.now (next.Refused kind))) }
    ensures err { OnErr result (IsAtPlace P.rules so_far.new rest.now place.new) }
{
    if let Some(shot) = P::end(so_far, without_return(&rest[place.part..place.seen]))? {
        return Ok(Some(shot));
    }
    place.seen += 1;
    place.part = place.seen;
    place.line = place.seen;
    Ok(None)
}

/// Takes the last part of the input, in a line of some bytes: the shot of its line, unless the line is skipped.
fn take_last<P: LineParts>(
    so_far: &mut SoFar,
    place: Place,
    rest: &[u8],
) -> Result<Option<Numbers>, Stop<Kind>>
    requires at { IsAtPlace P.rules so_far.old rest.now place }
    requires all { place.seen ≡ length rest.now }
    requires some { place.line < length rest.now }
    ensures nothing { IfOk result (λ found. IfNone found
        (AnswersParts P.rules so_far.old.detectors rest.now true rest.now next.End)) }
    ensures shot { IfOk result (λ found. IfSome found (λ shot. IsShotOf so_far.old.detectors shot
        × AnswersParts P.rules so_far.old.detectors rest.now true [] (next.Shot shot))) }
    ensures begun { OnOk result ((bytes : List ℕ) → IsAtPlace P.rules so_far.new bytes start_place) }
    ensures same { so_far.new.detectors ≡ so_far.old.detectors }
    ensures refused { IfErr result (IfRefused (λ kind.
        AnswersParts P.rules so_far.old.detectors rest.now true rest.now (next.Refused kind))) }
    ensures err { OnErr result (IsAtPlace P.rules so_far.new rest.now place) }
{
    P::end(so_far, without_return(&rest[place.part..place.seen]))
}
