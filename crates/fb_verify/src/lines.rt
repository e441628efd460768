//! What a line of a report says by itself.

ghost use Rattle.std.specs.Prelude.{◌≡◌, IfOk};
ghost use Rattle.fb_verify.specs.Reports.{words_of, head_line, row_kind, shot_line, edges_line, base_line, weight_line, cut_line, trace_line, done_line, line_of, at_end};
ghost use Rattle.fb_verify.specs.InternalLines.{done_after_rows, line_after_row, line_after_shot, line_after_sums};

use crate::line_words::Words;
use crate::reports::{Totals, Version};
use fb_graph::{Cut, NoMemory, NumberList};
use std::alloc::Global;

/// The greatest number, without its sign, of a report whose weights have signs.
const MOST_SIGNED: u64 = i64::MAX as u64;

/// What a line says.
#[derive(Drop)]
pub enum Line {
    /// The text is a report in this version of the format.
    Head(Version),
    /// The row of this shot follows.
    Shot(u32),
    /// The row of this shot names the component of this vertex.
    Odd(u32, u32),
    /// The edges of a correction.
    Edges(NumberList),
    /// The sum of all negative weights, which is below 2^63 without its sign.
    Base(i128),
    /// The weight of a correction, which is below 2^64 without its sign.
    Weight(i128),
    /// A cut of a correction's certificate.
    Cut(Cut),
    /// An event of the run.
    Trace,
    /// The report ends.
    Done(Totals),
}

/// Nothing, unless the words are all taken.
fn at_end(said: Line, words: Words) -> Option<Line>
    ensures { result ≡ at_end said words.entry }
{
    if words.is_empty() { Some(said) } else { None }
}

#[tactic(auto, unfolding(crate::specs::Reports::head_line))]
fn head_line(words: Words) -> Option<Line>
    ensures { result ≡ head_line words.entry }
{
    let (word, words) = words.split_first()?;
    if word == b"1".as_slice() {
        at_end(Line::Head(Version::One), words)
    } else if word == b"2".as_slice() {
        at_end(Line::Head(Version::Two), words)
    } else {
        None
    }
}

/// The line of a shot, after its number.
#[tactic(auto, unfolding(crate::specs::Reports::row_kind))]
fn row_kind(shot: u32, words: Words) -> Option<Line>
    ensures { result ≡ row_kind shot words.entry }
{
    let Some((word, words)) = words.split_first() else {
        return Some(Line::Shot(shot));
    };
    if word != b"odd".as_slice() {
        return None;
    }
    let (vertex, words) = words.first_small()?;
    at_end(Line::Odd(shot, vertex), words)
}

#[tactic(auto, unfolding(crate::specs::Reports::shot_line))]
fn shot_line(words: Words) -> Option<Line>
    ensures { result ≡ shot_line words.entry }
{
    let (shot, words) = words.first_small()?;
    row_kind(shot, words)
}

#[tactic(auto, unfolding(crate::specs::Reports::edges_line))]
fn edges_line(alloc: Global, words: Words) -> Result<Option<Line>, NoMemory>
    ensures { IfOk result (λ said. said ≡ edges_line words.entry) }
{
    match words.numbers(alloc)? {
        Some(edges) => Ok(Some(Line::Edges(edges))),
        None => Ok(None),
    }
}

#[tactic(auto, unfolding(crate::specs::Reports::base_line))]
fn base_line(words: Words) -> Option<Line>
    ensures { result ≡ base_line words.entry }
{
    let (base, words) = words.first_signed(MOST_SIGNED)?;
    at_end(Line::Base(base), words)
}

#[tactic(auto, unfolding(crate::specs::Reports::weight_line))]
fn weight_line(words: Words) -> Option<Line>
    ensures { result ≡ weight_line words.entry }
{
    let (weight, words) = words.first_signed(u64::MAX)?;
    at_end(Line::Weight(weight), words)
}

#[tactic(auto, unfolding(crate::specs::Reports::cut_line))]
fn cut_line(alloc: Global, words: Words) -> Result<Option<Line>, NoMemory>
    ensures { IfOk result (λ said. said ≡ cut_line words.entry) }
{
    let Some((value, words)) = words.first_number(u64::MAX) else {
        return Ok(None);
    };
    match words.numbers(alloc)? {
        Some(vertices) if value > 0 => Ok(Some(Line::Cut(Cut { value, vertices }))),
        _ => Ok(None),
    }
}

#[tactic(auto, unfolding(crate::specs::Reports::trace_line))]
fn trace_line(words: Words) -> Option<Line>
    ensures { result ≡ trace_line words.entry }
{
    let (_worker, words) = words.first_small()?;
    let (_shot, words) = words.first_small()?;
    let (_node, words) = words.first_small()?;
    at_end(Line::Trace, words)
}

#[tactic(auto, unfolding(crate::specs::Reports::done_line))]
fn done_line(words: Words) -> Option<Line>
    ensures { result ≡ done_line words.entry }
{
    let (rows, words) = words.first_number(u64::MAX)?;
    let (odd, words) = words.after_word(b"odd")?.first_number(u64::MAX)?;
    done_after_rows(rows, odd, words)
}

/// The done line of these counts, after their numbers.
fn done_after_rows(rows: u64, odd: u64, words: Words) -> Option<Line>
    ensures { result ≡ done_after_rows rows odd words.entry }
{
    let (units, words) = words.after_word(b"units")?.first_number(u64::MAX)?;
    let (fusions, words) = words.after_word(b"fusions")?.first_number(u64::MAX)?;
    let totals = Totals {
        rows,
        odd,
        units,
        fusions,
    };
    at_end(Line::Done(totals), words)
}

/// What a line says, if it is one of a report.
#[tactic(auto, unfolding(crate::specs::Reports::line_of))]
pub fn read_line(alloc: Global, text: &[u8]) -> Result<Option<Line>, NoMemory>
    ensures { IfOk result (λ said. said ≡ line_of (words_of text.now)) }
{
    let Some((word, words)) = Words::of_line(text).split_first() else {
        return Ok(None);
    };
    if word == b"fusion-report".as_slice() {
        Ok(head_line(words))
    } else if word == b"shot".as_slice() {
        Ok(shot_line(words))
    } else {
        line_after_shot(alloc, word, words)
    }
}

/// What a line says after its first word, if it is one of a correction or behind a row.
fn line_after_shot(alloc: Global, word: &[u8], words: Words) -> Result<Option<Line>, NoMemory>
    ensures { IfOk result (λ said. said ≡ line_after_shot word.now words.entry) }
{
    if word == b"edges".as_slice() {
        edges_line(alloc, words)
    } else if word == b"base".as_slice() {
        Ok(base_line(words))
    } else if word == b"weight".as_slice() {
        Ok(weight_line(words))
    } else {
        line_after_sums(alloc, word, words)
    }
}

/// What a line says after its first word, if it is one of a cut or behind a row.
fn line_after_sums(alloc: Global, word: &[u8], words: Words) -> Result<Option<Line>, NoMemory>
    ensures { IfOk result (λ said. said ≡ line_after_sums word.now words.entry) }
{
    if word == b"cut".as_slice() {
        cut_line(alloc, words)
    } else {
        Ok(line_after_row(word, words))
    }
}

/// What a line says after its first word, if it traces the run or ends the report.
fn line_after_row(word: &[u8], words: Words) -> Option<Line>
    ensures { result ≡ line_after_row word.now words.entry }
{
    if word == b"took".as_slice() || word == b"gave".as_slice() {
        trace_line(words)
    } else if word == b"done".as_slice() {
        done_line(words)
    } else {
        None
    }
}
