//! The words of a line of a report.

ghost use Rattle.std.specs.Prelude.{◌≡◌, ◌+◌, ◌^◌, ◌≤◌, ◌∷◌, [], MatchOption, IfOk, IfSome};
ghost use Rattle.fb_verify.specs.Reports.{words_of, number_from, number_of, below, negative, signed_number, first_number, first_signed, after_word, all_numbers};
ghost use Rattle.fb_verify.specs.InternalWordsLeft.{has_no_word};

use crate::splitting::split_once;
use fb_graph::{NoMemory, NumberList};
use std::alloc::Global;
use std::marker::Model;

/// The greatest number of 32 bits.
const MOST_SMALL: u64 = u32::MAX as u64;

/// How many bytes a number of a line takes with its space, more or less.
const LIKELY_BYTES: usize = 4;

/// Words of a line that are left to read. Contracts see their list.
#[derive(Drop)]
pub struct Words<'a> {
    /// The words, parted by one space each, if any are left.
    rest: Option<&'a [u8]>,
}

impl<'a> Model for Words<'a> {
    ghost use Rattle.std.specs.Prelude.{ℕ, List, option_map};
    ghost use Rattle.fb_verify.specs.InternalWordsLeft.{words_left};

    ghost Value = { List (List ℕ) };

    ghost view = { λ w. words_left (option_map (λ t. t.now) w.rest) };
}

impl<'a> Words<'a> {
    /// The words of a line.
    pub fn of_line(line: &'a [u8]) -> Self
        ensures { result ≡ words_of line.now }
    {
        Words { rest: Some(line) }
    }

    /// The first word and those after it.
    pub fn split_first(self) -> Option<(&'a [u8], Words<'a>)>
        ensures { MatchOption result (self.entry ≡ []) (λ p. self.entry ≡ p.0.now ∷ p.1) }
    {
        let rest = self.rest?;
        match split_once(rest, b' ') {
            Some((word, more)) => Some((word, Words { rest: Some(more) })),
            None => Some((rest, Words { rest: None })),
        }
    }

    /// The number of at most `most` that the first word writes, and the words after it.
    pub fn first_number(self, most: u64) -> Option<(u64, Words<'a>)>
        ensures { result ≡ first_number (most + 1) self.entry }
    {
        let (word, words) = self.split_first()?;
        let number = number(word, most)?;
        Some((number, words))
    }

    /// The number below 2^32 that the first word writes, and the words after it.
    pub fn first_small(self) -> Option<(u32, Words<'a>)>
        ensures { result ≡ first_number (2 ^ 32) self.entry }
    {
        let (number, words) = self.first_number(MOST_SMALL)?;
        Some((number as u32, words))
    }

    /// The number that the first word writes, of at most `most` without its sign, and the words after it.
    pub fn first_signed(self, most: u64) -> Option<(i128, Words<'a>)>
        ensures { result ≡ first_signed (most + 1) self.entry }
    {
        let (word, words) = self.split_first()?;
        let number = signed_number(word, most)?;
        Some((number, words))
    }

    /// The words after the first one, which is to be this one.
    pub fn after_word(self, wanted: &[u8]) -> Option<Words<'a>>
        ensures { result ≡ after_word wanted.now self.entry }
    {
        let (word, words) = self.split_first()?;
        if word == wanted { Some(words) } else { None }
    }

    /// Whether no word is left.
    #[tactic(auto, using(crate::proofs::Parts::not_without_word))]
    pub fn is_empty(&self) -> bool
        ensures { result ≡ has_no_word self.now }
    {
        self.rest.is_none()
    }

    /// How many words there may be, if each takes four bytes with its space.
    fn likely_count(&self) -> usize {
        match self.rest {
            Some(text) => (text.len() / LIKELY_BYTES).saturating_add(1),
            None => 0,
        }
    }

    /// The numbers below 2^32 that all the words write.
    pub fn numbers(self, alloc: Global) -> Result<Option<NumberList>, NoMemory>
        ensures { IfOk result (λ found. found ≡ all_numbers self.entry) }
    {
        let room = Vec::with_capacity(alloc, self.likely_count())?;
        let mut found = NumberList::from_vec(room);
        let mut words = self;
        while let Some((word, more)) = words.split_first() {
            let Some(number) = number(word, MOST_SMALL) else {
                return Ok(None);
            };
            found.push(number as u32)?;
            words = more;
        }
        Ok(Some(found))
    }
}

/// The number of at most `most` that a word writes.
fn number(word: &[u8], most: u64) -> Option<u64>
    ensures value { result ≡ below (most + 1) (number_of word.now) }
    ensures bound { IfSome result (λ n. n ≤ most) }
{
    match word {
        [] => None,
        [b'0', _, ..] => None,
        _ => digits(word, most),
    }
}

/// The number that a word writes, of at most `most` without its sign: only a number that isn't 0 has a minus sign.
fn signed_number(word: &[u8], most: u64) -> Option<i128>
    ensures { result ≡ signed_number (most + 1) word.now }
{
    match word {
        [] => None,
        [b'-', digits @ ..] => negative(number(digits, most)?),
        _ => {
            let number = number(word, most)?;
            Some(i128::from(number))
        }
    }
}

/// The number with a minus sign, unless it is 0.
fn negative(number: u64) -> Option<i128>
    ensures { result ≡ negative number }
{
    if number == 0 {
        None
    } else {
        Some(-i128::from(number))
    }
}

/// The number of at most `most` that digits write, however many.
fn digits(text: &[u8], most: u64) -> Option<u64>
    ensures value { result ≡ below (most + 1) (number_from 0 text.now) }
    ensures bound { IfSome result (λ n. n ≤ most) }
{
    let mut number: u64 = 0;
    for c in text {
        if !c.is_ascii_digit() {
            return None;
        }
        let next = u128::from(number) * 10 + u128::from(*c - b'0');
        if next > u128::from(most) {
            return None;
        }
        number = next as u64;
    }
    Some(number)
}
