//! The numbers among the tokens of a text, read without a value of the whole text. These functions are for texts of a
//! known form: `None` says nothing of a text, and its reader then goes by `read_value`. What a reader of tokens gives
//! after `None` or an error is of no use.

ghost use Rattle.std.specs.Prelude.{◌≡◌, ◌==◌, ◌<◌, ℕ, length, slice_index, true, None, Some, IfOk, IfSome, OnSome};
ghost use Rattle.json.specs.Json.{after_end_array};
ghost use Rattle.serde_json.specs.Data.{number, unsigned};
ghost use Rattle.serde_json.specs.Find.{of_integer};
ghost use Rattle.serde_json.specs.Read.{number_from, number_of};
ghost use Rattle.fast_float.specs.Text.{scan};
ghost use Rattle.fb_json.specs.NumberTokens.{Begins, list_data, natural_data};

use fast_float::Numeral;
use json::{Reader, Token};
use std::alloc::{AllocError, Global};

/// The whole number of at least 0 that comes next, if one does. Takes no memory.
pub fn next_natural(reader: &mut Reader<'_>) -> Option<u64>
    ensures value { IfSome result (λ n. (depth : ℕ)
        → Begins depth reader.old (number (unsigned n)) reader.new) }
    ensures shorter { OnSome result (length reader.new < length reader.old) }
    ensures open { OnSome result (after_end_array reader.old ≡ None) }
{
    let Token::Number(text) = reader.next()? else {
        return None;
    };
    natural(text.as_bytes())
}

/// The whole number that comes next, if one does. Takes no memory.
pub fn next_whole(reader: &mut Reader<'_>) -> Option<i128>
    ensures value { IfSome result (λ n. (depth : ℕ)
        → Begins depth reader.old (number (of_integer n)) reader.new) }
    ensures shorter { OnSome result (length reader.new < length reader.old) }
    ensures open { OnSome result (after_end_array reader.old ≡ None) }
{
    let Token::Number(text) = reader.next()? else {
        return None;
    };
    whole(text.as_bytes())
}

/// The list of whole numbers of at least 0 that comes next, if one does.
pub fn next_naturals(alloc: Global, reader: &mut Reader<'_>) -> Result<Option<Vec<u64>>, AllocError>
    ensures value { IfOk result (λ found. IfSome found (λ v. (depth : ℕ) → 0 < depth
        → Begins depth reader.old (list_data natural_data v.items) reader.new)) }
    ensures shorter { IfOk result (λ found. OnSome found (length reader.new < length reader.old)) }
{
    let Some(Token::BeginArray) = reader.next() else {
        return Ok(None);
    };
    let mut found = Vec::new(alloc);
    'entries: while !reader.take_end_array() {
        let Some(entry) = next_natural(reader) else {
            return Ok(None);
        };
        found.push(entry)?;
    }
    Ok(Some(found))
}

/// The whole number of at least 0 that a number's text writes.
fn natural(text: &[u8]) -> Option<u64>
    ensures { IfSome result (λ n. number_of text.now ≡ Some (unsigned n)) }
{
    if has_minus(text) {
        return None;
    }
    Numeral::scan(text).to_u64()
}

/// The whole number that a number's text writes.
fn whole(text: &[u8]) -> Option<i128>
    ensures { IfSome result (λ n. number_of text.now ≡ Some (of_integer n)) }
{
    if has_minus(text) {
        return negative(&text[1..]);
    }
    let number = Numeral::scan(text).to_u64()?;
    Some(i128::from(number))
}

/// The number below 0 that digits write behind a minus sign.
fn negative(digits: &[u8]) -> Option<i128>
    ensures { IfSome result (λ n. number_from true (scan digits.now) ≡ Some (of_integer n)) }
{
    let number = Numeral::scan(digits).to_i64(true)?;
    if number < 0 {
        Some(i128::from(number))
    } else {
        None
    }
}

/// Whether a minus sign comes first.
fn has_minus(text: &[u8]) -> bool
    ensures sign { result ≡ (slice_index text.now 0 == 45) }
    ensures some { result ≡ true → 0 < length text.now }
{
    !text.is_empty() && text[0] == b'-'
}
