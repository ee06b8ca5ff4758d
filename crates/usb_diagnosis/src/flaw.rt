//! How a value fails what its key allows.

use crate::key::{IN, Kind, OUT, PlanKey};
use toml::Value;

/// How a value fails what its key allows.
#[derive(Clone, Copy, PartialEq, Eq)]
pub(crate) enum Flaw {
    /// A table in it lacks a key.
    Key,
    /// It is of another kind, out of range or too long.
    Value,
    /// It has texts that are no hexadecimal digits, two for each byte.
    Digits,
}

/// Whether it is a number of this range, both ends included.
fn is_number_in(value: &Value, low: u64, high: u64) -> bool {
    match value.as_integer() {
        Some(number) if number >= 0 => (low..=high).contains(&(number as u64)),
        _ => false,
    }
}

/// Whether a word is one of these.
fn is_one_of(word: &str, words: &[&str]) -> bool {
    words.iter().any(|other| word == *other)
}

/// Whether it is a text that is one of the words.
pub(crate) fn is_word(value: &Value, words: &[&str]) -> bool {
    match value.as_str() {
        None => false,
        Some(word) => is_one_of(word, words),
    }
}

/// Whether it is an array, and each value in it is one of the words.
fn are_words(value: &Value, words: &[&str]) -> bool {
    match value.as_array() {
        None => false,
        Some(values) => values.iter().all(|value| is_word(value, words)),
    }
}

/// Whether it is an array of tables alone.
pub(crate) fn are_tables(value: &Value) -> bool {
    match value.as_array() {
        None => false,
        Some(values) => values.iter().all(|value| value.as_table().is_some()),
    }
}

/// Whether a text is pairs of hexadecimal digits, of either case; so is an empty one.
pub(crate) fn are_hex_digits(text: &str) -> bool {
    text.len() % 2 == 0 && text.bytes().all(|byte| byte.is_ascii_hexdigit())
}

/// How a value fails to be the digits of so many bytes at most.
fn hex_flaw(value: &Value, most: usize) -> Option<Flaw> {
    match value.as_str() {
        None => Some(Flaw::Value),
        Some(text) if !are_hex_digits(text) => Some(Flaw::Digits),
        Some(text) if text.len() / 2 > most => Some(Flaw::Value),
        Some(_) => None,
    }
}

/// How a value fails to be the digits of exactly so many bytes.
fn whole_hex_flaw(value: &Value, count: usize) -> Option<Flaw> {
    match value.as_str() {
        None => Some(Flaw::Value),
        Some(digits) if !are_hex_digits(digits) => Some(Flaw::Digits),
        Some(digits) => flaw_if(digits.len() / 2 != count, Flaw::Value),
    }
}

/// How an array fails to be so many texts of digits at most. A flaw of value comes before one of
/// digits.
fn hexes_flaw(value: &Value, count: usize, most: usize) -> Option<Flaw> {
    let Some(values) = value.as_array() else {
        return Some(Flaw::Value);
    };
    if values.len() > count || has_flaw(values.as_slice(), most, Flaw::Value) {
        return Some(Flaw::Value);
    }
    flaw_if(
        has_flaw(values.as_slice(), most, Flaw::Digits),
        Flaw::Digits,
    )
}

/// Whether one of the values, as digits of at most this number of bytes, has the flaw.
fn has_flaw(values: &[Value], most: usize, flaw: Flaw) -> bool {
    values
        .iter()
        .any(|value| hex_flaw(value, most) == Some(flaw))
}

/// The flaw, if a check has failed.
pub(crate) fn flaw_if(failed: bool, flaw: Flaw) -> Option<Flaw> {
    if failed { Some(flaw) } else { None }
}

/// How a value fails what stands at the key, whatever else the entry has; of `endpoint` and `request` the tables alone.
pub(crate) fn flaw_of(key: PlanKey, value: &Value) -> Option<Flaw> {
    let fits = match key.kind {
        Kind::Number(low, high) | Kind::NumberAs(low, high, _) => is_number_in(value, low, high),
        Kind::Flag => value.as_bool().is_some(),
        Kind::Text(_) => value.as_str().is_some(),
        Kind::Word(words) => is_word(value, words),
        Kind::Words(words) => are_words(value, words),
        Kind::Tables | Kind::Endpoints(_) | Kind::Requests(_) => are_tables(value),
        Kind::Place(_) => false,
        Kind::Address => is_number_in(value, OUT.0, OUT.1) || is_number_in(value, IN.0, IN.1),
        Kind::AnyHex => return hex_flaw(value, usize::MAX),
        Kind::Hex(most) => return hex_flaw(value, most),
        Kind::WholeHex(count) => return whole_hex_flaw(value, count),
        Kind::Hexes(count, most) => return hexes_flaw(value, count, most),
    };
    flaw_if(!fits, Flaw::Value)
}
