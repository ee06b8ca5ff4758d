//! Where a text fails to be hexadecimal digits, two for each byte.

ghost use Rattle.std.specs.Prelude.{◌≡◌, ◌++◌, not, OnOk, position, string_bytes};
ghost use Rattle.std.specs.Char.{is_ascii_hexdigit};
ghost use Rattle.usb_diagnosis.specs.Slip.{counted_words, digit_slip, letter_words, slip_words};

use crate::shown::{push_char, push_number};
use std::alloc::{AllocError, Global};

/// What keeps a text from being hexadecimal digits, two for each byte.
#[derive(Clone, Copy)]
pub(crate) enum DigitSlip {
    /// The character at this place, counted from 1, is no digit.
    Character(usize, char),
    /// There is this odd number of digits.
    Odd(usize),
}

/// The index of the first character that is no hexadecimal digit.
fn first_other(letters: &[char]) -> Option<usize>
    ensures { result ≡ position (λ c. not (is_ascii_hexdigit c)) letters.now }
{
    letters
        .iter()
        .position(|letter| !letter.is_ascii_hexdigit())
}

/// The first slip of a text, by its letters.
#[tactic(auto, unfolding(crate::specs::Slip::digit_slip))]
pub(crate) fn digit_slip(letters: &[char]) -> Option<DigitSlip>
    ensures { result ≡ digit_slip letters.now }
{
    match first_other(letters) {
        Some(i) => Some(DigitSlip::Character(i + 1, letters[i])),
        None if letters.len() % 2 == 1 => Some(DigitSlip::Odd(letters.len())),
        None => None,
    }
}

/// Adds a character between words.
#[tactic(auto, unfolding(crate::specs::Slip::letter_words))]
fn push_letter(
    alloc: Global,
    out: &mut String,
    before: &str,
    letter: char,
    after: &str,
) -> Result<(), AllocError>
    ensures { OnOk result (string_bytes out.new
        ≡ string_bytes out.old ++ letter_words before.now letter after.now) }
{
    out.push_str(before)?;
    push_char(alloc, out, letter)?;
    out.push_str(after)
}

/// Adds words and a number.
#[tactic(auto, unfolding(crate::specs::Slip::counted_words))]
fn push_count(alloc: Global, out: &mut String, words: &str, count: usize) -> Result<(), AllocError>
    ensures { OnOk result
        (string_bytes out.new ≡ string_bytes out.old ++ counted_words words.now count) }
{
    out.push_str(words)?;
    push_number(alloc, out, count as u64)
}

/// Adds what the slip is.
#[tactic(auto, unfolding(crate::specs::Slip::slip_words))]
pub(crate) fn push_slip(alloc: Global, out: &mut String, slip: DigitSlip) -> Result<(), AllocError>
    ensures { OnOk result (string_bytes out.new ≡ string_bytes out.old ++ slip_words slip) }
{
    match slip {
        DigitSlip::Character(place, letter) => {
            push_count(alloc, out, "character ", place)?;
            push_letter(alloc, out, " is `", letter, "`, no hexadecimal digit")
        }
        DigitSlip::Odd(count) => push_count(alloc, out, "an odd number of digits: ", count),
    }
}
