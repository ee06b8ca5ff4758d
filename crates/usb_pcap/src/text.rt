//! What is left of a line, and the words and numbers that it begins with.
ghost use Rattle.std.specs.Prelude.{◌≡◌, ◌<◌, true, option_map};
ghost use Rattle.usb_pcap.specs.Text.{bytes_on, is_digit, number_on, value_of, with_digit};
ghost use Rattle.std.specs.Char.{is_ascii_digit};

use arrayvec::{ArrayString, ArrayVec};
use std::marker::Model;
use usb_packet::push_decimal;

/// What is left of a line to read.
#[derive(Drop)]
pub(crate) struct Text<'a> {
    rest: &'a [u8],
}

impl<'a> Model for Text<'a> {
    ghost use Rattle.std.specs.Prelude.{List, ℕ};

    ghost Value = { List ℕ };

    ghost view = { λ t. t.rest.now };
}

impl<'a> Text<'a> {
    ghost use Rattle.std.specs.Prelude.{◌≡◌, ◌==◌, [], false, Some, None, if◌then◌else◌, is_some, length, option_map};
    ghost use Rattle.usb_pcap.specs.Text.{bytes_on, decimal_in, strip};

    /// A whole line.
    pub(crate) fn new(line: &'a [u8]) -> Self
        ensures { result ≡ line.now }
    {
        Text { rest: line }
    }

    /// Whether nothing is left.
    pub(crate) fn is_empty(&self) -> bool
        ensures { result ≡ (length self.now == 0) }
    {
        self.rest.is_empty()
    }

    /// What is left.
    pub(crate) fn rest(&self) -> &'a [u8]
        ensures { result.now ≡ self.now }
    {
        self.rest
    }

    /// Goes past a word, and says whether it came next. If it did not, nothing changes.
    pub(crate) fn skip(&mut self, word: &[u8]) -> bool
        ensures found { strip word.now self.old ≡ (if result then Some self.new else None) }
        ensures kept { result ≡ false → self.new ≡ self.old }
    {
        match self.rest.strip_prefix(word) {
            Some(rest) => {
                self.rest = rest;
                true
            }
            None => false,
        }
    }

    /// Whether a word comes next.
    pub(crate) fn begins_with(&self, word: &[u8]) -> bool
        ensures { result ≡ is_some (strip word.now self.now) }
    {
        self.rest.strip_prefix(word).is_some()
    }

    /// Reads a number below 2 ^ 64, of digits with no zero before them.
    #[tactic(auto, unfolding(crate::specs::Text::decimal_in))]
    pub(crate) fn number(&mut self) -> Option<u64>
        ensures { decimal_in self.old ≡ option_map (λ n. (n, self.new)) result }
    {
        let number = number_of(self.rest)?;
        let mut digits = ArrayString::new();
        push_decimal(&mut digits, number);
        if self.skip(digits.as_str().as_bytes()) {
            Some(number)
        } else {
            None
        }
    }

    /// Reads bytes in pairs of upper-case hexadecimal digits, at most 64 of them.
    pub(crate) fn bytes(&mut self) -> Option<ArrayVec<u8, 64>>
        ensures { bytes_on [] self.old ≡ option_map (λ b. (b.items, self.new)) result }
    {
        match bytes_on(ArrayVec::new(), self.rest) {
            Some((bytes, rest)) => {
                self.rest = rest;
                Some(bytes)
            }
            None => None,
        }
    }
}

/// These bytes and those that a text begins with in pairs of digits, and what follows in the text.
/// `None` if they are more than 64.
#[tactic(auto, unfolding(crate::specs::Text::bytes_on))]
fn bytes_on(mut bytes: ArrayVec<u8, 64>, text: &[u8]) -> Option<(ArrayVec<u8, 64>, &[u8])>
    ensures { option_map (λ r. (r.0.items, r.1.now)) result ≡ bytes_on bytes.items text.now }
{
    let [high, low, rest @ ..] = text else {
        return Some((bytes, text));
    };
    if !is_digit(*high) || !is_digit(*low) {
        return Some((bytes, text));
    }
    if bytes.len() >= 64 {
        return None;
    }
    bytes.push(value_of(*high) * 16 + value_of(*low));
    bytes_on(bytes, rest)
}

/// The value of the digits that a text begins with; None if it is 2 ^ 64 or more.
fn number_of(text: &[u8]) -> Option<u64>
    ensures { result ≡ number_on 0 text.now }
{
    let mut value: u64 = 0;
    'digits: for digit in text {
        if !digit.is_ascii_digit() {
            return Some(value);
        }
        match with_digit(value, *digit) {
            Some(more) => value = more,
            None => return None,
        }
    }
    Some(value)
}

/// A value with a digit more; None if it is 2 ^ 64 or more.
fn with_digit(value: u64, digit: u8) -> Option<u64>
    requires { is_ascii_digit digit ≡ true }
    ensures { result ≡ with_digit value digit }
{
    let tens = value.checked_mul(10)?;
    tens.checked_add(u64::from(digit - b'0'))
}

/// An upper-case hexadecimal digit.
pub(crate) fn is_digit(c: u8) -> bool
    ensures { result ≡ is_digit c }
{
    c.is_ascii_digit() || matches!(c, b'A'..=b'F')
}

/// The value of an upper-case hexadecimal digit.
pub(crate) fn value_of(c: u8) -> u8
    requires { is_digit c ≡ true }
    ensures value { result ≡ value_of c }
    ensures few { result < 16 }
{
    if c < b'A' { c - b'0' } else { c - b'A' + 10 }
}
