//! Items of a text, one after the other.
ghost use Rattle.std.specs.Prelude.{◌≡◌, option_map};
ghost use Rattle.usb_pcap.specs.Grammar.{behind_byte, behind_escape, behind_item, behind_items, behind_letter, is_escape, is_plain};

use crate::text::{is_digit, value_of};

/// A kind of items.
#[derive(Clone, Copy)]
pub(crate) enum Item {
    /// A byte, as two digits.
    Byte,
    /// A unit of a string, as its character or as `\uXXXX`.
    Letter,
}

/// What follows all items that there are, up to a number of them.
#[tactic(auto, unfolding(crate::specs::Grammar::behind_items))]
pub(crate) fn behind_items(kind: Item, most: usize, text: &[u8]) -> &[u8]
    ensures { result.now ≡ behind_items kind most text.now }
{
    let mut rest = text;
    'items: for _ in 0..most {
        match behind_item(kind, rest) {
            Some(more) => rest = more,
            None => return rest,
        }
    }
    rest
}

/// What follows an item.
#[tactic(auto, unfolding(crate::specs::Grammar::behind_item))]
pub(crate) fn behind_item(kind: Item, text: &[u8]) -> Option<&[u8]>
    ensures { option_map (λ r. r.now) result ≡ behind_item kind text.now }
{
    match kind {
        Item::Byte => behind_byte(text),
        Item::Letter => behind_letter(text),
    }
}

/// What follows two upper-case hexadecimal digits; None without them.
fn behind_byte(text: &[u8]) -> Option<&[u8]>
    ensures { option_map (λ r. r.now) result ≡ behind_byte text.now }
{
    match text {
        [high, low, rest @ ..] if is_digit(*high) && is_digit(*low) => Some(rest),
        _ => None,
    }
}

/// What follows a character that stands for itself, or `\uXXXX`; None without either.
fn behind_letter(text: &[u8]) -> Option<&[u8]>
    ensures { option_map (λ r. r.now) result ≡ behind_letter text.now }
{
    match text {
        [c, rest @ ..] if is_plain(*c) => Some(rest),
        [b'\\', rest @ ..] => behind_escape(rest),
        _ => None,
    }
}

/// What follows `uXXXX`.
fn behind_escape(text: &[u8]) -> Option<&[u8]>
    ensures { option_map (λ r. r.now) result ≡ behind_escape text.now }
{
    match text {
        [b'u', a, b, c, d, rest @ ..] if is_escape(*a, *b, *c, *d) => Some(rest),
        _ => None,
    }
}

/// A character of a string that stands for itself.
fn is_plain(c: u8) -> bool
    ensures { result ≡ is_plain c }
{
    matches!(c, b' '..=b'~') && c != b'"' && c != b'\\'
}

/// Four digits of a unit that has no character of its own.
fn is_escape(a: u8, b: u8, c: u8, d: u8) -> bool
    ensures { result ≡ is_escape a b c d }
{
    is_digit(a)
        && is_digit(b)
        && is_digit(c)
        && is_digit(d)
        && !(a == b'0' && b == b'0' && is_plain(value_of(c) * 16 + value_of(d)))
}
