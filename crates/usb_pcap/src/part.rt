//! Parts of a line.
ghost use Rattle.std.specs.Prelude.{◌≡◌, ◌≤◌, length, map, option_map, position};
ghost use Rattle.usb_port.specs.Path.{path_of};
ghost use Rattle.usb_pcap.specs.Grammar.{behind_bytes, behind_endpoint, behind_name, behind_path, behind_piece, ends_path, fits_form, is_endpoint, is_from_root, path_end, piece_of};
ghost use Rattle.usb_pcap.specs.Text.{decimal_in, strip, strip_any};
ghost use Rattle.usb_request.specs.EndpointAddresses.{is_endpoint_address};

use crate::item::{Item, behind_item, behind_items};
use crate::text::{Text, is_digit, value_of};
use usb_port::PortPath;
use usb_request::EndpointAddress;

/// A part of a line.
pub(crate) enum Part {
    /// This word.
    Word(&'static str),
    /// One of these words.
    OneOf(&'static [&'static str]),
    /// The path of a port.
    Path,
    /// The address of an endpoint, in two upper-case hexadecimal digits.
    Endpoint,
    /// A number below 2 ^ 64, in decimal digits with no zero before them.
    Number,
    /// Bytes, in pairs of upper-case hexadecimal digits, a dash for none.
    Bytes,
    /// The units of a string, as its characters or as `\uXXXX`.
    Text,
    /// The name of a device, to the end of the line.
    Name,
}

/// Whether a text is of these parts, one after the other.
#[tactic(auto, unfolding(crate::specs::Grammar::fits_form))]
pub(crate) fn fits_form(form: &[Part], text: &[u8]) -> bool
    ensures { result ≡ fits_form (map piece_of form.now) text.now }
{
    let [part, form @ ..] = form else {
        return text.is_empty();
    };
    match behind_part(part, text) {
        Some(rest) => fits_form(form, rest),
        None => false,
    }
}

/// What follows a part.
#[tactic(auto, unfolding(crate::specs::Grammar::behind_piece))]
fn behind_part<'a>(part: &Part, text: &'a [u8]) -> Option<&'a [u8]>
    ensures { option_map (λ r. r.now) result ≡ behind_piece (piece_of part.now) text.now }
{
    match part {
        Part::Word(word) => behind_word(word, text),
        Part::OneOf(words) => behind_any(words, text),
        Part::Path => behind_path(text),
        Part::Endpoint => behind_endpoint(text),
        Part::Number => behind_number(text),
        Part::Bytes => behind_bytes(text),
        Part::Text => Some(behind_items(Item::Letter, text.len(), text)),
        Part::Name => behind_name(text),
    }
}

/// What follows the first of the words that the text begins with.
#[tactic(auto, unfolding(crate::specs::Text::strip_any))]
fn behind_any<'a>(words: &[&str], text: &'a [u8]) -> Option<&'a [u8]>
    ensures { option_map (λ r. r.now) result ≡ strip_any (map (λ w. w.now) words.now) text.now }
{
    let [word, words @ ..] = words else {
        return None;
    };
    match behind_word(word, text) {
        Some(rest) => Some(rest),
        None => behind_any(words, text),
    }
}

/// What follows a word that the text begins with; None if it begins with another.
fn behind_word<'a>(word: &str, text: &'a [u8]) -> Option<&'a [u8]>
    ensures { option_map (λ r. r.now) result ≡ strip word.now text.now }
{
    text.strip_prefix(word.as_bytes())
}

/// What follows the path of a port, from a root port on; None without one.
fn behind_path(text: &[u8]) -> Option<&[u8]>
    ensures { option_map (λ r. r.now) result ≡ behind_path text.now }
{
    let (front, rest) = text.split_at(path_end(text));
    if is_from_root(front) {
        Some(rest)
    } else {
        None
    }
}

/// Where the digits and dots of a path end.
fn path_end(text: &[u8]) -> usize
    ensures end { result ≡ path_end text.now }
    ensures within { result ≤ length text.now }
{
    path_stop(text).unwrap_or(text.len())
}

/// The place of the first byte that no path has.
fn path_stop(text: &[u8]) -> Option<usize>
    ensures { result ≡ position ends_path text.now }
{
    text.iter().position(|byte| ends_path(*byte))
}

/// Whether a path ends before the byte: it is neither a digit nor a dot.
fn ends_path(byte: u8) -> bool
    ensures { result ≡ ends_path byte }
{
    !byte.is_ascii_digit() && byte != b'.'
}

/// Whether this is the text of a path, from a root port on: of those there are at most 7.
fn is_from_root(text: &[u8]) -> bool
    ensures { result ≡ is_from_root (path_of text.now) }
{
    match str::from_utf8(text) {
        Ok(text) => begins_at_root(PortPath::from_text(text)),
        Err(_) => false,
    }
}

/// Whether there is a path, and its first port is a root port, 1 to 7.
fn begins_at_root(path: Option<PortPath>) -> bool
    ensures { result ≡ is_from_root path }
{
    match path {
        Some(path) => path.numbers()[0] <= 7,
        None => false,
    }
}

/// What follows the two digits of an endpoint's address; None without them.
fn behind_endpoint(text: &[u8]) -> Option<&[u8]>
    ensures { option_map (λ r. r.now) result ≡ behind_endpoint text.now }
{
    match text {
        [high, low, rest @ ..] if is_endpoint(*high, *low) => Some(rest),
        _ => None,
    }
}

/// The two digits of an endpoint's address (9.6.6).
fn is_endpoint(high: u8, low: u8) -> bool
    ensures { result ≡ is_endpoint high low }
{
    is_digit(high) && is_digit(low) && is_address(value_of(high) * 16 + value_of(low))
}

/// Whether a byte is an endpoint's address: its number is not 0, and no reserved bit is set.
fn is_address(byte: u8) -> bool
    ensures { result ≡ is_endpoint_address byte }
{
    EndpointAddress::new(byte).is_some()
}

/// What follows a number below 2 ^ 64, in digits with no zero before them; None without one.
fn behind_number(text: &[u8]) -> Option<&[u8]>
    ensures { option_map (λ r. r.now) result ≡ option_map (λ n. n.1) (decimal_in text.now) }
{
    let mut text = Text::new(text);
    text.number()?;
    Some(text.rest())
}

/// What follows pairs of digits, or the dash for no bytes; None without either.
fn behind_bytes(text: &[u8]) -> Option<&[u8]>
    ensures { option_map (λ r. r.now) result ≡ behind_bytes text.now }
{
    if let Some(rest) = behind_word("-", text) {
        return Some(rest);
    }
    let rest = behind_item(Item::Byte, text)?;
    Some(behind_items(Item::Byte, rest.len(), rest))
}

/// The empty text after a name, which takes the whole line; None if nothing is there.
fn behind_name(text: &[u8]) -> Option<&[u8]>
    ensures { option_map (λ r. r.now) result ≡ behind_name text.now }
{
    if text.is_empty() { None } else { Some(&[]) }
}
