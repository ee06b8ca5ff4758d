//! Phrases: what the words of a request are made of.
ghost use Rattle.std.specs.Prelude.{◌≡◌, flat_map, map, option_map};
ghost use Rattle.usb_watch.specs.Watch.{PutsText, has_failed, known_text};
ghost use Rattle.usb_explain.specs.Words.{endpoint_text, fits_row, is_endpoint, names, phrase_fits, phrase_text, row_for, row_text, said_of, way_word, word_for};
ghost use Rattle.std.specs.Prelude.{◌++◌, ◌∷◌, ◌/◌, ◌%◌, [], decimal};
ghost use Rattle.hex.specs.Hex.{encode_upper};

use crate::field::{SetupField, field_value};
use arrayvec::ArrayString;
use std::io::Write;
use usb_packet::{hex_digits, push_decimal};
use usb_request::Setup;
use usb_watch::{Watched, WriteFailed, put_pieces};

/// A value of a field, and its name.
pub(crate) type Named = (u16, &'static str);

/// What the words of a request are made of. Some phrases fit only some requests.
pub(crate) enum Phrase {
    /// Fits where these are bmRequestType and bRequest. It has no words.
    Request(u8, u8),
    /// Fits where the field has this value. It has no words.
    Is(SetupField, u16),
    /// These words.
    Word(&'static str),
    /// The field in decimal digits.
    Number(SetupField),
    /// The low byte of the field in two hexadecimal digits.
    Byte(SetupField),
    /// The field in four hexadecimal digits.
    Digits(SetupField),
    /// The name of the field's value. It fits where there is one.
    Name(SetupField, &'static [Named]),
    /// The endpoint that wIndex has. It fits where the bits that no endpoint uses are 0.
    Endpoint,
}

/// The first row of which each phrase fits; no phrases if there is none.
#[tactic(auto, unfolding(crate::specs::Words::row_for))]
pub(crate) fn row_for(rows: &[&'static [Phrase]], setup: &Setup) -> &'static [Phrase]
    ensures { map said_of result.now
        ≡ row_for (map (λ r. map said_of r.now) rows.now) setup.now }
{
    let [row, rows @ ..] = rows else {
        return &[];
    };
    if fits_row(row, setup) {
        row
    } else {
        row_for(rows, setup)
    }
}

/// Whether each phrase of a row fits.
#[tactic(auto, unfolding(crate::specs::Words::fits_row))]
fn fits_row(row: &[Phrase], setup: &Setup) -> bool
    ensures { result ≡ fits_row (map said_of row.now) setup.now }
{
    let [phrase, row @ ..] = row else {
        return true;
    };
    phrase_fits(phrase, setup) && fits_row(row, setup)
}

/// Whether a phrase fits a request.
#[tactic(auto, unfolding(crate::specs::Words::phrase_fits))]
fn phrase_fits(phrase: &Phrase, setup: &Setup) -> bool
    ensures { result ≡ phrase_fits (said_of phrase.now) setup.now }
{
    match phrase {
        Phrase::Request(kind, code) => setup.request_type == *kind && setup.request == *code,
        Phrase::Is(field, value) => field_value(*field, setup) == *value,
        Phrase::Name(field, names) => word_for(names, field_value(*field, setup)).is_some(),
        Phrase::Endpoint => is_endpoint(setup),
        Phrase::Word(_) | Phrase::Number(_) | Phrase::Byte(_) | Phrase::Digits(_) => true,
    }
}

/// The name of a value.
#[tactic(auto, unfolding(crate::specs::Words::word_for))]
fn word_for(table: &[Named], value: u16) -> Option<&'static str>
    ensures { option_map (λ w. w.now) result ≡ word_for (names table.now) value }
{
    let [(named, name), table @ ..] = table else {
        return None;
    };
    if *named == value {
        Some(name)
    } else {
        word_for(table, value)
    }
}

/// Writes the words of a row.
pub(crate) fn put_row<W: Write>(
    writer: &mut Watched<W>,
    row: &[Phrase],
    setup: &Setup,
) -> Result<(), WriteFailed>
    ensures { PutsText (known_text W.contents) has_failed writer.old result writer.new
        (row_text (map said_of row.now) setup.now) }
{
    let Some((phrase, rest)) = row.split_first() else {
        return Ok(());
    };
    put_phrase(writer, phrase, setup)?;
    put_row(writer, rest, setup)
}

/// Writes the words of a phrase.
#[tactic(auto, unfolding(crate::specs::Words::phrase_text))]
fn put_phrase<W: Write>(
    writer: &mut Watched<W>,
    phrase: &Phrase,
    setup: &Setup,
) -> Result<(), WriteFailed>
    ensures { PutsText (known_text W.contents) has_failed writer.old result writer.new
        (phrase_text (said_of phrase.now) setup.now) }
{
    match phrase {
        Phrase::Request(_, _) | Phrase::Is(_, _) => put_word(writer, ""),
        Phrase::Word(word) => put_word(writer, word),
        Phrase::Number(field) => put_number(writer, field_value(*field, setup)),
        Phrase::Byte(field) => put_byte(writer, (field_value(*field, setup) % 256) as u8),
        Phrase::Digits(field) => put_digits(writer, field_value(*field, setup)),
        Phrase::Name(field, names) => {
            put_word(
                writer,
                word_for(names, field_value(*field, setup)).unwrap_or(""),
            )
        }
        Phrase::Endpoint => put_endpoint(writer, setup),
    }
}

/// Whether wIndex has an endpoint: its bits 6 to 4 and its high byte are 0 (figure 9-2).
fn is_endpoint(setup: &Setup) -> bool
    ensures { result ≡ is_endpoint setup.now }
{
    setup.index < 256 && setup.index % 128 < 16
}

/// Writes the endpoint that wIndex has.
fn put_endpoint<W: Write>(writer: &mut Watched<W>, setup: &Setup) -> Result<(), WriteFailed>
    ensures { PutsText (known_text W.contents) has_failed writer.old result writer.new
        (endpoint_text setup.now) }
{
    put_number(writer, setup.index % 16)?;
    put_word(writer, way_word(setup.index))
}

/// Whether an endpoint's address is that of an OUT or an IN endpoint (9.6.6).
fn way_word(address: u16) -> &'static str
    ensures { result.now ≡ way_word address }
{
    if address < 128 { " out" } else { " in" }
}

/// Writes a text as it is.
fn put_word<W: Write>(writer: &mut Watched<W>, word: &str) -> Result<(), WriteFailed>
    ensures { PutsText (known_text W.contents) has_failed writer.old result writer.new word.now }
{
    put_bytes(writer, word.as_bytes())
}

/// Writes bytes.
pub(crate) fn put_bytes<W: Write>(writer: &mut Watched<W>, bytes: &[u8]) -> Result<(), WriteFailed>
    ensures { PutsText (known_text W.contents) has_failed writer.old result writer.new bytes.now }
{
    put_pieces(writer, &[bytes])
}

/// Writes a number in decimal digits.
fn put_number<W: Write>(writer: &mut Watched<W>, number: u16) -> Result<(), WriteFailed>
    ensures { PutsText (known_text W.contents) has_failed writer.old result writer.new
        (decimal number) }
{
    let mut digits = ArrayString::new();
    push_decimal(&mut digits, u64::from(number));
    put_word(writer, digits.as_str())
}

/// Writes a byte in two upper-case hexadecimal digits.
fn put_byte<W: Write>(writer: &mut Watched<W>, byte: u8) -> Result<(), WriteFailed>
    ensures { PutsText (known_text W.contents) has_failed writer.old result writer.new
        (encode_upper (byte ∷ [])) }
{
    put_pieces(writer, &[&hex_digits(byte)])
}

/// Writes a field in four upper-case hexadecimal digits, its high byte first.
fn put_digits<W: Write>(writer: &mut Watched<W>, number: u16) -> Result<(), WriteFailed>
    ensures { PutsText (known_text W.contents) has_failed writer.old result writer.new
        (encode_upper (number / 256 ∷ []) ++ encode_upper (number % 256 ∷ [])) }
{
    let [low, high] = number.to_le_bytes();
    put_pieces(writer, &[&hex_digits(high), &hex_digits(low)])
}
