//! The strings of a device.
ghost use Rattle.std.specs.Prelude.{◌≡◌, ◌≤◌, ◌<◌, ◌++◌, encode_utf8, IsTrue, OnOk};
ghost use Rattle.std.specs.Char.Utf16.{is_high_surrogate, is_low_surrogate, lone_unit_char, surrogate_pair_char};
ghost use Rattle.usb_drawing.specs.Texts.{is_layout, is_pair, is_shown, labelled_text, shown_unit, shown_units, string_text};

use crate::art::Style;
use std::alloc::AllocError;
use usb_enum::StringUnits;
use usb_text::{push_escaped, push_units};

/// Adds a string after its label, if there is one.
pub(crate) fn push_labelled(
    out: &mut Vec<u8>,
    style: Style,
    label: &str,
    units: &Option<StringUnits>,
) -> Result<(), AllocError>
    ensures { OnOk result (out.new.items
        ≡ out.old.items ++ labelled_text style label.now units.now) }
{
    match units {
        None => Ok(()),
        Some(units) => {
            out.extend_from_slice(label.as_bytes())?;
            out.extend_from_slice(b"\"")?;
            push_string(out, style, units.as_slice())?;
            out.extend_from_slice(b"\"")
        }
    }
}

/// Adds a string: as its characters with line art, else as printable ASCII and `\uXXXX`.
fn push_string(out: &mut Vec<u8>, style: Style, units: &[u16]) -> Result<(), AllocError>
    ensures { OnOk result (out.new.items ≡ out.old.items ++ string_text style units.now) }
{
    match style {
        Style::Lines => push_shown(out, units),
        Style::Ascii => push_units(out, units),
    }
}

/// Adds the characters that units spell, and what spells none as `\uXXXX`.
#[tactic(auto, unfolding(crate::specs::Texts::shown_units))]
fn push_shown(out: &mut Vec<u8>, units: &[u16]) -> Result<(), AllocError>
    ensures { OnOk result (out.new.items ≡ out.old.items ++ shown_units units.now) }
{
    let Some((unit, rest)) = units.split_first() else {
        return Ok(());
    };
    let Some((next, behind)) = rest.split_first() else {
        return push_unit(out, *unit);
    };
    if is_pair(*unit, *next) {
        push_pair(out, *unit, *next)?;
        return push_shown(out, behind);
    }
    push_unit(out, *unit)?;
    push_shown(out, rest)
}

/// Whether both units spell one character.
fn is_pair(high: u16, low: u16) -> bool
    ensures pair { result ≡ is_pair high low }
    ensures first { IsTrue result → (0xd800 ≤ high) × (high < 0xdc00) }
    ensures second { IsTrue result → (0xdc00 ≤ low) × (low < 0xe000) }
{
    is_high(high) && is_low(low)
}

/// The first unit of a pair.
fn is_high(unit: u16) -> bool
    ensures test { result ≡ is_high_surrogate unit }
    ensures range { IsTrue result → (0xd800 ≤ unit) × (unit < 0xdc00) }
{
    unit >= 0xd800 && unit < 0xdc00
}

/// The second unit of a pair.
fn is_low(unit: u16) -> bool
    ensures test { result ≡ is_low_surrogate unit }
    ensures range { IsTrue result → (0xdc00 ≤ unit) × (unit < 0xe000) }
{
    unit >= 0xdc00 && unit < 0xe000
}

/// Adds the character that a pair spells.
fn push_pair(out: &mut Vec<u8>, high: u16, low: u16) -> Result<(), AllocError>
    requires first { (0xd800 ≤ high) × (high < 0xdc00) }
    requires second { (0xdc00 ≤ low) × (low < 0xe000) }
    ensures { OnOk result (out.new.items
        ≡ out.old.items ++ encode_utf8 (surrogate_pair_char high low)) }
{
    let code = 0x1_0000 + (u32::from(high) - 0xd800) * 0x400 + (u32::from(low) - 0xdc00);
    match char::from_u32(code) {
        Some(c) => push_char(out, c),
        None => Ok(()),
    }
}

/// Adds a unit that is in no pair, as its character or as `\uXXXX`.
fn push_unit(out: &mut Vec<u8>, unit: u16) -> Result<(), AllocError>
    ensures { OnOk result (out.new.items ≡ out.old.items ++ shown_unit unit) }
{
    if let Some(c) = lone_char(unit) {
        if is_shown(c) {
            return push_char(out, c);
        }
    }
    push_escaped(out, (unit / 256) as u8, (unit % 256) as u8)
}

/// The character of a unit that is in no pair; None for a surrogate.
fn lone_char(unit: u16) -> Option<char>
    ensures { result ≡ lone_unit_char unit }
{
    char::from_u32(u32::from(unit))
}

/// Adds a character in UTF-8.
fn push_char(out: &mut Vec<u8>, c: char) -> Result<(), AllocError>
    ensures { OnOk result (out.new.items ≡ out.old.items ++ encode_utf8 c) }
{
    let mut buffer = [0; 4];
    out.extend_from_slice(c.encode_utf8(&mut buffer).as_bytes())
}

/// A character that stands for itself.
fn is_shown(c: char) -> bool
    ensures { result ≡ is_shown c }
{
    !(c.is_control() || c == '"' || c == '\\' || is_layout(c as u32))
}

/// What ends a line, or changes the direction of the text around it.
fn is_layout(c: u32) -> bool
    ensures { result ≡ is_layout c }
{
    (c >= 0x200e && c <= 0x200f) || (c >= 0x2028 && c <= 0x202e) || (c >= 0x2066 && c <= 0x2069)
}
