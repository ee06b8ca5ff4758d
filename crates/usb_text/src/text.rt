//! Pieces of printed text.
ghost use Rattle.std.specs.Prelude.{◌≡◌, ◌≤◌, ◌*◌, ◌++◌, length, take, flat_map, decimal, codes, OnOk, IfOk};
ghost use Rattle.hex.specs.Hex.{encode_upper};
ghost use Rattle.usb_packet.specs.Text.{hex_text};
ghost use Rattle.usb_port.specs.Path.{path_text};
ghost use Rattle.usb_text.specs.ListingLines.{speed_word, unit_text, escaped_text, is_plain_unit};

use itoa::Buffer;
use std::alloc::AllocError;
use usb_packet::{hex_digits, write_digits};
use usb_port::PortPath;

/// How many bytes are put into digits at once.
const PIECE: usize = 64;

/// Adds a number in decimal digits.
///
/// # Errors
///
/// Memory was refused. Part of the text may have been added.
pub fn push_decimal(out: &mut Vec<u8>, number: u64) -> Result<(), AllocError>
    ensures { OnOk result (out.new.items ≡ out.old.items ++ decimal number) }
{
    let mut room = Buffer::new();
    out.extend_from_slice(room.format(number).as_bytes())
}

/// Adds bytes in upper-case hexadecimal digits, a dash if there are none.
///
/// # Errors
///
/// Memory was refused. Part of the text may have been added.
pub fn push_hex(out: &mut Vec<u8>, bytes: &[u8]) -> Result<(), AllocError>
    ensures { OnOk result (out.new.items ≡ out.old.items ++ hex_text bytes.now) }
{
    if bytes.is_empty() {
        return Ok(out.push(b'-')?);
    }
    let mut rest = bytes;
    'pieces: while !rest.is_empty() {
        let (piece, behind) = rest.split_at(rest.len().min(PIECE));
        push_digits(out, piece)?;
        rest = behind;
    }
    Ok(())
}

/// Adds the digits of a piece.
fn push_digits(out: &mut Vec<u8>, piece: &[u8]) -> Result<(), AllocError>
    requires { length piece.now ≤ 64 }
    ensures { OnOk result (out.new.items ≡ out.old.items ++ encode_upper piece.now) }
{
    let mut digits = [0; 2 * PIECE];
    write_digits(&mut digits, piece);
    out.extend_from_slice(&digits[..2 * piece.len()])
}

/// Adds the numbers of a path, joined by dots.
///
/// # Errors
///
/// Memory was refused. Part of the text may have been added.
pub fn push_path(out: &mut Vec<u8>, path: &PortPath) -> Result<(), AllocError>
    ensures { OnOk result (out.new.items ≡ out.old.items ++ path_text path.now) }
{
    out.extend_from_slice(path.text().as_bytes())
}

/// The word for a device's speed.
#[tactic(auto, unfolding(crate::specs::ListingLines::speed_word))]
pub fn speed_word(low: bool) -> &'static str
    ensures { result.now ≡ speed_word low }
{
    if low { "low" } else { "full" }
}

/// Adds the units of a string: a printable unit as its character, any other as `\uXXXX`.
///
/// # Errors
///
/// Memory was refused. Part of the text may have been added.
pub fn push_units(out: &mut Vec<u8>, units: &[u16]) -> Result<(), AllocError>
    ensures { OnOk result (out.new.items ≡ out.old.items ++ flat_map unit_text units.now) }
{
    'units: for unit in units {
        push_unit(out, *unit)?;
    }
    Ok(())
}

/// A unit that stands for itself: printable ASCII but the quotation mark and the backslash.
fn is_plain(unit: u16) -> bool
    ensures { result ≡ is_plain_unit unit }
{
    unit >= 0x20 && unit <= 0x7e && unit != 0x22 && unit != 0x5c
}

fn push_unit(out: &mut Vec<u8>, unit: u16) -> Result<(), AllocError>
    ensures { OnOk result (out.new.items ≡ out.old.items ++ unit_text unit) }
{
    if is_plain(unit) {
        return Ok(out.push(unit as u8)?);
    }
    push_escaped(out, (unit / 256) as u8, (unit % 256) as u8)
}

/// Adds a unit of these two bytes as `\uXXXX`.
///
/// # Errors
///
/// Memory was refused. Part of the text may have been added.
pub fn push_escaped(out: &mut Vec<u8>, high: u8, low: u8) -> Result<(), AllocError>
    ensures { OnOk result (out.new.items ≡ out.old.items ++ escaped_text high low) }
{
    out.extend_from_slice(b"\\u")?;
    out.extend_from_slice(&hex_digits(high))?;
    out.extend_from_slice(&hex_digits(low))
}
