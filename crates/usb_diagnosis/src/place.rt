//! Where in a file something stands, and how that is told.

ghost use Rattle.std.specs.Prelude.{◌≡◌, ◌-◌, ◌^◌, ◌<◌, ◌++◌, OnOk, string_bytes};
ghost use Rattle.usb_diagnosis.specs.Place.{behind, behind_all, colon_number, line_behind, spot_behind, spot_text};

use crate::shown::push_number;
use std::alloc::{AllocError, Global};

/// Where in a file something stands, as far as that is known.
#[derive(Clone, Copy, PartialEq, Eq)]
pub(crate) enum Spot {
    /// Somewhere in the file.
    Unknown,
    /// On a line, counted from 1.
    Line(usize),
    /// At a column of a line, both counted from 1; a column is a character.
    Column(usize, usize),
}

/// The line and the column after one more byte of a text. Of a character's bytes only the first
/// counts.
fn behind(at: (usize, usize), byte: u8) -> (usize, usize)
    requires line { at.0 < 2 ^ 64 - 1 }
    requires column { at.1 < 2 ^ 64 - 1 }
    ensures { result ≡ behind at byte }
{
    if byte == b'\n' {
        (at.0 + 1, 1)
    } else if byte & 0xC0 == 0x80 {
        at
    } else {
        (at.0, at.1 + 1)
    }
}

/// The line and the column behind these bytes of a text.
fn behind_all(before: &[u8]) -> (usize, usize)
    ensures { result ≡ behind_all before.now }
{
    let mut at = (1, 1);
    'bytes: for byte in before {
        at = behind(at, *byte);
    }
    at
}

/// The spot behind these bytes of a text.
pub(crate) fn spot_behind(before: &[u8]) -> Spot
    ensures { result ≡ spot_behind before.now }
{
    let (line, column) = behind_all(before);
    Spot::Column(line, column)
}

/// The line behind these bytes of a text.
pub(crate) fn line_behind(before: &[u8]) -> usize
    ensures { result ≡ line_behind before.now }
{
    let (line, _) = behind_all(before);
    line
}

/// Adds `:LINE`, `:LINE:COLUMN` or nothing.
pub(crate) fn push_spot(alloc: Global, out: &mut String, spot: Spot) -> Result<(), AllocError>
    ensures { OnOk result (string_bytes out.new ≡ string_bytes out.old ++ spot_text spot) }
{
    match spot {
        Spot::Unknown => Ok(()),
        Spot::Line(line) => push_behind_colon(alloc, out, line),
        Spot::Column(line, column) => {
            push_behind_colon(alloc, out, line)?;
            push_behind_colon(alloc, out, column)
        }
    }
}

/// Adds a colon and a number in decimal digits.
fn push_behind_colon(alloc: Global, out: &mut String, number: usize) -> Result<(), AllocError>
    ensures { OnOk result (string_bytes out.new ≡ string_bytes out.old ++ colon_number number) }
{
    out.push_str(":")?;
    push_number(alloc, out, number as u64)
}
