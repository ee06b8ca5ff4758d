//! The name of an entry.
ghost use Rattle.std.specs.Prelude.{◌≡◌, ◌++◌, flat_map, IfOk, OnOk};
ghost use Rattle.std.specs.Str.{chars};
ghost use Rattle.usb_watch.specs.Shown.{escaped};
ghost use Rattle.usb_entry.specs.Text.{basic_string, char_text, name_line};

use crate::piece::{push_digits, push_key, push_text};
use std::alloc::{AllocError, Global};
use usb_watch::ends_line;

/// Adds a character of a TOML string. Quotes, backslashes and what may end a line are escaped.
fn push_char(alloc: Global, out: &mut Vec<u8>, letter: char) -> Result<(), AllocError>
    ensures { OnOk result (out.new.items ≡ out.old.items ++ char_text letter) }
{
    if letter == '"' || letter == '\\' {
        return out.extend_from_slice(&[b'\\', letter as u8]);
    }
    if ends_line(letter) {
        return push_escaped(alloc, out, letter as u16);
    }
    let mut buffer = [0; 4];
    out.extend_from_slice(letter.encode_utf8(&mut buffer).as_bytes())
}

/// Adds a number as `\u` and four digits.
fn push_escaped(alloc: Global, out: &mut Vec<u8>, number: u16) -> Result<(), AllocError>
    ensures { OnOk result (out.new.items ≡ out.old.items ++ escaped number) }
{
    push_text(out, "\\u")?;
    push_digits(alloc, out, &[(number / 256) as u8])?;
    push_digits(alloc, out, &[(number % 256) as u8])
}

/// Adds the characters of a TOML string, without the quotes around them.
fn push_letters(alloc: Global, out: &mut Vec<u8>, letters: &[char]) -> Result<(), AllocError>
    ensures { OnOk result (out.new.items ≡ out.old.items ++ flat_map char_text letters.now) }
{
    'letters: for letter in letters {
        push_char(alloc, out, *letter)?;
    }
    Ok(())
}

/// The characters of a text; Err if memory is refused.
fn letters_of(alloc: Global, text: &str) -> Result<Vec<char>, AllocError>
    ensures { IfOk result (λ letters. letters.items ≡ chars text.now) }
{
    text.chars().collect(alloc)
}

/// Adds a text as a basic string of TOML, from which any text comes back the same.
pub(crate) fn push_string(alloc: Global, out: &mut Vec<u8>, text: &str) -> Result<(), AllocError>
    ensures { OnOk result (out.new.items ≡ out.old.items ++ basic_string text.now) }
{
    let letters = letters_of(alloc, text)?;
    push_text(out, "\"")?;
    push_letters(alloc, out, letters.as_slice())?;
    push_text(out, "\"")
}

/// Adds the line of the name.
#[tactic(auto, unfolding(crate::specs::Text::name_line))]
pub(crate) fn push_name(alloc: Global, out: &mut Vec<u8>, name: &str) -> Result<(), AllocError>
    ensures { OnOk result (out.new.items ≡ out.old.items ++ name_line name.now) }
{
    push_key(out, "name")?;
    push_string(alloc, out, name)?;
    push_text(out, "\n")
}
