//! Pieces of text.
ghost use Rattle.std.specs.Prelude.{◌≡◌, ◌+◌, ◌<◌, ◌++◌, decimal, length, OnOk};
ghost use Rattle.hex.specs.Hex.{encode_upper};
ghost use Rattle.usb_entry.specs.Text.{comment_text, key_text, word_digits};

use std::alloc::{AllocError, Global};

/// Adds a text.
pub(crate) fn push_text(out: &mut Vec<u8>, text: &str) -> Result<(), AllocError>
    ensures { OnOk result (out.new.items ≡ out.old.items ++ text.now) }
{
    out.extend_from_slice(text.as_bytes())
}

/// Adds a key and its equals sign.
#[tactic(auto, unfolding(crate::specs::Text::key_text))]
pub(crate) fn push_key(out: &mut Vec<u8>, key: &str) -> Result<(), AllocError>
    ensures { OnOk result (out.new.items ≡ out.old.items ++ key_text key.now) }
{
    push_text(out, key)?;
    push_text(out, " = ")
}

/// Adds the begin of a comment within `configs`.
#[tactic(auto, unfolding(crate::specs::Text::comment_text))]
pub(crate) fn push_comment(out: &mut Vec<u8>, words: &str) -> Result<(), AllocError>
    ensures { OnOk result (out.new.items ≡ out.old.items ++ comment_text words.now) }
{
    push_text(out, "  # ")?;
    push_text(out, words)
}

/// Adds a number in decimal digits.
pub(crate) fn push_decimal(alloc: Global, out: &mut Vec<u8>, number: u16) -> Result<(), AllocError>
    ensures { OnOk result (out.new.items ≡ out.old.items ++ decimal number) }
{
    let digits = number.to_string(alloc)?;
    push_text(out, digits.as_str())
}

/// Adds bytes in upper-case hexadecimal digits.
pub(crate) fn push_digits(alloc: Global, out: &mut Vec<u8>, bytes: &[u8]) -> Result<(), AllocError>
    ensures { OnOk result (out.new.items ≡ out.old.items ++ encode_upper bytes.now) }
{
    push_text(out, hex::encode_upper(alloc, bytes)?.as_str())
}

/// Adds the word whose low byte stands at the index, in four lower-case digits.
pub(crate) fn push_word(
    alloc: Global,
    out: &mut Vec<u8>,
    bytes: &[u8],
    at: usize,
) -> Result<(), AllocError>
    requires { at + 1 < length bytes.now }
    ensures { OnOk result (out.new.items ≡ out.old.items ++ word_digits bytes.now at) }
{
    let word: &[u8] = &[bytes[at + 1], bytes[at]];
    push_text(out, hex::encode(alloc, word)?.as_str())
}
