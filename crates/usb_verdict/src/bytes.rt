//! Bytes in hexadecimal digits.
ghost use Rattle.std.specs.Prelude.{◌≡◌, ◌≢◌, ◌⊎◌, Err, IfErr, IfOk, IsTrue, None, Some};
ghost use Rattle.std.specs.List.{list_all};
ghost use Rattle.hex.specs.Hex.{is_hex_digit};
ghost use Rattle.usb_verdict.specs.declared.fault.ListingFault.TheVariants.{BadHex, Memory};
ghost use Rattle.usb_verdict.specs.Lines.{are_digit_pairs, bytes_in};

use crate::fault::ListingFault;
use hex::FromHexError;
use std::alloc::Global;

/// The bytes that a word spells in pairs of digits of either case; a dash is none.
///
/// # Errors
///
/// - `BadHex`: it is neither. That needs no memory.
/// - `Memory`: memory was refused for the bytes that it spells.
#[tactic(auto, using(crate::proofs::Digits::other_spells_none, crate::proofs::Digits::digits_spell))]
pub fn read_bytes(alloc: Global, word: &str) -> Result<Vec<u8>, ListingFault>
    ensures bytes { IfOk result (λ bytes. bytes_in word.now ≡ Some bytes.items) }
    ensures fault { IfErr result (λ fault.
        (fault ≡ Memory) ⊎ ((fault ≡ BadHex) × (bytes_in word.now ≡ None))) }
    ensures refused { bytes_in word.now ≡ None → result ≡ Err BadHex }
{
    if word == "-" {
        return Ok(Vec::new(alloc));
    }
    if !are_digit_pairs(word.as_bytes()) {
        return Err(ListingFault::BadHex);
    }
    match hex::decode(alloc, word) {
        Ok(bytes) => Ok(bytes),
        Err(FromHexError::OutOfMemory) => Err(ListingFault::Memory),
        Err(_) => Err(ListingFault::BadHex),
    }
}

/// Whether a word spells bytes.
#[tactic(auto, using(crate::proofs::Digits::other_spells_none, crate::proofs::Digits::digits_spell))]
pub(crate) fn spells_bytes(word: &str) -> bool
    ensures some { IsTrue result → bytes_in word.now ≢ None }
    ensures none { (IsTrue result → ⊥) → bytes_in word.now ≡ None }
{
    word == "-" || are_digit_pairs(word.as_bytes())
}

/// Whether a word is pairs of hexadecimal digits of either case, at least one.
fn are_digit_pairs(word: &[u8]) -> bool
    ensures { result ≡ are_digit_pairs word.now }
{
    !word.is_empty() && word.len() % 2 == 0 && all_hex_digits(word)
}

/// Whether each byte is a hexadecimal digit of either case; so it is of an empty word.
fn all_hex_digits(word: &[u8]) -> bool
    ensures { result ≡ list_all is_hex_digit word.now }
{
    word.iter().all(|digit| is_hex_digit(*digit))
}

fn is_hex_digit(digit: u8) -> bool
    ensures { result ≡ is_hex_digit digit }
{
    matches!(digit, b'0'..=b'9' | b'A'..=b'F' | b'a'..=b'f')
}
