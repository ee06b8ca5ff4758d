//! The bytes that hexadecimal digits spell.

ghost use Rattle.std.specs.Prelude.{◌≡◌, ◌*◌, ◌⊎◌, Ok, Err, IfOk, IfErr, MatchResult, length, true, false};
ghost use Rattle.hex.specs.Hex.{decode_of};
ghost use Rattle.hex.specs.declared.error.FromHexError.TheVariants.{OutOfMemory};

use hex::FromHexError;
use std::alloc::Global;

/// The value of each digit, by its code, and 255 for every other byte.
static DIGITS: [u8; 256] = [
    255, 255, 255, 255, 255, 255, 255, 255, 255, 255, 255, 255, 255, 255, 255, 255, 255, 255, 255,
    255, 255, 255, 255, 255, 255, 255, 255, 255, 255, 255, 255, 255, 255, 255, 255, 255, 255, 255,
    255, 255, 255, 255, 255, 255, 255, 255, 255, 255, 0, 1, 2, 3, 4, 5, 6, 7, 8, 9, 255, 255, 255,
    255, 255, 255, 255, 10, 11, 12, 13, 14, 15, 255, 255, 255, 255, 255, 255, 255, 255, 255, 255,
    255, 255, 255, 255, 255, 255, 255, 255, 255, 255, 255, 255, 255, 255, 255, 255, 10, 11, 12, 13,
    14, 15, 255, 255, 255, 255, 255, 255, 255, 255, 255, 255, 255, 255, 255, 255, 255, 255, 255,
    255, 255, 255, 255, 255, 255, 255, 255, 255, 255, 255, 255, 255, 255, 255, 255, 255, 255, 255,
    255, 255, 255, 255, 255, 255, 255, 255, 255, 255, 255, 255, 255, 255, 255, 255, 255, 255, 255,
    255, 255, 255, 255, 255, 255, 255, 255, 255, 255, 255, 255, 255, 255, 255, 255, 255, 255, 255,
    255, 255, 255, 255, 255, 255, 255, 255, 255, 255, 255, 255, 255, 255, 255, 255, 255, 255, 255,
    255, 255, 255, 255, 255, 255, 255, 255, 255, 255, 255, 255, 255, 255, 255, 255, 255, 255, 255,
    255, 255, 255, 255, 255, 255, 255, 255, 255, 255, 255, 255, 255, 255, 255, 255, 255, 255, 255,
    255, 255, 255, 255, 255, 255, 255, 255, 255, 255, 255, 255, 255, 255, 255, 255, 255, 255, 255,
    255, 255, 255,
];

/// The greatest value of a digit.
const MOST: u8 = 15;

/// Puts the bytes that pairs of digits spell, and returns whether all are digits.
fn put_pairs(digits: &[u8], bytes: &mut [u8]) -> bool
    requires { length digits.now ≡ 2 * length bytes.old }
    ensures { MatchResult (decode_of digits.now)
        (λ spelled. (result ≡ true) × (bytes.new ≡ spelled))
        (λ _. result ≡ false) }
{
    'pairs: for i in 0..bytes.len() {
        let high = DIGITS[usize::from(digits[2 * i])];
        let low = DIGITS[usize::from(digits[2 * i + 1])];
        if high > MOST || low > MOST {
            return false;
        }
        bytes[i] = high * 16 + low;
    }
    true
}

/// The bytes that a text's pairs of digits spell; the library reports what is wrong with other
/// texts.
pub(crate) fn decoded(alloc: Global, text: &str) -> Result<Vec<u8>, FromHexError>
    ensures ok { IfOk result (λ bytes. decode_of text.now ≡ Ok bytes.items) }
    ensures err { IfErr result (λ e. (e ≡ OutOfMemory) ⊎ (decode_of text.now ≡ Err e)) }
{
    let digits = text.as_bytes();
    let mut bytes = vec![in alloc; 0u8; digits.len() / 2]?;
    if digits.len() % 2 == 0 && put_pairs(digits, bytes.as_mut_slice()) {
        Ok(bytes)
    } else {
        hex::decode(alloc, text)
    }
}
