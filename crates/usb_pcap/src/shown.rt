//! Names of devices, as a run shows them.
ghost use Rattle.std.specs.Prelude.{◌≡◌, ◌<◌, ◌∷◌, ◌++◌, [], Decides, IfSome, IsTrue, List, ℕ, false};
ghost use Rattle.usb_watch.specs.Shown.{is_escaped};
ghost use Rattle.usb_pcap.specs.Shown.{Begins, IsPlainChar, IsShownChar, is_escape_of, is_escaped_pair, pair_value};

use crate::text::{is_digit, value_of};
use arrayvec::ArrayVec;

/// The bytes of a character that has begun: no character has more.
pub(crate) type Begun = ArrayVec<u8, 6>;

/// Takes the next byte of a line. After a whole character nothing has begun. Six bytes that are no
/// character stay.
pub(crate) fn take_shown(begun: &mut Begun, byte: u8)
    ensures { (line : List ℕ) → Begins line begun.old.items
        → Begins (line ++ byte ∷ []) begun.new.items }
{
    // most bytes are whole characters
    if begun.is_empty() && is_plain_byte(byte) {
        return;
    }
    if begun.is_full() {
        return;
    }
    begun.push(byte);
    if is_shown_char(begun.as_slice()) {
        begun.clear();
    }
}

/// Whether a byte is a character of ASCII that stands for itself.
fn is_plain_byte(byte: u8) -> bool
    ensures { IsTrue result → (byte < 128) × (is_escaped byte ≡ false) }
{
    byte < 128 && !is_escaped(u32::from(byte))
}

/// Whether bytes are one character as a run shows it.
fn is_shown_char(bytes: &[u8]) -> bool
    ensures { Decides result (IsShownChar bytes.now) }
{
    is_plain_char(bytes) || is_escape(bytes)
}

/// Whether bytes are one character that stands for itself, in UTF-8.
fn is_plain_char(bytes: &[u8]) -> bool
    ensures { Decides result (IsPlainChar bytes.now) }
{
    let Ok(text) = str::from_utf8(bytes) else {
        return false;
    };
    match text.parse::<char>() {
        Ok(letter) => !is_escaped(letter as u32),
        Err(_) => false,
    }
}

/// Whether bytes are `\u` and the four digits of a character that is shown as them.
#[tactic(auto, unfolding(crate::specs::Shown::is_escape_of))]
fn is_escape(bytes: &[u8]) -> bool
    ensures { result ≡ is_escape_of bytes.now }
{
    match bytes {
        [b'\\', b'u', a, b, c, d] => is_escaped_pair(pair_value(*a, *b), pair_value(*c, *d)),
        _ => false,
    }
}

/// The number of two digits.
fn pair_value(high: u8, low: u8) -> Option<u32>
    ensures value { result ≡ pair_value high low }
    ensures few { IfSome result (λ pair. pair < 256) }
{
    if is_digit(high) && is_digit(low) {
        Some(u32::from(value_of(high) * 16 + value_of(low)))
    } else {
        None
    }
}

/// Whether two numbers of two digits are those of a character that is shown as its number.
fn is_escaped_pair(high: Option<u32>, low: Option<u32>) -> bool
    requires high { IfSome high (λ pair. pair < 256) }
    requires low { IfSome low (λ pair. pair < 256) }
    ensures { result ≡ is_escaped_pair high low }
{
    match (high, low) {
        (Some(high), Some(low)) => is_escaped(high * 256 + low),
        _ => false,
    }
}

/// Whether a character is shown as its number: one that may end a line, or the backslash.
fn is_escaped(number: u32) -> bool
    ensures { result ≡ is_escaped number }
{
    number <= 0x1F
        || (0x7F..=0x9F).contains(&number)
        || number == 0x2028
        || number == 0x2029
        || number == 92
}
