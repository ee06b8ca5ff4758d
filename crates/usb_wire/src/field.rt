//! What single words stand for: bytes, numbers and paths.
ghost use Rattle.std.specs.Prelude.{◌≡◌, ◌≤◌, IfOk, MatchResult, false, length, take, true};
ghost use Rattle.std.specs.Char.{is_ascii_digit};
ghost use Rattle.std.specs.List.{list_all};
ghost use Rattle.hex.specs.Hex.{decode_sized, is_hex_digit};
ghost use Rattle.usb_wire.specs.Fields.{address_spelled, address_named, has_bytes, is_decimal, is_hex, is_other_request};
ghost use Rattle.usb_wire.specs.Reading.{bytes_of_word, both, count_in, counted_write, endpoint_named, number_of_word, path_in, request_of_word, request_with, result_map, setup_in_bytes, status_of_word, write_of_words};

use crate::fault::WireFault;
use crate::write::{ControlWrite, WRITE_LIMIT};
use arrayvec::ArrayVec;
use hex::FromHex;
use usb_packet::hex_digits;
use usb_port::PortPath;
use usb_request::endpoint_address::DIRECTION_IN;
use usb_request::{EndpointAddress, Setup};

/// At most this number of bytes.
#[tactic(auto, unfolding(crate::specs::Reading::bytes_of_word))]
pub(crate) fn bytes_of_word<const MOST: usize>(word: &str) -> Result<ArrayVec<u8, MOST>, WireFault>
    ensures { bytes_of_word MOST word.now ≡ result_map (λ b. b.items) result }
{
    let count = count_in(word)?;
    if count > MOST {
        return Err(WireFault::BadLength);
    }
    if count == 0 {
        return Ok(ArrayVec::new());
    }
    let mut decoded = [0; MOST];
    if !decode_into(word, count, &mut decoded) {
        return Err(WireFault::BadHex);
    }
    Ok(few_bytes(&decoded[..count]))
}

/// Decodes pairs of digits into this number of bytes, and says whether they are that many.
fn decode_into(word: &str, count: usize, decoded: &mut [u8]) -> bool
    requires { count ≤ length decoded.old }
    ensures { MatchResult (decode_sized word.now count)
        (λ bytes. (result ≡ true) × (take count decoded.new ≡ bytes)) (λ e. result ≡ false) }
{
    hex::decode_to_slice(word.as_bytes(), &mut decoded[..count]).is_ok()
}

/// At most this number of bytes, as they are.
pub(crate) fn few_bytes<const MOST: usize>(bytes: &[u8]) -> ArrayVec<u8, MOST>
    requires { length bytes.now ≤ MOST }
    ensures { result.items ≡ bytes.now }
{
    let mut few = ArrayVec::new();
    few.try_extend_from_slice(bytes).unwrap();
    few
}

/// The four bytes of a status.
#[tactic(auto, unfolding(crate::specs::Reading::status_of_word))]
pub(crate) fn status_of_word(word: &str) -> Result<[u8; 4], WireFault>
    ensures { result ≡ status_of_word word.now }
{
    if count_in(word)? != 4 {
        return Err(WireFault::BadLength);
    }
    match <[u8; 4]>::from_hex(word.as_bytes()) {
        Ok(status) => Ok(status),
        Err(_) => Err(WireFault::BadHex),
    }
}

/// The eight bytes of a request with bytes for the device, or of one without (9.3.1).
#[tactic(auto, unfolding(crate::specs::Reading::request_of_word))]
pub(crate) fn request_of_word(with_bytes: bool, word: &str) -> Result<Setup, WireFault>
    ensures value { result ≡ request_of_word with_bytes word.now }
    ensures kind { IfOk result (λ setup. is_other_request with_bytes setup ≡ false) }
{
    let bytes = bytes_of_word::<8>(word)?;
    let setup = setup_in_bytes(bytes.as_slice()).ok_or(WireFault::BadLength)?;
    request_with(with_bytes, setup)
}

/// The fields of setup data; `None` if there are not eight bytes (9.3).
pub(crate) fn setup_in_bytes(bytes: &[u8]) -> Option<Setup>
    ensures { result ≡ setup_in_bytes bytes.now }
{
    match <[u8; 8]>::try_from(bytes) {
        Ok(bytes) => Some(Setup::from_bytes(bytes)),
        Err(_) => None,
    }
}

/// The setup data, if the request has bytes for the device, or has none, as it should.
fn request_with(with_bytes: bool, setup: Setup) -> Result<Setup, WireFault>
    ensures value { result ≡ request_with with_bytes setup }
    ensures kind { IfOk result (λ setup. is_other_request with_bytes setup ≡ false) }
{
    if has_bytes(setup) == with_bytes {
        Ok(setup)
    } else {
        Err(WireFault::NoAnswer)
    }
}

/// Whether bytes go with the request to the device (9.3.1).
fn has_bytes(setup: Setup) -> bool
    ensures { result ≡ has_bytes setup }
{
    setup.request_type < DIRECTION_IN && setup.length != 0
}

/// A request, and the wLength bytes that go with it.
#[tactic(auto, unfolding(crate::specs::Reading::write_of_words))]
pub(crate) fn write_of_words(setup: &str, bytes: &str) -> Result<ControlWrite, WireFault>
    ensures { result ≡ write_of_words setup.now bytes.now }
{
    let (setup, bytes) = both(request_of_word(true, setup), bytes_of_word(bytes))?;
    counted_write(setup, bytes)
}

/// Both, or the first fault of the two.
fn both(
    setup: Result<Setup, WireFault>,
    bytes: Result<ArrayVec<u8, WRITE_LIMIT>, WireFault>,
) -> Result<(Setup, ArrayVec<u8, WRITE_LIMIT>), WireFault>
    ensures { both setup (result_map (λ b. b.items) bytes)
        ≡ result_map (λ w. (w.0, w.1.items)) result }
{
    match (setup, bytes) {
        (Ok(setup), Ok(bytes)) => Ok((setup, bytes)),
        (Ok(_), Err(fault)) => Err(fault),
        (Err(WireFault::BadLength), Err(fault)) => Err(fault),
        (Err(fault), _) => Err(fault),
    }
}

/// The write of these setup data and bytes; `BadLength` if wLength is not the number of bytes.
fn counted_write(setup: Setup, bytes: ArrayVec<u8, WRITE_LIMIT>) -> Result<ControlWrite, WireFault>
    ensures { result ≡ counted_write (setup, bytes.items) }
{
    ControlWrite::new(setup, bytes).ok_or(WireFault::BadLength)
}

/// How many bytes a word spells, in pairs of digits or by a dash.
#[tactic(auto, unfolding(crate::specs::Reading::count_in))]
fn count_in(word: &str) -> Result<usize, WireFault>
    ensures { result ≡ count_in word.now }
{
    if word == "-" {
        return Ok(0);
    }
    if !is_hex(word.as_bytes()) {
        return Err(WireFault::BadHex);
    }
    Ok(word.len() / 2)
}

/// Pairs of hexadecimal digits, of either case.
fn is_hex(word: &[u8]) -> bool
    ensures { result ≡ is_hex word.now }
{
    !word.is_empty() && word.len() % 2 == 0 && all_hex_digits(word)
}

/// Whether each byte is a hexadecimal digit of either case; so it is of an empty word.
fn all_hex_digits(word: &[u8]) -> bool
    ensures { result ≡ list_all is_hex_digit word.now }
{
    word.iter().all(|digit| is_hex_digit(*digit))
}

fn is_hex_digit(digit: u8) -> bool
    ensures { result ≡ is_hex_digit digit }
{
    matches!(digit, b'0'..=b'9' | b'A'..=b'F' | b'a'..=b'f')
}

/// A number in a range, in decimal digits with no zero before them.
#[tactic(auto, unfolding(crate::specs::Reading::number_of_word))]
pub(crate) fn number_of_word(least: u64, most: u64, word: &str) -> Result<u64, WireFault>
    ensures value { result ≡ number_of_word least most word.now }
    ensures within { IfOk result (λ n. (least ≤ n) × (n ≤ most)) }
{
    if !is_decimal(word.as_bytes()) {
        return Err(WireFault::BadNumber);
    }
    let Ok(number) = word.parse::<u64>() else {
        return Err(WireFault::BadNumber);
    };
    if least <= number && number <= most {
        Ok(number)
    } else {
        Err(WireFault::BadNumber)
    }
}

/// Whether a word is decimal digits, at least one, with no zero before other digits.
fn is_decimal(word: &[u8]) -> bool
    ensures { result ≡ is_decimal word.now }
{
    !word.is_empty() && all_digits(word) && (word.len() == 1 || word[0] != b'0')
}

/// Whether each byte is a decimal digit; so it is of an empty word.
fn all_digits(word: &[u8]) -> bool
    ensures { result ≡ list_all is_ascii_digit word.now }
{
    word.iter().all(|digit| digit.is_ascii_digit())
}

/// The address of an endpoint, in two upper-case digits (9.6.6).
#[tactic(auto, unfolding(crate::specs::Reading::endpoint_named))]
pub(crate) fn endpoint_named(word: &str) -> Result<EndpointAddress, WireFault>
    ensures { result ≡ endpoint_named word.now }
{
    address_named(word).ok_or(WireFault::BadNumber)
}

/// The endpoint's address that two upper-case digits spell; None for any other word (9.6.6).
fn address_named(word: &str) -> Option<EndpointAddress>
    ensures { result ≡ address_named word.now }
{
    match bytes_of_word::<1>(word) {
        Ok(bytes) => address_spelled(word.as_bytes(), bytes.as_slice()),
        Err(_) => None,
    }
}

/// The address of an endpoint that bytes are, if the word spells it in upper case.
fn address_spelled(word: &[u8], bytes: &[u8]) -> Option<EndpointAddress>
    ensures { result ≡ address_spelled word.now bytes.now }
{
    let [byte] = bytes else {
        return None;
    };
    if word != hex_digits(*byte).as_slice() {
        return None;
    }
    EndpointAddress::new(*byte)
}

/// The path of ports that a word spells; `BadPath` if it spells none.
#[tactic(auto, unfolding(crate::specs::Reading::path_in))]
pub(crate) fn path_in(word: &str) -> Result<PortPath, WireFault>
    ensures { result ≡ path_in word.now }
{
    PortPath::from_text(word).ok_or(WireFault::BadPath)
}
