//! A packet in hexadecimal digits, as the lines that are printed for it.
ghost use Rattle.std.specs.Prelude.{◌≡◌, IfOk, IfErr, string_bytes, [], ◌∷◌, ◌++◌};
ghost use Rattle.hex.specs.Hex.{encode_upper};
ghost use Rattle.usb_text.specs.Line.{IsLineOf, HasFault};

use hex::FromHexError;
use std::alloc::{AllocError, Global};
use thiserror::Error;
use usb_packet::{PacketFault, decode, packet_text};

/// Why digits give no lines, in the order in which the reasons are reported.
#[derive(Clone, Copy, Debug, PartialEq, Eq, Error)]
pub enum LineFault {
    /// The text is no hexadecimal digits, or an odd number of them.
    #[error("packet: bad hex")]
    BadHex,
    /// The bytes spell no packet.
    #[error("packet: {0}")]
    Packet(PacketFault),
    /// Memory was refused.
    #[error("out of memory")]
    Memory,
}

/// The text of the packet that the digits spell, and its bytes in upper-case digits, each on a line.
///
/// # Errors
///
/// - `BadHex`: the text is no hexadecimal digits.
/// - `Packet`: the bytes spell no packet.
pub fn packet_line(alloc: Global, text: &str) -> Result<String, LineFault>
    ensures line { IfOk result (λ line. IsLineOf text.now (string_bytes line)) }
    ensures fault { IfErr result (λ fault. HasFault text.now fault) }
{
    let bytes = match hex::decode(alloc, text) {
        Ok(bytes) => bytes,
        Err(FromHexError::OutOfMemory) => return Err(LineFault::Memory),
        Err(_) => return Err(LineFault::BadHex),
    };
    let packet = match decode(bytes.as_slice()) {
        Ok(packet) => packet,
        Err(fault) => return Err(LineFault::Packet(fault)),
    };
    let line = packet_text(&packet);
    match two_lines(alloc, line.as_str(), bytes.as_slice()) {
        Ok(lines) => Ok(lines),
        Err(_) => Err(LineFault::Memory),
    }
}

/// The text and the bytes in upper-case digits, each with a newline after it.
fn two_lines(alloc: Global, text: &str, bytes: &[u8]) -> Result<String, AllocError>
    ensures { IfOk result (λ s. string_bytes s
        ≡ text.now ++ 10 ∷ [] ++ encode_upper bytes.now ++ 10 ∷ []) }
{
    let mut lines = String::from_str(alloc, text)?;
    lines.push('\n')?;
    lines.push_str(hex::encode_upper(alloc, bytes)?.as_str())?;
    lines.push('\n')?;
    Ok(lines)
}
