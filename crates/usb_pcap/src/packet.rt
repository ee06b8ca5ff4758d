//! Packets and marks as a trace prints them.
ghost use Rattle.std.specs.Prelude.{◌≡◌, option_map};
ghost use Rattle.usb_pcap.specs.Packet.{bit_in, data_in, handshake_in, packet_in, packet_mark_in, token_in};

use crate::text::Text;
use arrayvec::ArrayVec;
use usb_packet::{Packet, Toggle, TokenKind};
use usb_world::Mark;

/// Reads a token, a data packet, ACK, NAK or STALL.
#[tactic(auto, unfolding(crate::specs::Packet::packet_in))]
pub(crate) fn packet_in(text: &mut Text<'_>) -> Option<Packet>
    ensures { packet_in text.old ≡ option_map (λ p. (p, text.new)) result }
{
    if text.skip(b"SETUP ") {
        return token_in(TokenKind::SetupTok, text);
    }
    if text.skip(b"IN ") {
        return token_in(TokenKind::InTok, text);
    }
    if text.skip(b"OUT ") {
        return token_in(TokenKind::OutTok, text);
    }
    if text.skip(b"DATA0 ") {
        return data_in(Toggle::Zero, text);
    }
    if text.skip(b"DATA1 ") {
        return data_in(Toggle::One, text);
    }
    handshake_in(text)
}

/// Reads ACK, NAK or STALL.
#[tactic(auto, unfolding(crate::specs::Packet::handshake_in))]
fn handshake_in(text: &mut Text<'_>) -> Option<Packet>
    ensures { handshake_in text.old ≡ option_map (λ p. (p, text.new)) result }
{
    if text.skip(b"ACK") {
        return Some(Packet::Ack);
    }
    if text.skip(b"NAK") {
        return Some(Packet::Nak);
    }
    if text.skip(b"STALL") {
        Some(Packet::Stall)
    } else {
        None
    }
}

/// Reads the address and the endpoint of a token.
#[tactic(auto, unfolding(crate::specs::Packet::token_in))]
fn token_in(kind: TokenKind, text: &mut Text<'_>) -> Option<Packet>
    ensures { token_in kind text.old ≡ option_map (λ p. (p, text.new)) result }
{
    let addr = text.number()?;
    if !text.skip(b".") {
        return None;
    }
    let ep = text.number()?;
    if addr >= 128 || ep >= 16 {
        return None;
    }
    Some(Packet::Token {
        kind,
        addr: addr as u8,
        ep: ep as u8,
    })
}

/// Reads the digits of a data packet, or the dash of one with no data.
#[tactic(auto, unfolding(crate::specs::Packet::data_in))]
fn data_in(toggle: Toggle, text: &mut Text<'_>) -> Option<Packet>
    ensures { data_in toggle text.old ≡ option_map (λ p. (p, text.new)) result }
{
    if text.skip(b"-") {
        return Some(Packet::Payload {
            toggle,
            bytes: ArrayVec::new(),
        });
    }
    let bytes = text.bytes()?;
    if bytes.is_empty() {
        return None;
    }
    Some(Packet::Payload { toggle, bytes })
}

/// Reads the mark after a packet.
#[tactic(auto, unfolding(crate::specs::Packet::packet_mark_in))]
pub(crate) fn packet_mark_in(text: &mut Text<'_>) -> Option<Mark>
    ensures { packet_mark_in text.old ≡ option_map (λ m. (m, text.new)) result }
{
    if text.skip(b" [lost]") {
        return Some(Mark::Lost);
    }
    if text.skip(b" [pre lost]") {
        return Some(Mark::PreLost);
    }
    if !text.skip(b" [bit ") {
        return Some(Mark::Whole);
    }
    bit_in(text)
}

/// Reads the number of a flipped bit.
#[tactic(auto, unfolding(crate::specs::Packet::bit_in))]
fn bit_in(text: &mut Text<'_>) -> Option<Mark>
    ensures { bit_in text.old ≡ option_map (λ m. (m, text.new)) result }
{
    let bit = text.number()?;
    if bit >= 65536 || !text.skip(b"]") {
        return None;
    }
    Some(Mark::Flipped(bit as u16))
}
