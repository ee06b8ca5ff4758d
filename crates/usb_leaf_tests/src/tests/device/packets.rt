//! Packets of the host, and what is printed of the answers.
ghost use Rattle.usb_packet.specs.Spelling.{HasFields};

use arrayvec::ArrayVec;
use std::alloc::AllocError;
use usb_device::{Content, Heard, Sent};
use usb_function::{Device, Ports};
use usb_packet::{Packet, Toggle, TokenKind, decode, encode, packet_text};

/// A packet of the host. A token is for endpoint 0 of an address, or for the endpoint that it names.
#[derive(Clone, Copy)]
pub(super) enum Host {
    Setup(u8),
    In(u8),
    Out(u8),
    InAt(u8, u8),
    OutAt(u8, u8),
    Data0(&'static [u8]),
    Data1(&'static [u8]),
    Ack,
    /// Bytes, whatever they spell.
    Bytes(&'static [u8]),
}

/// A packet of the host and the printed answer.
pub(super) type Exchange = (Host, &'static str);

/// SET_ADDRESS of 1, up to the ACK at which the address is taken.
pub(super) const ADDRESSING: &[Exchange] = &[
    (Host::Setup(0), "none"),
    (Host::Data0(&[0, 5, 1, 0, 0, 0, 0, 0]), "ACK"),
    (Host::In(0), "DATA1 -"),
    (Host::Ack, "none"),
];

fn token(kind: TokenKind, addr: u8, ep: u8) -> Packet
    ensures { HasFields result }
{
    Packet::Token {
        kind,
        addr: addr % 128,
        ep: ep % 16,
    }
}

fn payload(toggle: Toggle, data: &[u8]) -> Packet
    ensures { HasFields result }
{
    let mut bytes = ArrayVec::new();
    let _ = bytes.try_extend_from_slice(data);
    Packet::Payload { toggle, bytes }
}

fn spelled(host: Host) -> ArrayVec<u8, 67> {
    match host {
        Host::Setup(addr) => encode(&token(TokenKind::SetupTok, addr, 0)),
        Host::In(addr) => encode(&token(TokenKind::InTok, addr, 0)),
        Host::Out(addr) => encode(&token(TokenKind::OutTok, addr, 0)),
        Host::InAt(addr, ep) => encode(&token(TokenKind::InTok, addr, ep)),
        Host::OutAt(addr, ep) => encode(&token(TokenKind::OutTok, addr, ep)),
        Host::Data0(data) => encode(&payload(Toggle::Zero, data)),
        Host::Data1(data) => encode(&payload(Toggle::One, data)),
        Host::Ack => encode(&Packet::Ack),
        Host::Bytes(data) => {
            let mut bytes = ArrayVec::new();
            let _ = bytes.try_extend_from_slice(data);
            bytes
        }
    }
}

fn is_printed(bytes: &[u8], text: &str) -> bool {
    match decode(bytes) {
        Ok(packet) => packet_text(&packet).as_str() == text,
        Err(_) => false,
    }
}

/// Whether the answer of a device is the printed one.
pub(super) fn is_answered(device: &mut Device, host: Host, text: &str) -> Result<bool, AllocError> {
    Ok(match device.receive(spelled(host).as_slice())? {
        None => text == "none",
        Some(bytes) => is_printed(bytes.as_slice(), text),
    })
}

/// Whether each answer of a device is the printed one.
pub(super) fn are_answered(
    device: &mut Device,
    exchanges: &[Exchange],
) -> Result<bool, AllocError> {
    for (host, text) in exchanges {
        if !is_answered(device, *host, *text)? {
            return Ok(false);
        }
    }
    Ok(true)
}

/// How a packet of the host goes out.
#[derive(Clone, Copy)]
pub(super) enum Way {
    Full,
    Low,
    /// At low speed, with PRE before it.
    LowWithPre,
}

pub(super) fn going_out(way: Way, host: Host) -> Sent {
    let (low, pre) = match way {
        Way::Full => (false, false),
        Way::Low => (true, false),
        Way::LowWithPre => (true, true),
    };
    Sent {
        low,
        pre,
        content: Content::of(spelled(host).as_slice()),
    }
}

/// Whether what is heard of a packet is the printed answer.
pub(super) fn is_heard(
    ports: &mut Ports,
    way: Way,
    host: Host,
    text: &str,
) -> Result<bool, AllocError> {
    Ok(match ports.deliver(&going_out(way, host))? {
        Heard::NoAnswer => text == "none",
        Heard::Collision => text == "collision",
        Heard::One(answer) => packet_text(&answer.into_packet()).as_str() == text,
    })
}

/// Whether what is heard of each packet at full speed is the printed answer.
pub(super) fn are_heard(ports: &mut Ports, exchanges: &[Exchange]) -> Result<bool, AllocError> {
    for (host, text) in exchanges {
        if !is_heard(ports, Way::Full, *host, *text)? {
            return Ok(false);
        }
    }
    Ok(true)
}
