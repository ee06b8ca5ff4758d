//! Data that are refused memory are taken later, once: those of a bulk OUT endpoint, and those of a
//! control write.
ghost use Rattle.usb_packet.specs.Spelling.{HasFields};

use super::plan;
use arrayvec::ArrayVec;
use std::alloc::{AllocError, Global};
use std::rc::Rc;
use std::test::Fail;
use usb_device::EndpointNumber;
use usb_function::Device;
use usb_packet::TokenKind::{InTok, OutTok, SetupTok};
use usb_packet::{Packet, Toggle, TokenKind, decode, encode, packet_text};

fn token(kind: TokenKind, addr: u8, ep: u8) -> Packet
    ensures { HasFields result }
{
    Packet::Token {
        kind,
        addr: addr % 128,
        ep: ep % 16,
    }
}

fn data(toggle: Toggle, data: &[u8]) -> Packet
    ensures { HasFields result }
{
    let mut bytes = ArrayVec::new();
    let _ = bytes.try_extend_from_slice(data);
    Packet::Payload { toggle, bytes }
}

/// Whether the answer to a packet is the printed one.
fn answers(device: &mut Device, packet: &Packet, text: &str) -> Result<bool, AllocError>
    requires { HasFields packet.now }
{
    Ok(match device.receive(encode(packet).as_slice())? {
        None => text == "none",
        Some(bytes) => match decode(bytes.as_slice()) {
            Ok(packet) => packet_text(&packet).as_str() == text,
            Err(_) => false,
        },
    })
}

/// What the device has taken, and its registers.
fn state(device: &Device) -> (usize, usize, u8, u8) {
    (
        device.sink(EndpointNumber::new(2)).len(),
        device.taken().len(),
        device.address(),
        device.configuration(),
    )
}

/// The same; if memory is refused, the device is as it was, and the packet is given once more.
fn answers_at_last(device: &mut Device, packet: &Packet, text: &str) -> Result<bool, AllocError>
    requires { HasFields packet.now }
{
    let before = state(device);
    if let Ok(is) = answers(device, packet, text) {
        return Ok(is);
    }
    Ok(state(device) == before && answers(device, packet, text)?)
}

/// A request to an address, the SETUP token and its data, is acknowledged.
fn asks(device: &mut Device, address: u8, request: &[u8]) -> Result<bool, AllocError> {
    Ok(
        answers(device, &token(SetupTok, address, 0), "none")?
            && answers(device, &data(Toggle::Zero, request), "ACK")?,
    )
}

/// The function, at address 1 and configured.
fn configured(alloc: Global) -> Result<Device, Fail> {
    let plan = plan(alloc)?;
    let Some(spec) = plan.devices().first() else {
        return Err(Fail::from(AllocError));
    };
    let mut device = Device::new(alloc, &Rc::new(alloc, spec.try_clone(alloc)?)?)?;
    let is = asks(&mut device, 0, &[0, 5, 1, 0, 0, 0, 0, 0])?
        && answers(&mut device, &token(InTok, 0, 0), "DATA1 -")?
        && answers(&mut device, &Packet::Ack, "none")?
        && asks(&mut device, 1, &[0, 9, 1, 0, 0, 0, 0, 0])?;
    if !is {
        device.reset();
    }
    Ok(device)
}

/// Whether a bulk OUT endpoint takes data once, at once or after memory was refused, and the next
/// data as ever.
fn takes_bulk(device: &mut Device) -> Result<bool, AllocError> {
    let sink = EndpointNumber::new(2);
    let out = token(OutTok, 1, 2);
    let seven = data(Toggle::Zero, &[7]);
    Ok(
        answers(device, &out, "none")?
            && device.sink(sink).is_empty()
            && answers_at_last(device, &seven, "ACK")?
            && device.sink(sink) == [7].as_slice()
            && (device.address(), device.configuration()) == (1, 1)
            && answers(device, &seven, "none")?
            && answers(device, &out, "none")?
            && answers(device, &data(Toggle::One, &[8]), "ACK")?
            && device.sink(sink) == [7, 8].as_slice()
            && answers(device, &out, "none")?
            && answers(device, &data(Toggle::Zero, &[9]), "STALL")?
            && answers(device, &token(InTok, 1, 2), "DATA0 0102030405060708")?,
    )
}

/// The same of the data of a control write, of ten bytes in two packets.
fn takes_write(device: &mut Device) -> Result<bool, AllocError> {
    let out = token(OutTok, 1, 0);
    Ok(
        asks(device, 1, &[0x40, 1, 0, 0, 0, 0, 10, 0])?
            && answers(device, &out, "none")?
            && answers_at_last(device, &data(Toggle::One, &[1, 2, 3, 4, 5, 6, 7, 8]), "ACK")?
            && answers(device, &out, "none")?
            && answers_at_last(device, &data(Toggle::Zero, &[9, 10]), "ACK")?
            && device.taken() == [1, 2, 3, 4, 5, 6, 7, 8, 9, 10].as_slice()
            && answers(device, &token(InTok, 1, 0), "DATA1 -")?,
    )
}

#[test]
fn data_that_are_refused_memory_are_taken_later(rt: HostRuntime) -> Result<(), Fail> {
    let mut device = configured(rt.alloc())?;
    assert!(rt; takes_bulk(&mut device)?);
    assert!(rt; takes_write(&mut device)?);
    Ok(())
}
