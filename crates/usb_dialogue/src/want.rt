//! What is wanted of a host.
ghost use Rattle.std.specs.Prelude.{◌≡◌, ℕ, List, [], false, slice_index, IfOk, IfErr, IfSome, IfNone, Some};
ghost use Rattle.std.specs.Option.{ForSome};
ghost use Rattle.usb_port.specs.Path.{IsPath};
ghost use Rattle.usb_dialogue.specs.Wants.{IsReadAs, IsWant, IsWantOf, IsWantWith, WantFault};
ghost use Rattle.usb_dialogue.specs.Wants.{fields_in, has_data, head_bytes, want_by, want_data};
ghost use Rattle.usb_dialogue.specs.Wants.{want_head, want_kind, want_numbers, want_place};
ghost use Rattle.usb_dialogue.specs.Wants.{want_setup, want_to, want_with};
ghost use Rattle.usb_dialogue.specs.declared.want.Want.{Want as AWant};

use crate::answer::statuses_of;
use crate::place::{path_in, place_of};
use crate::write::{Bytes, WriteRequest};
use crate::{DriverFault, Statuses};
use arrayvec::ArrayVec;
use std::alloc::Global;
use usb_port::PortPath;
use usb_request::{EndpointAddress, ReadRequest, Setup};

/// What is wanted of a host: one of its calls.
#[derive(Debug, Drop)]
pub enum Want {
    /// `Host::round`.
    Round,
    /// `Host::tree`, with the number of each device and what each refused one said.
    Tree,
    /// `Host::send`.
    Send {
        /// The device.
        path: PortPath,
        /// The bytes.
        bytes: Bytes,
    },
    /// `Host::receive`.
    Receive {
        /// The device.
        path: PortPath,
        /// The most packets.
        packets: u16,
    },
    /// `Host::clear_halt`.
    ClearHalt {
        /// The device.
        path: PortPath,
    },
    /// `Host::send_to`.
    SendTo {
        /// The device.
        path: PortPath,
        /// The endpoint.
        endpoint: EndpointAddress,
        /// The bytes.
        bytes: Bytes,
    },
    /// `Host::receive_from`.
    ReceiveFrom {
        /// The device.
        path: PortPath,
        /// The endpoint.
        endpoint: EndpointAddress,
        /// The most packets.
        packets: u16,
    },
    /// `Host::poll`.
    Poll {
        /// The device.
        path: PortPath,
        /// The endpoint.
        endpoint: EndpointAddress,
    },
    /// `Host::clear_halt_of`.
    ClearHaltOf {
        /// The device.
        path: PortPath,
        /// The endpoint.
        endpoint: EndpointAddress,
    },
    /// `Host::set_interface`.
    SetInterface {
        /// The device.
        path: PortPath,
        /// The interface.
        interface: u8,
        /// Its alternate setting.
        setting: u8,
    },
    /// `Host::control_in`.
    ControlIn {
        /// The device.
        path: PortPath,
        /// The request.
        request: ReadRequest,
    },
    /// `Host::control_out`.
    ControlOut {
        /// The device.
        path: PortPath,
        /// The request with its bytes.
        request: WriteRequest,
    },
    /// `Host::look`.
    Look {
        /// The port.
        path: PortPath,
    },
    /// `Host::next_news`, once.
    News,
}

impl Want {
    /// Reads the record of a want: 52 bytes, and then data.
    ///
    /// The kinds are 16 `Round`, 17 `Tree`, 18 `Send`, 19 `Receive`, 20 `ClearHalt`, 21 `SendTo`,
    /// 22 `ReceiveFrom`, 23 `Poll`, 24 `ClearHaltOf`, 25 `SetInterface`, 26 `ControlIn`, 27
    /// `ControlOut`, 28 `Look` and 29 `News`. Fields that a kind does not use are 0. Numbers of two
    /// bytes have the low one first.
    ///
    /// | at | what |
    /// |---|---|
    /// | 0 | the kind |
    /// | 1 | how many numbers the path has, 1 to 7 |
    /// | 2 to 8 | the path's port numbers, 1 to 15 each |
    /// | 9 | bEndpointAddress (9.6.6) of 21 to 24, or the interface of 25 |
    /// | 10 | the alternate setting of 25 |
    /// | 11 | 0 |
    /// | 12, 13 | how many packets, of 19 and 22 |
    /// | 14, 15 | 0 |
    /// | 16 to 23 | the eight bytes of setup data (9.3), of 26 and 27 |
    /// | 24 to 51 | the statuses of root ports 1 to 7, four bytes each |
    /// | 52 .. | the data of 18, 21 and 27 |
    ///
    /// # Errors
    ///
    /// In this order:
    ///
    /// - `Length`: fewer than 52 bytes.
    /// - `Kind`: byte 0 is not 16 to 29.
    /// - `Length`: there are data, and the kind has none.
    /// - `Memory`: the data find no room.
    /// - `Number`: the record is that of no want, as one with a port 0 or 16, endpoint 0, a request
    ///   of the other direction, a wLength that is not the number of bytes, or a field that the
    ///   kind does not use and is not 0.
    pub fn read(alloc: Global, bytes: &[u8]) -> Result<(Want, Statuses), DriverFault>
        ensures read { IfOk result (λ it. IsWantOf bytes.now it.0 it.1) }
        ensures only { (want : AWant) (statuses : List (List ℕ))
            → IsWantOf bytes.now want statuses → IsReadAs want statuses result }
        ensures cause { IfErr result (WantFault bytes.now) }
    {
        want_in(alloc, bytes)
    }
}

const ROUND: u8 = 16;

const TREE: u8 = 17;

const SEND: u8 = 18;

const RECEIVE: u8 = 19;

const CLEAR_HALT: u8 = 20;

const SEND_TO: u8 = 21;

const RECEIVE_FROM: u8 = 22;

const POLL: u8 = 23;

const CLEAR_HALT_OF: u8 = 24;

const SET_INTERFACE: u8 = 25;

const CONTROL_IN: u8 = 26;

const CONTROL_OUT: u8 = 27;

const LOOK: u8 = 28;

const NEWS: u8 = 29;

/// A field of eight bytes that is not used.
const NOTHING: [u8; 8] = [0; 8];

/// What a record says besides its kind, its path and its data.
#[derive(Clone, Copy)]
struct Fields {
    at: u8,
    setting: u8,
    packets: u16,
    setup: Setup,
}

/// The want of a record.
fn want_in(alloc: Global, bytes: &[u8]) -> Result<(Want, Statuses), DriverFault>
    ensures read { IfOk result (λ it. IsWantOf bytes.now it.0 it.1) }
    ensures cause { IfErr result (WantFault bytes.now) }
{
    let Some((head, rest)) = bytes.split_first_chunk::<24>() else {
        return Err(DriverFault::Length);
    };
    let Some((statuses, sent)) = rest.split_first_chunk::<28>() else {
        return Err(DriverFault::Length);
    };
    let kind = head[0];
    if kind < ROUND || kind > NEWS {
        return Err(DriverFault::Kind);
    }
    if !sent.is_empty() && !has_data(kind) {
        return Err(DriverFault::Length);
    }
    let sent = Bytes::new(Vec::from_slice(alloc, sent)?);
    match want_of(head, sent) {
        Some(want) => Ok((want, statuses_of(statuses))),
        None => Err(DriverFault::Number),
    }
}

/// Whether a kind has data.
fn has_data(kind: u8) -> bool
    ensures { result ≡ has_data kind }
{
    kind == SEND || kind == SEND_TO || kind == CONTROL_OUT
}

/// The want whose record begins with these bytes, and has this data; `None` if there is none.
fn want_of(head: &[u8; 24], sent: Bytes) -> Option<Want>
    requires { has_data (slice_index head.now 0) ≡ false → sent ≡ [] }
    ensures some { IfSome result (IsWantWith head.now sent) }
    ensures none { IfNone result ((want : AWant) → IsWantWith head.now sent want → ⊥) }
{
    let want = likely_want(head, sent)?;
    if head_of(&want) == *head {
        Some(want)
    } else {
        None
    }
}

/// The want of these fields, whatever the bytes that its kind does not use are.
fn likely_want(head: &[u8; 24], sent: Bytes) -> Option<Want>
    requires { has_data (slice_index head.now 0) ≡ false → sent ≡ [] }
    ensures some { IfSome result (λ want. IsWant want × (want_data want ≡ sent)) }
    ensures only { (want : AWant) → IsWantWith head.now sent want → result ≡ Some want }
{
    let numbers = [
        head[2], head[3], head[4], head[5], head[6], head[7], head[8],
    ];
    let path = path_in(head[1], &numbers);
    want_by(head[0], path, &fields_in(head), sent)
}

/// What a record says besides its kind, its path and its data.
fn fields_in(head: &[u8; 24]) -> Fields
    ensures { result ≡ fields_in head.now }
{
    let setup = [
        head[16], head[17], head[18], head[19], head[20], head[21], head[22], head[23],
    ];
    Fields {
        at: head[9],
        setting: head[10],
        packets: u16::from_le_bytes([head[12], head[13]]),
        setup: Setup::from_bytes(setup),
    }
}

/// The want of a kind with these fields.
fn want_by(kind: u8, path: Option<PortPath>, fields: &Fields, sent: Bytes) -> Option<Want>
    requires { has_data kind ≡ false → sent ≡ [] }
    ensures value { result ≡ want_by kind path fields.now sent }
    ensures is { ForSome path IsPath → IfSome result (λ want.
        IsWant want × (want_data want ≡ sent)) }
{
    match kind {
        ROUND => Some(Want::Round),
        TREE => Some(Want::Tree),
        NEWS => Some(Want::News),
        _ => want_with(kind, path?, fields, sent),
    }
}

/// The want of a kind with a path.
fn want_with(kind: u8, path: PortPath, fields: &Fields, sent: Bytes) -> Option<Want>
    ensures { result ≡ want_with kind path fields.now sent }
{
    Some(match kind {
        SEND => Want::Send { path, bytes: sent },
        RECEIVE => Want::Receive {
            path,
            packets: fields.packets,
        },
        CLEAR_HALT => Want::ClearHalt { path },
        SET_INTERFACE => Want::SetInterface {
            path,
            interface: fields.at,
            setting: fields.setting,
        },
        CONTROL_IN => Want::ControlIn {
            path,
            request: ReadRequest::new(fields.setup)?,
        },
        CONTROL_OUT => Want::ControlOut {
            path,
            request: WriteRequest::new(fields.setup, sent)?,
        },
        LOOK => Want::Look { path },
        _ => {
            let endpoint = EndpointAddress::new(fields.at)?;
            return want_to(kind, path, endpoint, fields.packets, sent);
        }
    })
}

/// The want of a kind with a path and an endpoint.
fn want_to(
    kind: u8,
    path: PortPath,
    endpoint: EndpointAddress,
    packets: u16,
    sent: Bytes,
) -> Option<Want>
    ensures { result ≡ want_to kind path endpoint packets sent }
{
    Some(match kind {
        SEND_TO => Want::SendTo {
            path,
            endpoint,
            bytes: sent,
        },
        RECEIVE_FROM => Want::ReceiveFrom {
            path,
            endpoint,
            packets,
        },
        POLL => Want::Poll { path, endpoint },
        CLEAR_HALT_OF => Want::ClearHaltOf { path, endpoint },
        _ => return None,
    })
}

/// The first 24 bytes of the record of a want.
fn head_of(want: &Want) -> [u8; 24]
    ensures { result ≡ want_head want.now }
{
    laid_out(
        kind_of(want),
        place_in(want),
        numbers_of(want),
        setup_of(want),
    )
}

/// Byte 0 of the record of a want.
fn kind_of(want: &Want) -> u8
    ensures { result ≡ want_kind want.now }
{
    match want {
        Want::Round => ROUND,
        Want::Tree => TREE,
        Want::Send { .. } => SEND,
        Want::Receive { .. } => RECEIVE,
        Want::ClearHalt { .. } => CLEAR_HALT,
        Want::SendTo { .. } => SEND_TO,
        Want::ReceiveFrom { .. } => RECEIVE_FROM,
        Want::Poll { .. } => POLL,
        Want::ClearHaltOf { .. } => CLEAR_HALT_OF,
        Want::SetInterface { .. } => SET_INTERFACE,
        Want::ControlIn { .. } => CONTROL_IN,
        Want::ControlOut { .. } => CONTROL_OUT,
        Want::Look { .. } => LOOK,
        Want::News => NEWS,
    }
}

/// The path of a want, in eight bytes; zeros if it has none.
fn place_in(want: &Want) -> [u8; 8]
    ensures { result ≡ want_place want.now }
{
    match want {
        Want::Round | Want::Tree | Want::News => NOTHING,
        Want::Send { path, .. }
        | Want::Receive { path, .. }
        | Want::ClearHalt { path }
        | Want::SendTo { path, .. }
        | Want::ReceiveFrom { path, .. }
        | Want::Poll { path, .. }
        | Want::ClearHaltOf { path, .. }
        | Want::SetInterface { path, .. }
        | Want::ControlIn { path, .. }
        | Want::ControlOut { path, .. }
        | Want::Look { path } => place_of(path),
    }
}

/// The endpoint or the interface of a want, the setting, and the packets.
fn numbers_of(want: &Want) -> (u8, u8, u16)
    ensures { result ≡ want_numbers want.now }
{
    match want {
        Want::Receive { packets, .. } => (0, 0, *packets),
        Want::SendTo { endpoint, .. }
        | Want::Poll { endpoint, .. }
        | Want::ClearHaltOf { endpoint, .. } => (endpoint.get(), 0, 0),
        Want::ReceiveFrom {
            endpoint,
            packets,
            ..
        } => (endpoint.get(), 0, *packets),
        Want::SetInterface {
            interface,
            setting,
            ..
        } => (*interface, *setting, 0),
        _ => (0, 0, 0),
    }
}

/// The setup data of a want, zeros if it has none.
fn setup_of(want: &Want) -> [u8; 8]
    ensures { result ≡ want_setup want.now }
{
    match want {
        Want::ControlIn { request, .. } => request.setup().to_bytes(),
        Want::ControlOut { request, .. } => request.setup().to_bytes(),
        _ => NOTHING,
    }
}

/// A kind, a path, an endpoint or interface with a setting and packets, and setup data.
fn laid_out(kind: u8, place: [u8; 8], numbers: (u8, u8, u16), setup: [u8; 8]) -> [u8; 24]
    ensures { result ≡ head_bytes kind place numbers setup }
{
    let (at, setting, packets) = numbers;
    let [low, high] = packets.to_le_bytes();
    let mut head: ArrayVec<u8, 24> = ArrayVec::new();
    head.push(kind);
    head.try_extend_from_slice(&place).unwrap();
    head.try_extend_from_slice(&[at, setting, 0, low, high, 0, 0])
        .unwrap();
    head.try_extend_from_slice(&setup).unwrap();
    head.into_inner().unwrap()
}
