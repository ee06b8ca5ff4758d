//! What comes to a device, and what is so then, step by step.
use super::kinds::{LOW, Plan, new_device};
use super::packets::{ADDRESSING, Exchange, Host, are_answered, is_answered};
use super::{attempts, bulk, hubs, requests, writes};
use std::alloc::{AllocError, Global};
use std::test::Fail;
use usb_device::EndpointNumber;
use usb_function::{Device, Parent};

#[derive(Clone, Copy)]
pub(super) enum Step {
    /// A packet of the host has the printed answer.
    Gets(Host, &'static str),
    /// The same; if memory is refused, the device is as it was, and the packet is given once more.
    GetsAtLast(Host, &'static str),
    /// A request to an address, the SETUP token and its data, is acknowledged.
    Asks(u8, &'static [u8]),
    /// The same, and the next IN at the address has the printed answer.
    Answers(u8, &'static [u8], &'static str),
    /// The device takes the address 1.
    TakesAddress,
    /// The end of an attempt.
    Over,
    /// A bus reset.
    Reset,
    /// The device has this address and this configuration.
    Registers(u8, u8),
    AwaitsAddress(bool),
    /// What the bulk OUT endpoint has taken.
    Sink(&'static [u8]),
    /// What control writes have brought.
    Taken(&'static [u8]),
    /// A low-speed function is plugged at a port, after these packets came to it.
    Plugs(u8, &'static [Exchange]),
    /// The device at port 1 is unplugged, if one is.
    Unplugs(bool),
    /// The device at a port alone is reset, if one is.
    ResetsChild(u8, bool),
    PortBytes(u8, Option<[u8; 4]>),
    /// The address of the device at port 1.
    ChildAddress(Option<u8>),
}

/// Steps of a device that was just plugged.
#[derive(Clone, Copy)]
pub(super) struct Row {
    pub about: &'static str,
    pub device: &'static Plan,
    pub steps: &'static [Step],
}

/// The number of the bulk OUT endpoint of `BULK`.
const BULK_OUT: u8 = 2;

/// What the bulk OUT endpoint has taken.
fn sink(device: &Device) -> &[u8] {
    device.sink(EndpointNumber::new(BULK_OUT))
}

/// Whether the answer is the printed one, at once or after memory was refused.
fn is_answered_at_last(device: &mut Device, host: Host, text: &str) -> Result<bool, AllocError> {
    let sunk = sink(device).len();
    let taken = device.taken().len();
    let address = device.address();
    let value = device.configuration();
    if let Ok(is) = is_answered(device, host, text) {
        return Ok(is);
    }
    let is_same = sink(device).len() == sunk
        && device.taken().len() == taken
        && device.address() == address
        && device.configuration() == value;
    Ok(is_same && is_answered(device, host, text)?)
}

fn asks(device: &mut Device, address: u8, request: &'static [u8]) -> Result<bool, AllocError> {
    let exchanges = [
        (Host::Setup(address), "none"),
        (Host::Data0(request), "ACK"),
    ];
    are_answered(device, &exchanges)
}

fn answers(
    device: &mut Device,
    address: u8,
    request: &'static [u8],
    text: &'static str,
) -> Result<bool, AllocError> {
    let exchanges = [
        (Host::Setup(address), "none"),
        (Host::Data0(request), "ACK"),
        (Host::In(address), text),
    ];
    are_answered(device, &exchanges)
}

fn plug(hub: &mut Device, port: u8, child: Device) {
    if port >= 1 && usize::from(port) <= hub.port_count() && hub.child(port).is_none() {
        hub.plug_child(port, child);
    }
}

/// Plugs a low-speed function, and returns whether it answered before as it is printed.
fn plugs(
    alloc: Global,
    hub: &mut Device,
    port: u8,
    exchanges: &[Exchange],
) -> Result<bool, AllocError> {
    let mut child = new_device(alloc, &LOW)?;
    let is = are_answered(&mut child, exchanges);
    plug(hub, port, child);
    is
}

fn child_address(hub: &Device) -> Option<u8> {
    match hub.child(1) {
        Some(child) => Some(child.address()),
        None => None,
    }
}

/// Resets the device on a port, and returns whether one was there.
fn resets_child(hub: &mut Device, port: u8) -> bool {
    match hub.child_mut(port) {
        Some(child) => {
            child.reset();
            true
        }
        None => false,
    }
}

/// Whether what a step without memory says is so.
fn is_so(device: &mut Device, step: Step) -> bool {
    match step {
        Step::Over => device.attempt_over(),
        Step::Reset => device.reset(),
        Step::Unplugs(was_there) => return device.unplug_child(1).is_some() == was_there,
        Step::ResetsChild(port, was_there) => return resets_child(device, port) == was_there,
        _ => {}
    }
    tells(device, step)
}

/// Whether the device reports what a step says; other steps say nothing of that.
fn tells(device: &Device, step: Step) -> bool {
    match step {
        Step::Registers(address, value) => {
            device.address() == address && device.configuration() == value
        }
        Step::AwaitsAddress(awaits) => device.awaits_address() == awaits,
        Step::Sink(bytes) => sink(device) == bytes,
        Step::Taken(bytes) => device.taken() == bytes,
        Step::PortBytes(port, bytes) => device.port_bytes(port) == bytes,
        Step::ChildAddress(address) => child_address(device) == address,
        _ => true,
    }
}

fn holds(alloc: Global, device: &mut Device, step: Step) -> Result<bool, AllocError> {
    match step {
        Step::Gets(host, text) => is_answered(device, host, text),
        Step::GetsAtLast(host, text) => is_answered_at_last(device, host, text),
        Step::Asks(address, request) => asks(device, address, request),
        Step::Answers(address, request, text) => answers(device, address, request, text),
        Step::TakesAddress => are_answered(device, ADDRESSING),
        Step::Plugs(port, exchanges) => plugs(alloc, device, port, exchanges),
        _ => Ok(is_so(device, step)),
    }
}

/// The first step that is not as it says, counted from 0.
fn first_among(
    alloc: Global,
    device: &mut Device,
    steps: &[Step],
) -> Result<Option<usize>, AllocError> {
    for (i, step) in steps.iter().enumerate() {
        if !holds(alloc, device, *step)? {
            return Ok(Some(i));
        }
    }
    Ok(None)
}

fn first_difference(alloc: Global, row: &Row) -> Result<Option<usize>, AllocError> {
    let mut device = new_device(alloc, row.device)?;
    first_among(alloc, &mut device, row.steps)
}

#[test]
fn devices_do_as_rows_say(rt: HostRuntime) -> Result<(), Fail> {
    let tables = [
        attempts::all(),
        bulk::all(),
        requests::of_descriptors(),
        requests::of_lengths(),
        requests::of_states(),
        requests::of_refusals(),
        hubs::of_changes(),
        hubs::of_ports(),
        writes::of_writes(),
        writes::of_requests(),
    ];
    for rows in tables {
        for row in rows {
            assert_eq!(rt;
                first_difference(rt.alloc(), row)?,
                None,
                "{}: the step",
                row.about
            );
        }
    }
    Ok(())
}
