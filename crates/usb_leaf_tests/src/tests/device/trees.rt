//! Packets on their way through a tree of devices.
use super::kinds::{HUB, LOW, Plan, new_device};
use super::packets::Host::{Ack, Bytes, Data0, Data1, In, Setup};
use super::packets::Way::{Full, Low, LowWithPre};
use super::packets::{ADDRESSING, Host, Way, are_heard, going_out, is_heard};
use TreeStep::{
    Asks, Calls, Clears, Count, Finds, HasLoss, HasShared, IsDevice, IsEnabled, Over, Plugs, Sends,
    SeveralHold, TakesAddress, Unplugs,
};
use std::alloc::{AllocError, Global};
use std::test::Fail;
use usb_device::Holder;
use usb_function::{Holders, LentPacket, Ports};
use usb_port::PortCall;

#[derive(Clone, Copy)]
enum TreeStep {
    /// A packet of the host goes out, and what is printed is heard.
    Sends(Way, Host, &'static str),
    /// A request to an address at full speed, the SETUP token and its data, is acknowledged.
    Asks(u8, &'static [u8]),
    /// A device at full speed takes the address 1.
    TakesAddress,
    /// Whether a packet of the host at full speed is to clear a change of connection.
    Clears(Host, bool),
    Plugs(&'static [u8], &'static Plan),
    /// What is at a path is unplugged, if a device is.
    Unplugs(&'static [u8], bool),
    Calls(u8, PortCall),
    /// Whether a device is at a path.
    IsDevice(&'static [u8], bool),
    IsEnabled(u8, bool),
    /// Which path leads to the one holder of an address; an empty one where there is none.
    Finds(u8, &'static [u8]),
    SeveralHold(u8),
    Over,
    HasShared(bool),
    HasLoss(bool),
    /// So many ports.
    Count(usize),
}

/// Steps of two root ports.
#[derive(Clone, Copy)]
struct TreeRow {
    about: &'static str,
    steps: &'static [TreeStep],
}

const GET_DEVICE: &[u8] = &[0x80, 6, 0, 1, 0, 0, 8, 0];

const SET_ADDRESS: &[u8] = &[0, 5, 1, 0, 0, 0, 0, 0];

const SET_CONFIGURATION: &[u8] = &[0, 9, 1, 0, 0, 0, 0, 0];

const POWER_PORT_1: &[u8] = &[0x23, 3, 8, 0, 1, 0, 0, 0];

const CLEAR_CONNECTION_CHANGE: &[u8] = &[0x23, 1, 16, 0, 1, 0, 0, 0];

const RESET_PORT_1: &[u8] = &[0x23, 3, 4, 0, 1, 0, 0, 0];

const ROWS: &[TreeRow] = &[
    TreeRow {
        about: "below a hub a low-speed device hears packets only with PRE, and only through an enabled port",
        steps: &[
            Plugs(&[1], &HUB),
            Calls(1, PortCall::SetPower),
            Calls(1, PortCall::SetReset),
            TakesAddress,
            Asks(1, SET_CONFIGURATION),
            Asks(1, POWER_PORT_1),
            Plugs(&[1, 1], &LOW),
            Sends(LowWithPre, Setup(0), "none"),
            Sends(LowWithPre, Data0(GET_DEVICE), "none"),
            Asks(1, RESET_PORT_1),
            Sends(Low, Setup(0), "none"),
            Sends(Low, Data0(GET_DEVICE), "none"),
            Sends(LowWithPre, Setup(0), "none"),
            Sends(LowWithPre, Data0(GET_DEVICE), "ACK"),
            HasShared(false),
            Finds(1, &[1]),
            Finds(0, &[1, 1]),
            Finds(2, &[]),
            Count(2),
        ],
    },
    TreeRow {
        about: "two devices at address 0 answer at once",
        steps: &[
            Plugs(&[1], &LOW),
            Plugs(&[2], &LOW),
            Calls(1, PortCall::SetPower),
            Calls(2, PortCall::SetPower),
            Calls(1, PortCall::SetReset),
            HasShared(false),
            IsEnabled(2, false),
            Calls(2, PortCall::SetReset),
            HasShared(true),
            IsEnabled(2, true),
            IsEnabled(3, false),
            Sends(Low, Setup(0), "none"),
            Sends(Low, Data0(GET_DEVICE), "collision"),
            SeveralHold(0),
            Unplugs(&[1], true),
            Finds(0, &[2]),
            Plugs(&[1], &LOW),
            Unplugs(&[2], true),
            Finds(0, &[]),
            Unplugs(&[2], false),
            IsDevice(&[1], true),
            IsDevice(&[2], false),
            IsDevice(&[1, 1], false),
            Count(2),
        ],
    },
    TreeRow {
        about: "the empty answer of SET_ADDRESS waits for its ACK until the attempt is over",
        steps: &[
            Plugs(&[1], &LOW),
            Calls(1, PortCall::SetPower),
            Calls(1, PortCall::SetReset),
            Sends(Low, Setup(0), "none"),
            Sends(Low, Data0(SET_ADDRESS), "ACK"),
            HasLoss(false),
            Sends(Low, In(0), "DATA1 -"),
            HasLoss(true),
            Over,
            HasLoss(false),
            Sends(Low, Ack, "none"),
            Sends(Low, In(0), "DATA1 -"),
            Count(2),
        ],
    },
    TreeRow {
        about: "ClearPortFeature of C_PORT_CONNECTION clears the change with its data, where a hub hears it and heard its token",
        steps: &[
            Plugs(&[1], &HUB),
            Calls(1, PortCall::SetPower),
            Calls(1, PortCall::SetReset),
            TakesAddress,
            Sends(Full, Setup(1), "none"),
            Clears(Data0(CLEAR_CONNECTION_CHANGE), false),
            Clears(Data0(SET_CONFIGURATION), false),
            Sends(Full, Data0(SET_CONFIGURATION), "ACK"),
            Clears(Data0(CLEAR_CONNECTION_CHANGE), false),
            Sends(Full, Setup(1), "none"),
            Clears(Data0(CLEAR_CONNECTION_CHANGE), true),
            Clears(Data1(CLEAR_CONNECTION_CHANGE), false),
            Clears(Data0(RESET_PORT_1), false),
            Clears(Bytes(&[0xff]), false),
            Calls(1, PortCall::ClearEnable),
            Clears(Data0(CLEAR_CONNECTION_CHANGE), false),
            Count(2),
        ],
    },
];

fn rows_of_trees() -> &'static [TreeRow] {
    ROWS
}

fn is_enabled(ports: &Ports, number: u8) -> bool {
    match ports.port(number) {
        Some(port) => port.is_enabled(),
        None => false,
    }
}

/// Whether one device holds the address, at the path, or nobody does, if the path is empty.
fn finds(alloc: Global, ports: &Ports, address: u8, path: &[u8]) -> Result<bool, AllocError> {
    match Holders::of(alloc, ports)?.holder(address) {
        Holder::Nobody => Ok(path.is_empty()),
        Holder::One(found) => Ok(found.as_slice() == path),
        Holder::Several => Ok(false),
    }
}

fn several_hold(alloc: Global, ports: &Ports, address: u8) -> Result<bool, AllocError> {
    let holders = Holders::of(alloc, ports)?;
    Ok(matches!(holders.holder(address), Holder::Several))
}

fn asks(ports: &mut Ports, address: u8, request: &'static [u8]) -> Result<bool, AllocError> {
    let exchanges = [(Setup(address), "none"), (Data0(request), "ACK")];
    are_heard(ports, &exchanges)
}

fn plugs(alloc: Global, ports: &mut Ports, path: &[u8], plan: &Plan) -> Result<bool, AllocError> {
    ports.plug(path, new_device(alloc, plan)?);
    Ok(true)
}

/// Whether what a step that wants no memory says is so.
fn is_so(ports: &mut Ports, step: TreeStep) -> bool {
    match step {
        Unplugs(path, was_there) => return ports.unplug(path).is_some() == was_there,
        Calls(number, call) => ports.call(number, call),
        Over => ports.attempt_over(),
        _ => {}
    }
    tells(ports, step)
}

/// Whether the ports report what a step says; other steps say nothing of that.
fn tells(ports: &Ports, step: TreeStep) -> bool {
    match step {
        Clears(host, is) => ports.clears_change(&LentPacket::of(&going_out(Full, host))) == is,
        IsDevice(path, is) => ports.device_at(path).is_some() == is,
        IsEnabled(number, is) => is_enabled(ports, number) == is,
        HasLoss(is) => ports.has_address_loss() == is,
        Count(count) => ports.count() == count,
        _ => true,
    }
}

fn holds(alloc: Global, ports: &mut Ports, step: TreeStep) -> Result<bool, AllocError> {
    match step {
        Sends(way, host, text) => is_heard(ports, way, host, text),
        Asks(address, request) => asks(ports, address, request),
        TakesAddress => are_heard(ports, ADDRESSING),
        Plugs(path, plan) => plugs(alloc, ports, path, plan),
        Finds(address, path) => finds(alloc, ports, address, path),
        SeveralHold(address) => several_hold(alloc, ports, address),
        HasShared(is) => Ok(Holders::of(alloc, ports)?.is_shared() == is),
        _ => Ok(is_so(ports, step)),
    }
}

/// The first step of a row that is not as it says, counted from 0.
fn first_difference(alloc: Global, row: &TreeRow) -> Result<Option<usize>, AllocError> {
    let mut ports = Ports::new(alloc, 2)?;
    for (i, step) in row.steps.iter().enumerate() {
        if !holds(alloc, &mut ports, *step)? {
            return Ok(Some(i));
        }
    }
    Ok(None)
}

#[test]
fn packets_go_through_a_tree(rt: HostRuntime) -> Result<(), Fail> {
    for row in rows_of_trees() {
        assert_eq!(rt;
            first_difference(rt.alloc(), row)?,
            None,
            "{}: the step",
            row.about
        );
    }
    Ok(())
}
