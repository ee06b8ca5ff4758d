//! Hubs, packet by packet.
use super::kinds::{BUS_HUB, HUB, HUB_AT_2, WIDE_HUB};
use super::packets::Exchange;
use super::packets::Host::{Ack, Data0, In, InAt, Setup};
use super::steps::Row;
use super::steps::Step::{
    Answers, Asks, ChildAddress, Gets, Plugs, PortBytes, Registers, Reset, ResetsChild,
    TakesAddress, Unplugs,
};
use usb_port::PortCall;

const SET_CONFIGURATION: &[u8] = &[0, 9, 1, 0, 0, 0, 0, 0];

const STATUS_OF_PORT_1: &[u8] = &[0xa3, 0, 0, 0, 1, 0, 4, 0];

const POWER_PORT_1: &[u8] = &[0x23, 3, 8, 0, 1, 0, 0, 0];

const RESET_PORT_1: &[u8] = &[0x23, 3, 4, 0, 1, 0, 0, 0];

const CLEAR_CONNECTION_CHANGE: &[u8] = &[0x23, 1, 16, 0, 1, 0, 0, 0];

const CLEAR_RESET_CHANGE: &[u8] = &[0x23, 1, 20, 0, 1, 0, 0, 0];

const ADDRESSED_3: &[Exchange] = &[
    (Setup(0), "none"),
    (Data0(&[0, 5, 3, 0, 0, 0, 0, 0]), "ACK"),
    (In(0), "DATA1 -"),
    (Ack, "none"),
];

const ADDRESSED_5: &[Exchange] = &[
    (Setup(0), "none"),
    (Data0(&[0, 5, 5, 0, 0, 0, 0, 0]), "ACK"),
    (In(0), "DATA1 -"),
    (Ack, "none"),
];

/// What a hub reports of itself and of its changes.
const CHANGES: &[Row] = &[
    Row {
        about: "a hub tells its descriptor and its ports",
        device: &HUB,
        steps: &[
            TakesAddress,
            Answers(1, STATUS_OF_PORT_1, "STALL"),
            Asks(1, SET_CONFIGURATION),
            Answers(
                1,
                &[0xa0, 6, 0, 0x29, 0, 0, 9, 0],
                "DATA1 0929020100000000FF",
            ),
            Gets(Ack, "none"),
            Answers(1, STATUS_OF_PORT_1, "DATA1 00000000"),
            Gets(Ack, "none"),
            Answers(1, &[0xa3, 0, 0, 0, 3, 0, 4, 0], "STALL"),
            Answers(1, &[0x23, 3, 1, 0, 1, 0, 0, 0], "STALL"),
            PortBytes(2, Some([0, 0, 0, 0])),
            PortBytes(3, None),
            PortBytes(0, None),
        ],
    },
    Row {
        about: "a byte of changes is given until its ACK is seen, as it was first given",
        device: &HUB,
        steps: &[
            TakesAddress,
            Gets(InAt(1, 1), "none"),
            Asks(1, SET_CONFIGURATION),
            Answers(1, POWER_PORT_1, "DATA1 -"),
            Gets(Ack, "none"),
            Gets(InAt(1, 1), "NAK"),
            Plugs(1, &[]),
            Gets(InAt(1, 1), "DATA0 02"),
            Answers(1, STATUS_OF_PORT_1, "DATA1 01030100"),
            Gets(Ack, "none"),
            Asks(1, CLEAR_CONNECTION_CHANGE),
            PortBytes(1, Some([1, 3, 0, 0])),
            Gets(InAt(1, 1), "DATA0 02"),
            Gets(Ack, "none"),
            Gets(InAt(1, 1), "NAK"),
            Unplugs(true),
            Gets(InAt(1, 1), "DATA1 02"),
        ],
    },
    Row {
        about: "IN 1 that is halted stalls; cleared, it begins with DATA0 and the byte that was given",
        device: &HUB,
        steps: &[
            TakesAddress,
            Answers(1, POWER_PORT_1, "STALL"),
            Asks(1, SET_CONFIGURATION),
            Asks(1, POWER_PORT_1),
            Plugs(1, &[]),
            Gets(InAt(1, 1), "DATA0 02"),
            Gets(Ack, "none"),
            Gets(InAt(1, 1), "DATA1 02"),
            Asks(1, CLEAR_CONNECTION_CHANGE),
            Asks(1, &[2, 3, 0, 0, 0x81, 0, 0, 0]),
            Gets(InAt(1, 1), "STALL"),
            Asks(1, &[2, 1, 0, 0, 0x81, 0, 0, 0]),
            Gets(InAt(1, 1), "DATA0 02"),
            Asks(1, SET_CONFIGURATION),
            Gets(InAt(1, 1), "NAK"),
            PortBytes(1, Some([0, 0, 0, 0])),
        ],
    },
    Row {
        about: "a hub of more than seven ports tells its changes in two bytes (11.12.4)",
        device: &WIDE_HUB,
        steps: &[
            TakesAddress,
            Asks(1, SET_CONFIGURATION),
            Answers(
                1,
                &[0xa0, 6, 0, 0x29, 0, 0, 9, 0],
                "DATA1 0B290A010000000000",
            ),
            Gets(Ack, "none"),
            Answers(
                1,
                &[0xa0, 6, 0, 0x29, 0, 0, 11, 0],
                "DATA1 0B290A010000000000FFFF",
            ),
            Gets(Ack, "none"),
            PortBytes(10, Some([0, 0, 0, 0])),
            PortBytes(11, None),
            Asks(1, &[0x23, 3, 8, 0, 9, 0, 0, 0]),
            Gets(InAt(1, 1), "NAK"),
            Plugs(9, &[]),
            Gets(InAt(1, 1), "DATA0 0002"),
            Gets(Ack, "none"),
            Asks(1, POWER_PORT_1),
            Plugs(1, &[]),
            Gets(InAt(1, 1), "DATA1 0202"),
            Gets(Ack, "none"),
            Asks(1, &[0x23, 1, 16, 0, 9, 0, 0, 0]),
            Gets(InAt(1, 1), "DATA0 0200"),
            Asks(1, CLEAR_CONNECTION_CHANGE),
            Gets(InAt(1, 1), "DATA0 0200"),
            Gets(Ack, "none"),
            Gets(InAt(1, 1), "NAK"),
        ],
    },
    Row {
        about: "a hub tells its changes at the number that its configuration has (11.23.1)",
        device: &HUB_AT_2,
        steps: &[
            TakesAddress,
            Gets(InAt(1, 2), "none"),
            Asks(1, SET_CONFIGURATION),
            Asks(1, POWER_PORT_1),
            Gets(InAt(1, 2), "NAK"),
            Plugs(1, &[]),
            Gets(InAt(1, 1), "none"),
            Gets(InAt(1, 2), "DATA0 02"),
            Gets(Ack, "none"),
            Asks(1, &[2, 3, 0, 0, 0x82, 0, 0, 0]),
            Gets(InAt(1, 2), "STALL"),
            Asks(1, &[2, 1, 0, 0, 0x82, 0, 0, 0]),
            Gets(InAt(1, 2), "DATA0 02"),
        ],
    },
];

/// What is done to the ports of a hub.
const PORTS: &[Row] = &[
    Row {
        about: "a port is reset, unplugged, and without power after a reset of the hub",
        device: &HUB,
        steps: &[
            TakesAddress,
            Asks(1, SET_CONFIGURATION),
            Asks(1, POWER_PORT_1),
            Plugs(1, ADDRESSED_5),
            ChildAddress(Some(5)),
            Asks(1, RESET_PORT_1),
            ChildAddress(Some(0)),
            PortBytes(1, Some([3, 3, 0x11, 0])),
            Asks(1, CLEAR_RESET_CHANGE),
            PortBytes(1, Some([3, 3, 1, 0])),
            Unplugs(true),
            Unplugs(false),
            ChildAddress(None),
            PortBytes(1, Some([0, 1, 1, 0])),
            Reset,
            PortBytes(1, Some([0, 0, 0, 0])),
        ],
    },
    Row {
        about: "a reset of the device on a port alone leaves the port and the hub",
        device: &HUB,
        steps: &[
            TakesAddress,
            Asks(1, SET_CONFIGURATION),
            Asks(1, POWER_PORT_1),
            ResetsChild(1, false),
            Plugs(1, ADDRESSED_5),
            ResetsChild(0, false),
            ResetsChild(2, false),
            ResetsChild(3, false),
            ChildAddress(Some(5)),
            ResetsChild(1, true),
            ChildAddress(Some(0)),
            PortBytes(1, Some([1, 3, 1, 0])),
            Registers(1, 1),
        ],
    },
    Row {
        about: "the last of seven ports is called, and a port that is none is refused",
        device: &BUS_HUB,
        steps: &[
            TakesAddress,
            Answers(1, &[0x80, 0, 0, 0, 0, 0, 2, 0], "DATA1 0000"),
            Answers(1, &[0xa0, 6, 0, 0x29, 0, 0, 9, 0], "STALL"),
            Asks(1, SET_CONFIGURATION),
            Answers(1, &[0x23, 3, 8, 0, 7, 0, 0, 0], "DATA1 -"),
            PortBytes(7, Some([0, 1, 0, 0])),
            Answers(1, &[0x23, 3, 8, 0, 8, 0, 0, 0], "STALL"),
            Answers(1, &[0x23, 3, 8, 0, 0, 0, 0, 0], "STALL"),
            Answers(1, &[0x23, 3, 8, 0, 1, 1, 0, 0], "STALL"),
            Answers(1, &[0x23, 3, 22, 0, 1, 0, 0, 0], "STALL"),
            Answers(1, &[0x23, 3, 8, 0, 1, 0, 1, 0], "STALL"),
            Answers(1, &[0x23, 1, 4, 0, 7, 0, 0, 0], "STALL"),
            Asks(1, &[0x23, 1, 8, 0, 7, 0, 0, 0]),
            PortBytes(7, Some([0, 0, 0, 0])),
        ],
    },
    Row {
        about: "each change of a port is cleared by itself, and a byte tells of all ports",
        device: &BUS_HUB,
        steps: &[
            TakesAddress,
            Asks(1, SET_CONFIGURATION),
            Asks(1, POWER_PORT_1),
            Plugs(1, ADDRESSED_3),
            Asks(1, RESET_PORT_1),
            PortBytes(1, Some([3, 3, 0x11, 0])),
            Asks(1, &[0x23, 1, 1, 0, 1, 0, 0, 0]),
            PortBytes(1, Some([1, 3, 0x11, 0])),
            Asks(1, &[0x23, 1, 17, 0, 1, 0, 0, 0]),
            PortBytes(1, Some([1, 3, 0x11, 0])),
            Gets(InAt(1, 1), "DATA0 02"),
            Gets(Ack, "none"),
            Asks(1, &[0x23, 3, 8, 0, 7, 0, 0, 0]),
            Plugs(7, &[]),
            Gets(InAt(1, 1), "DATA1 82"),
            Gets(Ack, "none"),
            Asks(1, &[0x23, 1, 16, 0, 7, 0, 0, 0]),
            Gets(InAt(1, 1), "DATA0 02"),
        ],
    },
];

pub(super) fn of_changes() -> &'static [Row] {
    CHANGES
}

pub(super) fn of_ports() -> &'static [Row] {
    PORTS
}

/// The calls of the features of a port, with the names of the calls.
#[derive(Clone, Copy)]
struct Feature {
    number: u16,
    set: &'static str,
    clear: &'static str,
}

/// Table 11-17.
const FEATURES: &[Feature] = &[
    Feature {
        number: 1,
        set: "none",
        clear: "ClearEnable",
    },
    Feature {
        number: 4,
        set: "SetReset",
        clear: "none",
    },
    Feature {
        number: 8,
        set: "SetPower",
        clear: "ClearPower",
    },
    Feature {
        number: 16,
        set: "none",
        clear: "ClearConnectionChange",
    },
    Feature {
        number: 17,
        set: "none",
        clear: "ClearEnableChange",
    },
    Feature {
        number: 20,
        set: "none",
        clear: "ClearResetChange",
    },
];

fn name_of_call(call: Option<PortCall>) -> &'static str {
    match call {
        None => "none",
        Some(PortCall::SetPower) => "SetPower",
        Some(PortCall::SetReset) => "SetReset",
        Some(PortCall::ClearEnable) => "ClearEnable",
        Some(PortCall::ClearPower) => "ClearPower",
        Some(PortCall::ClearConnectionChange) => "ClearConnectionChange",
        Some(PortCall::ClearEnableChange) => "ClearEnableChange",
        Some(PortCall::ClearResetChange) => "ClearResetChange",
    }
}

#[test]
fn features_are_calls(rt: HostRuntime) {
    for feature in FEATURES {
        let set = name_of_call(PortCall::of_set(feature.number));
        let clear = name_of_call(PortCall::of_clear(feature.number));
        let is = set == feature.set && clear == feature.clear;
        assert!(rt; is, "feature {}: {set}, {clear}", feature.number);
    }
}
