//! Devices below a hub.

use super::plans::{GET_DEVICE, HUB, SET_ADDRESS_1, SET_ADDRESS_5, SET_CONFIGURATION};
use super::row::{Row, Told, check, joined, plan_text, went, went_otherwise};
use super::step::Step;
use std::alloc::Global;
use std::test::Fail;
use usb_packet::Speed::{Full, Low, LowBelowHub};
use usb_sim::{Damage, Harm};

const POWER_PORT_1: [u8; 8] = [0x23, 3, 8, 0, 1, 0, 0, 0];

const POWER_PORT_2: [u8; 8] = [0x23, 3, 8, 0, 2, 0, 0, 0];

const RESET_PORT_1: [u8; 8] = [0x23, 3, 4, 0, 1, 0, 0, 0];

const RESET_PORT_2: [u8; 8] = [0x23, 3, 4, 0, 2, 0, 0, 0];

const GET_PORT_1: [u8; 8] = [0xa3, 0, 0, 0, 1, 0, 4, 0];

const DISABLE_PORT_1: [u8; 8] = [0x23, 1, 1, 0, 1, 0, 0, 0];

/// How a host comes to the first 18 bytes of a low-speed device below a hub.
pub(super) const TO_LOW_DEVICE: &[Told<'static>] = &[
    (Step::Event, "changed"),
    (Step::Reset(1), ""),
    (Step::Reads(Full, 0, GET_DEVICE, 1), "ack"),
    (Step::Asks(Full, 0, SET_ADDRESS_1), "data"),
    (Step::Reads(Full, 1, [0x80, 6, 0, 1, 0, 0, 18, 0], 1), "ack"),
    (Step::Reads(Full, 1, [0x80, 6, 0, 2, 0, 0, 9, 0], 1), "ack"),
    (Step::Reads(Full, 1, [0x80, 6, 0, 2, 0, 0, 25, 0], 1), "ack"),
    (Step::Asks(Full, 1, SET_CONFIGURATION), "data"),
    (
        Step::Reads(Full, 1, [0xa0, 6, 0, 0x29, 0, 0, 9, 0], 1),
        "ack",
    ),
    (Step::Reads(Full, 1, [0x80, 0, 0, 0, 0, 0, 2, 0], 1), "ack"),
    (Step::Asks(Full, 1, POWER_PORT_1), "data"),
    (Step::Asks(Full, 1, POWER_PORT_2), "data"),
    (Step::Poll(1), "data"),
    (Step::Reads(Full, 1, GET_PORT_1, 1), "ack"),
    (Step::Asks(Full, 1, [0x23, 1, 16, 0, 1, 0, 0, 0]), "data"),
    (Step::Reads(Full, 1, GET_PORT_1, 1), "ack"),
    (Step::Asks(Full, 1, RESET_PORT_1), "data"),
    (Step::Reads(Full, 1, GET_PORT_1, 1), "ack"),
    (Step::Asks(Full, 1, [0x23, 1, 20, 0, 1, 0, 0, 0]), "data"),
    (Step::Reads(LowBelowHub, 0, GET_DEVICE, 1), "ack"),
    (Step::Asks(LowBelowHub, 0, [0, 5, 2, 0, 0, 0, 0, 0]), "data"),
    (
        Step::Reads(LowBelowHub, 2, [0x80, 6, 0, 1, 0, 0, 18, 0], 3),
        "ack",
    ),
    (
        Step::Counts,
        "attempts 52, events 2 of 4, losses 0, worst 0",
    ),
    (Step::Registers("1"), "Some((1, 1))"),
    (Step::Registers("1.1"), "Some((2, 0))"),
    (Step::Registers("1.2"), "None"),
];

pub(super) const TO_LOW_DEVICE_TRACE: &str = "plug 1 hub2
plug 1.1 low
1 SETUP 0.0 / DATA0 8006000100000800 / ACK
2 IN 0.0 / DATA1 1201000209000040 / ACK
3 OUT 0.0 / DATA1 - / ACK
4 SETUP 0.0 / DATA0 0005010000000000 / ACK
5 IN 0.0 / DATA1 - / ACK
6 SETUP 1.0 / DATA0 8006000100001200 / ACK
7 IN 1.0 / DATA1 120100020900004001000200000100000001 / ACK
8 OUT 1.0 / DATA1 - / ACK
9 SETUP 1.0 / DATA0 8006000200000900 / ACK
10 IN 1.0 / DATA1 09021900010100C000 / ACK
11 OUT 1.0 / DATA1 - / ACK
12 SETUP 1.0 / DATA0 8006000200001900 / ACK
13 IN 1.0 / DATA1 09021900010100C000090400000109000000070581030100FF / ACK
14 OUT 1.0 / DATA1 - / ACK
15 SETUP 1.0 / DATA0 0009010000000000 / ACK
16 IN 1.0 / DATA1 - / ACK
17 SETUP 1.0 / DATA0 A006002900000900 / ACK
18 IN 1.0 / DATA1 0929020100000000FF / ACK
19 OUT 1.0 / DATA1 - / ACK
20 SETUP 1.0 / DATA0 8000000000000200 / ACK
21 IN 1.0 / DATA1 0100 / ACK
22 OUT 1.0 / DATA1 - / ACK
23 SETUP 1.0 / DATA0 2303080001000000 / ACK
24 IN 1.0 / DATA1 - / ACK
25 SETUP 1.0 / DATA0 2303080002000000 / ACK
26 IN 1.0 / DATA1 - / ACK
27 IN 1.1 / DATA0 02 / ACK
28 SETUP 1.0 / DATA0 A300000001000400 / ACK
29 IN 1.0 / DATA1 01030100 / ACK
30 OUT 1.0 / DATA1 - / ACK
31 SETUP 1.0 / DATA0 2301100001000000 / ACK
32 IN 1.0 / DATA1 - / ACK
33 SETUP 1.0 / DATA0 A300000001000400 / ACK
34 IN 1.0 / DATA1 01030000 / ACK
35 OUT 1.0 / DATA1 - / ACK
36 SETUP 1.0 / DATA0 2303040001000000 / ACK
37 IN 1.0 / DATA1 - / ACK
38 SETUP 1.0 / DATA0 A300000001000400 / ACK
39 IN 1.0 / DATA1 03031000 / ACK
40 OUT 1.0 / DATA1 - / ACK
41 SETUP 1.0 / DATA0 2301140001000000 / ACK
42 IN 1.0 / DATA1 - / ACK
43 PRE SETUP 0.0 / PRE DATA0 8006000100000800 / ACK
44 PRE IN 0.0 / DATA1 1201100100000008 / PRE ACK
45 PRE OUT 0.0 / PRE DATA1 - / ACK
46 PRE SETUP 0.0 / PRE DATA0 0005020000000000 / ACK
47 PRE IN 0.0 / DATA1 - / PRE ACK
48 PRE SETUP 2.0 / PRE DATA0 8006000100001200 / ACK
49 PRE IN 2.0 / DATA1 1201100100000008 / PRE ACK
50 PRE IN 2.0 / DATA0 3412010000010000 / PRE ACK
51 PRE IN 2.0 / DATA1 0001 / PRE ACK
52 PRE OUT 2.0 / PRE DATA1 - / ACK
";

/// After eight attempts the hub is configured and has address 1, and the low-speed function at its port 1 is reset.
const OPENED: &[Told<'static>] = &[
    (Step::Event, "changed"),
    (Step::Event, "changed"),
    (Step::Reset(1), ""),
    (Step::Asks(Full, 0, SET_ADDRESS_1), "data"),
    (Step::Asks(Full, 1, SET_CONFIGURATION), "data"),
    (Step::Asks(Full, 1, POWER_PORT_1), "data"),
    (Step::Asks(Full, 1, RESET_PORT_1), "data"),
];

const OPENED_TRACE: &str = "plug 1 hub2
plug 1.1 low
1 SETUP 0.0 / DATA0 0005010000000000 / ACK
2 IN 0.0 / DATA1 - / ACK
3 SETUP 1.0 / DATA0 0009010000000000 / ACK
4 IN 1.0 / DATA1 - / ACK
5 SETUP 1.0 / DATA0 2303080001000000 / ACK
6 IN 1.0 / DATA1 - / ACK
7 SETUP 1.0 / DATA0 2303040001000000 / ACK
8 IN 1.0 / DATA1 - / ACK
";

/// A low-speed packet goes down after PRE alone, and through an enabled port alone; the PRE of the first attempt here
/// is lost.
const WITHOUT_PRE: &[Told<'static>] = &[
    (Step::Setup(LowBelowHub, 0, GET_DEVICE), "none"),
    (Step::Setup(Low, 0, GET_DEVICE), "none"),
    (Step::Setup(LowBelowHub, 0, GET_DEVICE), "ack"),
    (Step::Asks(Full, 1, DISABLE_PORT_1), "data"),
    (Step::Setup(LowBelowHub, 0, GET_DEVICE), "none"),
    (Step::Registers("1.1"), "Some((0, 0))"),
];

const WITHOUT_PRE_TRACE: &str = "10 SETUP 0.0 / DATA0 8006000100000800 / none
11 PRE SETUP 0.0 / PRE DATA0 8006000100000800 / ACK
12 SETUP 1.0 / DATA0 2301010001000000 / ACK
13 IN 1.0 / DATA1 - / ACK
14 PRE SETUP 0.0 / PRE DATA0 8006000100000800 / none
";

const ROWS: &[Row] = &[
    Row {
        about: "the PRE of a token is lost",
        plan: HUB,
        damages: &[Damage {
            attempt: 9,
            packet: 1,
            harm: Harm::LosePre,
        }],
        opening: OPENED,
        steps: WITHOUT_PRE,
        trace: &[
            OPENED_TRACE,
            "9 PRE SETUP 0.0 [pre lost] / PRE DATA0 8006000100000800 / none\n",
            WITHOUT_PRE_TRACE,
        ],
    },
    Row {
        about: "the PRE of data is lost",
        plan: HUB,
        damages: &[Damage {
            attempt: 9,
            packet: 2,
            harm: Harm::LosePre,
        }],
        opening: OPENED,
        steps: WITHOUT_PRE,
        trace: &[
            OPENED_TRACE,
            "9 PRE SETUP 0.0 / PRE DATA0 8006000100000800 [pre lost] / none\n",
            WITHOUT_PRE_TRACE,
        ],
    },
    Row {
        about: "two functions below the hub hold address 0, and answer at once; both go where the hub is unplugged",
        plan: HUB,
        damages: &[],
        opening: OPENED,
        steps: &[
            (Step::Event, "changed"),
            (Step::Setup(LowBelowHub, 0, GET_DEVICE), "ack"),
            (Step::Asks(Full, 1, POWER_PORT_2), "data"),
            (Step::Asks(Full, 1, RESET_PORT_2), "data"),
            (Step::Setup(LowBelowHub, 0, GET_DEVICE), "none"),
            (Step::Registers("1.2"), "Some((0, 0))"),
            (Step::Event, "changed"),
            (Step::Registers("1"), "None"),
            (Step::Sink("1"), "None"),
            (Step::Registers("1.1"), "None"),
            (Step::Sink("1.1"), "None"),
            (Step::Registers("1.2"), "None"),
            (Step::Sink("1.2"), "None"),
            (Step::Setup(LowBelowHub, 0, GET_DEVICE), "none"),
        ],
        trace: &[
            OPENED_TRACE,
            "plug 1.2 low
9 PRE SETUP 0.0 / PRE DATA0 8006000100000800 / ACK
10 SETUP 1.0 / DATA0 2303080002000000 / ACK
11 IN 1.0 / DATA1 - / ACK
12 SETUP 1.0 / DATA0 2303040002000000 / ACK
13 IN 1.0 / DATA1 - / ACK
14 PRE SETUP 0.0 / PRE DATA0 8006000100000800 / collision
unplug 1
15 PRE SETUP 0.0 / PRE DATA0 8006000100000800 / none
",
        ],
    },
];

#[test]
fn buses_of_a_hub(rt: HostRuntime) -> Result<(), Fail> {
    check(&rt, rt.alloc(), ROWS)
}

/// What happens to the ACK at which a function below the hub is to take address 5, its part of the line, what is
/// counted, and the address then.
#[derive(Clone, Copy)]
struct LostAck {
    harm: Harm,
    ack: &'static str,
    counts: &'static str,
    registers: &'static str,
}

const SET_ADDRESS_TRACE: &str = "9 PRE SETUP 0.0 / PRE DATA0 0005050000000000 / ACK
10 PRE IN 0.0 / DATA1 - / ";

const LOST_ACKS: &[LostAck] = &[
    LostAck {
        harm: Harm::Lose,
        ack: "PRE ACK [lost]",
        counts: "attempts 10, events 2 of 4, losses 1, worst 1",
        registers: "Some((0, 0))",
    },
    LostAck {
        harm: Harm::Flip(0),
        ack: "PRE ACK [bit 0]",
        counts: "attempts 10, events 2 of 4, losses 1, worst 1",
        registers: "Some((0, 0))",
    },
    LostAck {
        harm: Harm::Flip(7),
        ack: "PRE ACK [bit 7]",
        counts: "attempts 10, events 2 of 4, losses 1, worst 1",
        registers: "Some((0, 0))",
    },
    LostAck {
        harm: Harm::LosePre,
        ack: "PRE ACK [pre lost]",
        counts: "attempts 10, events 2 of 4, losses 1, worst 1",
        registers: "Some((0, 0))",
    },
    LostAck {
        harm: Harm::Flip(8),
        ack: "PRE ACK",
        counts: "attempts 10, events 2 of 4, losses 0, worst 0",
        registers: "Some((5, 0))",
    },
];

/// What a row's steps reported otherwise than expected, and then the trace.
fn lost_ack(alloc: Global, row: &LostAck) -> Result<String, Fail> {
    let steps = [
        (Step::Asks(LowBelowHub, 0, SET_ADDRESS_5), "data"),
        (Step::Counts, row.counts),
        (Step::Registers("1.1"), row.registers),
    ];
    let damage = Damage {
        attempt: 10,
        packet: 3,
        harm: row.harm,
    };
    went(alloc, HUB, &[damage], OPENED, &steps)
}

#[test]
fn an_address_is_lost_below_a_hub(rt: HostRuntime) -> Result<(), Fail> {
    let alloc = rt.alloc();
    for row in LOST_ACKS {
        let trace = joined(alloc, &[OPENED_TRACE, SET_ADDRESS_TRACE, row.ack, "\n"])?;
        assert_eq!(rt;
            lost_ack(alloc, row)?.as_str(),
            trace.as_str(),
            "{}",
            row.ack
        );
    }
    Ok(())
}

/// A request to the hub between two losses, what its second attempt reports, and what is counted then.
#[derive(Clone, Copy)]
struct Between {
    request: [u8; 8],
    told: &'static str,
    counts: &'static str,
}

/// A stretch begins when the hub clears a change of connection of one of its ports.
const BETWEEN: &[Between] = &[
    Between {
        request: [0x23, 1, 16, 0, 1, 0, 0, 0],
        told: "data",
        counts: "attempts 14, events 2 of 4, losses 2, worst 1",
    },
    Between {
        request: [0x23, 1, 16, 0, 2, 0, 0, 0],
        told: "data",
        counts: "attempts 14, events 2 of 4, losses 2, worst 1",
    },
    Between {
        request: [0x23, 1, 16, 0, 3, 0, 0, 0],
        told: "stall",
        counts: "attempts 14, events 2 of 4, losses 2, worst 2",
    },
    Between {
        request: [0x23, 1, 20, 0, 1, 0, 0, 0],
        told: "data",
        counts: "attempts 14, events 2 of 4, losses 2, worst 2",
    },
    Between {
        request: GET_PORT_1,
        told: "data",
        counts: "attempts 14, events 2 of 4, losses 2, worst 2",
    },
];

/// The ACKs of two status stages do not come to the device.
const TWO_LOST_ACKS: &[Damage] = &[
    Damage {
        attempt: 10,
        packet: 3,
        harm: Harm::Lose,
    },
    Damage {
        attempt: 14,
        packet: 3,
        harm: Harm::Flip(0),
    },
];

/// What a row's steps reported otherwise than expected.
fn between_otherwise(alloc: Global, row: &Between) -> Result<String, Fail> {
    let text = plan_text(alloc, HUB, TWO_LOST_ACKS)?;
    let steps = [
        (Step::Asks(LowBelowHub, 0, SET_ADDRESS_5), "data"),
        (Step::Asks(Full, 1, row.request), row.told),
        (Step::Asks(LowBelowHub, 0, SET_ADDRESS_5), "data"),
        (Step::Counts, row.counts),
    ];
    went_otherwise(alloc, text.as_str(), OPENED, &steps)
}

#[test]
fn a_stretch_begins_at_a_cleared_change(rt: HostRuntime) -> Result<(), Fail> {
    for row in BETWEEN {
        assert_eq!(rt;
            between_otherwise(rt.alloc(), row)?.as_str(),
            "",
            "{:?}",
            row.request
        );
    }
    Ok(())
}
