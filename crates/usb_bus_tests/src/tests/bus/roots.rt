//! Functions at root ports.

use super::plans::{
    GET_DEVICE, ONE_FUNCTION, ONE_PORT, SET_ADDRESS_1, SET_CONFIGURATION, TWO_PORTS,
};
use super::row::{Row, Told, check};
use super::step::Step;
use crate::tests::devices::{FUNCTION, PLUG_FUNCTION};
use crate::tests::traces::{ADDRESSED, CONFIGURED, DESCRIBED, HEAD_ASKED, HEAD_GIVEN};
use std::test::Fail;
use usb_packet::Speed::{Full, LowBelowHub};
use usb_sim::{Damage, Harm};

/// The function is plugged at port 1 and enumerated, and a line of report is written.
pub(super) const ENUMERATION: &[Told<'static>] = &[
    (Step::Event, "changed"),
    (Step::Reset(1), ""),
    (Step::Reads(Full, 0, GET_DEVICE, 1), "ack"),
    (Step::Asks(Full, 0, SET_ADDRESS_1), "data"),
    (Step::Reads(Full, 1, [0x80, 6, 0, 1, 0, 0, 18, 0], 1), "ack"),
    (Step::Reads(Full, 1, [0x80, 6, 0, 2, 0, 0, 9, 0], 1), "ack"),
    (Step::Reads(Full, 1, [0x80, 6, 0, 2, 0, 0, 18, 0], 1), "ack"),
    (Step::Asks(Full, 1, SET_CONFIGURATION), "data"),
    (Step::Line("listing 1"), ""),
];

/// The trace of the enumeration.
pub(super) const ENUMERATION_TRACE: &[&str] = &[
    HEAD_ASKED,
    HEAD_GIVEN,
    ADDRESSED,
    DESCRIBED,
    CONFIGURED,
    "listing 1\n",
];

/// What the bus is once the function is enumerated.
const ENUMERATED: &[Told<'static>] = &[
    (Step::Event, "no event"),
    (
        Step::Counts,
        "attempts 16, events 1 of 1, losses 0, worst 0",
    ),
    (Step::Registers("1"), "Some((1, 1))"),
    (Step::Sink("1"), "Some([])"),
    (Step::Status(1), "[3, 1, 0, 0]"),
];

/// The function is plugged at port 1 after two attempts.
const PLUG_LATER: &str = r#"
[[event]]
do = "plug"
path = "1"
device = "fn"
after = 2
"#;

/// The function is plugged at port 2 one attempt after the last event.
const PLUG_BESIDE: &str = r#"
[[event]]
do = "plug"
path = "2"
device = "fn"
after = 1
"#;

/// What the host is asked to do while the function is plugged.
const ASKED: &str = r#"
[[event]]
do = "show"

[[event]]
do = "send"
path = "1"
bytes = "0102"

[[event]]
do = "receive"
path = "1"
packets = 3

[[event]]
do = "clear"
path = "1"

[[event]]
do = "unplug"
path = "1"
"#;

/// The function is plugged after one attempt, the last one.
const ONE_ATTEMPT: &[&str] = &[
    "limit = 1\nroots = 1\n",
    FUNCTION,
    r#"
[[event]]
do = "plug"
path = "1"
device = "fn"
after = 1
"#,
];

const ROWS: &[Row] = &[
    Row {
        about: "a function is enumerated",
        plan: ONE_FUNCTION,
        damages: &[],
        opening: ENUMERATION,
        steps: ENUMERATED,
        trace: ENUMERATION_TRACE,
    },
    Row {
        about: "the limit stays",
        plan: ONE_ATTEMPT,
        damages: &[],
        opening: &[],
        steps: &[
            (Step::In(Full, 0), "none"),
            (Step::In(Full, 0), "limit reached"),
            (Step::In(Full, 0), "limit reached"),
            (Step::Line("end"), "limit reached"),
            (Step::Event, "limit reached"),
            (Step::Counts, "attempts 1, events 0 of 1, losses 0, worst 0"),
            (Step::Set(1, 8), ""),
            (Step::Status(1), "[0, 1, 0, 0]"),
        ],
        trace: &["1 IN 0.0 / none\n"],
    },
    Row {
        about: "the second event waits for one attempt after the first one came",
        plan: &[TWO_PORTS, FUNCTION, PLUG_LATER, PLUG_BESIDE],
        damages: &[],
        opening: &[],
        steps: &[
            (Step::Set(1, 8), ""),
            (Step::In(Full, 0), "none"),
            (Step::In(Full, 0), "none"),
            (Step::In(Full, 0), "none"),
            (Step::In(Full, 0), "none"),
            (Step::Status(1), "[1, 1, 1, 0]"),
            (Step::Status(2), "[0, 0, 0, 0]"),
        ],
        trace: &[
            "1 IN 0.0 / none
2 IN 0.0 / none
plug 1 fn
3 IN 0.0 / none
plug 2 fn
4 IN 0.0 / none
",
        ],
    },
    Row {
        about: "two devices at address 0 answer at once where both ports are enabled; too much data is no answer",
        plan: &[TWO_PORTS, FUNCTION, PLUG_FUNCTION, PLUG_BESIDE],
        damages: &[],
        opening: &[],
        steps: &[
            (Step::Event, "changed"),
            (Step::Event, "changed"),
            (Step::Reset(1), ""),
            (Step::Set(2, 8), ""),
            (Step::Setup(Full, 0, GET_DEVICE), "ack"),
            (Step::ShortIn(Full), "none"),
            (Step::ShortIn(LowBelowHub), "none"),
            (Step::Set(2, 4), ""),
            (Step::Setup(Full, 0, GET_DEVICE), "none"),
        ],
        trace: &[
            "plug 1 fn
plug 2 fn
1 SETUP 0.0 / DATA0 8006000100000800 / ACK
2 IN 0.0 / DATA1 1201000200000040
3 PRE IN 0.0 / none
4 SETUP 0.0 / DATA0 8006000100000800 / collision
",
        ],
    },
    Row {
        about: "what the host is asked to do waits for it, and so does all that comes behind",
        plan: &[ONE_PORT, FUNCTION, PLUG_FUNCTION, ASKED],
        damages: &[],
        opening: &[],
        steps: &[
            (Step::Set(1, 8), ""),
            (Step::In(Full, 0), "none"),
            (Step::In(Full, 0), "none"),
            (Step::Counts, "attempts 2, events 1 of 6, losses 0, worst 0"),
            (Step::Event, "show"),
            (Step::Event, "send [1, 2] to [1]"),
            (Step::Event, "receive 3 from [1]"),
            (Step::Event, "clear [1]"),
            (Step::In(Full, 0), "none"),
            (Step::Counts, "attempts 3, events 6 of 6, losses 0, worst 0"),
            (Step::Registers("1"), "None"),
            (Step::Sink("1"), "None"),
        ],
        trace: &[
            "plug 1 fn
1 IN 0.0 / none
2 IN 0.0 / none
unplug 1
3 IN 0.0 / none
",
        ],
    },
    Row {
        about: "the PRE of a packet is lost",
        plan: ONE_FUNCTION,
        damages: &[Damage {
            attempt: 1,
            packet: 1,
            harm: Harm::LosePre,
        }],
        opening: &[],
        steps: &[
            (Step::Event, "changed"),
            (Step::Reset(1), ""),
            (Step::ShortIn(LowBelowHub), "none"),
        ],
        trace: &["plug 1 fn\n1 PRE IN 0.0 [pre lost] / none\n"],
    },
];

#[test]
fn buses_of_functions(rt: HostRuntime) -> Result<(), Fail> {
    check(&rt, rt.alloc(), ROWS)
}
