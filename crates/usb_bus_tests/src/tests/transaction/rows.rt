//! What functions are asked, and what that brings.

use super::{Call, Endpoint, Row};
use usb_packet::Toggle;

const GET_DEVICE: [u8; 8] = [0x80, 6, 0, 1, 0, 0, 18, 0];

/// SET_ADDRESS of address 3.
const SET_ADDRESS: [u8; 8] = [0, 5, 3, 0, 0, 0, 0, 0];

const SET_CONFIGURATION: [u8; 8] = [0, 9, 1, 0, 0, 0, 0, 0];

/// Each call once, at the control endpoint.
const EACH_CALL: [(Call, Endpoint, Toggle); 4] = [
    (Call::Setup(GET_DEVICE), Endpoint::NewControl, Toggle::One),
    (Call::In, Endpoint::NewControl, Toggle::One),
    (Call::Out(&[]), Endpoint::NewControl, Toggle::One),
    (Call::Poll, Endpoint::NewControl, Toggle::One),
];

pub(super) const ROWS: [Row; 10] = [
    Row {
        about: "a function that never answers",
        limit: 1000,
        keys: "silent = true\n",
        damages: "",
        steps: &EACH_CALL,
        traced: false,
        told: "NoAnswer One 3
NoAnswer One 6
NoAnswer One 9
NoAnswer One 12
taken -
",
    },
    Row {
        about: "a function that always answers by NAK, but to SETUP",
        limit: 1000,
        keys: "busy = true\n",
        damages: "",
        steps: &EACH_CALL,
        traced: false,
        told: "- One 1
Busy One 257
Busy One 513
none One 514
taken -
",
    },
    Row {
        about: "a function that refuses the request, whose SETUP is acknowledged",
        limit: 1000,
        keys: "stalls = [\"device\"]\n",
        damages: "",
        steps: &EACH_CALL,
        traced: false,
        told: "- One 1
Stalled One 2
Stalled One 3
Stalled One 4
taken -
",
    },
    Row {
        about: "four errors, of which never three run, and 200 NAKs are no fault",
        limit: 1000,
        keys: "naks = 200\n",
        damages: r#"
[[damage]]
attempt = 2
packet = 1
how = "lose"

[[damage]]
attempt = 3
packet = 1
how = "lose"

[[damage]]
attempt = 5
packet = 1
how = "lose"

[[damage]]
attempt = 6
packet = 1
how = "lose"
"#,
        steps: &[
            (Call::Setup(GET_DEVICE), Endpoint::NewControl, Toggle::One),
            (Call::In, Endpoint::NewControl, Toggle::One),
        ],
        traced: false,
        told: "- One 1
1201000200000008 Zero 206
taken -
",
    },
    Row {
        about: "a NAK before three errors running, and the call after them",
        limit: 1000,
        keys: "naks = 1\n",
        damages: r#"
[[damage]]
attempt = 3
packet = 1
how = "lose"

[[damage]]
attempt = 4
packet = 2
how = "flip"
bit = 9

[[damage]]
attempt = 5
packet = 1
how = "flip"
bit = 9
"#,
        steps: &[
            (Call::Setup(GET_DEVICE), Endpoint::NewControl, Toggle::One),
            (Call::In, Endpoint::NewControl, Toggle::One),
            (Call::In, Endpoint::NewControl, Toggle::One),
        ],
        traced: true,
        told: "- One 1
NoAnswer One 5
1201000200000008 Zero 6
taken -
plug 1 fn
1 SETUP 0.0 / DATA0 8006000100001200 / ACK
2 IN 0.0 / NAK
3 IN 0.0 [lost] / none
4 IN 0.0 / DATA1 1201000200000008 [bit 9]
5 IN 0.0 [bit 9] / none
6 IN 0.0 / DATA1 1201000200000008 / ACK
",
    },
    Row {
        about: "two attempts to send setup data bring no ACK",
        limit: 1000,
        keys: "",
        damages: r#"
[[damage]]
attempt = 1
packet = 1
how = "flip"
bit = 9

[[damage]]
attempt = 2
packet = 2
how = "flip"
bit = 20

[[damage]]
attempt = 4
packet = 3
how = "lose"
"#,
        steps: &[(Call::Setup(GET_DEVICE), Endpoint::NewControl, Toggle::One)],
        traced: false,
        told: "- One 3
taken -
",
    },
    Row {
        about: "all three attempts to send setup data bring no ACK",
        limit: 1000,
        keys: "",
        damages: r#"
[[damage]]
attempt = 1
packet = 1
how = "lose"

[[damage]]
attempt = 2
packet = 2
how = "flip"
bit = 20

[[damage]]
attempt = 3
packet = 3
how = "lose"
"#,
        steps: &[(Call::Setup(GET_DEVICE), Endpoint::NewControl, Toggle::One)],
        traced: true,
        told: "NoAnswer One 3
taken -
plug 1 fn
1 SETUP 0.0 [lost] / DATA0 8006000100001200 / none
2 SETUP 0.0 / DATA0 8006000100001200 [bit 20] / none
3 SETUP 0.0 / DATA0 8006000100001200 / ACK [lost]
",
    },
    Row {
        about: "a repeat is discarded: the ACK of a packet was lost, and it comes again (8.6.4)",
        limit: 1000,
        keys: "",
        damages: r#"
[[damage]]
attempt = 2
packet = 3
how = "lose"

[[damage]]
attempt = 3
packet = 1
how = "flip"
bit = 3

[[damage]]
attempt = 4
packet = 2
how = "lose"
"#,
        steps: &[
            (Call::Setup(GET_DEVICE), Endpoint::NewControl, Toggle::One),
            (Call::In, Endpoint::NewControl, Toggle::One),
            (Call::In, Endpoint::NewControl, Toggle::Zero),
            (Call::In, Endpoint::NewControl, Toggle::One),
        ],
        traced: false,
        told: "- One 1
1201000200000008 Zero 2
3412785600010000 One 6
0001 Zero 7
taken -
",
    },
    Row {
        about: "each packet is moved once: of the bulk endpoints, an ACK and a packet are lost",
        limit: 1000,
        keys: "source = \"0102030405060708090A\"\n",
        damages: r#"
[[damage]]
attempt = 5
packet = 3
how = "lose"

[[damage]]
attempt = 6
packet = 2
how = "flip"
bit = 30

[[damage]]
attempt = 9
packet = 3
how = "lose"

[[damage]]
attempt = 10
packet = 2
how = "lose"
"#,
        steps: &[
            (Call::Setup(SET_ADDRESS), Endpoint::NewControl, Toggle::One),
            (Call::In, Endpoint::NewControl, Toggle::One),
            (
                Call::Setup(SET_CONFIGURATION),
                Endpoint::Control,
                Toggle::One,
            ),
            (Call::In, Endpoint::Control, Toggle::One),
            (Call::Out(&[1, 2]), Endpoint::Sink, Toggle::Zero),
            (Call::Out(&[3]), Endpoint::Sink, Toggle::One),
            (Call::In, Endpoint::Source, Toggle::Zero),
            (Call::Poll, Endpoint::Source, Toggle::One),
            (Call::Poll, Endpoint::Source, Toggle::Zero),
        ],
        traced: true,
        told: "- One 1
- Zero 2
- One 3
- Zero 4
- One 7
- Zero 8
0102030405060708 One 9
090A Zero 12
none Zero 13
taken 010203
plug 1 fn
1 SETUP 0.0 / DATA0 0005030000000000 / ACK
2 IN 0.0 / DATA1 - / ACK
3 SETUP 3.0 / DATA0 0009010000000000 / ACK
4 IN 3.0 / DATA1 - / ACK
5 OUT 3.2 / DATA0 0102 / ACK [lost]
6 OUT 3.2 / DATA0 0102 [bit 30] / none
7 OUT 3.2 / DATA0 0102 / ACK
8 OUT 3.2 / DATA1 03 / ACK
9 IN 3.1 / DATA0 0102030405060708 / ACK [lost]
10 IN 3.1 / DATA0 0102030405060708 [lost]
11 IN 3.1 / DATA0 0102030405060708 / ACK
12 IN 3.1 / DATA1 090A / ACK
13 IN 3.1 / NAK
",
    },
    Row {
        about: "a fault of the bus ends each call",
        limit: 2,
        keys: "silent = true\n",
        damages: "",
        steps: &[
            (Call::In, Endpoint::NewSource, Toggle::One),
            (Call::Poll, Endpoint::NewSource, Toggle::One),
            (Call::Out(&[1]), Endpoint::NewSource, Toggle::One),
            (Call::Setup(GET_DEVICE), Endpoint::NewSource, Toggle::One),
        ],
        traced: false,
        told: "Bus(Limit) One 2
Bus(Limit) One 2
Bus(Limit) One 2
Bus(Limit) One 2
taken -
",
    },
];
