//! Requests of endpoint 0, row by row of the request table.
use super::kinds::{
    EMPTY, HUB, LONG, NO_ADDRESS, NO_CONFIG, NO_SET_CONFIG, NO_STATUS, NO_STRING, ODD_MAXIMUM,
    TEXTS,
};
use super::packets::Host::{Ack, Data0, Data1, In, Out, Setup};
use super::steps::Row;
use super::steps::Step::{Answers, Asks, Gets, Registers, TakesAddress};

const GET_DEVICE: &[u8] = &[0x80, 6, 0, 1, 0, 0, 255, 0];

const GET_CONFIG_0: &[u8] = &[0x80, 6, 0, 2, 0, 0, 255, 0];

const GET_STRING_1: &[u8] = &[0x80, 6, 1, 3, 9, 4, 255, 0];

const GET_STATUS: &[u8] = &[0x80, 0, 0, 0, 0, 0, 2, 0];

const GET_CONFIGURATION: &[u8] = &[0x80, 8, 0, 0, 0, 0, 1, 0];

const SET_ADDRESS: &[u8] = &[0, 5, 1, 0, 0, 0, 0, 0];

const SET_CONFIGURATION: &[u8] = &[0, 9, 2, 0, 0, 0, 0, 0];

const FULL_PACKET: &str =
    "DATA1 0902400001010080320904000000FF0000002E240000000000000000000000000000000000000000000000000000000000000000000000000000000000000000";

/// Which descriptor a request is for.
const DESCRIPTORS: &[Row] = &[
    Row {
        about: "descriptors are given",
        device: &TEXTS,
        steps: &[
            Answers(0, GET_DEVICE, "DATA1 120100020000004034127856000100010002"),
            Gets(Ack, "none"),
            Gets(In(0), "none"),
            Answers(0, &[0x80, 6, 0, 1, 0, 0, 5, 0], "DATA1 1201000200"),
            Answers(0, &[0x80, 6, 0, 1, 0, 0, 0, 0], "DATA1 -"),
            Answers(0, &[0x80, 6, 1, 1, 0, 0, 18, 0], "STALL"),
            Answers(0, &[0x80, 6, 0, 2, 0, 0, 9, 0], "DATA1 0902120001010080FA"),
            Gets(Ack, "none"),
            Gets(In(0), "none"),
            Answers(
                0,
                &[0x80, 6, 1, 2, 0, 0, 255, 0],
                "DATA1 0902120001020080320904000000FF000000",
            ),
            Answers(0, &[0x80, 6, 2, 2, 0, 0, 255, 0], "STALL"),
        ],
    },
    Row {
        about: "a string is given whatever its language",
        device: &TEXTS,
        steps: &[
            Answers(0, &[0x80, 6, 0, 3, 0, 0, 255, 0], "DATA1 04030904"),
            Answers(0, GET_STRING_1, "DATA1 0803410022000A00"),
            Answers(0, &[0x80, 6, 1, 3, 7, 4, 255, 0], "DATA1 0803410022000A00"),
            Answers(0, &[0x80, 6, 2, 3, 9, 4, 255, 0], "STALL"),
            Answers(0, &[0x80, 6, 0, 4, 0, 0, 255, 0], "STALL"),
        ],
    },
];

/// How an answer ends.
const LENGTHS: &[Row] = &[
    Row {
        about: "the maximum of endpoint 0 is 8 where the descriptor has none of the standard",
        device: &ODD_MAXIMUM,
        steps: &[
            Answers(0, GET_CONFIG_0, "DATA1 0902100001010080"),
            Gets(Ack, "none"),
            Gets(In(0), "DATA0 3207240102030405"),
            Gets(Ack, "none"),
            Gets(In(0), "DATA1 -"),
            Gets(Ack, "none"),
            Gets(In(0), "none"),
            Answers(0, &[0x80, 6, 0, 2, 0, 0, 16, 0], "DATA1 0902100001010080"),
            Gets(Ack, "none"),
            Gets(In(0), "DATA0 3207240102030405"),
            Gets(Ack, "none"),
            Gets(In(0), "none"),
            Gets(Out(0), "none"),
            Gets(Data1(&[]), "ACK"),
        ],
    },
    Row {
        about: "an answer of no bytes is one empty packet",
        device: &EMPTY,
        steps: &[
            Answers(0, GET_DEVICE, "DATA1 -"),
            Gets(Ack, "none"),
            Gets(In(0), "none"),
            Answers(0, GET_CONFIG_0, "DATA1 -"),
            Gets(Ack, "none"),
            Gets(Out(0), "none"),
            Gets(Data1(&[]), "ACK"),
        ],
    },
    Row {
        about: "behind a full packet comes an empty one where more is wanted, else none",
        device: &LONG,
        steps: &[
            Answers(0, &[0x80, 6, 0, 2, 0, 0, 64, 0], FULL_PACKET),
            Gets(Ack, "none"),
            Gets(In(0), "none"),
            Answers(0, GET_CONFIG_0, FULL_PACKET),
            Gets(Ack, "none"),
            Gets(In(0), "DATA0 -"),
            Gets(Ack, "none"),
            Gets(In(0), "none"),
        ],
    },
];

/// The status, the configuration, and requests that are none of the table.
const STATES: &[Row] = &[
    Row {
        about: "a status and a configuration are told",
        device: &TEXTS,
        steps: &[
            Answers(0, GET_STATUS, "DATA1 0000"),
            Answers(0, &[0x80, 0, 1, 0, 0, 0, 2, 0], "STALL"),
            Answers(0, &[0x80, 0, 0, 0, 1, 0, 2, 0], "STALL"),
            Answers(0, GET_CONFIGURATION, "DATA1 00"),
            TakesAddress,
            Asks(1, SET_CONFIGURATION),
            Answers(1, GET_CONFIGURATION, "DATA1 02"),
            Asks(1, &[0, 9, 0, 0, 0, 0, 0, 0]),
            Registers(1, 0),
        ],
    },
    Row {
        about: "a device with its own power tells so",
        device: &HUB,
        steps: &[Answers(0, GET_STATUS, "DATA1 0100")],
    },
    Row {
        about: "a wrong request stalls",
        device: &TEXTS,
        steps: &[
            Answers(0, &[0, 5, 128, 0, 0, 0, 0, 0], "STALL"),
            Answers(0, &[0, 5, 1, 0, 0, 0, 1, 0], "STALL"),
            Answers(0, SET_CONFIGURATION, "STALL"),
            TakesAddress,
            Answers(1, &[0, 9, 3, 0, 0, 0, 0, 0], "STALL"),
            Answers(1, &[0, 9, 1, 1, 0, 0, 0, 0], "STALL"),
            Answers(1, &[0, 9, 1, 0, 0, 0, 1, 0], "STALL"),
            Registers(1, 0),
            Answers(1, &[2, 3, 0, 0, 1, 0, 0, 0], "STALL"),
            Answers(1, &[0xa0, 6, 0, 0x29, 0, 0, 9, 0], "STALL"),
            Answers(1, &[0xa3, 0, 0, 0, 1, 0, 4, 0], "STALL"),
            Answers(1, &[0x81, 0, 0, 0, 0, 0, 2, 0], "STALL"),
        ],
    },
    Row {
        about: "setup data are eight bytes behind DATA0, after a SETUP token for endpoint 0",
        device: &TEXTS,
        steps: &[
            Gets(Setup(0), "none"),
            Gets(Data1(GET_STATUS), "none"),
            Gets(Setup(0), "none"),
            Gets(Data0(&[0x80, 0, 0, 0, 0, 0, 2]), "none"),
            Gets(Setup(0), "none"),
            Gets(Data0(&[0x80, 0, 0, 0, 0, 0, 2, 0, 0]), "none"),
            Gets(Data0(GET_STATUS), "none"),
            Gets(In(0), "none"),
            Asks(0, GET_STATUS),
            Answers(0, GET_CONFIGURATION, "DATA1 00"),
        ],
    },
];

/// Requests that a device refuses whatever else it could answer.
const REFUSALS: &[Row] = &[
    Row {
        about: "SET_ADDRESS is refused, and the device descriptor given",
        device: &NO_ADDRESS,
        steps: &[
            Answers(0, SET_ADDRESS, "STALL"),
            Gets(Out(0), "none"),
            Gets(Data1(&[]), "STALL"),
            Answers(0, GET_DEVICE, "DATA1 120100020000004034127856000100010002"),
        ],
    },
    Row {
        about: "a configuration is refused, and the device descriptor given",
        device: &NO_CONFIG,
        steps: &[
            Answers(0, GET_CONFIG_0, "STALL"),
            Gets(Out(0), "none"),
            Gets(Data1(&[]), "STALL"),
            Answers(0, GET_DEVICE, "DATA1 120100020000004034127856000100010002"),
        ],
    },
    Row {
        about: "GET_STATUS is refused, and the device descriptor given",
        device: &NO_STATUS,
        steps: &[
            Answers(0, GET_STATUS, "STALL"),
            Gets(Out(0), "none"),
            Gets(Data1(&[]), "STALL"),
            Answers(0, GET_DEVICE, "DATA1 120100020000004034127856000100010002"),
        ],
    },
    Row {
        about: "a string is refused, and the device descriptor given",
        device: &NO_STRING,
        steps: &[
            Answers(0, GET_STRING_1, "STALL"),
            Gets(Out(0), "none"),
            Gets(Data1(&[]), "STALL"),
            Answers(0, GET_DEVICE, "DATA1 120100020000004034127856000100010002"),
        ],
    },
    Row {
        about: "SET_CONFIGURATION is refused",
        device: &NO_SET_CONFIG,
        steps: &[
            TakesAddress,
            Answers(1, SET_CONFIGURATION, "STALL"),
            Registers(1, 0),
        ],
    },
];

pub(super) fn of_descriptors() -> &'static [Row] {
    DESCRIPTORS
}

pub(super) fn of_lengths() -> &'static [Row] {
    LENGTHS
}

pub(super) fn of_states() -> &'static [Row] {
    STATES
}

pub(super) fn of_refusals() -> &'static [Row] {
    REFUSALS
}
