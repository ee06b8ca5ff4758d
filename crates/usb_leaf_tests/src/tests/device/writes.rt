//! Control transfers of a device's own, packet by packet.
use super::kinds::{OWN, OWN_NAKS};
use super::packets::Host::{Ack, Data0, Data1, In, Out};
use super::steps::Row;
use super::steps::Step::{Answers, Asks, Gets, GetsAtLast, Registers, Reset, Taken, TakesAddress};

const SET_CONFIGURATION: &[u8] = &[0, 9, 3, 0, 0, 0, 0, 0];

const WRITE_TEN: &[u8] = &[0x40, 1, 0, 0, 0, 0, 10, 0];

const WRITE_ONE: &[u8] = &[0x40, 1, 0, 0, 0, 0, 1, 0];

const EIGHT: &[u8] = &[1, 2, 3, 4, 5, 6, 7, 8];

const TEN: &[u8] = &[1, 2, 3, 4, 5, 6, 7, 8, 9, 10];

/// What a control write does to the device.
const WRITES: &[Row] = &[
    Row {
        about: "data come once each, and are kept when the last has come",
        device: &OWN,
        steps: &[
            TakesAddress,
            Asks(1, SET_CONFIGURATION),
            Asks(1, WRITE_TEN),
            Gets(Out(1), "none"),
            Gets(Data1(EIGHT), "ACK"),
            Gets(Out(1), "none"),
            Gets(Data1(EIGHT), "ACK"),
            Gets(In(1), "STALL"),
            Taken(&[]),
            Gets(Out(1), "none"),
            Gets(Data0(&[9, 10]), "ACK"),
            Taken(TEN),
            Gets(Out(1), "none"),
            Gets(Data0(&[9, 10]), "ACK"),
            Gets(Out(1), "none"),
            Gets(Data1(&[9, 10]), "STALL"),
            Gets(In(1), "DATA1 -"),
            Gets(In(1), "DATA1 -"),
            Gets(Ack, "none"),
            Gets(In(1), "none"),
            Gets(Out(1), "none"),
            Gets(Data0(&[9, 10]), "none"),
            Taken(TEN),
        ],
    },
    Row {
        about: "a packet that is too long is not heard; an empty one and one too many are refused",
        device: &OWN,
        steps: &[
            TakesAddress,
            Asks(1, SET_CONFIGURATION),
            Asks(1, WRITE_TEN),
            Gets(Out(1), "none"),
            Gets(Data1(&[1, 2, 3, 4, 5, 6, 7, 8, 9]), "none"),
            Gets(Out(1), "none"),
            Gets(Data1(&[]), "STALL"),
            Gets(Out(1), "none"),
            Gets(Data0(&[]), "STALL"),
            Gets(Out(1), "none"),
            Gets(Data1(EIGHT), "ACK"),
            Gets(Out(1), "none"),
            Gets(Data0(&[9, 10, 11]), "STALL"),
            Gets(Out(1), "none"),
            Gets(Data0(&[9, 10]), "ACK"),
            Gets(Out(1), "none"),
            Gets(Data1(&[]), "STALL"),
            Taken(TEN),
        ],
    },
    Row {
        about: "a SETUP ends what has come in part, and so does a reset",
        device: &OWN,
        steps: &[
            TakesAddress,
            Asks(1, SET_CONFIGURATION),
            Asks(1, WRITE_TEN),
            Gets(Out(1), "none"),
            Gets(Data1(EIGHT), "ACK"),
            Asks(1, WRITE_ONE),
            Gets(Out(1), "none"),
            Gets(Data1(&[7]), "ACK"),
            Taken(&[7]),
            Asks(1, WRITE_ONE),
            Gets(Out(1), "none"),
            Gets(Data1(&[8]), "ACK"),
            Taken(&[7, 8]),
            Asks(1, WRITE_TEN),
            Gets(Out(1), "none"),
            Gets(Data1(EIGHT), "ACK"),
            Reset,
            Taken(&[7, 8]),
            Registers(0, 0),
        ],
    },
    Row {
        about: "a device that is busy takes nothing",
        device: &OWN_NAKS,
        steps: &[
            Asks(0, &[0, 5, 1, 0, 0, 0, 0, 0]),
            Gets(In(0), "NAK"),
            Gets(In(0), "NAK"),
            Gets(In(0), "DATA1 -"),
            Gets(Ack, "none"),
            Asks(1, SET_CONFIGURATION),
            Asks(1, WRITE_ONE),
            Gets(Out(1), "none"),
            Gets(Data1(&[7]), "NAK"),
            Gets(Out(1), "none"),
            Gets(Data1(&[7]), "NAK"),
            Taken(&[]),
            Gets(Out(1), "none"),
            Gets(Data1(&[7]), "ACK"),
            Taken(&[7]),
        ],
    },
    Row {
        about: "data that are refused memory are taken later, once",
        device: &OWN,
        steps: &[
            TakesAddress,
            Asks(1, SET_CONFIGURATION),
            Asks(1, WRITE_TEN),
            Gets(Out(1), "none"),
            GetsAtLast(Data1(EIGHT), "ACK"),
            Gets(Out(1), "none"),
            GetsAtLast(Data0(&[9, 10]), "ACK"),
            Taken(TEN),
            Gets(In(1), "DATA1 -"),
        ],
    },
];

/// What a device answers to requests of its own.
const OWN_REQUESTS: &[Row] = &[
    Row {
        about: "the first row that fits counts",
        device: &OWN,
        steps: &[
            TakesAddress,
            Asks(1, SET_CONFIGURATION),
            Answers(1, &[0xc0, 1, 7, 0, 8, 0, 9, 0], "DATA1 0102030405060708"),
            Answers(1, &[0xc0, 1, 7, 0, 8, 0, 2, 0], "DATA1 0102"),
            Answers(1, &[0xc0, 1, 7, 0, 8, 0, 0, 0], "DATA1 -"),
            Answers(1, &[0xc0, 1, 7, 0, 9, 0, 9, 0], "DATA1 -"),
            Answers(1, &[0xc0, 1, 6, 0, 8, 0, 9, 0], "DATA1 -"),
            Asks(1, WRITE_ONE),
            Gets(Out(1), "none"),
            Gets(Data1(&[7]), "ACK"),
            Answers(1, &[0xc0, 1, 0, 0, 0, 0, 9, 0], "DATA1 07"),
            Answers(1, &[0xc0, 2, 0, 0, 0, 0, 9, 0], "STALL"),
        ],
    },
    Row {
        about: "data are refused at once, or in the status stage",
        device: &OWN,
        steps: &[
            TakesAddress,
            Asks(1, SET_CONFIGURATION),
            Asks(1, &[0x40, 2, 0, 0, 0, 0, 1, 0]),
            Gets(Out(1), "none"),
            Gets(Data1(&[7]), "STALL"),
            Asks(1, &[0x40, 3, 0, 0, 0, 0, 1, 0]),
            Gets(Out(1), "none"),
            Gets(Data1(&[7]), "ACK"),
            Gets(In(1), "STALL"),
            Taken(&[]),
            Answers(1, &[0x40, 3, 0, 0, 0, 0, 0, 0], "STALL"),
            Answers(1, &[0x40, 4, 0, 0, 0, 0, 0, 0], "STALL"),
            Answers(1, &[0x40, 1, 0, 0, 0, 0, 0, 0], "DATA1 -"),
            Asks(1, &[0x40, 4, 0, 0, 0, 0, 1, 0]),
            Gets(Out(1), "none"),
            Gets(Data1(&[7]), "STALL"),
            Asks(1, &[0x40, 4, 0, 0, 0, 0, 2, 0]),
            Gets(Out(1), "none"),
            Gets(Data1(&[7, 8]), "ACK"),
            Taken(&[7, 8]),
        ],
    },
    Row {
        about: "data go as the row says; no function plays a hub, and no row is for what each device is asked",
        device: &OWN,
        steps: &[
            TakesAddress,
            Answers(1, &[0xc0, 1, 7, 0, 8, 0, 9, 0], "STALL"),
            Asks(1, SET_CONFIGURATION),
            Asks(1, &[0x40, 5, 0, 0, 0, 0, 1, 0]),
            Gets(Out(1), "none"),
            Gets(Data1(&[7]), "STALL"),
            Answers(1, &[0xc0, 5, 0, 0, 0, 0, 1, 0], "STALL"),
            Answers(1, &[0xa0, 6, 0, 0x29, 0, 0, 9, 0], "STALL"),
            Answers(1, &[0xa3, 0, 0, 0, 1, 0, 4, 0], "STALL"),
            Answers(1, &[0x23, 3, 4, 0, 1, 0, 0, 0], "STALL"),
            Answers(1, &[0x23, 1, 16, 0, 1, 0, 0, 0], "STALL"),
            Answers(1, &[0x80, 0, 0, 0, 0, 0, 2, 0], "DATA1 0000"),
            Answers(1, &[0xc1, 1, 0, 0, 0, 0, 1, 0], "STALL"),
        ],
    },
];

pub(super) fn of_writes() -> &'static [Row] {
    WRITES
}

pub(super) fn of_requests() -> &'static [Row] {
    OWN_REQUESTS
}
