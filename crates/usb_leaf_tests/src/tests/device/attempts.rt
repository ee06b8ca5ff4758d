//! Attempts on endpoint 0, packet by packet.
use super::kinds::{BUSY, FUNCTION, NAKS, SHORT, SILENT, STALLING};
use super::packets::Host::{Ack, Bytes, Data0, Data1, In, Out, Setup};
use super::steps::Row;
use super::steps::Step::{Answers, AwaitsAddress, Gets, Over, Registers, Reset};

const GET_DEVICE: &[u8] = &[0x80, 6, 0, 1, 0, 0, 18, 0];

const SET_ADDRESS: &[u8] = &[0, 5, 1, 0, 0, 0, 0, 0];

const SET_CONFIGURATION: &[u8] = &[0, 9, 3, 0, 0, 0, 0, 0];

const ROWS: &[Row] = &[
    Row {
        about: "eight bytes of a descriptor are read",
        device: &FUNCTION,
        steps: &[
            Answers(0, &[0x80, 6, 0, 1, 0, 0, 8, 0], "DATA1 1201000200000008"),
            Gets(Ack, "none"),
            Gets(In(0), "none"),
            Gets(Out(0), "none"),
            Gets(Data1(&[]), "ACK"),
            Gets(In(0), "none"),
        ],
    },
    Row {
        about: "an address is taken at the ACK, and lost at a reset",
        device: &FUNCTION,
        steps: &[
            Gets(Setup(0), "none"),
            Gets(Data0(SET_ADDRESS), "ACK"),
            Gets(In(0), "DATA1 -"),
            AwaitsAddress(true),
            Over,
            AwaitsAddress(false),
            Gets(Ack, "none"),
            Registers(0, 0),
            Gets(In(0), "DATA1 -"),
            Gets(Ack, "none"),
            Registers(1, 0),
            Gets(In(0), "none"),
            Gets(Setup(1), "none"),
            Gets(Data0(SET_CONFIGURATION), "ACK"),
            Registers(1, 3),
            Reset,
            Registers(0, 0),
        ],
    },
    Row {
        about: "each packet is given until its ACK is seen, and the status stage stands for the last ACK",
        device: &FUNCTION,
        steps: &[
            Answers(0, GET_DEVICE, "DATA1 1201000200000008"),
            Gets(In(0), "DATA1 1201000200000008"),
            Gets(Ack, "none"),
            Gets(In(0), "DATA0 3412785600010000"),
            Gets(In(7), "none"),
            Gets(Ack, "none"),
            Gets(In(0), "DATA0 3412785600010000"),
            Gets(Ack, "none"),
            Gets(Ack, "none"),
            Gets(In(0), "DATA1 0001"),
            Gets(Out(0), "none"),
            Gets(Data0(&[]), "ACK"),
            Gets(In(0), "DATA1 0001"),
            Gets(Out(0), "none"),
            Gets(Data1(&[1]), "STALL"),
            Gets(Out(0), "none"),
            Gets(Data1(&[]), "ACK"),
            Gets(Out(0), "none"),
            Gets(Data1(&[]), "ACK"),
            Gets(In(0), "none"),
        ],
    },
    Row {
        about: "an empty packet ends an answer of two full ones, shorter than what is wanted",
        device: &SHORT,
        steps: &[
            Answers(0, GET_DEVICE, "DATA1 1001000200000008"),
            Gets(Ack, "none"),
            Gets(In(0), "DATA0 3412785600010000"),
            Gets(Ack, "none"),
            Gets(In(0), "DATA1 -"),
            Gets(Ack, "none"),
            Gets(In(0), "none"),
        ],
    },
    Row {
        about: "a refused request stalls",
        device: &STALLING,
        steps: &[
            Answers(0, GET_DEVICE, "STALL"),
            Gets(Out(0), "none"),
            Gets(Data1(&[]), "STALL"),
            Answers(0, SET_CONFIGURATION, "STALL"),
            Answers(0, SET_ADDRESS, "DATA1 -"),
        ],
    },
    Row {
        about: "NAKs are counted",
        device: &NAKS,
        steps: &[
            Gets(In(0), "none"),
            Answers(0, GET_DEVICE, "NAK"),
            Gets(Out(0), "none"),
            Gets(Data1(&[]), "NAK"),
            Gets(In(0), "DATA1 1201000200000008"),
        ],
    },
    Row {
        about: "a busy device gives NAKs",
        device: &BUSY,
        steps: &[Answers(0, GET_DEVICE, "NAK"), Gets(In(0), "NAK")],
    },
    Row {
        about: "a silent device gives nothing",
        device: &SILENT,
        steps: &[
            Gets(Setup(0), "none"),
            Gets(Data0(GET_DEVICE), "none"),
            Gets(In(0), "none"),
        ],
    },
    Row {
        about: "a token is remembered for the very next packet only",
        device: &FUNCTION,
        steps: &[
            Gets(Setup(0), "none"),
            Gets(Setup(9), "none"),
            Gets(Data0(GET_DEVICE), "none"),
            Gets(Setup(0), "none"),
            Gets(Bytes(&[0xc3, 0, 1]), "none"),
            Gets(Data0(GET_DEVICE), "none"),
            Gets(In(0), "none"),
        ],
    },
];

pub(super) fn all() -> &'static [Row] {
    ROWS
}
