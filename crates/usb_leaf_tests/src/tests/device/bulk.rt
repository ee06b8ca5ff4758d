//! Attempts on the bulk endpoints, packet by packet.
use super::kinds::BULK;
use super::packets::Host::{Ack, Data0, Data1, InAt, OutAt};
use super::steps::Row;
use super::steps::Step::{Asks, Gets, GetsAtLast, Registers, Reset, Sink, TakesAddress};

const SET_CONFIGURATION: &[u8] = &[0, 9, 1, 0, 0, 0, 0, 0];

const ROWS: &[Row] = &[
    Row {
        about: "the source is given packet by packet",
        device: &BULK,
        steps: &[
            TakesAddress,
            Gets(InAt(1, 2), "none"),
            Asks(1, SET_CONFIGURATION),
            Gets(InAt(1, 2), "DATA0 0102030405060708"),
            Gets(InAt(1, 2), "DATA0 0102030405060708"),
            Gets(Ack, "none"),
            Gets(InAt(1, 2), "DATA1 09"),
            Gets(Ack, "none"),
            Gets(InAt(1, 2), "NAK"),
            Gets(InAt(1, 3), "none"),
            Gets(InAt(1, 1), "none"),
        ],
    },
    Row {
        about: "packets join the sink until the endpoint halts, and again when it is cleared",
        device: &BULK,
        steps: &[
            TakesAddress,
            Asks(1, SET_CONFIGURATION),
            Gets(OutAt(1, 2), "none"),
            Gets(Data0(&[7]), "ACK"),
            Gets(OutAt(1, 2), "none"),
            Gets(Data0(&[7]), "ACK"),
            Gets(OutAt(1, 2), "none"),
            Gets(Data1(&[1, 2, 3, 4, 5, 6, 7, 8, 9]), "none"),
            Gets(OutAt(1, 2), "none"),
            Gets(Data1(&[8]), "ACK"),
            Sink(&[7, 8]),
            Gets(OutAt(1, 2), "none"),
            Gets(Data0(&[9]), "STALL"),
            Asks(1, &[2, 1, 0, 0, 2, 0, 0, 0]),
            Gets(OutAt(1, 2), "none"),
            Gets(Data0(&[9]), "ACK"),
            Asks(1, &[2, 3, 0, 0, 130, 0, 0, 0]),
            Gets(InAt(1, 2), "STALL"),
            Reset,
            Sink(&[7, 8, 9]),
        ],
    },
    Row {
        about: "data that are refused memory are taken later, once",
        device: &BULK,
        steps: &[
            TakesAddress,
            Asks(1, SET_CONFIGURATION),
            Gets(OutAt(1, 2), "none"),
            Sink(&[]),
            Registers(1, 1),
            GetsAtLast(Data0(&[7]), "ACK"),
            Sink(&[7]),
            Registers(1, 1),
            Gets(Data0(&[7]), "none"),
            Gets(OutAt(1, 2), "none"),
            Gets(Data1(&[8]), "ACK"),
            Sink(&[7, 8]),
            Gets(OutAt(1, 2), "none"),
            Gets(Data0(&[9]), "STALL"),
            Gets(InAt(1, 2), "DATA0 0102030405060708"),
        ],
    },
];

pub(super) fn all() -> &'static [Row] {
    ROWS
}
