//! Packets with their bytes and their text, bytes that spell none, digits, and toggles.
use arrayvec::{ArrayString, ArrayVec};
use std::fmt::Write;
use usb_packet::{PacketFault, Toggle, decode, encode, hex_digits, packet_text, push_decimal};

struct PacketRow {
    bytes: &'static [u8],
    text: &'static str,
}

const PACKETS: &[PacketRow] = &[
    PacketRow {
        bytes: &[0x2d, 0, 0x10],
        text: "SETUP 0.0",
    },
    PacketRow {
        bytes: &[0xe1, 0x3a, 0x3d],
        text: "OUT 58.10",
    },
    PacketRow {
        bytes: &[0x69, 0x81, 0x58],
        text: "IN 1.1",
    },
    PacketRow {
        bytes: &[0xd2],
        text: "ACK",
    },
    PacketRow {
        bytes: &[0xa5, 1, 0xe8],
        text: "SOF 1",
    },
    PacketRow {
        bytes: &[0x4b, 0, 0],
        text: "DATA1 -",
    },
    PacketRow {
        bytes: &[0xc3, 0x80, 6, 0, 1, 0, 0, 0x40, 0, 0xdd, 0x94],
        text: "DATA0 8006000100004000",
    },
    PacketRow {
        bytes: &[0xc3, 0, 1, 2, 3, 0xef, 0x7a],
        text: "DATA0 00010203",
    },
];

struct FaultRow {
    bytes: &'static [u8],
    fault: PacketFault,
    words: &'static str,
}

const FAULTS: &[FaultRow] = &[
    FaultRow {
        bytes: &[],
        fault: PacketFault::Empty,
        words: "empty",
    },
    FaultRow {
        bytes: &[0xd3],
        fault: PacketFault::PidCheck,
        words: "pid check",
    },
    FaultRow {
        bytes: &[0xf0],
        fault: PacketFault::UnknownPid,
        words: "unknown pid",
    },
    FaultRow {
        bytes: &[0x4b, 0],
        fault: PacketFault::Length,
        words: "length",
    },
    FaultRow {
        bytes: &[0xa5, 1, 0xe9],
        fault: PacketFault::Check,
        words: "check",
    },
    FaultRow {
        bytes: &[0xa5, 1, 0xe0],
        fault: PacketFault::Check,
        words: "check",
    },
];

struct DigitRow {
    byte: u8,
    digits: [u8; 2],
}

const DIGITS: &[DigitRow] = &[
    DigitRow {
        byte: 0x0a,
        digits: *b"0A",
    },
    DigitRow {
        byte: 0xf9,
        digits: *b"F9",
    },
];

/// The text of the packet that the bytes spell, and the bytes that spell it again; of bytes that
/// spell none the fault.
fn spelled(bytes: &[u8]) -> (Option<PacketFault>, ArrayString<136>, ArrayVec<u8, 67>) {
    match decode(bytes) {
        Ok(packet) => (None, packet_text(&packet), encode(&packet)),
        Err(fault) => (Some(fault), ArrayString::new(), ArrayVec::new()),
    }
}

#[test]
fn packets(rt: HostRuntime) {
    for row in PACKETS {
        let (fault, text, bytes) = spelled(row.bytes);
        let told = (fault, text.as_str(), bytes.as_slice());
        assert_eq!(rt; told, (None, row.text, row.bytes), "{}", row.text);
    }
}

#[test]
fn bytes_that_spell_no_packet(rt: HostRuntime) {
    for row in FAULTS {
        let mut words = ArrayString::<16>::new();
        let written = write!(words, "{}", row.fault).is_ok();
        let told = (decode(row.bytes).err(), written, words.as_str());
        assert_eq!(rt; told, (Some(row.fault), true, row.words), "{:?}", row.bytes);
    }
}

#[test]
fn digits_in_upper_case(rt: HostRuntime) {
    for row in DIGITS {
        assert_eq!(rt; hex_digits(row.byte), row.digits, "of {}", row.byte);
    }
}

/// Numbers and their decimal digits.
const NUMBERS: &[(u64, &str)] = &[
    (0, "0"),
    (9, "9"),
    (10, "10"),
    (2047, "2047"),
    (18446744073709551615, "18446744073709551615"),
];

#[test]
fn digits_of_numbers(rt: HostRuntime) {
    for (number, digits) in NUMBERS {
        let mut line = ArrayString::new();
        push_decimal(&mut line, *number);
        assert_eq!(rt; line.as_str(), *digits, "{number}");
    }
}

/// A toggle, another, and whether they are the same.
const TOGGLES: &[(Toggle, Toggle, bool)] = &[
    (Toggle::Zero, Toggle::Zero, true),
    (Toggle::Zero, Toggle::One, false),
    (Toggle::One, Toggle::Zero, false),
    (Toggle::One, Toggle::One, true),
];

#[test]
fn toggles_alternate(rt: HostRuntime) {
    for (awaited, given, same) in TOGGLES {
        let told = (awaited.is_same(*given), awaited.is_same(given.other()));
        assert_eq!(rt; told, (*same, !*same), "{awaited:?} {given:?}");
    }
}
