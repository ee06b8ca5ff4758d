//! The lines of a host and its controller side: questions, what is said to them, and lines that say nothing.
use arrayvec::{ArrayString, ArrayVec};
use std::fmt::Write;
use usb_packet::Toggle;
use usb_port::PortCall;
use usb_request::Setup;
use usb_wire::{
    Asked, DataPacket, Endpoint, Hubs, Question, Speed, WireFault, question_line, read_question,
    read_said, said_line,
};

/// Three root ports, and hubs of up to 7.
const HUBS: Hubs = Hubs {
    roots: 3,
    wide: false,
};

/// A question as plain data.
#[derive(Clone, Copy)]
enum Asking {
    Hello,
    Setup(Speed, u8, Setup),
    Out(Speed, Endpoint, Toggle, &'static [u8]),
    In(Speed, Endpoint, u8),
    Ins(Endpoint, u8, Toggle, u8),
    Outs(Endpoint, u8, Toggle, &'static [u8]),
    Port(u8, PortCall),
    Restart(u8, u8, bool),
    Wait,
}

/// A question, which answers it has, and its line.
struct QuestionRow {
    asking: Asking,
    asked: Asked,
    line: &'static str,
}

/// GET_DESCRIPTOR of 64 bytes of the device descriptor (9.4.3).
const GET_DEVICE: Setup = Setup {
    request_type: 0x80,
    request: 6,
    value: 0x0100,
    index: 0,
    length: 64,
};

const QUESTIONS: &[QuestionRow] = &[
    QuestionRow {
        asking: Asking::Hello,
        asked: Asked::Hello,
        line: "usbplan live 1",
    },
    QuestionRow {
        asking: Asking::Setup(Speed::Full, 0, GET_DEVICE),
        asked: Asked::Attempt,
        line: "SETUP 0.0 / DATA0 8006000100004000",
    },
    QuestionRow {
        asking: Asking::Setup(Speed::LowBelowHub, 5, GET_DEVICE),
        asked: Asked::Attempt,
        line: "PRE SETUP 5.0 / PRE DATA0 8006000100004000",
    },
    QuestionRow {
        asking: Asking::Out(
            Speed::Low,
            Endpoint {
                address: 1,
                number: 2,
            },
            Toggle::One,
            &[0x0a, 0xff],
        ),
        asked: Asked::Attempt,
        line: "low OUT 1.2 / DATA1 0AFF",
    },
    QuestionRow {
        asking: Asking::Out(
            Speed::Full,
            Endpoint {
                address: 9,
                number: 0,
            },
            Toggle::One,
            &[],
        ),
        asked: Asked::Attempt,
        line: "OUT 9.0 / DATA1 -",
    },
    QuestionRow {
        asking: Asking::In(
            Speed::Full,
            Endpoint {
                address: 127,
                number: 15,
            },
            64,
        ),
        asked: Asked::Attempt,
        line: "IN 127.15 64",
    },
    // rows of attempts
    QuestionRow {
        asking: Asking::Ins(
            Endpoint {
                address: 127,
                number: 15,
            },
            64,
            Toggle::One,
            64,
        ),
        asked: Asked::Attempt,
        line: "PRE IN 127.15 64 DATA1 64",
    },
    QuestionRow {
        asking: Asking::Outs(
            Endpoint {
                address: 1,
                number: 2,
            },
            2,
            Toggle::Zero,
            &[0, 1, 0xab],
        ),
        asked: Asked::Attempt,
        line: "PRE OUT 1.2 / PRE DATA0 0001AB 2",
    },
    QuestionRow {
        asking: Asking::Port(2, PortCall::SetReset),
        asked: Asked::Port,
        line: "port 2 set PORT_RESET",
    },
    QuestionRow {
        asking: Asking::Port(7, PortCall::ClearConnectionChange),
        asked: Asked::Port,
        line: "port 7 clear C_PORT_CONNECTION",
    },
    QuestionRow {
        asking: Asking::Restart(1, 15, true),
        asked: Asked::Port,
        line: "restart 1.15 in",
    },
    QuestionRow {
        asking: Asking::Restart(127, 1, false),
        asked: Asked::Port,
        line: "restart 127.1 out",
    },
    QuestionRow {
        asking: Asking::Wait,
        asked: Asked::Wait,
        line: "wait",
    },
];

/// The bytes, of which there are at most this number.
fn few<const MOST: usize>(bytes: &[u8]) -> ArrayVec<u8, MOST> {
    let mut all = ArrayVec::new();
    let _ = all.try_extend_from_slice(bytes);
    all
}

fn question(asking: Asking) -> Question {
    match asking {
        Asking::Hello => Question::Hello,
        Asking::Setup(speed, address, setup) => Question::Setup {
            speed,
            endpoint: Endpoint { address, number: 0 },
            setup,
        },
        Asking::Out(speed, endpoint, toggle, bytes) => Question::Out {
            speed,
            endpoint,
            sent: DataPacket {
                toggle,
                bytes: few(bytes),
            },
        },
        Asking::In(speed, endpoint, most) => Question::In {
            speed,
            endpoint,
            most,
        },
        Asking::Ins(endpoint, most, toggle, packets) => Question::Ins {
            speed: Speed::LowBelowHub,
            endpoint,
            most,
            toggle,
            packets,
        },
        Asking::Outs(endpoint, most, toggle, bytes) => Question::Outs {
            speed: Speed::LowBelowHub,
            endpoint,
            most,
            toggle,
            bytes: few(bytes),
        },
        Asking::Port(number, call) => Question::Port { number, call },
        Asking::Restart(address, number, is_in) => Question::Restart {
            endpoint: Endpoint { address, number },
            is_in,
        },
        Asking::Wait => Question::Wait,
    }
}

#[test]
fn questions(rt: HostRuntime) {
    for row in QUESTIONS {
        let asked = question(row.asking);
        let line = question_line(&asked);
        assert_eq!(rt; (asked.asked(), line.as_str()), (row.asked, row.line));
        let read = read_question(row.line.as_bytes()).expect(&rt, row.line);
        assert_eq!(rt; question_line(&read).as_str(), row.line);
    }
}

/// Lines that ask nothing.
const NO_QUESTIONS: &[&str] = &[
    "",
    "wait ",
    "usbplan live 2",
    "ACK",
    "SETUP 0.0 / DATA1 8006000100004000",
    "SETUP 0.0 / DATA0 80060001000040",
    "SETUP 128.0 / DATA0 8006000100004000",
    "OUT 1.1 / PRE DATA0 00",
    "PRE OUT 1.1 / DATA0 00",
    "OUT 1.1 DATA0 00",
    "OUT 1.1 / DATA0 0",
    "OUT 1.1 / DATA2 00",
    "low PRE IN 1.1 8",
    "IN 1.16 8",
    "IN 01.1 8",
    "IN 1 8",
    "IN 1.1 0",
    "IN 1.1 65",
    "IN 1.1 8 DATA0",
    "IN 1.1 8 DATA0 0",
    "IN 1.1 8 DATA0 65",
    "IN 1.1 8 DATA2 2",
    "IN 1.1 65 DATA0 2",
    "OUT 1.1 / DATA0 - 8",
    "OUT 1.1 / DATA0 00 0",
    "OUT 1.1 / DATA0 00 65",
    "OUT 1.1 / DATA0 0 8",
    "port 8 set PORT_RESET",
    "port 0 set PORT_RESET",
    "port 1 set PORT_ENABLE",
    "port 1 set PORT_RESET 1",
    "restart 1.0 in",
    "restart 1.16 in",
    "restart 128.1 in",
    "restart 1.1",
    "restart 1.1 IN",
    "restart 1 in",
    "restart 1.1 in out",
];

#[test]
fn lines_that_ask_nothing(rt: HostRuntime) {
    for line in NO_QUESTIONS {
        assert!(rt; read_question(line.as_bytes()).is_none(), "{}", *line);
    }
}

/// A line that is said after a question where there are three root ports, and the line that is written of what it
/// says.
struct SaidRow {
    asked: Asked,
    line: &'static str,
    written: &'static str,
}

const SAID: &[SaidRow] = &[
    SaidRow {
        asked: Asked::Hello,
        line: "roots 7",
        written: "roots 7",
    },
    SaidRow {
        asked: Asked::Hello,
        line: "roots 7 2",
        written: "roots 7 2",
    },
    SaidRow {
        asked: Asked::Attempt,
        line: "ACK",
        written: "ACK",
    },
    SaidRow {
        asked: Asked::Attempt,
        line: "NAK",
        written: "NAK",
    },
    SaidRow {
        asked: Asked::Attempt,
        line: "STALL",
        written: "STALL",
    },
    SaidRow {
        asked: Asked::Attempt,
        line: "none",
        written: "none",
    },
    SaidRow {
        asked: Asked::Attempt,
        line: "DATA0 12aBcD",
        written: "DATA0 12ABCD",
    },
    SaidRow {
        asked: Asked::Attempt,
        line: "DATA1 -",
        written: "DATA1 -",
    },
    SaidRow {
        asked: Asked::Attempt,
        line: "port 3 01010100",
        written: "port 3 01010100",
    },
    SaidRow {
        asked: Asked::Port,
        line: "ok",
        written: "ok",
    },
    SaidRow {
        asked: Asked::Wait,
        line: "ok",
        written: "ok",
    },
    SaidRow {
        asked: Asked::Wait,
        line: "show",
        written: "show",
    },
    SaidRow {
        asked: Asked::Wait,
        line: "end",
        written: "end",
    },
    SaidRow {
        asked: Asked::Wait,
        line: "send 1.7 00ff",
        written: "send 1.7 00FF",
    },
    SaidRow {
        asked: Asked::Wait,
        line: "receive 2 1000",
        written: "receive 2 1000",
    },
    SaidRow {
        asked: Asked::Wait,
        line: "clear 1.2.3.4.5.6.7",
        written: "clear 1.2.3.4.5.6.7",
    },
    // the same of an endpoint that is named
    SaidRow {
        asked: Asked::Wait,
        line: "send 1.7 02 00ff",
        written: "send 1.7 02 00FF",
    },
    SaidRow {
        asked: Asked::Wait,
        line: "send 1 0F -",
        written: "send 1 0F -",
    },
    SaidRow {
        asked: Asked::Wait,
        line: "receive 2 8A 1000",
        written: "receive 2 8A 1000",
    },
    SaidRow {
        asked: Asked::Wait,
        line: "interrupt 1.2.3.4.5.6.7 81",
        written: "interrupt 1.2.3.4.5.6.7 81",
    },
    SaidRow {
        asked: Asked::Wait,
        line: "clear 3 8F",
        written: "clear 3 8F",
    },
    SaidRow {
        asked: Asked::Wait,
        line: "clear 3 01",
        written: "clear 3 01",
    },
    SaidRow {
        asked: Asked::Wait,
        line: "interface 1.7 0 255",
        written: "interface 1.7 0 255",
    },
    SaidRow {
        asked: Asked::Wait,
        line: "interface 2 15 1",
        written: "interface 2 15 1",
    },
    // GET_STATUS (9.4.5)
    SaidRow {
        asked: Asked::Wait,
        line: "control 1.7 8000000000000200",
        written: "control 1.7 8000000000000200",
    },
    // every bit of the setup data
    SaidRow {
        asked: Asked::Wait,
        line: "control 2 ff01020304aBcDeF",
        written: "control 2 FF01020304ABCDEF",
    },
    // SET_CONFIGURATION (9.4.7), which has no data
    SaidRow {
        asked: Asked::Wait,
        line: "control 1 0009010000000000",
        written: "control 1 0009010000000000",
    },
    // SET_REPORT of the class HID, with one byte
    SaidRow {
        asked: Asked::Wait,
        line: "control 1.7 2109000200000100 0a",
        written: "control 1.7 2109000200000100 0A",
    },
    SaidRow {
        asked: Asked::Wait,
        line: "look 3.1",
        written: "look 3.1",
    },
    SaidRow {
        asked: Asked::Wait,
        line: "news",
        written: "news",
    },
];

#[test]
fn lines_that_are_said(rt: HostRuntime) {
    for row in SAID {
        let said = read_said(row.asked, HUBS, row.line.as_bytes()).expect(&rt, row.line);
        assert_eq!(rt; said_line(&said).as_str(), row.written);
    }
}

/// A line that says nothing after a question where there are three root ports, and its fault.
struct FaultRow {
    asked: Asked,
    line: &'static [u8],
    fault: WireFault,
}

const FAULTS: &[FaultRow] = &[
    FaultRow {
        asked: Asked::Attempt,
        line: b"ACK\r",
        fault: WireFault::BadCharacter,
    },
    FaultRow {
        asked: Asked::Attempt,
        line: b"DATA0 \xff",
        fault: WireFault::BadCharacter,
    },
    FaultRow {
        asked: Asked::Attempt,
        line: b"",
        fault: WireFault::NoAnswer,
    },
    FaultRow {
        asked: Asked::Attempt,
        line: b"ok",
        fault: WireFault::NoAnswer,
    },
    FaultRow {
        asked: Asked::Port,
        line: b"ACK",
        fault: WireFault::NoAnswer,
    },
    FaultRow {
        asked: Asked::Wait,
        line: b"roots 3",
        fault: WireFault::NoAnswer,
    },
    FaultRow {
        asked: Asked::Attempt,
        line: b"DATA1",
        fault: WireFault::NoAnswer,
    },
    FaultRow {
        asked: Asked::Attempt,
        line: b"ACK ",
        fault: WireFault::NoAnswer,
    },
    FaultRow {
        asked: Asked::Hello,
        line: b"port 1 01010100",
        fault: WireFault::NoAnswer,
    },
    FaultRow {
        asked: Asked::Attempt,
        line: b"DATA0 123",
        fault: WireFault::BadHex,
    },
    FaultRow {
        asked: Asked::Attempt,
        line: b"DATA0 ",
        fault: WireFault::BadHex,
    },
    FaultRow {
        asked: Asked::Attempt,
        line: b"port 9 0g",
        fault: WireFault::BadHex,
    },
    FaultRow {
        asked: Asked::Port,
        line: b"port 9 -",
        fault: WireFault::BadLength,
    },
    FaultRow {
        asked: Asked::Attempt,
        line: b"DATA0 0000000000000000000000000000000000000000000000000000000000000000\
0000000000000000000000000000000000000000000000000000000000000000FF",
        fault: WireFault::BadLength,
    },
    FaultRow {
        asked: Asked::Hello,
        line: b"roots 8",
        fault: WireFault::BadNumber,
    },
    FaultRow {
        asked: Asked::Port,
        line: b"port 4 01010100",
        fault: WireFault::BadNumber,
    },
    FaultRow {
        asked: Asked::Wait,
        line: b"receive 8 1001",
        fault: WireFault::BadNumber,
    },
    FaultRow {
        asked: Asked::Wait,
        line: b"receive 1 01",
        fault: WireFault::BadNumber,
    },
    FaultRow {
        asked: Asked::Wait,
        line: b"clear 8",
        fault: WireFault::BadPath,
    },
    FaultRow {
        asked: Asked::Wait,
        line: b"look 0",
        fault: WireFault::BadPath,
    },
    FaultRow {
        asked: Asked::Wait,
        line: b"look",
        fault: WireFault::NoAnswer,
    },
    FaultRow {
        asked: Asked::Wait,
        line: b"news 1",
        fault: WireFault::NoAnswer,
    },
    FaultRow {
        asked: Asked::Attempt,
        line: b"news",
        fault: WireFault::NoAnswer,
    },
    FaultRow {
        asked: Asked::Wait,
        line: b"control 8 8000000000000200",
        fault: WireFault::BadPath,
    },
    // no setting, numbers out of their range, no path, another question
    FaultRow {
        asked: Asked::Wait,
        line: b"interface 1 0",
        fault: WireFault::NoAnswer,
    },
    FaultRow {
        asked: Asked::Wait,
        line: b"interface 8 0 256",
        fault: WireFault::BadNumber,
    },
    FaultRow {
        asked: Asked::Wait,
        line: b"interface 8 00 1",
        fault: WireFault::BadNumber,
    },
    FaultRow {
        asked: Asked::Wait,
        line: b"interface 8 0 1",
        fault: WireFault::BadPath,
    },
    FaultRow {
        asked: Asked::Port,
        line: b"interface 1 0 1",
        fault: WireFault::NoAnswer,
    },
    // no endpoint, too many words, another question
    FaultRow {
        asked: Asked::Wait,
        line: b"interrupt 1",
        fault: WireFault::NoAnswer,
    },
    FaultRow {
        asked: Asked::Wait,
        line: b"interrupt 1 81 1",
        fault: WireFault::NoAnswer,
    },
    FaultRow {
        asked: Asked::Wait,
        line: b"send 1 02 00 00",
        fault: WireFault::NoAnswer,
    },
    FaultRow {
        asked: Asked::Wait,
        line: b"clear 1 02 00",
        fault: WireFault::NoAnswer,
    },
    FaultRow {
        asked: Asked::Attempt,
        line: b"interrupt 1 81",
        fault: WireFault::NoAnswer,
    },
    // one digit, three, in lower case, endpoint 0, a reserved bit
    FaultRow {
        asked: Asked::Wait,
        line: b"interrupt 8 1",
        fault: WireFault::BadNumber,
    },
    FaultRow {
        asked: Asked::Wait,
        line: b"clear 1 081",
        fault: WireFault::BadNumber,
    },
    FaultRow {
        asked: Asked::Wait,
        line: b"interrupt 1 8f",
        fault: WireFault::BadNumber,
    },
    FaultRow {
        asked: Asked::Wait,
        line: b"interrupt 1 80",
        fault: WireFault::BadNumber,
    },
    FaultRow {
        asked: Asked::Wait,
        line: b"clear 1 10",
        fault: WireFault::BadNumber,
    },
    FaultRow {
        asked: Asked::Wait,
        line: b"send 1 -1 00",
        fault: WireFault::BadNumber,
    },
    FaultRow {
        asked: Asked::Wait,
        line: b"receive 1 81 1001",
        fault: WireFault::BadNumber,
    },
    // which fault comes first
    FaultRow {
        asked: Asked::Wait,
        line: b"send 8 2 0",
        fault: WireFault::BadHex,
    },
    FaultRow {
        asked: Asked::Wait,
        line: b"send 8 2 00",
        fault: WireFault::BadNumber,
    },
    FaultRow {
        asked: Asked::Wait,
        line: b"send 8 02 00",
        fault: WireFault::BadPath,
    },
    FaultRow {
        asked: Asked::Wait,
        line: b"receive 8 81 1",
        fault: WireFault::BadPath,
    },
    FaultRow {
        asked: Asked::Wait,
        line: b"interrupt 8 81",
        fault: WireFault::BadPath,
    },
    FaultRow {
        asked: Asked::Wait,
        line: b"clear 0 02",
        fault: WireFault::BadPath,
    },
    // a request with bytes for the device, but no bytes; then also a path that is none
    FaultRow {
        asked: Asked::Wait,
        line: b"control 1 2109000200000100",
        fault: WireFault::NoAnswer,
    },
    FaultRow {
        asked: Asked::Wait,
        line: b"control 8 7F05010000000080",
        fault: WireFault::NoAnswer,
    },
    // bytes, but a request that reads, or that has no data; before any other fault of the bytes
    FaultRow {
        asked: Asked::Wait,
        line: b"control 1 8000000000000200 0000",
        fault: WireFault::NoAnswer,
    },
    FaultRow {
        asked: Asked::Wait,
        line: b"control 1 0005010000000000 -",
        fault: WireFault::NoAnswer,
    },
    FaultRow {
        asked: Asked::Wait,
        line: b"control 1 8000000000000200 0",
        fault: WireFault::NoAnswer,
    },
    // one byte more or fewer than wLength, and none
    FaultRow {
        asked: Asked::Wait,
        line: b"control 8 2109000200000200 0A",
        fault: WireFault::BadLength,
    },
    FaultRow {
        asked: Asked::Wait,
        line: b"control 1 2109000200000100 0A0B",
        fault: WireFault::BadLength,
    },
    FaultRow {
        asked: Asked::Wait,
        line: b"control 1 2109000200000100 -",
        fault: WireFault::BadLength,
    },
    // setup data too short, and bytes that are no pairs of digits
    FaultRow {
        asked: Asked::Wait,
        line: b"control 1 21090002000001 0",
        fault: WireFault::BadHex,
    },
    FaultRow {
        asked: Asked::Wait,
        line: b"control 8 2109000200000100 0A",
        fault: WireFault::BadPath,
    },
    FaultRow {
        asked: Asked::Wait,
        line: b"control 8 80000000000002",
        fault: WireFault::BadLength,
    },
    FaultRow {
        asked: Asked::Wait,
        line: b"control 1 000501000000000000",
        fault: WireFault::BadLength,
    },
    FaultRow {
        asked: Asked::Wait,
        line: b"control 1 -",
        fault: WireFault::BadLength,
    },
    FaultRow {
        asked: Asked::Wait,
        line: b"control 8 800000000000020",
        fault: WireFault::BadHex,
    },
    FaultRow {
        asked: Asked::Wait,
        line: b"control 1 2109000200000100 0A 0B",
        fault: WireFault::NoAnswer,
    },
];

#[test]
fn lines_that_say_nothing(rt: HostRuntime) {
    for row in FAULTS {
        let told = read_said(row.asked, HUBS, row.line).err();
        assert_eq!(rt; told, Some(row.fault), "{:?}", row.line);
    }
}

/// Lines with paths, and whether they are lines of a host that takes wide hubs, and of one that takes none.
const PATHS: &[(&str, bool, bool)] = &[
    ("look 1.7", true, true),
    ("look 7.7.7.7.7.7.7", true, true),
    ("look 1.8", true, false),
    ("look 1.15", true, false),
    ("look 1.2.10.3", true, false),
    ("look 7.15.15.15.15.15.15", true, false),
    ("clear 1.9 81", true, false),
    ("receive 1.10 2", true, false),
    ("interrupt 1.11 8F", true, false),
    ("control 1.12 8006000100001200", true, false),
    // a root has at most seven ports, and a hub at most fifteen
    ("look 8", false, false),
    ("look 10.1", false, false),
    ("look 1.16", false, false),
    ("look 1.010", false, false),
    ("look 1.1.1.1.1.1.1.10", false, false),
];

/// Whether the line is written again after it was read; false where its path is none.
fn is_read(line: &str, wide: bool) -> bool {
    let hubs = Hubs { roots: 3, wide };
    match read_said(Asked::Wait, hubs, line.as_bytes()) {
        Ok(said) => said_line(&said).as_str() == line,
        Err(fault) => fault != WireFault::BadPath,
    }
}

#[test]
fn paths_of_wide_hubs(rt: HostRuntime) {
    for (line, wide, narrow) in PATHS {
        let told = (is_read(line, true), is_read(line, false));
        assert_eq!(rt; told, (*wide, *narrow), "{line}");
    }
}

/// How many bytes a line has, each an A, and its fault.
const LENGTHS: &[(usize, WireFault)] = &[
    (1024, WireFault::NoAnswer),
    (1025, WireFault::LineTooLong),
];

#[test]
fn long_lines(rt: HostRuntime) {
    let bytes = [b'A'; 1025];
    for (length, fault) in LENGTHS {
        let line = &bytes[..bytes.len().min(*length)];
        assert_eq!(rt; read_said(Asked::Attempt, HUBS, line).err(), Some(*fault));
    }
}

/// What is wanted, how many bytes are to be sent, and the fault that is reported of the line.
const SENDS: &[(&str, usize, Option<WireFault>)] = &[
    ("send 1.2.3.4.5.6.7 ", 64, None),
    ("send 1.2.3.4.5.6.7 ", 65, None),
    ("send 1.2.3.4.5.6.7 ", 500, None),
    ("send 1.2.3.4.5.6.7 ", 501, Some(WireFault::BadLength)),
    ("send 1.2.3.4.5.6.7 ", 502, Some(WireFault::BadLength)),
    ("send 1.2.3.4.5.6.7 0F ", 490, None),
    ("send 1.2.3.4.5.6.7 0F ", 491, Some(WireFault::BadLength)),
];

/// The longest line that wants a transfer has 1,023 bytes.
#[test]
fn transfers_that_are_wanted(rt: HostRuntime) {
    for (front, count, fault) in SENDS {
        let mut line = ArrayString::<1023>::new();
        line.push_str(front);
        for _ in 0..*count {
            let _ = line.write_str("5A");
        }
        let said = read_said(Asked::Wait, HUBS, line.as_str().as_bytes());
        match (said, fault) {
            (Ok(said), None) => assert_eq!(rt; said_line(&said).as_str(), line.as_str()),
            (said, fault) => assert_eq!(rt; said.err(), *fault),
        }
    }
}

/// How many bytes are to be written, by wLength and in fact, and the fault that is reported of the line.
const WRITES: &[(&str, usize, Option<WireFault>)] = &[
    (
        "control 1.2.3.4.5.6.7 40010000000040E0 ",
        480,
        Some(WireFault::BadLength),
    ),
    ("control 1.2.3.4.5.6.7 400100000000E001 ", 480, None),
    (
        "control 1.2.3.4.5.6.7 400100000000E101 ",
        481,
        Some(WireFault::BadLength),
    ),
];

/// The longest line that wants a write to endpoint 0 has 999 bytes.
#[test]
fn writes_that_are_wanted(rt: HostRuntime) {
    for (front, count, fault) in WRITES {
        let mut line = ArrayString::<1023>::new();
        line.push_str(front);
        for _ in 0..*count {
            let _ = line.write_str("5A");
        }
        let said = read_said(Asked::Wait, HUBS, line.as_str().as_bytes());
        match (said, fault) {
            (Ok(said), None) => assert_eq!(rt; said_line(&said).as_str(), line.as_str()),
            (said, fault) => assert_eq!(rt; said.err(), *fault),
        }
    }
}

/// Each fault with its words.
const WORDS: &[(WireFault, &str)] = &[
    (WireFault::LineTooLong, "line too long"),
    (WireFault::BadCharacter, "bad character"),
    (WireFault::NoAnswer, "no answer"),
    (WireFault::BadHex, "bad hex"),
    (WireFault::BadLength, "bad length"),
    (WireFault::BadNumber, "bad number"),
    (WireFault::BadPath, "bad path"),
];

#[test]
fn words_of_faults(rt: HostRuntime) {
    for (fault, words) in WORDS {
        let mut told = ArrayString::<16>::new();
        let written = write!(told, "{}", fault).is_ok();
        assert_eq!(rt; (written, told.as_str()), (true, *words));
    }
}
