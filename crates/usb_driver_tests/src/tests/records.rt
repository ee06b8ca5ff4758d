//! Records: the bytes of each as the tables say, and what is none.
use arrayvec::ArrayVec;
use std::alloc::{AllocError, Global};
use std::test::Fail;
use usb_bus::{Destination, Speed};
use usb_dialogue::{Answer, Attempt, DriverFault, Outcome, Question, Statuses, Toggle, Want};

/// A want as plain data, and what is read of its record.
struct WantRow {
    kind: u8,
    path: &'static [u8],
    at: u8,
    setting: u8,
    packets: u16,
    setup: [u8; 8],
    bytes: &'static [u8],
    said: &'static str,
    /// What is read with none of its data, with their first byte, and so on.
    cut: &'static [&'static str],
}

/// A round, and all others with what they change of it.
const ROUND: WantRow = WantRow {
    kind: 16,
    path: &[],
    at: 0,
    setting: 0,
    packets: 0,
    setup: [0; 8],
    bytes: &[],
    said: "round",
    cut: &[],
};

/// GET_DESCRIPTOR of 18 bytes of the device descriptor (9.4.3).
const GET_DEVICE: [u8; 8] = [0x80, 6, 0, 1, 0, 0, 18, 0];

/// A request of class 7 to interface 0 (9.3), with 2 bytes.
const CLASS_OUT: [u8; 8] = [0x21, 9, 0, 2, 0, 0, 2, 0];

const WANTS: &[WantRow] = &[
    ROUND,
    WantRow {
        kind: 17,
        said: "tree",
        ..ROUND
    },
    WantRow {
        kind: 18,
        path: &[1, 15],
        bytes: &[7, 8, 9],
        said: "send 1.15 7 8 9",
        cut: &["send 1.15", "send 1.15 7", "send 1.15 7 8"],
        ..ROUND
    },
    WantRow {
        kind: 19,
        path: &[7],
        packets: 513,
        said: "receive 7 513",
        ..ROUND
    },
    WantRow {
        kind: 20,
        path: &[1],
        said: "clear halt 1",
        ..ROUND
    },
    WantRow {
        kind: 21,
        path: &[1, 2, 3, 4, 5, 6, 7],
        at: 2,
        bytes: &[0, 255],
        said: "send to 1.2.3.4.5.6.7 2 0 255",
        cut: &["send to 1.2.3.4.5.6.7 2", "send to 1.2.3.4.5.6.7 2 0"],
        ..ROUND
    },
    WantRow {
        kind: 22,
        path: &[1],
        at: 0x82,
        packets: 1,
        said: "receive from 1 130 1",
        ..ROUND
    },
    WantRow {
        kind: 23,
        path: &[1],
        at: 0x8f,
        said: "poll 1 143",
        ..ROUND
    },
    WantRow {
        kind: 24,
        path: &[1],
        at: 15,
        said: "clear halt of 1 15",
        ..ROUND
    },
    WantRow {
        kind: 25,
        path: &[1],
        at: 3,
        setting: 255,
        said: "set interface 1 3 255",
        ..ROUND
    },
    WantRow {
        kind: 26,
        path: &[1],
        setup: GET_DEVICE,
        said: "control in 1 18",
        ..ROUND
    },
    WantRow {
        kind: 27,
        path: &[1],
        setup: CLASS_OUT,
        bytes: &[1, 2],
        said: "control out 1 2 1 2",
        cut: &["no such number in a record", "no such number in a record"],
        ..ROUND
    },
    WantRow {
        kind: 28,
        path: &[1],
        said: "look 1",
        ..ROUND
    },
    WantRow {
        kind: 29,
        said: "news",
        ..ROUND
    },
    // no kind
    WantRow {
        kind: 15,
        said: "no such kind of record",
        ..ROUND
    },
    WantRow {
        kind: 30,
        said: "no such kind of record",
        ..ROUND
    },
    // bytes of a kind that has none
    WantRow {
        bytes: &[1],
        said: "wrong length of a record",
        cut: &["round"],
        ..ROUND
    },
    // no path, or the path of a kind that has none
    WantRow {
        kind: 20,
        said: "no such number in a record",
        ..ROUND
    },
    WantRow {
        kind: 20,
        path: &[1, 0],
        said: "no such number in a record",
        ..ROUND
    },
    WantRow {
        kind: 20,
        path: &[16],
        said: "no such number in a record",
        ..ROUND
    },
    WantRow {
        path: &[1],
        said: "no such number in a record",
        ..ROUND
    },
    // endpoint 0, and a reserved bit (9.6.6)
    WantRow {
        kind: 23,
        path: &[1],
        at: 0x80,
        said: "no such number in a record",
        ..ROUND
    },
    WantRow {
        kind: 24,
        path: &[1],
        at: 0x12,
        said: "no such number in a record",
        ..ROUND
    },
    // a request of the other direction, and one whose wLength is not the number of bytes (9.3.1)
    WantRow {
        kind: 26,
        path: &[1],
        setup: CLASS_OUT,
        said: "no such number in a record",
        ..ROUND
    },
    WantRow {
        kind: 27,
        path: &[1],
        setup: CLASS_OUT,
        bytes: &[1],
        said: "no such number in a record",
        cut: &["no such number in a record"],
        ..ROUND
    },
    // a field that is not used
    WantRow {
        packets: 1,
        said: "no such number in a record",
        ..ROUND
    },
    WantRow {
        kind: 23,
        path: &[1],
        at: 0x81,
        setting: 1,
        said: "no such number in a record",
        ..ROUND
    },
];

/// The record of a want. Each root port's status is four bytes of its own.
fn record_of(alloc: Global, row: &WantRow) -> Result<Vec<u8>, AllocError> {
    let mut record = Vec::new(alloc);
    record.push(row.kind)?;
    record.push(row.path.len().to_le_bytes()[0])?;
    record.extend_from_slice(row.path)?;
    for _ in row.path.len()..7 {
        record.push(0)?;
    }
    record.extend_from_slice(&[row.at, row.setting, 0])?;
    record.extend_from_slice(&row.packets.to_le_bytes())?;
    record.extend_from_slice(&[0, 0])?;
    record.extend_from_slice(&row.setup)?;
    for byte in 0..28u8 {
        record.push(byte)?;
    }
    record.extend_from_slice(row.bytes)?;
    Ok(record)
}

/// A want in words.
fn said(alloc: Global, want: &Want) -> Result<String, AllocError> {
    match want {
        Want::Round => format!(in alloc; "round"),
        Want::Tree => format!(in alloc; "tree"),
        Want::News => format!(in alloc; "news"),
        Want::Send { path, bytes } => listed(
            alloc,
            format!(in alloc; "send {}", path.text())?,
            bytes.as_slice(),
        ),
        Want::Receive { path, packets } => format!(in alloc; "receive {} {packets}", path.text()),
        Want::ClearHalt { path } => format!(in alloc; "clear halt {}", path.text()),
        Want::Look { path } => format!(in alloc; "look {}", path.text()),
        other => said_of_endpoint(alloc, other),
    }
}

fn said_of_endpoint(alloc: Global, want: &Want) -> Result<String, AllocError> {
    match want {
        Want::SendTo {
            path,
            endpoint,
            bytes,
        } => listed(
            alloc,
            format!(in alloc; "send to {} {}", path.text(), endpoint.get())?,
            bytes.as_slice(),
        ),
        Want::ReceiveFrom {
            path,
            endpoint,
            packets,
        } => format!(in alloc; "receive from {} {} {packets}", path.text(), endpoint.get()),
        Want::Poll { path, endpoint } => format!(in alloc;
            "poll {} {}",
            path.text(),
            endpoint.get()
        ),
        Want::ClearHaltOf { path, endpoint } => {
            format!(in alloc; "clear halt of {} {}", path.text(), endpoint.get())
        }
        Want::SetInterface {
            path,
            interface,
            setting,
        } => format!(in alloc; "set interface {} {interface} {setting}", path.text()),
        Want::ControlIn { path, request } => {
            format!(in alloc; "control in {} {}", path.text(), request.setup().length)
        }
        Want::ControlOut { path, request } => listed(
            alloc,
            format!(in alloc; "control out {} {}", path.text(), request.setup().length)?,
            request.bytes(),
        ),
        _ => format!(in alloc; "another"),
    }
}

/// The words, and each byte after a space.
fn listed(alloc: Global, words: String, bytes: &[u8]) -> Result<String, AllocError> {
    let mut words = words;
    for byte in bytes {
        words.push_str(format!(in alloc; " {}", *byte)?.as_str())?;
    }
    Ok(words)
}

/// What the root ports show in each record.
const SHOWN: Statuses = [
    [0, 1, 2, 3],
    [4, 5, 6, 7],
    [8, 9, 10, 11],
    [12, 13, 14, 15],
    [16, 17, 18, 19],
    [20, 21, 22, 23],
    [24, 25, 26, 27],
];

/// What is read of a record, in words: a want, or why it is none.
fn read(alloc: Global, record: &[u8]) -> Result<String, AllocError> {
    match Want::read(alloc, record) {
        Ok(want) => {
            let statuses = want.1;
            if statuses == SHOWN {
                said(alloc, &want.0)
            } else {
                format!(in alloc; "other statuses")
            }
        }
        Err(fault) => format!(in alloc; "{fault}"),
    }
}

/// What is read of a record that was cut at a byte.
fn read_cut(alloc: Global, record: &[u8], end: usize) -> Result<String, AllocError> {
    read(alloc, record.get(..end).unwrap_or(&[]))
}

/// Each want is read as it is, and what is none has its fault.
#[test]
fn wants(rt: HostRuntime) -> Result<(), Fail> {
    let alloc = rt.alloc();
    for row in WANTS {
        let record = record_of(alloc, row)?;
        assert_eq!(rt; read(alloc, record.as_slice())?.as_str(), row.said);
    }
    Ok(())
}

/// A record that is cut at any byte of its head has the wrong length. Behind that, a want has fewer
/// data.
#[test]
fn cut_wants(rt: HostRuntime) -> Result<(), Fail> {
    let alloc = rt.alloc();
    for row in WANTS {
        let record = record_of(alloc, row)?;
        assert_eq!(rt; row.cut.len(), row.bytes.len());
        for end in 0..52usize {
            let read = read_cut(alloc, record.as_slice(), end)?;
            assert_eq!(rt; read.as_str(), "wrong length of a record");
        }
        for (count, said) in row.cut.iter().enumerate() {
            let read = read_cut(alloc, record.as_slice(), count.saturating_add(52))?;
            assert_eq!(rt; read.as_str(), *said);
        }
    }
    Ok(())
}

/// The first four bytes of an answer, its data, and what is read.
struct AnswerRow {
    head: [u8; 4],
    came: &'static [u8],
    said: &'static str,
}

const SIXTY_FIVE: [u8; 65] = [9; 65];

const ANSWERS: &[AnswerRow] = &[
    AnswerRow {
        head: [0, 0, 0, 0],
        came: &[],
        said: "nothing",
    },
    AnswerRow {
        head: [1, 0, 0, 0],
        came: &[],
        said: "ACK",
    },
    AnswerRow {
        head: [2, 0, 0, 0],
        came: &[],
        said: "NAK",
    },
    AnswerRow {
        head: [3, 0, 0, 0],
        came: &[],
        said: "STALL",
    },
    AnswerRow {
        head: [4, 0, 0, 0],
        came: &[],
        said: "DATA0",
    },
    AnswerRow {
        head: [4, 1, 3, 0],
        came: &[5, 6, 7],
        said: "DATA1 5 6 7",
    },
    AnswerRow {
        head: [5, 0, 0, 0],
        came: &[],
        said: "no such kind of record",
    },
    AnswerRow {
        head: [4, 0, 2, 0],
        came: &[5],
        said: "wrong length of a record",
    },
    AnswerRow {
        head: [4, 0, 1, 1],
        came: &[5],
        said: "wrong length of a record",
    },
    AnswerRow {
        head: [1, 0, 1, 0],
        came: &[5],
        said: "wrong length of a record",
    },
    AnswerRow {
        head: [4, 0, 65, 0],
        came: &SIXTY_FIVE,
        said: "more data than the maximum",
    },
    AnswerRow {
        head: [4, 2, 0, 0],
        came: &[],
        said: "no such number in a record",
    },
    AnswerRow {
        head: [1, 1, 0, 0],
        came: &[],
        said: "no such number in a record",
    },
];

fn answer_record(alloc: Global, row: &AnswerRow) -> Result<Vec<u8>, AllocError> {
    let mut record = Vec::new(alloc);
    record.extend_from_slice(&row.head)?;
    for byte in 0..28u8 {
        record.push(byte)?;
    }
    record.extend_from_slice(row.came)?;
    Ok(record)
}

/// An outcome in words.
fn came(alloc: Global, outcome: &Outcome) -> Result<String, AllocError> {
    match outcome {
        Outcome::Nothing => format!(in alloc; "nothing"),
        Outcome::Ack => format!(in alloc; "ACK"),
        Outcome::Nak => format!(in alloc; "NAK"),
        Outcome::Stall => format!(in alloc; "STALL"),
        Outcome::Payload(Toggle::Zero, bytes) => {
            listed(alloc, format!(in alloc; "DATA0")?, bytes.as_slice())
        }
        Outcome::Payload(Toggle::One, bytes) => {
            listed(alloc, format!(in alloc; "DATA1")?, bytes.as_slice())
        }
    }
}

/// Each answer is read as it is, and what is none has its fault. So has each cut one.
#[test]
fn answers(rt: HostRuntime) -> Result<(), Fail> {
    let alloc = rt.alloc();
    for row in ANSWERS {
        let record = answer_record(alloc, row)?;
        match Answer::read(record.as_slice()) {
            Ok(answer) => {
                assert_eq!(rt; came(alloc, &answer.outcome)?.as_str(), row.said);
                assert_eq!(rt; answer.statuses, SHOWN);
            }
            Err(fault) => assert_eq!(rt; format!(in alloc; "{fault}")?.as_str(), row.said),
        }
        for end in 0..record.len() {
            let cut = record.as_slice().get(..end).unwrap_or(&[]);
            assert_eq!(rt; Answer::read(cut).err(), Some(DriverFault::Length));
        }
    }
    Ok(())
}

/// Where an attempt goes: endpoint 2 of the device at address 5.
fn destination(speed: Speed) -> Destination {
    Destination {
        address: 5,
        number: 2,
        speed,
        max: 8,
    }
}

/// Whether a record begins with these bytes, and has zeros after them.
fn begins(record: &[u8; 72], head: &[u8]) -> bool {
    record.starts_with(head) && record.iter().skip(head.len()).all(|byte| *byte == 0)
}

/// The bytes of each kind of question.
#[test]
fn questions(rt: HostRuntime) -> Result<(), Fail> {
    let setup = Question::Attempt(Attempt::Setup {
        to: destination(Speed::LowBelowHub),
        bytes: GET_DEVICE,
    });
    let head = [1, 5, 2, 3, 8, 8, 0, 0, 0x80, 6, 0, 1, 0, 0, 18, 0];
    assert!(rt; begins(&setup.bytes(), &head));
    let mut bytes = ArrayVec::new();
    bytes.push(0xff);
    let out = Question::Attempt(Attempt::Out {
        to: destination(Speed::Full),
        toggle: Toggle::One,
        bytes,
    });
    assert!(rt; begins(&out.bytes(), &[2, 5, 2, 4, 8, 1, 0, 0, 0xff]));
    let to = destination(Speed::Low);
    let data_in = Question::Attempt(Attempt::In { to });
    assert!(rt; begins(&data_in.bytes(), &[3, 5, 2, 1, 8, 0, 0, 0]));
    // PORT_RESET and C_PORT_CONNECTION (table 11-17)
    let set = Question::Set {
        port: 3,
        feature: 4,
    };
    assert!(rt; begins(&set.bytes(), &[4, 3, 4]));
    let clear = Question::Clear {
        port: 7,
        feature: 16,
    };
    assert!(rt; begins(&clear.bytes(), &[5, 7, 16]));
    let restart = Question::Restart {
        address: 9,
        endpoint: 0x83,
    };
    assert!(rt; begins(&restart.bytes(), &[6, 9, 0x83]));
    let row = Question::Ins {
        to: destination(Speed::LowBelowHub),
        toggle: Toggle::One,
        most: 64,
    };
    assert!(rt; begins(&row.bytes(), &[7, 5, 2, 7, 8, 0, 64]));
    Ok(())
}
