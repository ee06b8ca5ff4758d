//! A test is a loop over rows: what a controller side of version 1 or 2 says, and what rows of attempts ask and give.
use super::ends::{Played, answer_of, ended, opened};
use super::frail::Cut;
use super::stream::to;
use arrayvec::ArrayVec;
use std::alloc::{AllocError, Global};
use std::io::{Read, Write};
use std::test::Fail;
use usb_bus::{Bus, BusFault, ROW_ROOM, RowDone, RowEnd};
use usb_packet::{Speed, Toggle};
use usb_stream::{LiveFault, StreamBus};
use usb_wire::{Said, WireFault, said_line};

/// A row of attempts, to endpoint 1 of the device at address 1.
#[derive(Clone, Copy)]
enum Asked {
    /// The most bytes of a packet, the toggle of the first one, and how many packets.
    Ins(u8, Toggle, u8),
    /// The most bytes of a packet, the toggle of the first one, and the data.
    Outs(u8, Toggle, &'static [u8]),
}

/// The rows that are asked, how many questions may be asked, and what the controller side says. And what the host says
/// to it, what the rows give, how many attempts are counted, and why no more is asked.
#[derive(Clone, Copy)]
struct Row {
    asked: &'static [Asked],
    limit: u64,
    far: &'static str,
    host: &'static str,
    given: &'static str,
    attempts: u128,
    fault: Option<LiveFault>,
}

const THREE: &[Asked] = &[Asked::Ins(2, Toggle::Zero, 3)];

const FIVE_BYTES: &[Asked] = &[Asked::Outs(2, Toggle::One, &[0, 1, 2, 3, 4])];

/// A controller side that is refused at its first line.
const REFUSED: Row = Row {
    asked: THREE,
    limit: 9,
    far: "",
    host: "usbplan live 1\n",
    given: "0 of - failed; ",
    attempts: 0,
    fault: None,
};

const ROWS: &[Row] = &[
    // version 1: each attempt is a question
    Row {
        asked: THREE,
        limit: 9,
        far: "roots 1\nDATA0 0102\nDATA1 0304\nDATA0 0506\n",
        host: "usbplan live 1\nIN 1.1 2\nIN 1.1 2\nIN 1.1 2\n",
        given: "3 of 010203040506 whole; ",
        attempts: 3,
        fault: None,
    },
    Row {
        asked: THREE,
        limit: 9,
        far: "roots 1\nDATA0 0102\nNAK\n",
        host: "usbplan live 1\nIN 1.1 2\nIN 1.1 2\n",
        given: "1 of 0102 NAK; ",
        attempts: 2,
        fault: None,
    },
    Row {
        asked: FIVE_BYTES,
        limit: 9,
        far: "roots 1\nACK\nACK\nACK\n",
        host: "usbplan live 1\nOUT 1.1 / DATA1 0001\nOUT 1.1 / DATA0 0203\nOUT 1.1 / DATA1 04\n",
        given: "3 of - whole; ",
        attempts: 3,
        fault: None,
    },
    // version 2: each row is one
    Row {
        asked: THREE,
        limit: 9,
        far: "roots 1 2\nDATA0 0102\nDATA1 0304\nDATA0 0506\n",
        host: "usbplan live 1\nIN 1.1 2 DATA0 3\n",
        given: "3 of 010203040506 whole; ",
        attempts: 3,
        fault: None,
    },
    Row {
        asked: FIVE_BYTES,
        limit: 9,
        far: "roots 1 2\nACK\nACK\nACK\n",
        host: "usbplan live 1\nOUT 1.1 / DATA1 0001020304 2\n",
        given: "3 of - whole; ",
        attempts: 3,
        fault: None,
    },
    // the first attempt that moves no packet ends it
    Row {
        asked: THREE,
        limit: 9,
        far: "roots 1 2\nDATA0 0102\nDATA1 03\n",
        host: "usbplan live 1\nIN 1.1 2 DATA0 3\n",
        given: "1 of 0102 DATA1 03; ",
        attempts: 2,
        fault: None,
    },
    Row {
        asked: THREE,
        limit: 9,
        far: "roots 1 2\nDATA0 0102\nDATA0 0304\n",
        host: "usbplan live 1\nIN 1.1 2 DATA0 3\n",
        given: "1 of 0102 DATA0 0304; ",
        attempts: 2,
        fault: None,
    },
    Row {
        asked: THREE,
        limit: 9,
        far: "roots 1 2\nDATA0 010203\n",
        host: "usbplan live 1\nIN 1.1 2 DATA0 3\n",
        given: "0 of - none; ",
        attempts: 1,
        fault: None,
    },
    Row {
        asked: FIVE_BYTES,
        limit: 9,
        far: "roots 1 2\nACK\nSTALL\n",
        host: "usbplan live 1\nOUT 1.1 / DATA1 0001020304 2\n",
        given: "1 of - STALL; ",
        attempts: 2,
        fault: None,
    },
    // statuses may come before each answer
    Row {
        asked: THREE,
        limit: 9,
        far: "roots 1 2\nport 1 00010000\nDATA0 0102\nport 1 01010100\nport 1 01010000\nNAK\n",
        host: "usbplan live 1\nIN 1.1 2 DATA0 3\n",
        given: "1 of 0102 NAK; ",
        attempts: 2,
        fault: None,
    },
    // a row of one packet is a single attempt, and one of none asks nothing
    Row {
        asked: &[
            Asked::Ins(64, Toggle::One, 1),
            Asked::Ins(64, Toggle::One, 0),
            Asked::Outs(2, Toggle::Zero, &[7, 8]),
            Asked::Outs(2, Toggle::Zero, &[]),
        ],
        limit: 9,
        far: "roots 1 2\nDATA1 01\nACK\n",
        host: "usbplan live 1\nIN 1.1 64\nOUT 1.1 / DATA0 0708\n",
        given: "0 of - DATA1 01; 0 of - whole; 1 of - whole; 0 of - whole; ",
        attempts: 2,
        fault: None,
    },
    // after a row that was cut short the next one is a new question
    Row {
        asked: &[
            Asked::Ins(1, Toggle::Zero, 64),
            Asked::Ins(1, Toggle::One, 63),
        ],
        limit: 9,
        far: "roots 1 2\nDATA0 AA\nNAK\nDATA1 BB\nnone\n",
        host: "usbplan live 1\nIN 1.1 1 DATA0 64\nIN 1.1 1 DATA1 63\n",
        given: "1 of AA NAK; 1 of BB none; ",
        attempts: 4,
        fault: None,
    },
    // of 450 bytes 448 have room in a line
    Row {
        asked: &[Asked::Outs(64, Toggle::Zero, &[0x5A; 450])],
        limit: 9,
        far: "roots 1 2\nACK\nACK\nACK\nACK\nACK\nACK\nACK\nACK\n",
        host: "usbplan live 1\nOUT 1.1 / DATA0 \
               5A5A5A5A5A5A5A5A5A5A5A5A5A5A5A5A5A5A5A5A5A5A5A5A5A5A5A5A5A5A5A5A5A5A5A5A5A5A5A5A\
               5A5A5A5A5A5A5A5A5A5A5A5A5A5A5A5A5A5A5A5A5A5A5A5A5A5A5A5A5A5A5A5A5A5A5A5A5A5A5A5A\
               5A5A5A5A5A5A5A5A5A5A5A5A5A5A5A5A5A5A5A5A5A5A5A5A5A5A5A5A5A5A5A5A5A5A5A5A5A5A5A5A\
               5A5A5A5A5A5A5A5A5A5A5A5A5A5A5A5A5A5A5A5A5A5A5A5A5A5A5A5A5A5A5A5A5A5A5A5A5A5A5A5A\
               5A5A5A5A5A5A5A5A5A5A5A5A5A5A5A5A5A5A5A5A5A5A5A5A5A5A5A5A5A5A5A5A5A5A5A5A5A5A5A5A\
               5A5A5A5A5A5A5A5A5A5A5A5A5A5A5A5A5A5A5A5A5A5A5A5A5A5A5A5A5A5A5A5A5A5A5A5A5A5A5A5A\
               5A5A5A5A5A5A5A5A5A5A5A5A5A5A5A5A5A5A5A5A5A5A5A5A5A5A5A5A5A5A5A5A5A5A5A5A5A5A5A5A\
               5A5A5A5A5A5A5A5A5A5A5A5A5A5A5A5A5A5A5A5A5A5A5A5A5A5A5A5A5A5A5A5A5A5A5A5A5A5A5A5A\
               5A5A5A5A5A5A5A5A5A5A5A5A5A5A5A5A5A5A5A5A5A5A5A5A5A5A5A5A5A5A5A5A5A5A5A5A5A5A5A5A\
               5A5A5A5A5A5A5A5A5A5A5A5A5A5A5A5A5A5A5A5A5A5A5A5A5A5A5A5A5A5A5A5A5A5A5A5A5A5A5A5A\
               5A5A5A5A5A5A5A5A5A5A5A5A5A5A5A5A5A5A5A5A5A5A5A5A5A5A5A5A5A5A5A5A5A5A5A5A5A5A5A5A\
               5A5A5A5A5A5A5A5A \
               64\nOUT 1.1 / DATA1 5A5A\n",
        given: "8 of - whole; ",
        attempts: 8,
        fault: None,
    },
    // what is no answer is a fault, and nothing is asked after it
    Row {
        asked: &[
            Asked::Ins(2, Toggle::Zero, 3),
            Asked::Ins(2, Toggle::Zero, 3),
        ],
        limit: 9,
        far: "roots 1 2\nDATA0 0102\nok\n",
        host: "usbplan live 1\nIN 1.1 2 DATA0 3\n",
        given: "1 of 0102 failed; 0 of - failed; ",
        attempts: 2,
        fault: Some(LiveFault::Line(WireFault::NoAnswer)),
    },
    Row {
        asked: FIVE_BYTES,
        limit: 9,
        far: "roots 1 2\nACK\nACK\n",
        host: "usbplan live 1\nOUT 1.1 / DATA1 0001020304 2\n",
        given: "2 of - failed; ",
        attempts: 3,
        fault: Some(LiveFault::Gone),
    },
    // a row is one question of the limit
    Row {
        asked: &[
            Asked::Ins(2, Toggle::Zero, 2),
            Asked::Ins(2, Toggle::Zero, 2),
        ],
        limit: 2,
        far: "roots 1 2\nDATA0 0102\nDATA1 0304\n",
        host: "usbplan live 1\nIN 1.1 2 DATA0 2\n",
        given: "2 of 01020304 whole; 0 of - limit; ",
        attempts: 2,
        fault: Some(LiveFault::LimitReached),
    },
    // an answer too many is one to the next question
    Row {
        asked: &[
            Asked::Ins(2, Toggle::Zero, 2),
            Asked::Outs(2, Toggle::Zero, &[1]),
        ],
        limit: 9,
        far: "roots 1 2\nDATA0 0102\nDATA1 0304\nDATA0 0506\n",
        host: "usbplan live 1\nIN 1.1 2 DATA0 2\nOUT 1.1 / DATA0 01\n",
        given: "2 of 01020304 whole; 0 of - DATA0 0506; ",
        attempts: 3,
        fault: None,
    },
    // there is no other version
    Row {
        far: "roots 1 3\n",
        fault: Some(LiveFault::Line(WireFault::BadNumber)),
        ..REFUSED
    },
    Row {
        far: "roots 8 2\n",
        fault: Some(LiveFault::Line(WireFault::BadNumber)),
        ..REFUSED
    },
    Row {
        far: "roots 1 2 2\n",
        fault: Some(LiveFault::Line(WireFault::NoAnswer)),
        ..REFUSED
    },
];

/// All rows over a reader, and a writer that fails after n writes.
fn play<R: Read + Drop>(
    alloc: Global,
    asked: &[Asked],
    reader: R,
    writes: u64,
    limit: u64,
) -> Result<Played, AllocError> {
    let mut given = String::new(alloc);
    let mut bus = opened(alloc, reader, writes, limit);
    for row in asked {
        make(alloc, &mut bus, &mut given, *row)?;
    }
    Ok(ended(bus, given))
}

/// Makes a row of attempts; what it gives is put after what the others gave.
fn make<R: Read + Drop, W: Write + Drop>(
    alloc: Global,
    bus: &mut StreamBus<R, W>,
    given: &mut String,
    asked: Asked,
) -> Result<(), AllocError> {
    let mut got: ArrayVec<u8, ROW_ROOM> = ArrayVec::new();
    let done = match asked {
        Asked::Ins(max, toggle, most) => {
            if max < 1 || max > 64 || most > 64 {
                return Ok(());
            }
            bus.attempt_ins(to(1, 1, Speed::Full, max), toggle, most, &mut got)
        }
        Asked::Outs(max, toggle, bytes) => {
            if max < 1 || max > 64 || bytes.len() > 64 * usize::from(max) {
                return Ok(());
            }
            bus.attempt_outs(to(1, 1, Speed::Full, max), toggle, bytes)
        }
    };
    push_done(alloc, given, done, got.as_slice())
}

/// How many packets a row moved, what it got, and how it ended.
fn push_done(
    alloc: Global,
    given: &mut String,
    done: RowDone,
    got: &[u8],
) -> Result<(), AllocError> {
    let bytes = hex::encode_upper(alloc, got)?;
    let bytes = if got.is_empty() { "-" } else { bytes.as_str() };
    given.push_str(format!(in alloc; "{} of {bytes} ", done.moved)?.as_str())?;
    match done.end {
        RowEnd::Whole => given.push_str("whole; "),
        RowEnd::Answered(outcome) => {
            given.push_str(said_line(&Said::Answered(answer_of(outcome))).as_str())?;
            given.push_str("; ")
        }
        RowEnd::Faulted(BusFault::Limit) => given.push_str("limit; "),
        RowEnd::Faulted(BusFault::Memory | BusFault::Failed) => given.push_str("failed; "),
    }
}

#[test]
fn rows(rt: HostRuntime) -> Result<(), Fail> {
    for row in ROWS {
        let played = play(
            rt.alloc(),
            row.asked,
            row.far.as_bytes(),
            u64::MAX,
            row.limit,
        )?;
        let host = str::from_utf8(played.host.as_slice()).ok();
        assert_eq!(rt; host, Some(row.host), "{}", row.far);
        assert_eq!(rt; played.given.as_str(), row.given, "{}", row.far);
        assert_eq!(rt; played.attempts, row.attempts, "{}", row.far);
        assert_eq!(rt; played.fault, row.fault, "{}", row.far);
    }
    Ok(())
}

/// The input ends, or fails, after each number of bytes, and each write fails in turn: nothing more is asked.
#[test]
fn cut_rows(rt: HostRuntime) -> Result<(), Fail> {
    for row in ROWS {
        let alloc = rt.alloc();
        for count in 0..row.far.len() {
            let front = &row.far.as_bytes()[..count];
            let ended = play(alloc, row.asked, front, u64::MAX, row.limit)?;
            let failed = play(alloc, row.asked, Cut(front), u64::MAX, row.limit)?;
            assert!(rt; ended.fault.is_some(), "{count} bytes of {}", row.far);
            assert!(rt;
                row.host.as_bytes().starts_with(failed.host.as_slice()),
                "{count} bytes of {}",
                row.far
            );
            assert_eq!(rt;
                failed.attempts,
                ended.attempts,
                "{count} bytes of {}",
                row.far
            );
        }
        let whole = play(alloc, row.asked, row.far.as_bytes(), u64::MAX, row.limit)?;
        let lines = row
            .host
            .as_bytes()
            .iter()
            .filter(|byte| **byte == b'\n')
            .count();
        for writes in 0..lines as u64 {
            let cut = play(alloc, row.asked, row.far.as_bytes(), writes, row.limit)?;
            assert_eq!(rt;
                cut.fault,
                Some(LiveFault::Write),
                "{writes} writes of {}",
                row.far
            );
            assert!(rt;
                whole.host.as_slice().starts_with(cut.host.as_slice()),
                "{writes} writes"
            );
        }
    }
    Ok(())
}
