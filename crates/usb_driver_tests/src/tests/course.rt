//! Whole courses: a driver whose questions go to a simulated bus by their bytes, and its records.
use arrayvec::ArrayVec;
use std::alloc::{AllocError, Global};
use std::test::Fail;
use usb_dialogue::{
    Answer, Bytes, Driver, DriverFault, EndpointAddress, HostOptions, Outcome, PortPath, Statuses,
    Toggle, Want,
};
use usb_plan::read_plan;
use usb_testdriver::{Course, statuses};

/// A device that answers SET_ADDRESS by STALL, and one that is accepted.
const REFUSED: &str = r#"
limit = 10000
roots = 2

[[device]]
name = "stubborn"
speed = "full"
descriptor = "120100020000004034127856000100000001"
configs = ["0902120001010080320904000000FF000000"]
stalls = ["address"]

[[device]]
name = "thermometer"
speed = "full"
descriptor = "120100020000004034127856000100000001"
configs = ["0902120001010080320904000000FF000000"]

[[event]]
do = "plug"
path = "1"
device = "stubborn"

[[event]]
do = "plug"
path = "2"
device = "thermometer"
"#;

/// The records: the first stalled SET_ADDRESS, and said eight bytes before that; then the device.
const REFUSED_TOLD: &str = "36 010100000000000003011201000200000040\n\
    33 0102000000000000010000008000000000000000120100020000004034127856000100000001\n\
    34 0902120001010080320904000000FF000000\n\
    32 00\n";

/// A hub, and below it a keyboard of low speed with a product string.
const KEYBOARD: &str = r#"
limit = 10000
roots = 1

[[device]]
name = "hub"
speed = "full"
descriptor = "12011001090000080904AA55010101020301"
configs = ["09021900010100E000090400000109000000070581030200FF"]
ports = 4
self_powered = true
hub_descriptor = "0929040900320000FF"

[[device]]
name = "keyboard"
speed = "low"
descriptor = "120100020000000827060100000001040B01"
configs = ["09022200010108A032090400000103010100092111010001223F000705810308000A"]
strings = ["04030904", "", "", "", "08034B0065007900"]

[[event]]
do = "plug"
path = "1"
device = "hub"

[[event]]
do = "plug"
path = "1.1"
device = "keyboard"
"#;

/// A hub of four ports, and the keyboard with its product string.
const KEYBOARD_TOLD: &str =
    "33 010100000000000001000004800000000000000012011001090000080904AA55010101020301\n\
    34 09021900010100E000090400000109000000070581030200FF\n\
    33 0201010000000000020100008100000000000000120100020000000827060100000001040B01\n\
    34 09022200010108A032090400000103010100092111010001223F000705810308000A\n\
    35 014B0065007900\n\
    32 00\n";

/// The same with a limit of 30 bytes a device: the keyboard's configuration has 34.
const LIMITED_TOLD: &str =
    "33 010100000000000001000004800000000000000012011001090000080904AA55010101020301\n\
    34 09021900010100E000090400000109000000070581030200FF\n\
    36 02010100000000000B00120100020000000827060100000001040B01\n\
    32 00\n";

/// A device with a bulk endpoint each way. What it has to give is "Hello, host".
const STICK: &str = r#"
limit = 10000
roots = 1

[[device]]
name = "stick"
speed = "full"
descriptor = "120100020000004034127856000100000001"
configs = ["0902200001010080640904000002080650000705810240000007050202400000"]
source = "48656C6C6F2C20686F7374"

[[event]]
do = "plug"
path = "1"
device = "stick"
"#;

/// A device with 20 bytes in packets of 8, by three INs; the same with a NAK before each packet.
const READER: &str = r#"
limit = 10000
roots = 2

[[device]]
name = "reader"
speed = "full"
descriptor = "120100020000004034127856000100000001"
configs = ["0902200001010080640904000002080650000705810208000007050202400000"]
source = "5477656E7479206279746573206F662064617461"

[[device]]
name = "slow"
speed = "full"
descriptor = "120100020000004034127856000100000001"
configs = ["0902200001010080640904000002080650000705810208000007050202400000"]
endpoint = [{ address = 0x81, source = "5477656E7479206279746573206F662064617461", naks = 1 }]

[[event]]
do = "plug"
path = "1"
device = "reader"

[[event]]
do = "plug"
path = "2"
device = "slow"
"#;

/// Those bytes: "Twenty bytes of data".
const TWENTY_TOLD: &str = "37 5477656E7479206279746573206F662064617461\n32 00\n";

/// Both devices.
const READERS_TOLD: &str =
    "33 0101000000000000010000008000000000000000120100020000004034127856000100000001\n\
    34 0902200001010080640904000002080650000705810208000007050202400000\n\
    33 0102000000000000020000008100000000000000120100020000004034127856000100000001\n\
    34 0902200001010080640904000002080650000705810208000007050202400000\n\
    32 00\n";

/// The course of a plan, whose events have all come, and each of them was followed by rounds.
fn course_of(alloc: Global, plan: &str, device_bytes: Option<usize>) -> Result<Course, Fail> {
    let plan = read_plan(alloc, plan)?;
    let mut course = Course::open(alloc, &plan, device_bytes, 1)?;
    'events: for _ in 0..100u8 {
        if course.next_event()?.is_none() {
            break 'events;
        }
    }
    Ok(course)
}

/// A record's kind, its body, and the records after it.
fn cut(told: &[u8]) -> Option<(u8, &[u8], &[u8])> {
    let (kind, rest) = told.split_first()?;
    let (length, rest) = rest.split_first_chunk::<4>()?;
    let length = u32::from_le_bytes(*length) as usize;
    Some((*kind, rest.get(..length)?, rest.get(length..)?))
}

/// A line for each record: its kind, and its bytes in digits.
fn lines_of(alloc: Global, told: &[u8]) -> Result<String, AllocError> {
    let mut text = String::new(alloc);
    let mut rest = told;
    'records: for _ in 0..100u8 {
        let Some((kind, body, behind)) = cut(rest) else {
            return Ok(text);
        };
        rest = behind;
        text.push_str(format!(in alloc; "{kind} ")?.as_str())?;
        'bytes: for byte in body {
            text.push_str(format!(in alloc; "{:02X}", *byte)?.as_str())?;
        }
        text.push('\n')?;
    }
    Ok(text)
}

/// A plan, the most bytes of a device, and the records of its tree after all its events.
struct TreeRow {
    plan: &'static str,
    device_bytes: Option<usize>,
    told: &'static str,
}

const TREES: &[TreeRow] = &[
    TreeRow {
        plan: REFUSED,
        device_bytes: None,
        told: REFUSED_TOLD,
    },
    TreeRow {
        plan: KEYBOARD,
        device_bytes: Some(34),
        told: KEYBOARD_TOLD,
    },
    TreeRow {
        plan: KEYBOARD,
        device_bytes: Some(30),
        told: LIMITED_TOLD,
    },
];

/// The records of a tree come by rising path, each entry once.
#[test]
fn trees(rt: HostRuntime) -> Result<(), Fail> {
    let alloc = rt.alloc();
    for row in TREES {
        let mut course = course_of(alloc, row.plan, row.device_bytes)?;
        course.call(Want::Tree)?;
        assert_eq!(rt; lines_of(alloc, course.driver.told())?.as_str(), row.told);
    }
    Ok(())
}

/// A device gives what it has, takes bytes, and has no port; the news report its arrival.
#[test]
fn transfers(rt: HostRuntime) -> Result<(), Fail> {
    let alloc = rt.alloc();
    let mut course = course_of(alloc, STICK, None)?;
    let wants = [
        (receive("1"), "37 48656C6C6F2C20686F7374\n32 00\n"),
        (send(alloc, "1")?, "32 00\n"),
        // no device
        (send(alloc, "2")?, "32 02\n"),
        // no interrupt endpoint
        (poll("1"), "32 03\n"),
        (look("1"), "38 01\n32 00\n"),
        (
            Some(Want::News),
            "39 0101010000000000008100000000000000\n32 00\n",
        ),
        (Some(Want::News), "32 00\n"),
        (Some(Want::Round), "32 01\n"),
    ];
    for (want, told) in wants {
        let Some(want) = want else {
            continue;
        };
        course.call(want)?;
        assert_eq!(rt; lines_of(alloc, course.driver.told())?.as_str(), told);
    }
    Ok(())
}

/// The most attempts that a controller makes of a row, a path and the packets that are received
/// from there, and the number of questions.
struct RowOfIns {
    row: u8,
    path: &'static str,
    packets: u16,
    questions: u32,
}

const ROWS_OF_INS: &[RowOfIns] = &[
    RowOfIns {
        row: 1,
        path: "1",
        packets: 3,
        questions: 3,
    },
    RowOfIns {
        row: 2,
        path: "1",
        packets: 3,
        questions: 2,
    },
    RowOfIns {
        row: 3,
        path: "1",
        packets: 3,
        questions: 1,
    },
    // the short packet ends the row, and the call
    RowOfIns {
        row: 64,
        path: "1",
        packets: 200,
        questions: 1,
    },
    // a NAK ends each row, and its packet is then asked for alone
    RowOfIns {
        row: 1,
        path: "2",
        packets: 3,
        questions: 6,
    },
    RowOfIns {
        row: 64,
        path: "2",
        packets: 3,
        questions: 6,
    },
];

/// However a controller cuts a row of INs, the same bytes come, and the same devices are listed.
#[test]
fn rows_of_ins(rt: HostRuntime) -> Result<(), Fail> {
    let alloc = rt.alloc();
    for row in ROWS_OF_INS {
        let mut course = course_of(alloc, READER, None)?;
        course.row = row.row;
        let Some(path) = PortPath::from_text(row.path) else {
            continue;
        };
        course.call(Want::Receive {
            path,
            packets: row.packets,
        })?;
        assert_eq!(rt;
            lines_of(alloc, course.driver.told())?.as_str(),
            TWENTY_TOLD
        );
        assert_eq!(rt; course.questions, row.questions);
        course.call(Want::Tree)?;
        assert_eq!(rt;
            lines_of(alloc, course.driver.told())?.as_str(),
            READERS_TOLD
        );
    }
    Ok(())
}

/// The number of bytes before the last attempt, that of the last packet, and why they are refused.
struct RefusedRow {
    before: usize,
    last: usize,
    fault: DriverFault,
}

/// Of a row of three INs, 8 bytes each.
const REFUSED_ROWS: &[RefusedRow] = &[
    // three packets, and one more
    RefusedRow {
        before: 24,
        last: 0,
        fault: DriverFault::TooMuch,
    },
    RefusedRow {
        before: 8,
        last: 9,
        fault: DriverFault::TooMuch,
    },
];

/// A row's answer to no question, or to one that is no row, changes nothing.
#[test]
fn rows_out_of_turn(rt: HostRuntime) -> Result<(), Fail> {
    let alloc = rt.alloc();
    let mut course = course_of(alloc, READER, None)?;
    let shown = statuses(&course.bus);
    assert_eq!(rt;
        course.driver.answer_row(&[], packet(0, shown)).err(),
        Some(DriverFault::OutOfTurn)
    );
    let Some(want) = send(alloc, "1")? else {
        return Ok(());
    };
    course.driver.begin(want, shown)?;
    let asked = question_of(&mut course.driver)?;
    // OUT
    assert_eq!(rt; asked[0], 2);
    assert_eq!(rt;
        course.driver.answer_row(&[0; 8], packet(0, shown)).err(),
        Some(DriverFault::OutOfTurn)
    );
    assert_eq!(rt; question_of(&mut course.driver)?, asked);
    Ok(())
}

/// An answer that no row of three INs can have changes nothing, and a right one is taken after it.
#[test]
fn refused_rows(rt: HostRuntime) -> Result<(), Fail> {
    let alloc = rt.alloc();
    let mut course = course_of(alloc, READER, None)?;
    let shown = statuses(&course.bus);
    let Some(path) = PortPath::from_text("1") else {
        return Ok(());
    };
    course
        .driver
        .begin(Want::Receive { path, packets: 3 }, shown)?;
    let asked = question_of(&mut course.driver)?;
    // address 1, endpoint 1, full speed from DATA0, packets of 8, three of them
    assert_eq!(rt; asked.first_chunk::<8>(), Some(&[7, 1, 1, 0, 8, 0, 3, 0]));
    let bytes = [0x2a; 24];
    for row in REFUSED_ROWS {
        let before = bytes.get(..row.before).unwrap_or(&[]);
        assert_eq!(rt;
            course
                .driver
                .answer_row(before, packet(row.last, shown))
                .err(),
            Some(row.fault)
        );
        assert_eq!(rt; question_of(&mut course.driver)?, asked);
    }
    // the packets are cut at each byte within one
    for end in 1..24usize {
        if end % 8 != 0 {
            let before = bytes.get(..end).unwrap_or(&[]);
            let fault = course.driver.answer_row(before, packet(1, shown)).err();
            assert_eq!(rt; fault, Some(DriverFault::Length));
            assert_eq!(rt; question_of(&mut course.driver)?, asked);
        }
    }
    // DATA0 and DATA1 came, and a short packet with DATA0
    course.driver.answer_row(&[0x2a; 16], packet(1, shown))?;
    assert!(rt; course.driver.question()?.is_none());
    assert_eq!(rt;
        lines_of(alloc, course.driver.told())?.as_str(),
        "37 2A2A2A2A2A2A2A2A2A2A2A2A2A2A2A2A00\n32 00\n"
    );
    Ok(())
}

/// A packet of this number of zeros, with DATA0.
fn packet(count: usize, statuses: Statuses) -> Answer {
    let mut bytes = ArrayVec::new();
    for _ in 0..count {
        let _ = bytes.try_push(0);
    }
    Answer {
        outcome: Outcome::Payload(Toggle::Zero, bytes),
        statuses,
    }
}

fn receive(path: &str) -> Option<Want> {
    let path = PortPath::from_text(path)?;
    Some(Want::Receive { path, packets: 1 })
}

fn send(alloc: Global, path: &str) -> Result<Option<Want>, AllocError> {
    let Some(path) = PortPath::from_text(path) else {
        return Ok(None);
    };
    let bytes = Bytes::new(Vec::from_slice(alloc, b"USBC")?);
    Ok(Some(Want::Send { path, bytes }))
}

fn poll(path: &str) -> Option<Want> {
    let path = PortPath::from_text(path)?;
    let endpoint = EndpointAddress::new(0x81)?;
    Some(Want::Poll { path, endpoint })
}

fn look(path: &str) -> Option<Want> {
    let path = PortPath::from_text(path)?;
    Some(Want::Look { path })
}

/// Calls that are refused change nothing.
#[test]
fn refusals(rt: HostRuntime) -> Result<(), Fail> {
    let alloc = rt.alloc();
    let none = [[0; 4]; 7];
    assert_eq!(rt;
        Driver::open(alloc, 0, HostOptions::usual(false), none).err(),
        Some(DriverFault::Roots)
    );
    assert_eq!(rt;
        Driver::open(alloc, 8, HostOptions::usual(false), none).err(),
        Some(DriverFault::Roots)
    );
    let mut driver = Driver::open(alloc, 1, HostOptions::usual(false), none)?;
    // the call that opens the host is under way, and no question was asked
    assert_eq!(rt;
        driver.begin(Want::Round, none).err(),
        Some(DriverFault::OutOfTurn)
    );
    assert_eq!(rt; driver.answer(quiet()).err(), Some(DriverFault::OutOfTurn));
    let first = question_of(&mut driver)?;
    assert_eq!(rt; question_of(&mut driver)?, first);
    // the root port loses its power (table 11-17), and is given it again
    assert_eq!(rt; first.first_chunk::<3>(), Some(&[5, 1, 8]));
    driver.answer(quiet())?;
    assert_eq!(rt; driver.answer(quiet()).err(), Some(DriverFault::OutOfTurn));
    assert_eq!(rt;
        question_of(&mut driver)?.first_chunk::<3>(),
        Some(&[4, 1, 8])
    );
    driver.answer(quiet())?;
    assert!(rt; driver.question()?.is_none());
    assert_eq!(rt; driver.told(), [32, 1, 0, 0, 0, 0].as_slice());
    Ok(())
}

fn quiet() -> Answer {
    Answer {
        outcome: Outcome::Nothing,
        statuses: [[0; 4]; 7],
    }
}

/// The bytes of the question that waits, zeros if there is none.
fn question_of(driver: &mut Driver) -> Result<[u8; 72], DriverFault> {
    Ok(match driver.question()? {
        Some(question) => question.bytes(),
        None => [0; 72],
    })
}

/// An answer to an attempt has at most the maximum packet (8.7.4).
#[test]
fn too_much(rt: HostRuntime) -> Result<(), Fail> {
    let alloc = rt.alloc();
    // connected, enabled by a reset, powered
    let shown = [[3, 1, 1, 0], [0; 4], [0; 4], [0; 4], [0; 4], [0; 4], [0; 4]];
    let mut driver = Driver::open(alloc, 1, HostOptions::usual(false), shown)?;
    'questions: for _ in 0..100u8 {
        match driver.question()? {
            None => driver.begin(Want::Round, shown)?,
            Some(question) => {
                let record = question.bytes();
                if record[0] == 3 && record[4] < 64 {
                    assert_eq!(rt;
                        driver.answer(long(shown)).err(),
                        Some(DriverFault::TooMuch)
                    );
                    assert_eq!(rt; question_of(&mut driver)?, record);
                    return Ok(());
                }
                let outcome = if record[0] == 1 {
                    Outcome::Ack
                } else {
                    Outcome::Nothing
                };
                driver.answer(Answer {
                    outcome,
                    statuses: shown,
                })?;
            }
        }
    }
    assert!(rt; false);
    Ok(())
}

/// 64 bytes of data.
fn long(statuses: Statuses) -> Answer {
    Answer {
        outcome: Outcome::Payload(Toggle::One, ArrayVec::from([0; 64])),
        statuses,
    }
}
