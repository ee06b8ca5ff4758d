use super::plans::Hit::{Flipped, Lost};
use super::plans::{FUNCTION, Hit, LOW, bus_of};
use super::ready::{Told, make_ready, target_of, tell_done, told};
use std::alloc::Global;
use std::test::Fail;
use usb_transfer::{Bus, PipeFault, Setup, control_out};

/// A device that refuses a request with data, and the damaged packets; how many bytes are sent, what is reported, how
/// many attempts are made in all, and the trace's lines after those that make the device ready.
#[derive(Clone, Copy)]
struct Row {
    name: &'static str,
    device: &'static [&'static str],
    low: bool,
    hits: &'static [Hit],
    bytes: usize,
    answer: &'static str,
    attempts: u64,
    lines: &'static str,
}

/// What is sent.
const BYTES: [u8; 70] = [
    1, 2, 3, 4, 5, 6, 7, 8, 9, 10, 11, 12, 13, 14, 15, 16, 17, 18, 19, 20, 21, 22, 23, 24, 25, 26,
    27, 28, 29, 30, 31, 32, 33, 34, 35, 36, 37, 38, 39, 40, 41, 42, 43, 44, 45, 46, 47, 48, 49, 50,
    51, 52, 53, 54, 55, 56, 57, 58, 59, 60, 61, 62, 63, 64, 65, 66, 67, 68, 69, 70,
];

const ROWS: [Row; 9] = [
    Row {
        name: "the data are refused",
        device: FUNCTION,
        low: false,
        hits: &[],
        bytes: 1,
        answer: "stalled",
        attempts: 18,
        lines: "17 SETUP 1.0 / DATA0 2109000200000100 / ACK
18 OUT 1.0 / DATA1 01 / STALL
",
    },
    Row {
        name: "the first packet is a whole one",
        device: LOW,
        low: true,
        hits: &[],
        bytes: 9,
        answer: "stalled",
        attempts: 23,
        lines: "22 SETUP 1.0 / DATA0 2109000200000900 / ACK
23 OUT 1.0 / DATA1 0102030405060708 / STALL
",
    },
    Row {
        name: "the SETUP is lost",
        device: FUNCTION,
        low: false,
        hits: &[Lost(17, 1)],
        bytes: 1,
        answer: "stalled",
        attempts: 19,
        lines: "17 SETUP 1.0 [lost] / DATA0 2109000200000100 / none
18 SETUP 1.0 / DATA0 2109000200000100 / ACK
19 OUT 1.0 / DATA1 01 / STALL
",
    },
    Row {
        name: "the ACK of the SETUP is lost",
        device: FUNCTION,
        low: false,
        hits: &[Lost(17, 3)],
        bytes: 1,
        answer: "stalled",
        attempts: 19,
        lines: "17 SETUP 1.0 / DATA0 2109000200000100 / ACK [lost]
18 SETUP 1.0 / DATA0 2109000200000100 / ACK
19 OUT 1.0 / DATA1 01 / STALL
",
    },
    Row {
        name: "the SETUP is lost three times",
        device: FUNCTION,
        low: false,
        hits: &[Lost(17, 1), Lost(18, 2), Lost(19, 3)],
        bytes: 1,
        answer: "no answer",
        attempts: 19,
        lines: "17 SETUP 1.0 [lost] / DATA0 2109000200000100 / none
18 SETUP 1.0 / DATA0 2109000200000100 [lost] / none
19 SETUP 1.0 / DATA0 2109000200000100 / ACK [lost]
",
    },
    Row {
        name: "the data are lost",
        device: FUNCTION,
        low: false,
        hits: &[Lost(18, 2)],
        bytes: 1,
        answer: "stalled",
        attempts: 19,
        lines: "17 SETUP 1.0 / DATA0 2109000200000100 / ACK
18 OUT 1.0 / DATA1 01 [lost] / none
19 OUT 1.0 / DATA1 01 / STALL
",
    },
    Row {
        name: "a bit of the data is turned",
        device: FUNCTION,
        low: false,
        hits: &[Flipped(18, 2, 9)],
        bytes: 1,
        answer: "stalled",
        attempts: 19,
        lines: "17 SETUP 1.0 / DATA0 2109000200000100 / ACK
18 OUT 1.0 / DATA1 01 [bit 9] / none
19 OUT 1.0 / DATA1 01 / STALL
",
    },
    Row {
        name: "the data are lost three times",
        device: FUNCTION,
        low: false,
        hits: &[Lost(18, 1), Lost(19, 2), Lost(20, 3)],
        bytes: 2,
        answer: "no answer",
        attempts: 20,
        lines: "17 SETUP 1.0 / DATA0 2109000200000200 / ACK
18 OUT 1.0 [lost] / DATA1 0102 / none
19 OUT 1.0 / DATA1 0102 [lost] / none
20 OUT 1.0 / DATA1 0102 / STALL [lost]
",
    },
    Row {
        name: "nothing is asked again behind a refusal",
        device: FUNCTION,
        low: false,
        hits: &[Lost(18, 3)],
        bytes: 2,
        answer: "stalled",
        attempts: 19,
        lines: "17 SETUP 1.0 / DATA0 2109000200000200 / ACK
18 OUT 1.0 / DATA1 0102 / STALL [lost]
19 OUT 1.0 / DATA1 0102 / STALL
",
    },
];

/// Makes a device ready and sends bytes to it, as SET_REPORT does (HID 1.11, 7.2.2).
fn written<B: Bus>(alloc: Global, bus: &mut B, low: bool, bytes: &[u8]) -> Result<(), PipeFault> {
    make_ready(alloc, bus, target_of(low))?;
    let Ok(length) = u16::try_from(bytes.len()) else {
        return Ok(());
    };
    if length == 0 {
        return Ok(());
    }
    let setup = Setup {
        request_type: 0x21,
        request: 9,
        value: 0x0200,
        index: 0,
        length,
    };
    control_out(bus, target_of(low), setup, bytes)
}

fn sent(alloc: Global, row: &Row) -> Result<Told, Fail> {
    let mut bus = bus_of(alloc, 10_000, row.device, "", row.hits)?;
    let bytes = BYTES.get(..row.bytes).unwrap_or(&[]);
    let answer = written(alloc, &mut bus, row.low, bytes);
    let mut answers = String::new(alloc);
    tell_done(alloc, &mut answers, answer)?;
    let ready = if row.low { 22 } else { 17 };
    told(alloc, answers, bus, ready)
}

#[test]
fn data_to_a_device(rt: HostRuntime) -> Result<(), Fail> {
    for row in &ROWS {
        let (answer, attempts, lines) = sent(rt.alloc(), row)?;
        assert_eq!(rt;
            (answer.as_str(), attempts, lines.as_str()),
            (row.answer, row.attempts, row.lines),
            "{}",
            row.name
        );
    }
    Ok(())
}
