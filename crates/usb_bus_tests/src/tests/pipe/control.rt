ghost use Rattle.std.specs.Prelude.{◌≤◌};

use super::plans::Hit::{Flipped, Lost};
use super::plans::{FUNCTION, Hit, LOW, bus_of};
use super::ready::{
    LOW_TARGET, TARGET, Told, made_ready, make_ready, target_of, tell, tell_done, told,
};
use crate::tests::traces::{
    ADDRESSED, CONFIGURED, DESCRIBED, HEAD_ASKED, HEAD_GIVEN, LOW_BEGUN, LOW_ENDED,
};
use std::alloc::Global;
use std::test::Fail;
use usb_transfer::{Bus, Setup, control_in, control_none};

/// A device, what else its plan says of it, and the damaged packets; what the requests that make it ready answer, after
/// how many attempts, and the trace without its NAKs.
#[derive(Clone, Copy)]
struct Row {
    name: &'static str,
    device: &'static [&'static str],
    quirk: &'static str,
    low: bool,
    hits: &'static [Hit],
    answer: &'static str,
    attempts: u64,
    /// The parts of it.
    trace: &'static [&'static str],
}

/// The device descriptor of the function.
const DEVICE: &str = "120100020000004034127856000100000001";

/// The device descriptor of the function at low speed.
const LOW_DEVICE: &str = "120110010000000834120100000100000001";

const FUNCTION_TRACE: &[&str] = &[HEAD_ASKED, HEAD_GIVEN, ADDRESSED, DESCRIBED, CONFIGURED];

const LOW_ACK_LOST: &[&str] = &[
    LOW_BEGUN,
    "8 IN 1.0 / DATA0 3412010000010000 / ACK [lost]
9 IN 1.0 / DATA0 3412010000010000 / ACK
10 IN 1.0 / DATA1 0001 / ACK
11 OUT 1.0 / DATA1 - / ACK
12 SETUP 1.0 / DATA0 8006000200000900 / ACK
13 IN 1.0 / DATA1 0902120001010080 / ACK
14 IN 1.0 / DATA0 32 / ACK
15 OUT 1.0 / DATA1 - / ACK
16 SETUP 1.0 / DATA0 8006000200001200 / ACK
17 IN 1.0 / DATA1 0902120001010080 / ACK
18 IN 1.0 / DATA0 320904000000FF00 / ACK
19 IN 1.0 / DATA1 0000 / ACK
20 OUT 1.0 / DATA1 - / ACK
21 SETUP 1.0 / DATA0 0009010000000000 / ACK
22 IN 1.0 / DATA1 - / ACK
",
];

const LOW_LAST_ACK_LOST: &[&str] = &[
    LOW_BEGUN,
    "8 IN 1.0 / DATA0 3412010000010000 / ACK\n9 IN 1.0 / DATA1 0001 / ACK [lost]\n",
    LOW_ENDED,
];

const LOW_TRACE: &[&str] = &[
    LOW_BEGUN,
    "8 IN 1.0 / DATA0 3412010000010000 / ACK\n9 IN 1.0 / DATA1 0001 / ACK\n",
    LOW_ENDED,
];

const NAKS: &[&str] = &[
    "plug 1 fn
1 SETUP 0.0 / DATA0 8006000100000800 / ACK
202 IN 0.0 / DATA1 1201000200000040 / ACK
203 OUT 0.0 / DATA1 - / ACK
204 SETUP 0.0 / DATA0 0005010000000000 / ACK
405 IN 0.0 / DATA1 - / ACK
406 SETUP 1.0 / DATA0 8006000100001200 / ACK
607 IN 1.0 / DATA1 120100020000004034127856000100000001 / ACK
608 OUT 1.0 / DATA1 - / ACK
609 SETUP 1.0 / DATA0 8006000200000900 / ACK
810 IN 1.0 / DATA1 090212000101008032 / ACK
811 OUT 1.0 / DATA1 - / ACK
812 SETUP 1.0 / DATA0 8006000200001200 / ACK
1013 IN 1.0 / DATA1 0902120001010080320904000000FF000000 / ACK
1014 OUT 1.0 / DATA1 - / ACK
1015 SETUP 1.0 / DATA0 0009010000000000 / ACK
1216 IN 1.0 / DATA1 - / ACK
",
];

const BUSY: &[&str] = &[HEAD_ASKED];

const SILENT: &[&str] = &[
    "plug 1 fn
1 SETUP 0.0 / DATA0 8006000100000800 / none
2 SETUP 0.0 / DATA0 8006000100000800 / none
3 SETUP 0.0 / DATA0 8006000100000800 / none
",
];

const FLIPPED: &[&str] = &[
    "plug 1 fn
1 SETUP 0.0 / DATA0 8006000100000800 [bit 0] / none
2 SETUP 0.0 / DATA0 8006000100000800 / ACK
3 IN 0.0 / DATA1 1201000200000040 / ACK
4 OUT 0.0 / DATA1 - / ACK
5 SETUP 0.0 / DATA0 0005010000000000 / ACK
6 IN 0.0 / DATA1 - / ACK
7 SETUP 1.0 / DATA0 8006000100001200 / ACK
8 IN 1.0 / DATA1 120100020000004034127856000100000001 / ACK
9 OUT 1.0 / DATA1 - / ACK
10 SETUP 1.0 / DATA0 8006000200000900 / ACK
11 IN 1.0 / DATA1 090212000101008032 / ACK
12 OUT 1.0 / DATA1 - / ACK
13 SETUP 1.0 / DATA0 8006000200001200 / ACK
14 IN 1.0 / DATA1 0902120001010080320904000000FF000000 / ACK
15 OUT 1.0 / DATA1 - / ACK
16 SETUP 1.0 / DATA0 0009010000000000 / ACK
17 IN 1.0 / DATA1 - / ACK
",
];

const STALLED_DEVICE: &[&str] = &[HEAD_ASKED, "2 IN 0.0 / STALL\n"];

const STALLED_ADDRESS: &[&str] = &[HEAD_ASKED, HEAD_GIVEN, "5 IN 0.0 / STALL\n"];

const STALLED_CONFIG: &[&str] = &[HEAD_ASKED, HEAD_GIVEN, ADDRESSED, "10 IN 1.0 / STALL\n"];

const STALLED_SET_CONFIG: &[&str] = &[
    HEAD_ASKED,
    HEAD_GIVEN,
    ADDRESSED,
    DESCRIBED,
    "16 IN 1.0 / STALL\n",
];

const ROWS: [Row; 13] = [
    Row {
        name: "a function",
        device: FUNCTION,
        quirk: "",
        low: false,
        hits: &[],
        answer: DEVICE,
        attempts: 16,
        trace: FUNCTION_TRACE,
    },
    Row {
        name: "a bit of the first request is turned",
        device: FUNCTION,
        quirk: "",
        low: false,
        hits: &[Flipped(1, 2, 0)],
        answer: DEVICE,
        attempts: 17,
        trace: FLIPPED,
    },
    Row {
        name: "a bit behind the packet's last is turned",
        device: FUNCTION,
        quirk: "",
        low: false,
        hits: &[Flipped(1, 2, 88)],
        answer: DEVICE,
        attempts: 16,
        trace: FUNCTION_TRACE,
    },
    Row {
        name: "a function at low speed",
        device: LOW,
        quirk: "",
        low: true,
        hits: &[],
        answer: LOW_DEVICE,
        attempts: 21,
        trace: LOW_TRACE,
    },
    Row {
        name: "an ACK in a data stage is lost",
        device: LOW,
        quirk: "",
        low: true,
        hits: &[Lost(8, 3)],
        answer: LOW_DEVICE,
        attempts: 22,
        trace: LOW_ACK_LOST,
    },
    Row {
        name: "the last ACK of a data stage is lost",
        device: LOW,
        quirk: "",
        low: true,
        hits: &[Lost(9, 3)],
        answer: LOW_DEVICE,
        attempts: 21,
        trace: LOW_LAST_ACK_LOST,
    },
    Row {
        name: "each control transfer begins with 200 NAKs",
        device: FUNCTION,
        quirk: "naks = 200\n",
        low: false,
        hits: &[],
        answer: DEVICE,
        attempts: 1216,
        trace: NAKS,
    },
    Row {
        name: "each stage behind the first is answered by NAK",
        device: FUNCTION,
        quirk: "busy = true\n",
        low: false,
        hits: &[],
        answer: "busy",
        attempts: 257,
        trace: BUSY,
    },
    Row {
        name: "nothing is answered",
        device: FUNCTION,
        quirk: "silent = true\n",
        low: false,
        hits: &[],
        answer: "no answer",
        attempts: 3,
        trace: SILENT,
    },
    Row {
        name: "the device descriptor is refused",
        device: FUNCTION,
        quirk: "stalls = [\"device\"]\n",
        low: false,
        hits: &[],
        answer: "stalled",
        attempts: 2,
        trace: STALLED_DEVICE,
    },
    Row {
        name: "the address is refused",
        device: FUNCTION,
        quirk: "stalls = [\"address\"]\n",
        low: false,
        hits: &[],
        answer: "stalled",
        attempts: 5,
        trace: STALLED_ADDRESS,
    },
    Row {
        name: "configuration descriptors are refused",
        device: FUNCTION,
        quirk: "stalls = [\"config\"]\n",
        low: false,
        hits: &[],
        answer: "stalled",
        attempts: 10,
        trace: STALLED_CONFIG,
    },
    Row {
        name: "the configuration is refused",
        device: FUNCTION,
        quirk: "stalls = [\"set_config\"]\n",
        low: false,
        hits: &[],
        answer: "stalled",
        attempts: 16,
        trace: STALLED_SET_CONFIG,
    },
];

fn readied(alloc: Global, row: &Row) -> Result<Told, Fail> {
    let mut bus = bus_of(alloc, 10_000, row.device, row.quirk, row.hits)?;
    let answer = made_ready(alloc, &mut bus, target_of(row.low))?;
    told(alloc, answer, bus, 0)
}

#[test]
fn a_device_is_made_ready(rt: HostRuntime) -> Result<(), Fail> {
    for row in &ROWS {
        let (answer, attempts, trace) = readied(rt.alloc(), row)?;
        let wanted = row.trace.concat(rt.alloc())?;
        assert_eq!(rt;
            (answer.as_str(), attempts, trace.as_str()),
            (row.answer, row.attempts, wanted.as_str()),
            "{}",
            row.name
        );
    }
    Ok(())
}

/// After n attempts the bus makes no more.
const LIMITS: [u64; 7] = [0, 1, 2, 3, 4, 10, 15];

/// Making a device ready, and then SET_ADDRESS.
fn ready_and_named<B: Bus>(alloc: Global, bus: &mut B) -> Result<String, Fail> {
    let mut answers = made_ready(alloc, bus, TARGET)?;
    let again = control_none(bus, TARGET, Setup::set_address(1));
    tell_done(alloc, &mut answers, again)?;
    Ok(answers)
}

fn limited(alloc: Global, limit: u64) -> Result<Told, Fail> {
    let mut bus = bus_of(alloc, limit, FUNCTION, "", &[])?;
    let answers = ready_and_named(alloc, &mut bus)?;
    told(alloc, answers, bus, 0)
}

#[test]
fn the_limit_is_handed_on(rt: HostRuntime) -> Result<(), Fail> {
    let whole = FUNCTION_TRACE.concat(rt.alloc())?;
    for limit in LIMITS {
        let (answers, attempts, trace) = limited(rt.alloc(), limit)?;
        assert_eq!(rt;
            (
                answers.as_str(),
                attempts,
                whole.as_str().starts_with(trace.as_str())
            ),
            ("limit reached, limit reached", limit, true),
            "{limit}"
        );
    }
    Ok(())
}

/// How many bytes of the device descriptor are asked for, those that come, and how many attempts are made with the 21
/// that make the device ready. A packet that is as long as is requested ends the data stage, also if it is a whole one.
const LENGTHS: [(u16, &str, u64); 8] = [
    (1, "12", 24),
    (7, "12011001000000", 24),
    (8, "1201100100000008", 24),
    (9, "120110010000000834", 25),
    (16, "12011001000000083412010000010000", 25),
    (17, "1201100100000008341201000001000000", 26),
    (18, LOW_DEVICE, 26),
    (255, LOW_DEVICE, 26),
];

/// GET_DESCRIPTOR of a device that was made ready.
fn described<B: Bus>(alloc: Global, bus: &mut B, length: u16) -> Result<String, Fail>
    requires { 1 ≤ length }
{
    make_ready(alloc, bus, LOW_TARGET)?;
    let request = Setup::get_device_descriptor(length);
    let bytes = control_in(alloc, bus, LOW_TARGET, request);
    let mut answer = String::new(alloc);
    tell(alloc, &mut answer, bytes)?;
    Ok(answer)
}

fn asked_for(alloc: Global, length: u16) -> Result<(String, u64), Fail>
    requires { 1 ≤ length }
{
    let mut bus = bus_of(alloc, 10_000, LOW, "", &[])?;
    let answer = described(alloc, &mut bus, length)?;
    Ok((answer, bus.attempts()))
}

#[test]
fn the_length_ends_the_answer(rt: HostRuntime) -> Result<(), Fail> {
    for (length, bytes, attempts) in LENGTHS {
        let (answer, made) = asked_for(rt.alloc(), length)?;
        assert_eq!(rt; (answer.as_str(), made), (bytes, attempts), "{length}");
    }
    Ok(())
}
