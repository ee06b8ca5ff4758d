//! A packet that a device has no memory for.

use super::plans::{BULK, ONE_PORT, SET_ADDRESS_1, SET_CONFIGURATION};
use super::row::{Told, joined, otherwise};
use super::step::{Step, told};
use std::alloc::{AllocError, Global};
use std::test::Fail;
use usb_packet::Speed::Full;
use usb_sim::{SimBus, Tracer};
use usb_testbus::{bus_of, trace_of};

const PLUG_BULK: &str = r#"
[[event]]
do = "plug"
path = "1"
device = "bulk"
"#;

/// The function gets address 1 and its configuration.
const CONFIGURED: &[Told<'static>] = &[
    (Step::Event, "changed"),
    (Step::Reset(1), ""),
    (Step::Asks(Full, 0, SET_ADDRESS_1), "data"),
    (Step::Asks(Full, 1, SET_CONFIGURATION), "data"),
    (Step::Registers("1"), "Some((1, 1))"),
];

/// What the OUT reported, and the steps after it. If the sink was refused memory, the attempt was not made; a fault
/// stays.
#[derive(Clone, Copy)]
struct Sent {
    told: &'static str,
    steps: &'static [Told<'static>],
}

const SENT: &[Sent] = &[
    Sent {
        told: "ack",
        steps: &[
            (Step::Counts, "attempts 5, events 1 of 1, losses 0, worst 0"),
            (Step::Sink("1"), "Some([7, 8])"),
        ],
    },
    Sent {
        told: "out of memory",
        steps: &[
            (Step::Counts, "attempts 4, events 1 of 1, losses 0, worst 0"),
            (Step::Sink("1"), "Some([])"),
            (Step::BulkOut, "out of memory"),
            (Step::Event, "out of memory"),
            (Step::Line("end"), "out of memory"),
            (Step::BulkOut, "out of memory"),
            (Step::Event, "out of memory"),
            (Step::Line("end"), "out of memory"),
            (Step::Counts, "attempts 4, events 1 of 1, losses 0, worst 0"),
        ],
    },
    Sent {
        told: "trace failed",
        steps: &[
            (Step::Counts, "attempts 5, events 1 of 1, losses 0, worst 0"),
            (Step::Sink("1"), "Some([7, 8])"),
            (Step::BulkOut, "trace failed"),
            (Step::Event, "trace failed"),
            (Step::Line("end"), "trace failed"),
            (Step::BulkOut, "trace failed"),
            (Step::Event, "trace failed"),
            (Step::Line("end"), "trace failed"),
            (Step::Counts, "attempts 5, events 1 of 1, losses 0, worst 0"),
        ],
    },
];

/// Calls at root ports go on, also after a fault.
const CALLS: &[Told<'static>] = &[
    (Step::Status(1), "[3, 1, 0, 0]"),
    (Step::Set(1, 4), ""),
    (Step::Status(1), "[3, 1, 16, 0]"),
    (Step::Registers("1"), "Some((0, 0))"),
];

/// The steps after the OUT that reported this; None if no row wants it.
fn steps_behind(words: &str) -> Option<&'static [Told<'static>]> {
    for row in SENT {
        if words == row.told {
            return Some(row.steps);
        }
    }
    None
}

/// Sends two bytes to the function; what went otherwise than expected.
fn sent_otherwise(alloc: Global, bus: &mut SimBus<Tracer<Vec<u8>>>) -> Result<String, AllocError> {
    let words = otherwise(alloc, bus, CONFIGURED, &[])?;
    if !words.is_empty() {
        return Ok(words);
    }
    let words = told(alloc, bus, Step::BulkOut)?;
    match steps_behind(words.as_str()) {
        Some(steps) => otherwise(alloc, bus, steps, CALLS),
        None => Ok(words),
    }
}

/// The same at the bus of a plan.
fn went_otherwise(alloc: Global) -> Result<String, Fail> {
    let text = joined(alloc, &[ONE_PORT, BULK, PLUG_BULK])?;
    let mut bus = bus_of(alloc, text.as_str())?;
    let words = sent_otherwise(alloc, &mut bus);
    trace_of(bus);
    Ok(words?)
}

#[test]
fn a_sink_takes_data_or_is_refused_memory(rt: HostRuntime) -> Result<(), Fail> {
    assert_eq!(rt; went_otherwise(rt.alloc())?.as_str(), "");
    Ok(())
}
