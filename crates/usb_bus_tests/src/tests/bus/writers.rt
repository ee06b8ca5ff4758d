//! Buses whose trace goes to a writer that takes one byte at a time, or fails.
ghost use Rattle.std.specs.Prelude.{◌≡◌, false};
ghost use Rattle.usb_watch.specs.Watch.{has_failed};

use super::hubs::{TO_LOW_DEVICE, TO_LOW_DEVICE_TRACE};
use super::plans::{HUB, ONE_FUNCTION};
use super::roots::{ENUMERATION, ENUMERATION_TRACE};
use super::row::{Told, joined, otherwise};
use super::step::Step;
use super::watched::Frail;
use std::alloc::{AllocError, Global};
use std::str;
use std::test::Fail;
use usb_packet::Speed::Full;
use usb_sim::{SimBus, Trace};
use usb_testbus::{bus_on, untraced_of};
use usb_watch::Watched;

/// How many writes there may be, and what becomes of the enumeration of a function and its trace.
#[derive(Clone, Copy)]
struct Writes {
    writes: u64,
    /// Whether the trace fails; then each later step says so again.
    is_cut: bool,
    /// How many bytes were taken.
    taken: usize,
}

const WRITES: &[Writes] = &[
    Writes {
        writes: 0,
        is_cut: true,
        taken: 0,
    },
    Writes {
        writes: 1,
        is_cut: true,
        taken: 1,
    },
    Writes {
        writes: 9,
        is_cut: true,
        taken: 9,
    },
    Writes {
        writes: 10,
        is_cut: true,
        taken: 10,
    },
    Writes {
        writes: 11,
        is_cut: true,
        taken: 11,
    },
    Writes {
        writes: 52,
        is_cut: true,
        taken: 52,
    },
    Writes {
        writes: 631,
        is_cut: true,
        taken: 631,
    },
    Writes {
        writes: 640,
        is_cut: true,
        taken: 640,
    },
    Writes {
        writes: 641,
        is_cut: false,
        taken: 641,
    },
    Writes {
        writes: 700,
        is_cut: false,
        taken: 641,
    },
    Writes {
        writes: 710,
        is_cut: false,
        taken: 641,
    },
    Writes {
        writes: 720,
        is_cut: false,
        taken: 641,
    },
];

/// What each step reports once the trace failed.
const AGAIN: &[Told<'static>] = &[
    (Step::Line("end"), "trace failed"),
    (Step::Event, "trace failed"),
    (Step::In(Full, 0), "trace failed"),
];

/// What became of an enumeration.
#[derive(Clone, Copy, Debug, PartialEq)]
struct Ended {
    is_whole: bool,
    is_cut: bool,
    is_marked: bool,
    taken: usize,
    is_front: bool,
}

/// A writer of one byte at a time, and n bytes at most.
fn frail(alloc: Global, writes_left: u64) -> Watched<Frail>
    ensures { has_failed result ≡ false }
{
    Watched::new(Frail {
        taken: Vec::new(alloc),
        at_once: 1,
        writes_left,
    })
}

/// How an enumeration goes.
#[derive(Clone, Copy)]
enum Course {
    /// Each step reports what is expected.
    Whole,
    /// The trace fails, and each later step says so again.
    Cut,
    Otherwise,
}

fn enumeration<T: Trace>(alloc: Global, bus: &mut SimBus<T>) -> Result<Course, AllocError> {
    if otherwise(alloc, bus, ENUMERATION, &[])?.is_empty() {
        return Ok(Course::Whole);
    }
    if otherwise(alloc, bus, AGAIN, &[])?.is_empty() {
        return Ok(Course::Cut);
    }
    Ok(Course::Otherwise)
}

fn enumerated(alloc: Global, writes: u64) -> Result<Ended, Fail> {
    let text = joined(alloc, ONE_FUNCTION)?;
    let trace = joined(alloc, ENUMERATION_TRACE)?;
    let mut bus = bus_on(alloc, text.as_str(), frail(alloc, writes))?;
    let course = enumeration(alloc, &mut bus);
    let writer = bus.into_writer();
    let is_marked = writer.failed();
    let taken = writer.into_inner().taken;
    let course = course?;
    Ok(Ended {
        is_whole: matches!(course, Course::Whole),
        is_cut: matches!(course, Course::Cut),
        is_marked,
        taken: taken.len(),
        is_front: trace.as_bytes().starts_with(taken.as_slice()),
    })
}

#[test]
fn each_write_fails_in_turn(rt: HostRuntime) -> Result<(), Fail> {
    for row in WRITES {
        let wanted = Ended {
            is_whole: !row.is_cut,
            is_cut: row.is_cut,
            is_marked: row.is_cut,
            taken: row.taken,
            is_front: true,
        };
        assert_eq!(rt;
            enumerated(rt.alloc(), row.writes)?,
            wanted,
            "at {}",
            row.writes
        );
    }
    Ok(())
}

/// How many writes there are in the enumeration of a function, to a writer that takes all it is given.
fn writes_of_enumeration(alloc: Global) -> Result<u64, Fail> {
    let text = joined(alloc, ONE_FUNCTION)?;
    let mut bus = bus_on(alloc, text.as_str(), Watched::new(Vec::new(alloc)))?;
    let told = otherwise(alloc, &mut bus, ENUMERATION, &[]);
    let writes = bus.into_writer().calls();
    told?;
    Ok(writes)
}

#[test]
fn each_line_is_one_write(rt: HostRuntime) -> Result<(), Fail> {
    let trace = joined(rt.alloc(), ENUMERATION_TRACE)?;
    let lines = trace.lines().count() as u64;
    assert_eq!(rt; writes_of_enumeration(rt.alloc())?, lines);
    Ok(())
}

/// What the way to a low-speed device reports otherwise than expected, and the trace that a writer of single bytes
/// took.
fn to_low_device(alloc: Global) -> Result<String, Fail> {
    let text = joined(alloc, HUB)?;
    let mut bus = bus_on(alloc, text.as_str(), frail(alloc, 10000))?;
    let words = otherwise(alloc, &mut bus, TO_LOW_DEVICE, &[]);
    let taken = bus.into_writer().into_inner().taken;
    let mut all = words?;
    all.push_str(str::from_utf8(taken.as_slice())?)?;
    Ok(all)
}

#[test]
fn a_low_speed_device_below_a_hub_is_read(rt: HostRuntime) -> Result<(), Fail> {
    assert_eq!(rt; to_low_device(rt.alloc())?.as_str(), TO_LOW_DEVICE_TRACE);
    Ok(())
}

/// An untraced bus reports what one that is traced reports.
#[test]
fn untraced_bus_tells_the_same(rt: HostRuntime) -> Result<(), Fail> {
    let text = joined(rt.alloc(), ONE_FUNCTION)?;
    let mut bus = untraced_of(rt.alloc(), text.as_str())?;
    let course = enumeration(rt.alloc(), &mut bus)?;
    assert!(rt; matches!(course, Course::Whole));
    Ok(())
}
