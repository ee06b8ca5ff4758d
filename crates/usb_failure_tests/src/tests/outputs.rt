//! Writers behind a buffer that fail once: what went out of each plan's text, and the fault that is reported.
use super::frail::{Frail, Late, Trouble};
use super::served::{PLANS, Served, served_plans};
use super::writers::fault_in_line;
use std::alloc::{AllocError, Global};
use std::io::Write;
use std::test::Fail;
use usb_run::{Mode, RunFault};
use usb_serve::{Output, ROOM, ServeFault, serve_through};
use usb_watch::Watched;

/// More than any of these texts has.
const WHOLE: usize = 65_536;

/// How serving through a buffer ended, the mark of its writer, how many bytes went out, and whether they are a prefix
/// of the text.
#[derive(Clone, Copy, Debug, PartialEq)]
struct Outcome {
    ended: Result<(), ServeFault>,
    is_marked: bool,
    taken: usize,
    is_front: bool,
}

/// What is served through a buffer of this room to a writer with trouble after n calls, and none after that.
fn served(
    alloc: Global,
    row: &Served,
    room: usize,
    (trouble, turn): (Trouble, usize),
) -> Result<Outcome, AllocError> {
    let writer = Frail {
        taken: Vec::new(alloc),
        at_once: WHOLE,
        writes_left: turn as u64,
        trouble,
    };
    let output = Output::new(alloc, room, writer)?;
    let mut reader = Watched::new(row.plan.as_bytes());
    let (ended, writer) = serve_through(alloc, row.mode, &mut reader, output);
    let is_marked = writer.failed();
    let taken = writer.into_inner().taken;
    Ok(Outcome {
        ended,
        is_marked,
        taken: taken.len(),
        is_front: row.text.as_bytes().starts_with(taken.as_slice()),
    })
}

/// How many bytes a text has before its line n + 1.
fn bytes_of(text: &str, lines: usize) -> usize {
    let Some(last) = lines.checked_sub(1) else {
        return 0;
    };
    let bytes = text.as_bytes().iter().enumerate();
    let ends = bytes.filter(|(_, byte)| **byte == b'\n');
    ends.map(|(at, _)| at.saturating_add(1))
        .nth(last)
        .unwrap_or(text.len())
}

/// How many bytes of a text go out in n calls of a writer: one after each listing, and one at the end.
fn bytes_out(text: &str, calls: usize) -> usize {
    let Some(last) = calls.checked_sub(1) else {
        return 0;
    };
    let ends = text.lines().enumerate().filter(|(_, line)| *line == "end");
    let lines = ends
        .map(|(at, _)| at.saturating_add(1))
        .nth(last)
        .unwrap_or(text.lines().count());
    bytes_of(text, lines)
}

/// What is expected where this fault ends serving, or nothing fails, and this many bytes went out.
fn wanted(fault: Option<ServeFault>, taken: usize) -> Outcome {
    Outcome {
        ended: match fault {
            Some(fault) => Err(fault),
            None => Ok(()),
        },
        is_marked: fault.is_some(),
        taken,
        is_front: true,
    }
}

/// The writer fails in call n + 1, in the last line of a listing or at the end.
#[test]
fn each_listing_goes_out_at_once(rt: HostRuntime) -> Result<(), Fail> {
    for row in &served_plans(rt.alloc(), &PLANS)? {
        for trouble in [Trouble::Fails, Trouble::TakesNothing] {
            for turn in 0..=row.text.lines().count() {
                let taken = bytes_out(row.text.as_str(), turn);
                let fault = Some(ServeFault::Write).filter(|_| taken < row.text.len());
                let outcome = served(rt.alloc(), row, ROOM, (trouble, turn))?;
                assert_eq!(rt; outcome, wanted(fault, taken), "{turn} of {}", row.text);
            }
        }
    }
    Ok(())
}

/// Where nothing waits, the writer fails in line n + 1.
#[test]
fn each_line_goes_out_at_once_where_nothing_waits(rt: HostRuntime) -> Result<(), Fail> {
    for row in &served_plans(rt.alloc(), &PLANS)? {
        let lines = row.text.lines().count();
        for turn in 0..=lines {
            let fault = Some(fault_in_line(row, turn)).filter(|_| turn < lines);
            let outcome = served(rt.alloc(), row, 0, (Trouble::Fails, turn))?;
            let taken = bytes_of(row.text.as_str(), turn);
            assert_eq!(rt; outcome, wanted(fault, taken), "{turn} of {}", row.text);
        }
    }
    Ok(())
}

/// Whether all went out and nothing is reported, or a prefix did and the writer is reported to have failed.
fn is_told(row: &Served, outcome: Outcome) -> bool {
    let is_whole = outcome.taken == row.text.len();
    let is_failure = matches!(
        outcome.ended,
        Err(ServeFault::Write | ServeFault::Run(RunFault::TraceFailed))
    );
    outcome.is_front
        && outcome.is_marked != is_whole
        && (if is_whole {
            outcome.ended.is_ok()
        } else {
            is_failure
        })
}

#[test]
fn a_failed_write_is_told_with_any_room(rt: HostRuntime) -> Result<(), Fail> {
    for row in &served_plans(rt.alloc(), &PLANS)? {
        if row.mode == Mode::Tree {
            continue;
        }
        for room in [0, 1, 10, 100, 1000] {
            for turn in 0..=row.text.lines().count() {
                let outcome = served(rt.alloc(), row, room, (Trouble::Fails, turn))?;
                assert!(rt;
                    is_told(row, outcome),
                    "room for {room}, {turn} of {}",
                    row.text
                );
            }
        }
    }
    Ok(())
}

/// What is served through a buffer to a writer that keeps what it takes up to its next flush. The flush n + 1
/// fails.
fn flushed(alloc: Global, row: &Served, turn: usize) -> Result<Outcome, AllocError> {
    let writer = Late {
        flushed: Vec::new(alloc),
        kept: Vec::new(alloc),
        flushes_left: turn as u64,
    };
    let output = Output::new(alloc, ROOM, writer)?;
    let mut reader = Watched::new(row.plan.as_bytes());
    let (ended, writer) = serve_through(alloc, row.mode, &mut reader, output);
    let is_marked = writer.failed();
    let taken = writer.into_inner().flushed;
    Ok(Outcome {
        ended,
        is_marked,
        taken: taken.len(),
        is_front: row.text.as_bytes().starts_with(taken.as_slice()),
    })
}

/// One flush is made after each listing, and one at the end.
#[test]
fn a_failed_flush_is_told(rt: HostRuntime) -> Result<(), Fail> {
    for row in &served_plans(rt.alloc(), &PLANS)? {
        let listings = row.text.lines().filter(|line| *line == "end").count();
        for turn in 0..5usize {
            let fault = Some(ServeFault::Write).filter(|_| turn <= listings);
            let outcome = flushed(rt.alloc(), row, turn)?;
            let taken = bytes_out(row.text.as_str(), turn);
            assert_eq!(rt; outcome, wanted(fault, taken), "{turn} of {}", row.text);
        }
    }
    Ok(())
}

/// A text that is no plan, and a writer that failed before: nothing is read of it.
#[test]
fn nothing_is_read_for_a_writer_that_has_failed(rt: HostRuntime) -> Result<(), Fail> {
    let writer = Frail {
        taken: Vec::new(rt.alloc()),
        at_once: WHOLE,
        writes_left: 0,
        trouble: Trouble::Fails,
    };
    let mut output = Output::new(rt.alloc(), 0, writer)?;
    assert!(rt; output.write(b"lost").is_err());
    let mut reader = Watched::new("limit".as_bytes());
    let (ended, writer) = serve_through(rt.alloc(), Mode::Run, &mut reader, output);
    assert_eq!(rt;
        (ended, writer.failed(), reader.calls()),
        (Err(ServeFault::Write), true, 0)
    );
    Ok(())
}
