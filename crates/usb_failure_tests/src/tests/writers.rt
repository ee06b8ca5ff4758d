//! Writers that take little, and fail: what went out of each plan's text, and the fault that is reported.
use super::frail::{Frail, Trouble};
use super::served::{ONE_FUNCTION, PLANS, Plan, Served, served_plans};
use std::alloc::Global;
use std::test::Fail;
use usb_run::RunFault;
use usb_serve::{ServeFault, serve};
use usb_watch::Watched;

/// Room for every line.
const WHOLE: usize = 4096;

/// How a writer takes the texts of these plans: n bytes at once, with trouble at one call.
#[derive(Clone, Copy)]
struct Manner {
    plans: &'static [Plan],
    at_once: usize,
    trouble: Trouble,
}

const MANNERS: [Manner; 4] = [
    Manner {
        plans: &PLANS,
        at_once: WHOLE,
        trouble: Trouble::Fails,
    },
    Manner {
        plans: &[ONE_FUNCTION],
        at_once: WHOLE,
        trouble: Trouble::TakesNothing,
    },
    Manner {
        plans: &PLANS,
        at_once: WHOLE,
        trouble: Trouble::TakesOne,
    },
    Manner {
        plans: &[ONE_FUNCTION],
        at_once: 1,
        trouble: Trouble::Fails,
    },
];

/// What a plan's writer was left with: how serving ended, the mark and the calls of the writer, how many bytes or lines
/// it took, and whether they are a prefix of the text.
#[derive(Clone, Copy, Debug, PartialEq)]
struct Outcome {
    ended: Result<(), ServeFault>,
    is_marked: bool,
    calls: usize,
    taken: usize,
    is_front: bool,
}

fn line_ends(bytes: &[u8]) -> usize {
    bytes.iter().filter(|byte| **byte == b'\n').count()
}

/// How many pieces bytes are: each byte where they go singly, else each line.
fn pieces(at_once: usize, bytes: &[u8]) -> usize {
    if at_once == 1 {
        return bytes.len();
    }
    line_ends(bytes)
}

/// What is served to a writer of this manner, with its trouble after n calls.
fn served(alloc: Global, row: &Served, manner: Manner, turn: usize) -> Outcome {
    let writer = Frail {
        taken: Vec::new(alloc),
        at_once: manner.at_once,
        writes_left: turn as u64,
        trouble: manner.trouble,
    };
    let mut reader = Watched::new(row.plan.as_bytes());
    let (ended, writer) = serve(alloc, row.mode, &mut reader, Watched::new(writer));
    let is_marked = writer.failed();
    let calls = writer.calls() as usize;
    let taken = writer.into_inner().taken;
    Outcome {
        ended,
        is_marked,
        calls,
        taken: pieces(manner.at_once, taken.as_slice()),
        is_front: row.text.as_bytes().starts_with(taken.as_slice()),
    }
}

/// The fault of a writer that failed at this byte or line of a text.
fn fault_at(row: &Served, at_once: usize, turn: usize) -> ServeFault {
    let number = if at_once == 1 {
        line_ends(row.text.as_bytes().get(..turn).unwrap_or(b""))
    } else {
        turn
    };
    fault_in_line(row, number)
}

/// The fault of a writer that failed in line n + 1 of a text, or after the last: of a line of report where the tree
/// has that line too, else of a line of trace.
pub(super) fn fault_in_line(row: &Served, lines: usize) -> ServeFault {
    match row.text.lines().nth(lines) {
        Some(line) if !row.tree.lines().any(|other| other == line) => {
            ServeFault::Run(RunFault::TraceFailed)
        }
        _ => ServeFault::Write,
    }
}

/// What is expected of it.
fn wanted(row: &Served, manner: Manner, turn: usize) -> Outcome {
    let all = pieces(manner.at_once, row.text.as_bytes());
    let is_whole = turn == all || matches!(manner.trouble, Trouble::TakesOne);
    let again = usize::from(turn < all);
    Outcome {
        ended: if is_whole {
            Ok(())
        } else {
            Err(fault_at(row, manner.at_once, turn))
        },
        is_marked: !is_whole,
        calls: if is_whole { all } else { turn }.saturating_add(again),
        taken: if is_whole { all } else { turn },
        is_front: true,
    }
}

#[test]
fn each_write_has_trouble_in_turn(rt: HostRuntime) -> Result<(), Fail> {
    for manner in MANNERS {
        for row in &served_plans(rt.alloc(), manner.plans)? {
            for turn in 0..=pieces(manner.at_once, row.text.as_bytes()) {
                let outcome = served(rt.alloc(), row, manner, turn);
                assert_eq!(rt;
                    outcome,
                    wanted(row, manner, turn),
                    "{turn} of {}",
                    row.text
                );
            }
        }
    }
    Ok(())
}
