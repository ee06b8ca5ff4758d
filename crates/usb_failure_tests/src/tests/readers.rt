//! Readers that give little, fail or never end: the fault that is reported, and that nothing goes out.
use super::frail::{Long, Torn};
use super::served::{ONE_FUNCTION, PLANS, Served, served_plans};
use std::alloc::Global;
use std::test::Fail;
use usb_run::Mode;
use usb_serve::{ServeFault, serve};
use usb_watch::Watched;

/// The bytes that a reader is asked for at once.
const PIECE: usize = 16_384;

/// How serving ended, the mark and the calls of the reader, and whether a text went out, each line in a call of its
/// own; nothing if there is none.
#[derive(Clone, Copy, Debug, PartialEq)]
struct Outcome {
    ended: Result<(), ServeFault>,
    is_marked: bool,
    reads: u64,
    is_text: bool,
}

/// What is served of a plan by a reader of n bytes at once, one of whose calls fails, after n.
fn served(alloc: Global, row: &Served, at_once: usize, reads_left: u64) -> Outcome {
    let mut reader = Watched::new(Torn {
        text: row.plan.as_bytes(),
        at_once,
        reads_left,
    });
    let (ended, writer) = serve(alloc, row.mode, &mut reader, Watched::new(Vec::new(alloc)));
    let text = if ended.is_ok() { row.text.as_str() } else { "" };
    let calls = writer.calls();
    Outcome {
        ended,
        is_marked: reader.failed(),
        reads: reader.calls(),
        is_text: writer.into_inner().as_slice() == text.as_bytes()
            && calls == text.lines().count() as u64,
    }
}

/// What is expected of it, if this many reads give all of the plan and its end.
fn wanted(reads: u64, reads_left: u64) -> Outcome {
    let fails = reads_left < reads;
    Outcome {
        ended: if fails { Err(ServeFault::Read) } else { Ok(()) },
        is_marked: fails,
        reads: if fails {
            reads_left.saturating_add(1)
        } else {
            reads
        },
        is_text: true,
    }
}

#[test]
fn each_read_fails_in_turn(rt: HostRuntime) -> Result<(), Fail> {
    for row in &served_plans(rt.alloc(), &PLANS)? {
        for at_once in [1usize, 100, 4096] {
            let pieces = row.plan.len().div_ceil(at_once.clamp(1, PIECE)) as u64;
            let reads = pieces.saturating_add(1);
            for turn in 0..=reads {
                let outcome = served(rt.alloc(), row, at_once, turn);
                assert_eq!(rt;
                    outcome,
                    wanted(reads, turn),
                    "{at_once} at once: {}",
                    row.plan
                );
            }
        }
    }
    Ok(())
}

/// A plan and a comment after it without an end, in pieces of n, and how many reads there are at most.
#[test]
fn a_text_without_an_end_is_too_long(rt: HostRuntime) -> Result<(), Fail> {
    let plan = ONE_FUNCTION.concat(rt.alloc())?;
    for (at_once, reads) in [(PIECE, 66), (1, 1_048_577)] {
        let mut reader = Watched::new(Long {
            text: plan.as_bytes(),
            signs: usize::MAX.saturating_sub(plan.len()),
            at_once,
        });
        let writer = Watched::new(Vec::new(rt.alloc()));
        let (ended, writer) = serve(rt.alloc(), Mode::Run, &mut reader, writer);
        assert_eq!(rt; ended, Err(ServeFault::TooLong), "{at_once} at once");
        assert!(rt; writer.into_inner().is_empty(), "{at_once} at once");
        assert!(rt;
            reader.calls() <= reads && !reader.failed(),
            "{at_once} at once"
        );
    }
    Ok(())
}
