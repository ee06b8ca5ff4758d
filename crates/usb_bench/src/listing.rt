//! The listings that a host reports.
ghost use Rattle.std.specs.Prelude.{◌≡◌, ℕ, map, flat_map, IfErr, IfOk, OnOk};
ghost use Rattle.usb_far.specs.FarEnd.{played_of};
ghost use Rattle.usb_verdict.specs.Texts.{counted};
ghost use Rattle.usb_bench.specs.Reports.{LineTaken, ListingJudged, Taken, opened, judgement_said, refusal};
ghost use Rattle.usb_bench.specs.Said.{IsUnsaid, Says};

use crate::fault::BenchFault;
use crate::judge::Block;
use crate::said::put;
use std::alloc::Global;
use std::str;
use usb_far::FarEnd;
use usb_judge::{Claim, Judgement};
use usb_sim::Trace;
use usb_verdict::{
    ListedPort, ListingFault, ReportedListing, Tally, fault_line, judgement_line, refusal_line,
    verdict,
};

/// The last line of a listing, and of news.
const BLOCK_END: &[u8] = b"end";

/// The first line of news.
const NEWS: &[u8] = b"news";

/// What a line begins where none is open, if it begins something.
pub(crate) fn opened(alloc: Global, line: &[u8]) -> Option<Block>
    ensures { result ≡ opened line.now }
{
    if line.starts_with(b"listing ") {
        Some(Block::Listing(ReportedListing::new(alloc)))
    } else if line == NEWS {
        Some(Block::News)
    } else {
        None
    }
}

/// Takes a line of a listing or of news. What is wrong with a listing that it ends goes to the trace.
///
/// # Errors
///
/// - `Memory`: memory was refused.
/// - `Far`: the trace failed, or the bus before.
pub(crate) fn take_line<T: Trace>(
    alloc: Global,
    far: &mut FarEnd<T>,
    tally: Tally,
    block: Block,
    line: &[u8],
) -> Result<(Tally, Block), BenchFault>
    ensures taken { IfOk result (λ next. Taken line.now (played_of far.old) tally block next
        (played_of far.new)) }
    ensures fault { IfErr result (IsUnsaid (played_of far.new)) }
{
    let is_end = line == BLOCK_END;
    match block {
        Block::Listing(listing) => {
            if is_end {
                let tally = end_listing(alloc, far, tally, listing.ports())?;
                Ok((tally, Block::Outside))
            } else {
                let block = with_line(alloc, far, listing, line)?;
                Ok((tally, block))
            }
        }
        Block::Broken => {
            if is_end {
                Ok((tally.with_fault(), Block::Outside))
            } else {
                Ok((tally, Block::Broken))
            }
        }
        Block::News => {
            if is_end {
                Ok((tally, Block::Outside))
            } else {
                Ok((tally, Block::News))
            }
        }
        Block::Outside => Ok((tally, Block::Outside)),
    }
}

/// The listing with a line more. Of one that says nothing its fault goes to the trace.
fn with_line<T: Trace>(
    alloc: Global,
    far: &mut FarEnd<T>,
    listing: ReportedListing,
    line: &[u8],
) -> Result<Block, BenchFault>
    ensures taken { IfOk result (λ block. LineTaken listing line.now (played_of far.old) block
        (played_of far.new)) }
    ensures fault { IfErr result (IsUnsaid (played_of far.new)) }
{
    let mut listing = listing;
    let fault = match str::from_utf8(line) {
        Ok(text) => match listing.take(alloc, text) {
            Ok(()) => return Ok(Block::Listing(listing)),
            Err(fault) => fault,
        },
        Err(_) => ListingFault::NoLine,
    };
    match fault {
        ListingFault::Memory => Err(BenchFault::Memory),
        _ => {
            let text = fault_line(alloc, far.bus().attempts(), fault)?;
            put(far, text.as_slice())?;
            Ok(Block::Broken)
        }
    }
}

/// Judges a listing that has ended: which devices are refused, and what is wrong.
fn end_listing<T: Trace>(
    alloc: Global,
    far: &mut FarEnd<T>,
    tally: Tally,
    ports: &[ListedPort],
) -> Result<Tally, BenchFault>
    ensures judged { IfOk result (λ next. (count : ℕ) × (next ≡ counted count tally)
        × ListingJudged ports.now (played_of far.old) count (played_of far.new)) }
    ensures fault { IfErr result (IsUnsaid (played_of far.new)) }
{
    put_refusals(alloc, far, ports)?;
    let judgements = verdict(alloc, far.bus(), ports)?;
    put_judgements(alloc, far, judgements.as_slice())?;
    Ok(tally.with(judgements.as_slice()))
}

/// Writes which devices are refused.
fn put_refusals<T: Trace>(
    alloc: Global,
    far: &mut FarEnd<T>,
    ports: &[ListedPort],
) -> Result<(), BenchFault>
    ensures said { OnOk result (Says (played_of far.old)
        (flat_map (refusal (played_of far.old).far.world.attempts) ports.now)
        (played_of far.new)) }
    ensures fault { IfErr result (IsUnsaid (played_of far.new)) }
{
    'ports: for port in ports {
        put_refusal(alloc, far, port)?;
    }
    Ok(())
}

/// Writes that a device is refused, if it is.
fn put_refusal<T: Trace>(
    alloc: Global,
    far: &mut FarEnd<T>,
    port: &ListedPort,
) -> Result<(), BenchFault>
    ensures said { OnOk result (Says (played_of far.old)
        (refusal (played_of far.old).far.world.attempts port.now) (played_of far.new)) }
    ensures fault { IfErr result (IsUnsaid (played_of far.new)) }
{
    match &port.claim {
        Claim::Device(_) => Ok(()),
        Claim::Refused => {
            let text = refusal_line(alloc, far.bus().attempts(), &port.path)?;
            put(far, text.as_slice())
        }
    }
}

/// Writes what is wrong.
fn put_judgements<T: Trace>(
    alloc: Global,
    far: &mut FarEnd<T>,
    judgements: &[Judgement],
) -> Result<(), BenchFault>
    ensures said { OnOk result (Says (played_of far.old)
        (map (judgement_said (played_of far.old).far.world.attempts) judgements.now)
        (played_of far.new)) }
    ensures fault { IfErr result (IsUnsaid (played_of far.new)) }
{
    'judgements: for judgement in judgements {
        let text = judgement_line(alloc, far.bus().attempts(), judgement)?;
        put(far, text.as_slice())?;
    }
    Ok(())
}
