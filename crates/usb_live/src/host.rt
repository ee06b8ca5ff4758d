//! The host, from the hello to the end.
ghost use Rattle.std.specs.Prelude.{◌≡◌, IfOk, IfSome, OnOk, false};
ghost use Rattle.usb_run.specs.{usual_options, written_lines};
ghost use Rattle.usb_watch.specs.Pipes.{out_pipe_of, pipe_of};
ghost use Rattle.usb_live.specs.Course.{IsShown, ListsEntries, Lives, goes_on, live_host, told_text};
ghost use Rattle.usb_live.specs.Wanted.{IsOwed};

use crate::bus::{Begun, CourseBus};
use crate::end::LiveEnd;
use crate::wanted::item_of;
use std::alloc::{AllocError, Global};
use std::io::{Read, Write};
use std::marker::Brand;
use usb_run::{Host, HostFault, Item, Round, RunFault, item_lines};
use usb_watch::Watched;
use usb_wire::Answer;

/// The number of rounds in a row that may work before the one after which the host asks what is
/// requested in any case.
const BUSY_ROUNDS: u16 = 256;

/// A host over a controller side.
type LiveHost<R, W, B> = Host<CourseBus<R, W, B>>;

/// Says the hello to the controller side, finds its devices, and does what is requested until the end
/// is. Listings, transfers, looks and news are reported in the lines of `usbplan tree`. At most
/// `limit` questions are asked. With `wide_hubs` the host takes hubs of 8 to 15 ports, and status
/// endpoints of any number (11.23). Hands the reader and the writer back.
///
/// # Errors
///
/// - `Line`: the bus has this fault. After it nothing is asked or reported.
/// - `Rounds`: `limit` questions were asked, in the same number of rounds. No controller side has caused it.
/// - `Memory`: memory was refused. It may be returned at any time.
pub fn live<R: Read + Drop, W: Write + Drop>(
    alloc: Global,
    reader: Watched<R>,
    writer: Watched<W>,
    limit: u64,
    wide_hubs: bool,
) -> (Result<(), LiveEnd>, Watched<R>, Watched<W>)
    ensures { ∥ Lives (live_host wide_hubs limit) (pipe_of R.remaining reader)
        (pipe_of R.remaining result.1) (out_pipe_of W.contents writer)
        (out_pipe_of W.contents result.2) result.0 ∥₁ }
{
    course::<R, W, Brand>(alloc, reader, writer, limit, wide_hubs)
}

/// The same, of a course that begins where the bound says.
fn course<R: Read + Drop, W: Write + Drop, B: Begun>(
    alloc: Global,
    reader: Watched<R>,
    writer: Watched<W>,
    limit: u64,
    wide_hubs: bool,
) -> (Result<(), LiveEnd>, Watched<R>, Watched<W>)
    requires host { live_host wide_hubs limit ≡ B.host }
    requires unread { pipe_of R.remaining reader ≡ B.unread }
    requires before { out_pipe_of W.contents writer ≡ B.before }
    ensures { ∥ Lives (live_host wide_hubs limit) (pipe_of R.remaining reader)
        (pipe_of R.remaining result.1) (out_pipe_of W.contents writer)
        (out_pipe_of W.contents result.2) result.0 ∥₁ }
{
    let bus = CourseBus::<R, W, B>::open(reader, writer, limit, wide_hubs);
    let mut host = host_over(alloc, bus, wide_hubs);
    let ran = run(alloc, &mut host, limit);
    host.into_bus().finish(ran)
}

/// A host over a bus, which takes wide hubs or not.
fn host_over<R: Read + Drop, W: Write + Drop, B: Begun>(
    alloc: Global,
    bus: CourseBus<R, W, B>,
    wide_hubs: bool,
) -> LiveHost<R, W, B>
    ensures { result.options ≡ usual_options wide_hubs }
{
    if wide_hubs {
        Host::with_wide_hubs(alloc, bus)
    } else {
        Host::new(alloc, bus)
    }
}

/// Makes rounds. After a quiet one, or 257 in a row that worked, it does what is requested, until that is
/// the end.
fn run<R: Read + Drop, W: Write + Drop, B: Begun>(
    alloc: Global,
    host: &mut LiveHost<R, W, B>,
    limit: u64,
) -> Result<(), LiveEnd>
    requires options { host.old.options ≡ usual_options B.host.wide }
{
    let mut busy = 0u16;
    // a round that worked has asked something, and so has each other turn
    'turns: for _ in 0..limit {
        let round = round_of(host)?;
        if goes_on(round, busy) {
            busy += 1;
            continue 'turns;
        }
        busy = 0;
        let answer = wanted(host)?;
        let is_end = matches!(answer, Answer::End);
        if let Some(item) = done(alloc, host, answer)? {
            tell(alloc, host, &item)?;
        }
        if is_end {
            return Ok(());
        }
    }
    Err(LiveEnd::Rounds(lines_of(host)))
}

/// Whether another round is made before the host asks what is requested: this one worked, and fewer than
/// 256 in a row did before it.
fn goes_on(round: Round, busy: u16) -> bool
    ensures { result ≡ goes_on round busy }
{
    match round {
        Round::Worked => busy < BUSY_ROUNDS,
        Round::Quiet => false,
    }
}

/// One round, after which neither the host has stopped nor the bus has a fault.
fn round_of<R: Read + Drop, W: Write + Drop, B: Begun>(
    host: &mut LiveHost<R, W, B>,
) -> Result<Round, LiveEnd>
    // A round that failed is not taken for one that was done.
    ensures done { OnOk result (host.new.stopped ≡ false) }
    ensures options { host.new.options ≡ host.old.options }
{
    match host.round() {
        // calls at root ports tell no fault
        Ok(round) => match host.bus().bus().fault() {
            Some(fault) => Err(LiveEnd::Line(lines_of(host), fault)),
            None => Ok(round),
        },
        Err(HostFault::Bus(_)) => Err(bus_end(host)),
        Err(HostFault::Stopped | HostFault::Transfer(_) | HostFault::Memory) => Err(
            LiveEnd::Memory,
        ),
    }
}

/// The end at a fault of the bus.
fn bus_end<R: Read + Drop, W: Write + Drop, B: Begun>(host: &LiveHost<R, W, B>) -> LiveEnd {
    match host.bus().bus().fault() {
        Some(fault) => LiveEnd::Line(lines_of(host), fault),
        None => LiveEnd::Memory,
    }
}

/// What is requested.
fn wanted<R: Read + Drop, W: Write + Drop, B: Begun>(
    host: &mut LiveHost<R, W, B>,
) -> Result<Answer, LiveEnd>
    ensures options { host.new.options ≡ host.old.options }
{
    match host.bus_mut().wait() {
        Ok(answer) => Ok(answer),
        Err(fault) => Err(LiveEnd::Line(lines_of(host), fault)),
    }
}

/// Does what is requested, once. Returns the item that is reported of it, if there is one.
fn done<R: Read + Drop, W: Write + Drop, B: Begun>(
    alloc: Global,
    host: &mut LiveHost<R, W, B>,
    answer: Answer,
) -> Result<Option<Item>, LiveEnd>
    // A listing is of what the host has found, and such a host may hold it.
    ensures lists { IfOk result (ListsEntries answer host.new.entries) }
    ensures shown { IfOk result (λ item. IfSome item (IsShown host.new.options)) }
    ensures options { host.new.options ≡ host.old.options }
    // Nothing that is wanted is dropped.
    ensures owed { IfOk result (IsOwed answer) }
{
    match item_of(alloc, host, answer) {
        Ok(item) => Ok(item),
        Err(RunFault::Memory) => Err(LiveEnd::Memory),
        Err(RunFault::LimitReached | RunFault::TraceFailed) => Err(bus_end(host)),
    }
}

/// Reports the lines of an item, at once, if it is the one that is owed.
fn tell<R: Read + Drop, W: Write + Drop, B: Begun>(
    alloc: Global,
    host: &mut LiveHost<R, W, B>,
    item: &Item,
) -> Result<(), LiveEnd>
    requires shown { IsShown (usual_options B.host.wide) item.now }
    ensures options { host.new.options ≡ host.old.options }
{
    let bus = host.bus_mut();
    if !bus.owes(item) {
        return Ok(());
    }
    let text = text_of(alloc, bus.number(item), item)?;
    match bus.tell(item, text.as_slice()) {
        Ok(()) => Ok(()),
        Err(fault) => Err(LiveEnd::Line(bus.bus().lines(), fault)),
    }
}

/// The lines of an item, end to end.
fn text_of(alloc: Global, number: u64, item: &Item) -> Result<Vec<u8>, AllocError>
    ensures { IfOk result (λ text. text.items ≡ told_text number item.now) }
{
    let lines = item_lines(alloc, number, item)?;
    joined(alloc, lines.as_slice())
}

/// The lines end to end, each with a newline.
fn joined(alloc: Global, lines: &[Vec<u8>]) -> Result<Vec<u8>, AllocError>
    ensures { IfOk result (λ text. text.items ≡ written_lines lines.now) }
{
    let mut text = Vec::new(alloc);
    'lines: for line in lines {
        text.extend_from_slice(line.as_slice())?;
        text.push(b'\n')?;
    }
    Ok(text)
}

/// How many lines were read.
fn lines_of<R: Read + Drop, W: Write + Drop, B: Begun>(host: &LiveHost<R, W, B>) -> u64 {
    host.bus().bus().lines()
}
