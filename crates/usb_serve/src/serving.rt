//! A plan's text in, the text of its run out.
ghost use Rattle.std.specs.Prelude.{◌≡◌, ◌≢◌, ◌+◌, ◌<◌, ◌≤◌, ◌++◌, IsSome, Ok, Err, true, false, IfErr, IfOk, IfSome, OnErr, OnOk, [], ◌∷◌};
ghost use Rattle.usb_watch.specs.Watch.{inner_of, has_failed, calls_of, PutsText};
ghost use Rattle.usb_plan.specs.Plan.{spelled_plan};
ghost use Rattle.usb_serve.specs.declared.serving.ServeFault.TheVariants as serve;
ghost use Rattle.usb_serve.specs.Outputs.{held};
ghost use Rattle.usb_serve.specs.ServedRuns.{IsUnread, IsWritten, Reads, Serves};
ghost use Rattle.usb_serve.specs.ServedThrough.{ServesThrough, writer_fault};
ghost use Rattle.usb_serve.specs.ServeResults.{IsCausedInRun, IsCausedInTree, IsOfRun, MarksWrite, MarksWriter, input_fault, report_fault};
ghost use Rattle.usb_serve.specs.WrittenItems.{ItemsWritten, TextWritten};
ghost use Rattle.usb_text.specs.ListingLines.{lines_text, written_lines};
ghost use Rattle.usb_run.specs.Run.{items_left};
ghost use Rattle.usb_run.specs.RunSegments.{Knows};
ghost use Rattle.usb_run.specs.Transcript.{Next};
ghost use Rattle.usb_serve.specs.ServedTranscripts.{LinesPut, RunEnds};

use crate::input::{InputFault, read_text};
use crate::items::{ItemLines, PlainLines};
use crate::output::Output;
use crate::tracing::OutputTracer;
use std::alloc::{AllocError, Global};
use std::io::{Read, Write};
use std::str;
use thiserror::Error;
use usb_plan::{PlanFault, bound, read_plan};
use usb_run::{Item, Mode, RunFault, Runner, item_lines, number_of};
use usb_sim::{Plan, Trace, Tracer, Untraced, untraced_fault};
use usb_text::bound_line;
use usb_watch::{Watched, WriteFailed};
use usb_world::BusFault;

/// Why a plan was not served to its end, in the order in which the reasons are reported.
#[derive(Clone, Copy, Debug, PartialEq, Eq, Error)]
pub enum ServeFault {
    /// The reader failed.
    #[error("read failed")]
    Read,
    /// The text is longer than 1,048,576 bytes.
    #[error("plan too long")]
    TooLong,
    /// The text is no plan.
    #[error("{0}")]
    Plan(PlanFault),
    /// The run ended early.
    #[error("{0}")]
    Run(RunFault),
    /// The writer failed in a line of report.
    #[error("write failed")]
    Write,
    /// Memory was refused.
    #[error("out of memory")]
    Memory,
}

impl From<AllocError> for ServeFault {
    ghost from_gives = { λ _ e. e ≡ serve.Memory };

    fn from(_e: AllocError) -> ServeFault {
        ServeFault::Memory
    }
}

impl From<InputFault> for ServeFault {
    ghost from_gives = { λ fault e. e ≡ input_fault fault };

    fn from(fault: InputFault) -> ServeFault {
        match fault {
            InputFault::Read => ServeFault::Read,
            InputFault::TooLong => ServeFault::TooLong,
            InputFault::Memory => ServeFault::Memory,
        }
    }
}

impl From<RunFault> for ServeFault {
    ghost from_gives = { λ fault e. e ≡ serve.Run fault };

    fn from(fault: RunFault) -> ServeFault {
        ServeFault::Run(fault)
    }
}

impl From<WriteFailed> for ServeFault {
    ghost from_gives = { λ _ e. e ≡ serve.Write };

    fn from(_e: WriteFailed) -> ServeFault {
        ServeFault::Write
    }
}

/// Reads a plan, runs it, and writes what the mode asks for, to a writer that has not failed yet. Hands the writer
/// back.
///
/// In mode Run that is the text of a run of the plan. It has the line of each attempt and event in their order, and the
/// lines of each listing and transfer after the attempts that it took. In mode Tree it is the lines of the listings and
/// transfers of a run, and the plan's bound after them. If the run ended early it is all that the run made so far, with
/// no bound; if the writer failed it is a prefix of that. At no attempt of the run did two devices that could be
/// reached hold one address. A plan of at most 127 plugs whose limit is its bound never comes to its limit.
///
/// # Errors
///
/// - `Read`: the reader failed.
/// - `TooLong`: the text is over the limit.
/// - `Plan`: the text is no plan.
/// - `Run`: the run ended early. `LimitReached`: the attempts made equal the plan's limit.
///   `TraceFailed`: in mode Run the writer failed at the line of an attempt or an event.
/// - `Write`: the writer failed in a line of report.
/// - `Memory`: memory was refused.
pub fn serve<R: Read, W: Write>(
    alloc: Global,
    mode: Mode,
    reader: &mut Watched<R>,
    writer: Watched<W>,
) -> (Result<(), ServeFault>, Watched<W>)
    requires unfailed { has_failed writer ≡ false }
    ensures calls { calls_of reader.new ≤ calls_of reader.old + 1048577 }
    ensures serves { Serves mode (R.remaining (inner_of reader.old)) (has_failed reader.new)
        (W.contents (inner_of writer)) result.0 (has_failed result.1)
        (W.contents (inner_of result.1)) }
{
    let (result, tracer) = serve_to(alloc, mode, reader, Tracer::new(writer));
    (result, tracer.into_writer())
}

/// Serves a plan to an output as `serve` does, lets out what waits then, and hands the writer back, with its mark.
///
/// All that `serve` says is written has gone out, or a prefix of it if the writer failed. If it had failed before,
/// nothing is read.
///
/// # Errors
///
/// - `Read`, `TooLong`, `Plan`, `Run`, `Memory`: as of [`serve`].
/// - `Write`: as of [`serve`], or the writer failed before, or when what waited was let out.
pub fn serve_through<R: Read, W: Write + Drop>(
    alloc: Global,
    mode: Mode,
    reader: &mut Watched<R>,
    output: Output<W>,
) -> (Result<(), ServeFault>, Watched<W>)
    ensures calls { calls_of reader.new ≤ calls_of reader.old + 1048577 }
    ensures serves { ServesThrough mode (R.remaining (inner_of reader.old)) (has_failed reader.new)
        (held W.contents output) result.0 (has_failed result.1)
        (W.contents (inner_of result.1)) }
{
    if output.has_ended() {
        return (Err(ServeFault::Write), output.finish().1);
    }
    let (told, tracer) = serve_to(alloc, mode, reader, OutputTracer::new(output));
    let (out, writer) = tracer.into_output().finish();
    (ended(told, out), writer)
}

/// How serving ended, once what waited was let out.
fn ended(told: Result<(), ServeFault>, out: Result<(), WriteFailed>) -> Result<(), ServeFault>
    ensures all { OnOk out (result ≡ told) }
    ensures failed { OnErr out (result ≡ Err (writer_fault told)) }
{
    match (out, told) {
        (Ok(()), _) | (Err(_), Err(ServeFault::Run(RunFault::TraceFailed))) => told,
        (Err(_), _) => Err(ServeFault::Write),
    }
}

/// Reads a plan, runs it, and lets this have what the mode asks for; it has not failed yet.
fn serve_to<R: Read, T: Trace>(
    alloc: Global,
    mode: Mode,
    reader: &mut Watched<R>,
    tracer: T,
) -> (Result<(), ServeFault>, T)
    requires unfailed { T.failed tracer ≡ false }
    ensures calls { calls_of reader.new ≤ calls_of reader.old + 1048577 }
    ensures serves { Serves mode (R.remaining (inner_of reader.old)) (has_failed reader.new)
        (T.text tracer) result.0 (T.failed result.1) (T.text result.1) }
{
    let plan = match plan_of(alloc, reader) {
        Ok(plan) => plan,
        Err(fault) => return (Err(fault), tracer),
    };
    match mode {
        Mode::Tree => serve_tree(alloc, &plan, tracer),
        Mode::Run => serve_run(alloc, &plan, tracer),
    }
}

/// The plan that a reader's text spells.
///
/// # Errors
///
/// - `Read`: the reader failed, here or before.
/// - `TooLong`: the text is over the limit.
/// - `Plan`: the text is no plan.
/// - `Memory`: memory was refused.
pub fn plan_of<R: Read>(alloc: Global, reader: &mut Watched<R>) -> Result<Plan, ServeFault>
    ensures calls { calls_of reader.new ≤ calls_of reader.old + 1048577 }
    // Read and TooLong are reported exactly if the reader has failed, and only for a long text.
    ensures reads { Reads (R.remaining (inner_of reader.old)) result (has_failed reader.new) }
    ensures plan { IfOk result (λ plan. IfSome (R.remaining (inner_of reader.old))
        (λ text. spelled_plan text ≡ Ok plan)) }
    ensures unread { IfErr result (IsUnread (R.remaining (inner_of reader.old))) }
{
    let text = read_text(alloc, reader)?;
    let Ok(text) = str::from_utf8(text.as_slice()) else {
        return Err(ServeFault::Plan(PlanFault::Syntax));
    };
    match read_plan(alloc, text) {
        Ok(plan) => Ok(plan),
        Err(fault) => Err(ServeFault::Plan(fault)),
    }
}

fn serve_tree<T: Trace>(alloc: Global, plan: &Plan, tracer: T) -> (Result<(), ServeFault>, T)
    ensures reader { IsOfRun result.0 }
    ensures writer { MarksWrite result.0 (T.failed tracer) (T.failed result.1) }
    ensures written { IsWritten Mode.Tree plan.now (T.text tracer) result.0 (T.text result.1) }
{
    let mut tracer = tracer;
    let result = write_tree(alloc, plan, &mut tracer);
    (result, tracer)
}

/// Writes the lines of each item when it is made, and the bound after the last.
fn write_tree<T: Trace>(alloc: Global, plan: &Plan, writer: &mut T) -> Result<(), ServeFault>
    ensures reader { IsOfRun result }
    ensures writer { MarksWrite result (T.failed writer.old) (T.failed writer.new) }
    ensures written { IsWritten Mode.Tree plan.now (T.text writer.old) result (T.text writer.new) }
{
    write_items(alloc, plan, &PlainLines, writer)?;
    let line = bound_line(alloc, bound(plan))?;
    write_line(writer, line.as_slice())
}

/// Runs a plan with no trace, and writes the lines of each item when it is made.
///
/// # Errors
///
/// - `Run`: the run ended early.
/// - `Write`: the writer failed. A prefix of the lines of the items is written.
/// - `Memory`: memory was refused for the lines of an item.
pub fn write_items<L: ItemLines, T: Trace>(
    alloc: Global,
    plan: &Plan,
    lines: &L,
    writer: &mut T,
) -> Result<(), ServeFault>
    ensures reader { IsOfRun result }
    ensures writer { MarksWrite result (T.failed writer.old) (T.failed writer.new) }
    ensures written { ItemsWritten plan.now (L.lines lines.now)
        (T.text writer.old) result (T.text writer.new) }
{
    let mut runner = match Runner::untraced(alloc, plan) {
        Ok(runner) => runner,
        Err(_) => return Err(ServeFault::Run(RunFault::Memory)),
    };
    let mut number = 0;
    'items: while let Some(item) = next_untraced(&mut runner)? {
        number = number_of(&item, number);
        write_item(alloc, lines, number, item, writer)?;
    }
    Ok(())
}

/// Writes the lines of an item; the number is that of a listing.
fn write_item<L: ItemLines, T: Trace>(
    alloc: Global,
    lines: &L,
    number: u64,
    item: Item,
    writer: &mut T,
) -> Result<(), ServeFault>
    ensures writer { MarksWrite result (T.failed writer.old) (T.failed writer.new) }
    ensures written { TextWritten (lines_text (L.lines lines.now number item))
        (T.text writer.old) result (T.text writer.new) }
{
    write_lines(writer, lines.lines_of(alloc, number, &item)?.as_slice())
}

/// The next item of a run in which no line is made.
fn next_untraced(runner: &mut Runner<Untraced>) -> Result<Option<Item>, RunFault>
    ensures next { (runner.old.over ≡ false → Knows runner.old.host)
        → Next runner.old.over runner.old.host result runner.new.over runner.new.host }
    ensures caused { IfErr result (λ fault.
        IsCausedInTree (ServeFault.Run fault) runner.new.host.world) }
    ensures fewer { IfOk result (λ item. IsSome item
        → items_left runner.new.over runner.new.host.world
        < items_left runner.old.over runner.old.host.world) }
{
    let item = runner.next_item();
    untraced_fault(runner.host().bus());
    item
}

/// Writes lines in their order.
fn write_lines<T: Trace>(writer: &mut T, lines: &[Vec<u8>]) -> Result<(), ServeFault>
    ensures puts { PutsText T.text T.failed writer.old result writer.new (written_lines lines.now) }
    ensures fault { IfErr result (λ fault. fault ≡ ServeFault.Write) }
{
    'lines: for line in lines {
        write_line(writer, line.as_slice())?;
    }
    Ok(())
}

/// Writes a line, and a newline after it.
fn write_line<T: Trace>(writer: &mut T, line: &[u8]) -> Result<(), ServeFault>
    ensures puts { PutsText T.text T.failed writer.old result writer.new (line.now ++ 10 ∷ []) }
    ensures fault { IfErr result (λ fault. fault ≡ ServeFault.Write) }
{
    writer.put_pieces(&[line, b"\n"])?;
    Ok(())
}

fn serve_run<T: Trace>(alloc: Global, plan: &Plan, tracer: T) -> (Result<(), ServeFault>, T)
    requires unfailed { T.failed tracer ≡ false }
    ensures reader { IsOfRun result.0 }
    ensures writer { MarksWriter Mode.Run result.0 (T.failed result.1) }
    ensures written { IsWritten Mode.Run plan.now (T.text tracer) result.0 (T.text result.1) }
{
    match Runner::traced(alloc, plan, tracer) {
        Ok(mut runner) => {
            let result = trace_run(alloc, &mut runner);
            (result, runner.into_tracer())
        }
        Err((_, tracer)) => (Err(ServeFault::Run(RunFault::Memory)), tracer),
    }
}

/// Runs to the end, with the lines of each item put into the trace when it is made.
fn trace_run<T: Trace>(alloc: Global, runner: &mut Runner<T>) -> Result<(), ServeFault>
    ensures reader { IsOfRun result }
    ensures caused { IfErr result (λ fault. IsCausedInRun fault runner.new.host.world) }
    ensures ends { (runner.old.over ≡ false → Knows runner.old.host)
        → RunEnds runner.old.over runner.old.host result runner.new.host }
{
    let mut number = 0;
    'items: while let Some(item) = runner.next_item()? {
        number = number_of(&item, number);
        put_lines(runner, item_lines(alloc, number, &item)?.as_slice())?;
    }
    Ok(())
}

fn put_lines<T: Trace>(runner: &mut Runner<T>, lines: &[Vec<u8>]) -> Result<(), ServeFault>
    ensures over { runner.new.over ≡ runner.old.over }
    ensures puts { LinesPut (written_lines lines.now) runner.old.host result runner.new.host }
    ensures reader { IsOfRun result }
{
    'lines: for line in lines {
        if let Err(fault) = runner.put_line(line.as_slice()) {
            return Err(report_fault(fault));
        }
    }
    Ok(())
}

/// What the fault of a line of report is to the one who is served.
fn report_fault(fault: BusFault) -> ServeFault
    ensures { result ≡ report_fault fault }
{
    match fault {
        BusFault::Limit => ServeFault::Run(RunFault::LimitReached),
        BusFault::Memory => ServeFault::Run(RunFault::Memory),
        BusFault::Failed => ServeFault::Write,
    }
}
