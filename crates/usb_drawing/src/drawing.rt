//! A plan's text in, the drawings of its run out.
ghost use Rattle.std.specs.Prelude.{◌≡◌, ◌≢◌, ◌+◌, ◌≤◌, ◌<◌, Ok, Err, true, length, IsErrOf, IfErr, IfOk, IfSome};
ghost use Rattle.usb_watch.specs.Watch.{inner_of, has_failed, calls_of};
ghost use Rattle.usb_drawing.specs.DrawnRuns.{IsDrawn, MarksDrawing, drawn_lines};

use crate::art::Style;
use crate::listing::drawing_lines;
use std::alloc::{AllocError, Global};
use std::io::{Read, Write};
use usb_scene::Plan;
use usb_serve::{Item, ItemLines, ServeFault, item_lines, plan_of, write_items};
use usb_text::Lines;
use usb_watch::Watched;

/// Reads a plan, runs it, and writes each listing as a tree when it is made, and the line of each transfer between
/// them.
///
/// What is written is the drawings of the items of a run of the plan. Where the run ended early it is all that the run
/// made so far; if the writer failed it is a prefix of that.
///
/// # Errors
///
/// - `Read`: the reader failed.
/// - `TooLong`: the text is over the limit.
/// - `Plan`: the text is no plan.
/// - `Run`: the run ended early.
/// - `Write`: the writer failed.
/// - `Memory`: memory was refused.
pub fn draw<R: Read, W: Write>(
    alloc: Global,
    style: Style,
    reader: &mut Watched<R>,
    writer: &mut Watched<W>,
) -> Result<(), ServeFault>
    ensures calls { calls_of reader.new ≤ calls_of reader.old + 1048577 }
    ensures read { IsErrOf result ServeFault.Read → has_failed reader.new ≡ true }
    ensures too_long { IsErrOf result ServeFault.TooLong →
        IfSome (R.remaining (inner_of reader.old)) (λ text. 1048576 < length text) }
    // Write is told where the writer has failed in the call.
    ensures writer { MarksDrawing result (has_failed writer.old) (has_failed writer.new) }
    ensures drawn { IsDrawn style (R.remaining (inner_of reader.old))
        (W.contents (inner_of writer.old)) result (W.contents (inner_of writer.new)) }
{
    let plan = plan_of(alloc, reader)?;
    let drawings = Drawings { style, plan: &plan };
    write_items(alloc, &plan, &drawings, writer)
}

/// Each item of a plan's run as it is drawn. What refused devices said is not drawn.
#[derive(Drop)]
struct Drawings<'a> {
    style: Style,
    plan: &'a Plan,
}

impl<'a> ItemLines for Drawings<'a> {
    ghost lines = { λ drawings number item.
        drawn_lines drawings.style drawings.plan.now number item };

    fn lines_of(&self, alloc: Global, number: u64, item: &Item) -> Result<Lines, AllocError> {
        match item {
            Item::Listing(tree, taken, _) => {
                drawing_lines(alloc, self.style, number, self.plan, *taken, tree.entries())
            }
            Item::News(_) | Item::Answer(_, _, _) => item_lines(alloc, number, item),
        }
    }
}
