//! What is told of one fault: where it is, its line, and the words on it.

ghost use Rattle.std.specs.Prelude.{◌≡◌, ◌++◌, IfOk, OnOk, string_bytes};
ghost use Rattle.usb_diagnosis.specs.Listing.{BeginsWith, IsLed};
ghost use Rattle.usb_diagnosis.specs.Place.{IsSpotIn};
ghost use Rattle.usb_diagnosis.specs.Report.{first_line};

use crate::details::{span_of, trouble_lines};
use crate::entry::Entry;
use crate::marks::Layout;
use crate::place::Spot;
use crate::report::first_line;
use crate::span::{Span, push_excerpt};
use crate::trouble::Trouble;
use crate::within::trouble_within;
use std::alloc::{AllocError, Global};
use usb_plan::PlanFault;

/// The first line and the others.
pub(crate) fn joined(first: String, rest: &str) -> Result<String, AllocError>
    ensures { IfOk result (λ lines. IsLed (string_bytes first) (string_bytes lines)) }
{
    let mut lines = first;
    lines.push_str(rest)?;
    Ok(lines)
}

/// Where a piece of the text begins.
fn spot_of(layout: &Layout<'_>, span: Option<Span>) -> Spot
    ensures { IsSpotIn layout.now.text.now result }
{
    match span {
        None => Spot::Unknown,
        Some(span) => layout.spot(span.at),
    }
}

/// How many characters a piece of a line has; 0 if there is none.
fn width_of(span: Option<Span>) -> usize {
    match span {
        None => 0,
        Some(span) => span.width,
    }
}

/// The lines on a fault of an entry, and on what of it makes that.
pub(crate) fn block_on<'a>(
    alloc: Global,
    file: &str,
    layout: &Layout<'_>,
    entry: &Entry<'a>,
    fault: PlanFault,
    trouble: Option<Trouble<'a>>,
) -> Result<String, AllocError>
    ensures { IfOk result (λ lines.
        BeginsWith file.now layout.now.text.now fault (string_bytes lines)) }
{
    let within = trouble.and_then(|trouble| trouble_within(trouble, fault));
    let span = span_of(alloc, layout, entry, trouble, within.as_ref(), fault)?;
    let spot = spot_of(layout, span);
    let first = first_line(alloc, file, spot, fault)?;
    let mut rest = String::new(alloc);
    push_excerpt(alloc, &mut rest, layout.text(), spot, width_of(span))?;
    let words = trouble_lines(alloc, layout, entry, trouble, within.as_ref(), fault)?;
    rest.push_str(words.as_str())?;
    joined(first, rest.as_str())
}
