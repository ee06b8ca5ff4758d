//! Listings that are not of what is plugged, judged.
use std::alloc::{AllocError, Global};
use std::cell::RefCell;
use std::io::{Error, ErrorKind, Write};
use std::{io, str};
use usb_bench::{Judge, judge_host};
use usb_far::FarEnd;
use usb_sim::Plan;
use usb_watch::Watched;

/// The trace of a controller side.
#[derive(Clone, Copy, Drop)]
struct Tracing<'a>(&'a RefCell<Vec<u8>>);

impl Write for Tracing<'_> {
    fn write(&mut self, buf: &[u8]) -> io::Result<usize> {
        let Ok(mut trace) = self.0.try_borrow_mut() else {
            return Err(Error::from(ErrorKind::Other));
        };
        trace.extend_from_slice(buf)?;
        Ok(buf.len())
    }

    fn flush(&mut self) -> io::Result<()> {
        Ok(())
    }
}

/// What is judged of a host that asks for all this, and reports these lines as its last listing: `PATH CAUSE`, with `|`
/// between. The lines of the listing have it between them, too.
pub(crate) fn judgements_of(
    alloc: Global,
    plan: &Plan,
    asked: &[u8],
    listing: &str,
) -> Result<String, AllocError> {
    let lines = with_listing(alloc, asked, listing)?;
    let trace = RefCell::new(Vec::new(alloc));
    if !is_played(alloc, plan, lines.as_slice(), Tracing(&trace))? {
        return String::from_str(alloc, "not judged to the end");
    }
    wrong_in(alloc, trace.into_inner().as_slice())
}

/// Plays a plan to these lines of a host, judged. Returns whether all were answered.
fn is_played(
    alloc: Global,
    plan: &Plan,
    lines: &[u8],
    trace: Tracing<'_>,
) -> Result<bool, AllocError> {
    let mut far = FarEnd::new(alloc, plan, Watched::new(trace))?;
    let mut reader = Watched::new(lines);
    let mut writer = Watched::new(Vec::new(alloc));
    let mut judge = Judge::new(alloc, None);
    let judged = judge_host(alloc, &mut judge, &mut far, None, &mut reader, &mut writer);
    Ok(judged.is_ok())
}

/// The lines of a host, with another last listing.
fn with_listing(alloc: Global, asked: &[u8], listing: &str) -> Result<Vec<u8>, AllocError> {
    let text = str::from_utf8(asked).unwrap_or("");
    let front = text.rfind("\nlisting ").unwrap_or(0);
    let mut lines = Vec::new(alloc);
    lines.extend_from_slice(text.get(..front).unwrap_or("").as_bytes())?;
    lines.extend_from_slice(b"\nlisting 1\n")?;
    for line in listing.split('|') {
        lines.extend_from_slice(line.as_bytes())?;
        lines.extend_from_slice(b"\n")?;
    }
    lines.extend_from_slice(b"end\n")?;
    Ok(lines)
}

/// What a trace says to be wrong.
fn wrong_in(alloc: Global, trace: &[u8]) -> Result<String, AllocError> {
    let mut wrong = String::new(alloc);
    for line in str::from_utf8(trace).unwrap_or("").lines() {
        if let Some((_, words)) = line.strip_prefix("wrong ").unwrap_or("").split_once(' ') {
            if !wrong.is_empty() {
                wrong.push_str("|")?;
            }
            wrong.push_str(words)?;
        }
    }
    Ok(wrong)
}
