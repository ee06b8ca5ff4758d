//! The words of a line's request.
ghost use Rattle.std.specs.Prelude.{◌++◌};
ghost use Rattle.usb_watch.specs.Watch.{PutsText, has_failed, known_text};
ghost use Rattle.usb_explain.specs.Explained.{kept_text, path_end, request_words, words_behind};

use crate::only::Kept;
use crate::phrase::{put_bytes, put_row, row_for};
use crate::table::ROWS;
use std::io::Write;
use usb_port::PortPath;
use usb_request::Setup;
use usb_watch::{Watched, WriteFailed, put_pieces};

/// Writes what is kept of a line.
pub(crate) fn put_kept<W: Write>(
    writer: &mut Watched<W>,
    line: &[u8],
    kept: Kept,
) -> Result<(), WriteFailed>
    ensures { PutsText (known_text W.contents) has_failed writer.old result writer.new
        (kept_text kept line.now) }
{
    match kept {
        Kept::Nothing => put_pieces(writer, &[]),
        Kept::Line => put_pieces(writer, &[line, b"\n"]),
        Kept::Explained(setup, path) => put_explained(writer, line, &setup, &path),
    }
}

/// Writes a line, the words of its request, and a path.
fn put_explained<W: Write>(
    writer: &mut Watched<W>,
    line: &[u8],
    setup: &Setup,
    path: &Option<PortPath>,
) -> Result<(), WriteFailed>
    ensures { PutsText (known_text W.contents) has_failed writer.old result writer.new
        (line.now ++ words_behind setup.now path.now) }
{
    put_bytes(writer, line)?;
    put_behind(writer, setup, path)
}

/// Writes what stands behind a line.
fn put_behind<W: Write>(
    writer: &mut Watched<W>,
    setup: &Setup,
    path: &Option<PortPath>,
) -> Result<(), WriteFailed>
    ensures { PutsText (known_text W.contents) has_failed writer.old result writer.new
        (words_behind setup.now path.now) }
{
    put_bytes(writer, b"    ")?;
    put_end(writer, setup, path)
}

/// Writes the words of a request and a path, which end a line.
fn put_end<W: Write>(
    writer: &mut Watched<W>,
    setup: &Setup,
    path: &Option<PortPath>,
) -> Result<(), WriteFailed>
    ensures { PutsText (known_text W.contents) has_failed writer.old result writer.new
        (request_words setup.now ++ path_end path.now) }
{
    put_words(writer, setup)?;
    put_path_end(writer, path)
}

/// Writes a path, where one is said, and ends the line.
fn put_path_end<W: Write>(
    writer: &mut Watched<W>,
    path: &Option<PortPath>,
) -> Result<(), WriteFailed>
    ensures { PutsText (known_text W.contents) has_failed writer.old result writer.new
        (path_end path.now) }
{
    match path {
        Some(path) => put_pieces(writer, &[b", path ", path.text().as_bytes(), b"\n"]),
        None => put_bytes(writer, b"\n"),
    }
}

/// Writes the words of a request.
fn put_words<W: Write>(writer: &mut Watched<W>, setup: &Setup) -> Result<(), WriteFailed>
    ensures { PutsText (known_text W.contents) has_failed writer.old result writer.new
        (request_words setup.now) }
{
    put_row(writer, row_for(&ROWS, setup), setup)
}
