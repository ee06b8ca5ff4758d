//! Lines, in and out.
ghost use Rattle.std.specs.Prelude.{◌≡◌, ◌≢◌, ◌≤◌, ◌∷◌, ◌++◌, [], length, true, MatchOption, MatchResult, IfErr, IsErrOf, OnErr, OnOk};
ghost use Rattle.std.specs.Io.KnownBytes.{Consumes, IsAtEnd, Keeps};
ghost use Rattle.usb_watch.specs.Watch.{has_failed, inner_of};
ghost use Rattle.usb_watch.specs.Lines.{EndsLine, IsNextLine, ReadsByte};
ghost use Rattle.usb_watch.specs.Pipes.{PutsLines, out_pipe_of};

use crate::{Watched, WriteFailed, put_piece};
use arrayvec::ArrayVec;
use std::io::{Read, Write};
use thiserror::Error;

/// The most bytes of a line, without its newline.
const LINE_LIMIT: usize = 1024;

/// What comes next of a reader.
#[derive(Drop)]
pub enum Line {
    /// A line of at most 1,024 bytes, without its newline.
    Whole(ArrayVec<u8, LINE_LIMIT>),
    /// The first 1,024 bytes of a longer one; one more was read.
    Long(ArrayVec<u8, LINE_LIMIT>),
    /// Nothing: the input ended.
    Ended,
}

/// Why a line was not read.
#[derive(Clone, Copy, Debug, PartialEq, Eq, Error)]
pub enum LineFault {
    /// The reader failed.
    #[error("read failed")]
    Read,
    /// The input ended in mid-line.
    #[error("input ended")]
    Cut,
}

/// The next line of a reader. Nothing after its newline is read.
///
/// # Errors
///
/// - `Read`: the reader failed.
/// - `Cut`: the input ended within the line.
pub fn read_line<R: Read>(reader: &mut Watched<R>) -> Result<Line, LineFault>
    ensures line { IsNextLine (R.remaining (inner_of reader.old))
        (R.remaining (inner_of reader.new)) result }
    ensures read { IsErrOf result LineFault.Read → has_failed reader.new ≡ true }
    ensures unmarked { (result ≢ Err LineFault.Read)
        → has_failed reader.new ≡ has_failed reader.old }
{
    let mut line = ArrayVec::new();
    'bytes: loop {
        match next_byte(reader) {
            Err(fault) => return Err(fault),
            Ok(None) => return at_end(&line),
            Ok(Some(b'\n')) => return Ok(Line::Whole(line)),
            Ok(Some(byte)) => {
                if line.is_full() {
                    return Ok(Line::Long(line));
                }
                line.push(byte);
            }
        }
    }
}

/// Reads the rest of a line, with its newline.
///
/// # Errors
///
/// - `Read`: the reader failed.
/// - `Cut`: the input ended first, or 2 ^ 64 - 1 bytes had no newline.
pub fn skip_line<R: Read>(reader: &mut Watched<R>) -> Result<(), LineFault>
    ensures line { EndsLine (R.remaining (inner_of reader.old)) (R.remaining (inner_of reader.new))
        result }
    ensures read { IsErrOf result LineFault.Read → has_failed reader.new ≡ true }
    ensures unmarked { (result ≢ Err LineFault.Read)
        → has_failed reader.new ≡ has_failed reader.old }
{
    'bytes: for _ in 0..u64::MAX {
        match next_byte(reader) {
            Err(fault) => return Err(fault),
            Ok(None) => return Err(LineFault::Cut),
            Ok(Some(b'\n')) => return Ok(()),
            Ok(Some(_)) => {}
        }
    }
    Err(LineFault::Cut)
}

/// What the end of the input is, after a prefix of a line.
fn at_end(line: &ArrayVec<u8, LINE_LIMIT>) -> Result<Line, LineFault>
    ensures ok { OnOk result (line.now.items ≡ []) }
    ensures err { OnErr result (line.now.items ≢ []) }
    ensures ended { MatchResult result (λ l. l ≡ Line.Ended) (λ fault. fault ≡ LineFault.Cut) }
{
    if line.is_empty() {
        Ok(Line::Ended)
    } else {
        Err(LineFault::Cut)
    }
}

/// The next byte of a reader, None if the input ended.
fn next_byte<R: Read>(reader: &mut Watched<R>) -> Result<Option<u8>, LineFault>
    ensures byte { ReadsByte (R.remaining (inner_of reader.old)) (R.remaining (inner_of reader.new))
        result }
    ensures fault { IfErr result (λ fault. fault ≡ LineFault.Read) }
    ensures read { OnErr result (has_failed reader.new ≡ true) }
    ensures unmarked { OnOk result (has_failed reader.new ≡ has_failed reader.old) }
{
    let mut byte = [0u8];
    match reader.read(&mut byte) {
        Err(_) => Err(LineFault::Read),
        Ok(0) => Ok(None),
        Ok(_) => Ok(Some(byte[0])),
    }
}

/// Writes lines with their newlines, and flushes.
///
/// # Errors
///
/// The writer failed, and is marked. If a write failed, a prefix of the lines is written; if the
/// flush failed, all are.
pub fn put_lines<W: Write>(writer: &mut Watched<W>, lines: &[u8]) -> Result<(), WriteFailed>
    ensures { PutsLines (out_pipe_of W.contents writer.old) lines.now result
        (out_pipe_of W.contents writer.new) }
{
    put_piece(writer, lines)?;
    match writer.flush() {
        Ok(()) => Ok(()),
        Err(_) => Err(WriteFailed),
    }
}
