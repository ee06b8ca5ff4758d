//! A reader or writer with a mark that says whether it has failed.
ghost use Rattle.std.specs.Prelude.{◌≡◌, ◌+◌, ◌-◌, ◌^◌, ◌||◌, ◌&&◌, min, false, true, flat_map, is_err, OnOk, OnErr, IfSome};
ghost use Rattle.std.specs.Io.{ReadsAtMost, WritesAtMost};
ghost use Rattle.std.specs.Io.KnownBytes.{Keeps, Appends, ReadConsumes, WriteAppends};
ghost use Rattle.usb_watch.specs.Watch.{inner_of, has_failed, has_pending, calls_of, known_text, write_fails, write_takes, AppendsFront, PendsFront, PutsText};

use arrayvec::ArrayVec;
use std::io;
use std::io::{Read, Write};
use thiserror::Error;

/// Room for a line that goes out as one piece, in bytes; the longest line of an attempt has 701.
const LINE_ROOM: usize = 1024;

/// A reader or writer, whether it has failed, whether a flush is due, and how often it was called.
///
/// The mark is set if a read, write or flush returns an error, or a write takes nothing of a piece
/// that is not empty. It is never taken back. A flush is due once a write has taken bytes, until a
/// flush succeeds.
#[derive(Debug, Drop)]
pub struct Watched<T> {
    inner: T,
    failed: bool,
    pending: bool,
    calls: u64,
}

impl<T> Watched<T> {
    /// Watches a reader or writer that has not failed yet.
    pub fn new(inner: T) -> Self
        ensures inner { inner_of result ≡ inner }
        ensures fresh { has_failed result ≡ false }
        ensures flushed { has_pending result ≡ false }
        ensures uncalled { calls_of result ≡ 0 }
    {
        Watched {
            inner,
            failed: false,
            pending: false,
            calls: 0,
        }
    }

    /// Whether a read, write or flush has failed.
    pub fn failed(&self) -> bool
        ensures { result ≡ has_failed self.now }
    {
        self.failed
    }

    /// Whether a write took bytes that no flush has followed which succeeded.
    pub fn is_pending(&self) -> bool
        ensures { result ≡ has_pending self.now }
    {
        self.pending
    }

    /// How many reads and writes there were, up to the greatest `u64`.
    pub fn calls(&self) -> u64
        ensures { result ≡ calls_of self.now }
    {
        self.calls
    }

    /// Gives the reader or writer back.
    pub fn into_inner(self) -> T
        ensures { result ≡ inner_of self }
    {
        let Watched {
            inner,
            failed: _,
            pending: _,
            calls: _,
        } = self;
        inner
    }
}

impl<T: Read> Read for Watched<T> {
    ghost remaining = { λ w. T.remaining (inner_of w) };

    fn read(&mut self, buf: &mut [u8]) -> io::Result<usize>
        ensures bound { ReadsAtMost result buf.new }
        ensures bytes { ReadConsumes (T.remaining (inner_of self.old))
            (T.remaining (inner_of self.new)) result buf.new }
        ensures mark { has_failed self.new ≡ (has_failed self.old || is_err result) }
        ensures pending { has_pending self.new ≡ has_pending self.old }
        ensures calls { calls_of self.new ≡ min (calls_of self.old + 1) (2 ^ 64 - 1) }
    {
        self.calls = self.calls.saturating_add(1);
        let result = self.inner.read(buf);
        if result.is_err() {
            self.failed = true;
        }
        result
    }
}

impl<T: Write> Write for Watched<T> {
    ghost contents = { λ w. T.contents (inner_of w) };

    fn write(&mut self, buf: &[u8]) -> io::Result<usize>
        ensures bound { WritesAtMost result buf.now }
        ensures bytes { WriteAppends (T.contents (inner_of self.old))
            (T.contents (inner_of self.new)) result buf.now }
        ensures mark { has_failed self.new ≡ (has_failed self.old || write_fails result buf.now) }
        ensures pending { has_pending self.new ≡ (has_pending self.old || write_takes result) }
        ensures calls { calls_of self.new ≡ min (calls_of self.old + 1) (2 ^ 64 - 1) }
    {
        self.calls = self.calls.saturating_add(1);
        let result = self.inner.write(buf);
        let (failed, takes) = match &result {
            Ok(n) => (*n == 0 && !buf.is_empty(), *n != 0),
            Err(_) => (true, false),
        };
        if failed {
            self.failed = true;
        }
        if takes {
            self.pending = true;
        }
        result
    }

    fn flush(&mut self) -> io::Result<()>
        ensures bytes { Keeps (T.contents (inner_of self.old)) (T.contents (inner_of self.new)) }
        ensures mark { has_failed self.new ≡ (has_failed self.old || is_err result) }
        ensures pending { has_pending self.new ≡ (has_pending self.old && is_err result) }
        ensures calls { calls_of self.new ≡ calls_of self.old }
    {
        let flushed = self.inner.flush();
        if flushed.is_err() {
            self.failed = true;
        } else {
            self.pending = false;
        }
        flushed
    }
}

/// A write answered an error, or took nothing of a piece that is not empty.
#[derive(Clone, Copy, Debug, PartialEq, Eq, Error)]
#[error("write failed")]
pub struct WriteFailed;

/// Writes a piece, part by part, until all of it is taken.
///
/// # Errors
///
/// A write failed. The writer is marked, and a prefix of the piece is written.
#[tactic(auto, using(crate::proofs::Fronts::front_kept, crate::proofs::Fronts::pending_kept))]
pub fn put_piece<W: Write>(writer: &mut Watched<W>, piece: &[u8]) -> Result<(), WriteFailed>
    ensures front { AppendsFront (W.contents (inner_of writer.old))
        (W.contents (inner_of writer.new)) piece.now }
    ensures ok { OnOk result (Appends (W.contents (inner_of writer.old))
        (W.contents (inner_of writer.new)) piece.now) }
    ensures unmarked { OnOk result (has_failed writer.new ≡ has_failed writer.old) }
    ensures marked { OnErr result (has_failed writer.new ≡ true) }
    ensures pending { PendsFront (has_pending writer.old) (W.contents (inner_of writer.old))
        (has_pending writer.new) (W.contents (inner_of writer.new)) piece.now }
{
    let mut rest = piece;
    'parts: while !rest.is_empty() {
        match writer.write(rest) {
            Ok(0) => return Err(WriteFailed),
            Ok(n) => rest = &rest[n..],
            Err(_) => return Err(WriteFailed),
        }
    }
    Ok(())
}

/// Writes pieces in their order, as one piece if they fit into a line's room.
///
/// # Errors
///
/// A write failed. The writer is marked, and a prefix of all pieces is written.
pub fn put_pieces<W: Write>(writer: &mut Watched<W>, pieces: &[&[u8]]) -> Result<(), WriteFailed>
    ensures { PutsText (known_text W.contents) has_failed writer.old result writer.new
        (flat_map (λ p. p.now) pieces.now) }
{
    match joined(pieces) {
        Some(line) => put_piece(writer, line.as_slice()),
        None => put_each(writer, pieces),
    }
}

/// The pieces as one, if they fit into a line's room.
fn joined(pieces: &[&[u8]]) -> Option<ArrayVec<u8, LINE_ROOM>>
    ensures { IfSome result (λ line. line.items ≡ flat_map (λ p. p.now) pieces.now) }
{
    let mut line = ArrayVec::new();
    'pieces: for piece in pieces {
        if line.try_extend_from_slice(piece).is_err() {
            return None;
        }
    }
    Some(line)
}

/// Writes one piece after the other.
#[tactic(auto, using(crate::proofs::Fronts::first_front))]
fn put_each<W: Write>(writer: &mut Watched<W>, pieces: &[&[u8]]) -> Result<(), WriteFailed>
    ensures { PutsText (known_text W.contents) has_failed writer.old result writer.new
        (flat_map (λ p. p.now) pieces.now) }
{
    let Some((piece, rest)) = pieces.split_first() else {
        return Ok(());
    };
    put_piece(writer, piece)?;
    put_each(writer, rest)
}
