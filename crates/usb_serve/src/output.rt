//! Text that goes out through a buffer.
ghost use Rattle.std.specs.Prelude.{◌≡◌, ◌≤◌, ◌⊎◌, [], true, false, is_err, length, take, drop, map, flat_map, IsOk, IfOk, OnOk, OnErr, codes};
ghost use Rattle.std.specs.Io.{WritesAtMost};
ghost use Rattle.std.specs.Io.KnownBytes.{Appends, Keeps, WriteAppends};
ghost use Rattle.usb_watch.specs.Watch.{inner_of, has_failed, write_fails, PutsText};
ghost use Rattle.usb_serve.specs.ListingEnds.{IsListingEnd};

use std::alloc::{AllocError, Global};
use std::io;
use std::io::{Error, ErrorKind, Write};
use usb_watch::{Watched, WriteFailed, put_pieces};

/// Room for what waits, in bytes.
pub const ROOM: usize = 65_536;

/// The last line of a listing.
const LISTING_END: &[u8] = b"end\n";

/// A writer behind a buffer, which goes out when it is full and after the last line of each listing.
///
/// A write or a flush of the writer that fails ends it: each later write fails too, and nothing more goes to the
/// writer. It ends for no other reason, so it has ended exactly if its writer is marked.
#[derive(Debug, Drop)]
pub struct Output<W> {
    writer: Watched<W>,
    /// What waits.
    waiting: Vec<u8>,
    /// How many bytes may wait.
    room: usize,
    ghost few: { length waiting.items ≤ room },
}

impl<W: Write + Drop> Output<W> {
    ghost use Rattle.usb_serve.specs.Outputs.{has_ended, held, buffered, output_writer, LeavesFront};

    /// A buffer with room for the given number of bytes. With none, each piece goes straight to the writer, and no
    /// memory is taken.
    ///
    /// # Errors
    ///
    /// Memory was refused.
    pub fn new(alloc: Global, room: usize, writer: W) -> Result<Self, AllocError>
        ensures held { IfOk result (λ output. Keeps (W.contents writer) (held W.contents output)) }
        ensures fresh { IfOk result (λ output. has_ended output ≡ false) }
        ensures straight { room ≡ 0 → IsOk result }
    {
        Ok(Output {
            writer: Watched::new(writer),
            waiting: Vec::with_capacity(alloc, room)?,
            room,
        })
    }

    /// Whether a write or a flush of the writer has failed.
    pub fn has_ended(&self) -> bool
        ensures { result ≡ has_ended self.now }
    {
        self.writer.failed()
    }

    /// Lets out what waits, flushes the writer, and gives it back with its mark.
    ///
    /// # Errors
    ///
    /// A write or a flush of the writer failed, here or before. What was held has gone out up to some byte.
    pub fn finish(self) -> (Result<(), WriteFailed>, Watched<W>)
        ensures ok { OnOk result.0 (Keeps (held W.contents self)
            (W.contents (inner_of result.1))) }
        ensures front { LeavesFront (held W.contents self) (W.contents (inner_of result.1)) }
        ensures mark { has_failed result.1 ≡ is_err result.0 }
        ensures ended { has_ended self ≡ true → result.1 ≡ output_writer self }
    {
        let mut output = self;
        let result = output.flush_out();
        let Output { writer, .. } = output;
        (result, writer)
    }

    /// Lets out what waits.
    fn let_out(&mut self) -> Result<(), WriteFailed>
        ensures bytes { Keeps (held W.contents self.old) (held W.contents self.new) }
        ensures none { OnOk result (buffered self.new ≡ []) }
        ensures mark { has_ended self.new ≡ is_err result }
        ensures ended { has_ended self.old ≡ true → self.new ≡ self.old }
    {
        if self.writer.failed() {
            return Err(WriteFailed);
        }
        let gone = write_out(&mut self.writer, self.waiting.as_slice());
        remove_front(&mut self.waiting, gone);
        if self.writer.failed() {
            return Err(WriteFailed);
        }
        Ok(())
    }

    /// Lets out what waits, and flushes the writer.
    fn flush_out(&mut self) -> Result<(), WriteFailed>
        ensures bytes { Keeps (held W.contents self.old) (held W.contents self.new) }
        ensures none { OnOk result (buffered self.new ≡ []) }
        ensures mark { has_ended self.new ≡ is_err result }
        ensures ended { has_ended self.old ≡ true → self.new ≡ self.old }
    {
        self.let_out()?;
        match self.writer.flush() {
            Ok(()) => Ok(()),
            Err(_) => Err(WriteFailed),
        }
    }

    /// Takes a piece, or a part of one that is longer than the room: into the buffer, or past it.
    fn take(&mut self, piece: &[u8]) -> io::Result<usize>
        ensures bound { WritesAtMost result piece.now }
        ensures bytes { WriteAppends (held W.contents self.old) (held W.contents self.new)
            result piece.now }
        ensures ended { has_ended self.old ≡ true → (is_err result ≡ true) × (self.new ≡ self.old) }
        ensures mark { has_ended self.new ≡ write_fails result piece.now }
    {
        if piece.len() > self.room - self.waiting.len() && self.let_out().is_err() {
            return Err(Error::from(ErrorKind::Other));
        }
        if self.has_ended() {
            return Err(Error::from(ErrorKind::Other));
        }
        if piece.len() <= self.room - self.waiting.len()
            && self.waiting.extend_from_slice(piece).is_ok()
        {
            return Ok(piece.len());
        }
        self.take_past(piece)
    }

    /// Takes a piece, or a part of it, past the buffer.
    fn take_past(&mut self, piece: &[u8]) -> io::Result<usize>
        ensures bound { WritesAtMost result piece.now }
        ensures bytes { WriteAppends (held W.contents self.old) (held W.contents self.new)
            result piece.now }
        ensures ended { has_ended self.old ≡ true → (is_err result ≡ true) × (self.new ≡ self.old) }
        ensures mark { has_ended self.new ≡ write_fails result piece.now }
    {
        match self.let_out() {
            Ok(()) => self.writer.write(piece),
            Err(_) => Err(Error::from(ErrorKind::Other)),
        }
    }

    /// Takes a piece, part by part.
    ///
    /// # Errors
    ///
    /// A write of the writer failed, here or before.
    pub(crate) fn put(&mut self, piece: &[u8]) -> Result<(), WriteFailed>
        ensures { PutsText (held W.contents) has_ended self.old result self.new piece.now }
    {
        let mut gone = 0;
        'parts: while gone < piece.len() {
            match self.take(&piece[gone..]) {
                Ok(0) => return Err(WriteFailed),
                Ok(n) => gone += n,
                Err(_) => return Err(WriteFailed),
            }
        }
        Ok(())
    }

    /// Takes one piece after the other.
    fn put_each(&mut self, pieces: &[&[u8]]) -> Result<(), WriteFailed>
        ensures { PutsText (held W.contents) has_ended self.old result self.new
            (flat_map (λ p. p.now) pieces.now) }
    {
        'pieces: for piece in pieces {
            if let Err(failed) = self.put(piece) {
                return Err(failed);
            }
        }
        Ok(())
    }

    /// Takes the pieces of a line, in their order. If none may wait, the line goes out as one piece.
    fn put_line(&mut self, pieces: &[&[u8]]) -> Result<(), WriteFailed>
        ensures { PutsText (held W.contents) has_ended self.old result self.new
            (flat_map (λ p. p.now) pieces.now) }
    {
        if self.room == 0 && !self.has_ended() {
            return put_pieces(&mut self.writer, pieces);
        }
        self.put_each(pieces)
    }

    /// Takes the pieces of a line, in their order. After the last line of a listing nothing waits.
    ///
    /// # Errors
    ///
    /// A write or a flush of the writer failed, here or before.
    pub(crate) fn put_pieces(&mut self, pieces: &[&[u8]]) -> Result<(), WriteFailed>
        ensures puts { PutsText (held W.contents) has_ended self.old result self.new
            (flat_map (λ p. p.now) pieces.now) }
        ensures listing { IsListingEnd (map (λ p. p.now) pieces.now)
            → OnOk result (buffered self.new ≡ []) }
    {
        self.put_line(pieces)?;
        if ends_listing(pieces) {
            return self.flush_out();
        }
        Ok(())
    }
}

impl<W: Write + Drop> Write for Output<W> {
    ghost use Rattle.usb_serve.specs.Outputs.{has_ended, held, buffered};

    ghost contents = { held W.contents };

    fn write(&mut self, piece: &[u8]) -> io::Result<usize>
        ensures bound { WritesAtMost result piece.now }
        ensures bytes { WriteAppends (held W.contents self.old) (held W.contents self.new)
            result piece.now }
        ensures ended { has_ended self.old ≡ true → (is_err result ≡ true) × (self.new ≡ self.old) }
        // It fails, or takes nothing of a piece that is not empty, only if its writer failed.
        ensures ends { write_fails result piece.now ≡ true → has_ended self.new ≡ true }
        // After a listing nothing waits, or a write has failed.
        ensures listing { piece.now ≡ codes "end\n"
            → (buffered self.new ≡ []) ⊎ (has_ended self.new ≡ true) }
    {
        let taken = self.take(piece)?;
        if piece == LISTING_END {
            let _ = self.flush_out();
        }
        Ok(taken)
    }

    fn flush(&mut self) -> io::Result<()>
        ensures bytes { Keeps (held W.contents self.old) (held W.contents self.new) }
        ensures ended { has_ended self.old ≡ true → (is_err result ≡ true) × (self.new ≡ self.old) }
        ensures out { (buffered self.new ≡ []) ⊎ (has_ended self.new ≡ true) }
        ensures ends { OnErr result (has_ended self.new ≡ true) }
    {
        match self.flush_out() {
            Ok(()) => Ok(()),
            Err(_) => Err(Error::from(ErrorKind::Other)),
        }
    }
}

/// Writes bytes until all are written or a write fails. Returns how many are written.
fn write_out<W: Write>(writer: &mut Watched<W>, bytes: &[u8]) -> usize
    requires { has_failed writer.old ≡ false }
    ensures few { result ≤ length bytes.now }
    ensures gone { Appends (W.contents (inner_of writer.old)) (W.contents (inner_of writer.new))
        (take result bytes.now) }
    ensures all { has_failed writer.new ≡ false → result ≡ length bytes.now }
{
    let mut gone = 0;
    'parts: while gone < bytes.len() {
        match writer.write(&bytes[gone..]) {
            Ok(0) => return gone,
            Ok(n) => gone += n,
            Err(_) => return gone,
        }
    }
    gone
}

/// Removes this number of bytes from the beginning.
fn remove_front(bytes: &mut Vec<u8>, n: usize)
    requires { n ≤ length bytes.old.items }
    ensures { bytes.new.items ≡ drop n bytes.old.items }
{
    let len = bytes.len();
    bytes.as_mut_slice().copy_within(n..len, 0);
    bytes.truncate(len - n);
}

/// Whether a line's pieces begin with the last line of a listing.
fn ends_listing(pieces: &[&[u8]]) -> bool
    ensures { IsListingEnd (map (λ p. p.now) pieces.now) → result ≡ true }
{
    match pieces {
        [line, ..] => *line == b"end".as_slice(),
        [] => false,
    }
}
