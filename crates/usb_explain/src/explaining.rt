//! A run's text in, the text with its requests in words out.
ghost use Rattle.std.specs.Prelude.{◌≡◌, ◌≢◌, ◌≤◌, ℕ, List, Option, [], ◌∷◌, ◌++◌, length, true, Err, IfSome, IsErrOf};
ghost use Rattle.usb_watch.specs.Watch.{inner_of, has_failed};
ghost use Rattle.usb_explain.specs.Explained.{ExplainsText, KeepsLine, Reaches, ReachesOr};
ghost use Rattle.usb_explain.specs.Places.{nothing_known};
ghost use Rattle.usb_pcap.specs.Capture.{longest};

use crate::known::Known;
use crate::only::{Kept, Only, kept_attempt, kept_told};
use crate::words::put_kept;
use arrayvec::ArrayVec;
use std::io::{Read, Write};
use thiserror::Error;
use usb_pcap::{is_told, read_attempt};
use usb_watch::Watched;

/// Why a text was not explained to its end.
#[derive(Clone, Copy, Debug, PartialEq, Eq, Error)]
pub enum ExplainFault {
    /// The reader failed.
    #[error("read failed")]
    Read,
    /// No run writes the line of this number, it is too long, or nothing ends it.
    #[error("explain: line {0}")]
    Line(u64),
    /// 2 ^ 64 - 1 reads did not come to the end.
    #[error("explain: text too long")]
    TooLong,
    /// The writer failed.
    #[error("write failed")]
    Write,
}

/// The most bytes of a line: a configuration of 65,535 bytes, and what is beside it.
const MOST: usize = 131_200;

/// A line that has begun.
#[derive(Drop)]
pub(crate) struct BegunLine {
    /// Its number, from 1 on, up to the greatest `u64`.
    number: u64,
    /// Its bytes so far.
    bytes: ArrayVec<u8, MOST>,
    /// What the lines before tell.
    known: Known,
}

/// Reads the text of a run and writes its lines again. Behind each attempt that is a SETUP with eight
/// bytes in a DATA0 (8.5.3) it writes four spaces and the request in words (9.4, 11.24.2). Those to
/// address 0 end with the path of the device, if the lines before tell it. Damage changes no words.
/// Any `only` but `All` leaves out all lines but those of its attempts.
///
/// # Errors
///
/// After each of them the lines before went out, or a prefix of them if the writer failed.
///
/// - `Line(n)`: line n is the first that no run writes, or nothing ends it, or it has more than
///   131,200 bytes.
/// - `TooLong`: 2 ^ 64 - 1 reads did not come to the end of the text.
/// - `Read`: the reader failed.
/// - `Write`: the writer failed.
pub fn explain<R: Read, W: Write>(
    only: Only<'_>,
    reader: &mut Watched<R>,
    writer: &mut Watched<W>,
) -> Result<(), ExplainFault>
    ensures read { IsErrOf result ExplainFault.Read → has_failed reader.new ≡ true }
    ensures write { IsErrOf result ExplainFault.Write → has_failed writer.new ≡ true }
    ensures explains { IfSome (R.remaining (inner_of reader.old)) (λ text.
        ExplainsText only.entry (W.contents (inner_of writer.old))
        (W.contents (inner_of writer.new)) text result) }
{
    let mut line = BegunLine::first();
    let mut piece = [0u8; 512];
    'reads: for _ in 0..u64::MAX {
        let count = match reader.read(&mut piece) {
            Err(_) => return Err(ExplainFault::Read),
            Ok(0) => return line.end(),
            Ok(count) => count,
        };
        if let Err(fault) = line.take_piece(only, &piece[..count], writer) {
            return Err(fault);
        }
    }
    Err(ExplainFault::TooLong)
}

impl BegunLine {
    /// The first line, of which nothing was read.
    fn first() -> Self
        ensures number { result.number ≡ 1 }
        ensures bytes { result.bytes.items ≡ [] }
        ensures known { result.known ≡ nothing_known }
    {
        BegunLine {
            number: 1,
            bytes: ArrayVec::new(),
            known: Known::nothing(),
        }
    }

    /// The text ends: no line may have begun.
    fn end(&self) -> Result<(), ExplainFault>
        ensures explains { (only : Only) (w now : Option (List ℕ)) (text : List ℕ)
            → Reaches only w now text self.now → ExplainsText only w now text result }
        ensures line { (result ≢ Err ExplainFault.Read) × (result ≢ Err ExplainFault.Write) }
    {
        if self.bytes.is_empty() {
            Ok(())
        } else {
            Err(ExplainFault::Line(self.number))
        }
    }

    /// Takes what was read.
    fn take_piece<W: Write>(
        &mut self,
        only: Only<'_>,
        piece: &[u8],
        writer: &mut Watched<W>,
    ) -> Result<(), ExplainFault>
        ensures reaches { (w : Option (List ℕ)) (text : List ℕ)
            → Reaches only.entry w (W.contents (inner_of writer.old)) text self.old
            → ReachesOr only.entry w (W.contents (inner_of writer.new)) (text ++ piece.now) result
            self.new }
        ensures write { IsErrOf result ExplainFault.Write → has_failed writer.new ≡ true }
    {
        'bytes: for byte in piece {
            if let Err(fault) = self.take(only, *byte, writer) {
                return Err(fault);
            }
        }
        Ok(())
    }

    /// Takes a byte.
    fn take<W: Write>(
        &mut self,
        only: Only<'_>,
        byte: u8,
        writer: &mut Watched<W>,
    ) -> Result<(), ExplainFault>
        ensures reaches { (w : Option (List ℕ)) (text : List ℕ)
            → Reaches only.entry w (W.contents (inner_of writer.old)) text self.old
            → ReachesOr only.entry w (W.contents (inner_of writer.new)) (text ++ byte ∷ []) result
            self.new }
        ensures write { IsErrOf result ExplainFault.Write → has_failed writer.new ≡ true }
    {
        if byte == b'\n' {
            return self.close(only, writer);
        }
        if self.bytes.is_full() {
            return Err(ExplainFault::Line(self.number));
        }
        self.bytes.push(byte);
        Ok(())
    }

    /// Writes what is kept of the line, which has ended, and goes on to the next one.
    fn close<W: Write>(
        &mut self,
        only: Only<'_>,
        writer: &mut Watched<W>,
    ) -> Result<(), ExplainFault>
        ensures reaches { (w : Option (List ℕ)) (text : List ℕ)
            → Reaches only.entry w (W.contents (inner_of writer.old)) text self.old
            → ReachesOr only.entry w (W.contents (inner_of writer.new)) (text ++ 10 ∷ []) result
            self.new }
        ensures write { IsErrOf result ExplainFault.Write → has_failed writer.new ≡ true }
    {
        let line = self.bytes.as_slice();
        let Some(kept) = kept_line(only, &mut self.known, line) else {
            return Err(ExplainFault::Line(self.number));
        };
        match put_kept(writer, line, kept) {
            Ok(()) => {
                self.number = self.number.saturating_add(1);
                self.bytes.clear();
                Ok(())
            }
            Err(_) => Err(ExplainFault::Write),
        }
    }
}

/// What is kept of a line, which is told; None for a line that no run writes.
fn kept_line(only: Only<'_>, known: &mut Known, line: &[u8]) -> Option<Kept>
    requires { length line.now ≤ longest }
    ensures { KeepsLine only.entry known.old line.now result known.new }
{
    match read_attempt(line) {
        Some(attempt) => {
            let kept = kept_attempt(only, known, &attempt.exchange);
            known.take(&attempt.exchange);
            Some(kept)
        }
        None => {
            if is_told(line) {
                known.tell(line);
                Some(kept_told(only))
            } else {
                None
            }
        }
    }
}
