//! A run's text in, a pcap file out.
ghost use Rattle.std.specs.Prelude.{◌≡◌, ◌≢◌, ℕ, List, Option, [], ◌∷◌, ◌++◌, length, nat_lt, take, true, false, not, ◌==◌, ◌&&◌, ◌||◌, Decides, Err, IfSome, IsErrOf};
ghost use Rattle.usb_watch.specs.Watch.{inner_of, has_failed};
ghost use Rattle.usb_pcap.specs.Capture.{Captures, ComesOf, RecordsOf, StandsBehind, longest};
ghost use Rattle.usb_pcap.specs.Grammar.{fits_form};
ghost use Rattle.usb_pcap.specs.Report.{plug_form};
ghost use Rattle.usb_pcap.specs.Shown.{IsShownText};

use crate::attempt::read_attempt;
use crate::record::{HEADER, Records, records_of};
use crate::report::{is_plug, is_report};
use crate::shown::{Begun, take_shown};
use arrayvec::ArrayVec;
use std::io::{Read, Write};
use thiserror::Error;
use usb_watch::{Watched, put_piece};

/// Why a text has no whole pcap file.
#[derive(Clone, Copy, Debug, PartialEq, Eq, Error)]
pub enum PcapFault {
    /// The reader failed.
    #[error("read failed")]
    Read,
    /// No run writes the line of this number, or nothing ends it.
    #[error("pcap: line {0}")]
    Line(u64),
    /// 2 ^ 64 - 1 reads did not come to the end.
    #[error("pcap: text too long")]
    TooLong,
    /// No line is that of an attempt: the file has no packet.
    #[error("pcap: no attempt")]
    NoAttempt,
    /// The writer failed.
    #[error("write failed")]
    Write,
}

/// The most bytes of a line of a run that is no plug: a configuration of 65,535 bytes, and what is
/// beside it.
pub(crate) const LONGEST: usize = 131_200;

/// A line that has begun.
#[derive(Drop)]
pub(crate) struct OpenLine {
    /// Its number, from 1 on, up to the greatest `u64`.
    number: u64,
    /// Its first bytes: no line of a run has more, but that of a plug.
    front: ArrayVec<u8, LONGEST>,
    /// Whether it has more.
    is_long: bool,
    /// The bytes of a character of it that has begun, as a run shows them in a name.
    begun: Begun,
    /// Whether a packet of a line before has gone out.
    has_packets: bool,
}

/// Reads the text of a run, and writes the header of a pcap file and a record for each packet of
/// its attempts.
///
/// # Errors
///
/// After each of them the records of the lines before are written, or a prefix of them if the
/// writer failed.
///
/// - `Line(n)`: line n is the first that has the form of no line of a run, or nothing ends it.
/// - `TooLong`: 2 ^ 64 - 1 reads did not come to the end of the text.
/// - `NoAttempt`: each line is one of a run, and none is that of an attempt. The header is written.
/// - `Read`: the reader failed.
/// - `Write`: the writer failed.
pub fn capture<R: Read, W: Write>(
    reader: &mut Watched<R>,
    writer: &mut Watched<W>,
) -> Result<(), PcapFault>
    ensures read { IsErrOf result PcapFault.Read → has_failed reader.new ≡ true }
    ensures write { IsErrOf result PcapFault.Write → has_failed writer.new ≡ true }
    ensures captures { IfSome (R.remaining (inner_of reader.old)) (λ text.
        Captures (W.contents (inner_of writer.old)) (W.contents (inner_of writer.new)) text
        result) }
{
    if put_piece(writer, &HEADER).is_err() {
        return Err(PcapFault::Write);
    }
    let mut line = OpenLine::first();
    let mut piece = [0u8; 512];
    'reads: for _ in 0..u64::MAX {
        let count = match reader.read(&mut piece) {
            Err(_) => return Err(PcapFault::Read),
            Ok(0) => return line.end(),
            Ok(count) => count,
        };
        if let Err(fault) = line.take_piece(&piece[..count], writer) {
            return Err(fault);
        }
    }
    Err(PcapFault::TooLong)
}

impl OpenLine {
    /// The first line, of which nothing was read.
    fn first() -> Self
        ensures number { result.number ≡ 1 }
        ensures front { result.front.items ≡ [] }
        ensures long { result.is_long ≡ false }
        ensures begun { result.begun.items ≡ [] }
        ensures packets { result.has_packets ≡ false }
    {
        OpenLine {
            number: 1,
            front: ArrayVec::new(),
            is_long: false,
            begun: Begun::new(),
            has_packets: false,
        }
    }

    /// The text ends: no line may have begun, and a packet has gone out.
    fn end(&self) -> Result<(), PcapFault>
        ensures captures { (w now : Option (List ℕ)) (text : List ℕ)
            → StandsBehind w now text self.now → Captures w now text result }
        ensures line { (result ≢ Err PcapFault.Read) × (result ≢ Err PcapFault.Write) }
    {
        if !self.front.is_empty() {
            Err(PcapFault::Line(self.number))
        } else if self.has_packets {
            Ok(())
        } else {
            Err(PcapFault::NoAttempt)
        }
    }

    /// Takes what was read.
    fn take_piece<W: Write>(
        &mut self,
        piece: &[u8],
        writer: &mut Watched<W>,
    ) -> Result<(), PcapFault>
        ensures comes { (w : Option (List ℕ)) (text : List ℕ)
            → StandsBehind w (W.contents (inner_of writer.old)) text self.old
            → ComesOf w (W.contents (inner_of writer.new)) (text ++ piece.now) result self.new }
        ensures write { IsErrOf result PcapFault.Write → has_failed writer.new ≡ true }
    {
        'bytes: for byte in piece {
            if let Err(fault) = self.take(*byte, writer) {
                return Err(fault);
            }
        }
        Ok(())
    }

    /// Takes a byte.
    fn take<W: Write>(&mut self, byte: u8, writer: &mut Watched<W>) -> Result<(), PcapFault>
        ensures comes { (w : Option (List ℕ)) (text : List ℕ)
            → StandsBehind w (W.contents (inner_of writer.old)) text self.old
            → ComesOf w (W.contents (inner_of writer.new)) (text ++ byte ∷ []) result self.new }
        ensures write { IsErrOf result PcapFault.Write → has_failed writer.new ≡ true }
    {
        if byte == b'\n' {
            return self.close(writer);
        }
        take_shown(&mut self.begun, byte);
        if self.front.len() < LONGEST {
            self.front.push(byte);
        } else {
            self.is_long = true;
        }
        Ok(())
    }

    /// Writes the records of the line, which has ended, and goes on to the next one.
    fn close<W: Write>(&mut self, writer: &mut Watched<W>) -> Result<(), PcapFault>
        ensures comes { (w : Option (List ℕ)) (text : List ℕ)
            → StandsBehind w (W.contents (inner_of writer.old)) text self.old
            → ComesOf w (W.contents (inner_of writer.new)) (text ++ 10 ∷ []) result self.new }
        ensures write { IsErrOf result PcapFault.Write → has_failed writer.new ≡ true }
    {
        let shown = self.begun.is_empty();
        let Some(records) = line_records(self.front.as_slice(), self.is_long, shown) else {
            return Err(PcapFault::Line(self.number));
        };
        match put_piece(writer, records.as_slice()) {
            Ok(()) => {
                self.number = self.number.saturating_add(1);
                self.front.clear();
                self.is_long = false;
                self.begun.clear();
                self.has_packets = has_packets(self.has_packets, records.as_slice());
                Ok(())
            }
            Err(_) => Err(PcapFault::Write),
        }
    }
}

/// Whether a packet has gone out after these records, by whether one has before.
fn has_packets(before: bool, records: &[u8]) -> bool
    ensures { result ≡ (before || not (length records.now == 0)) }
{
    before || !records.is_empty()
}

/// Whether a line is that of a plug, by its first bytes, and by whether it is characters as a run
/// shows them.
fn is_shown_plug(front: &[u8], shown: bool) -> bool
    ensures { result ≡ (shown && fits_form plug_form front.now) }
{
    shown && is_plug(front)
}

/// The records of a line, by its first bytes; None for a line that no run writes.
fn line_records(front: &[u8], is_long: bool, shown: bool) -> Option<Records>
    ensures { (line : List ℕ) → front.now ≡ take longest line
        → is_long ≡ nat_lt longest (length line) → Decides shown (IsShownText line)
        → RecordsOf line result }
{
    if is_shown_plug(front, shown) {
        return Some(Records::new());
    }
    if is_long {
        return None;
    }
    if is_report(front) {
        return Some(Records::new());
    }
    match read_attempt(front) {
        Some(attempt) => Some(records_of(&attempt)),
        None => None,
    }
}
