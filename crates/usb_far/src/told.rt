//! The host's lines, one by one.
ghost use Rattle.std.specs.Prelude.{◌≡◌, ◌≤◌, ◌∷◌, ◌++◌, [], ℕ, length, IfErr, IfOk};
ghost use Rattle.std.specs.Io.KnownBytes.{Consumes};
ghost use Rattle.usb_watch.specs.Lines.{IsUnbroken};
ghost use Rattle.usb_watch.specs.Pipes.{Pipe as APipe, pipe_of};
ghost use Rattle.usb_wire.specs.Words.{all_printable, is_printable};
ghost use Rattle.usb_far.specs.FarEnd.{played_of};
ghost use Rattle.usb_far.specs.Told.{HasNoQuestion, HasQuestion, TakesLine, begins_block, begins_with, is_report, is_told, phase_behind};

use crate::far_end::{FarEnd, Phase};
use crate::fault::FarFault;
use crate::reply::may_ask;
use arrayvec::ArrayVec;
use std::io::Read;
use usb_sim::Trace;
use usb_watch::{Line, Watched, read_line, skip_line};
use usb_wire::{Question, read_question};

/// What a line of the host is.
#[derive(Drop)]
pub enum HostLine {
    /// There is none: the input ended after a line.
    Ended,
    /// It reports something. These are its bytes, or the first 1,024 if it has more.
    Told(ArrayVec<u8, 1024>),
    /// It asks a question, to which nothing is done yet.
    Asked(Question),
}

impl<T: Trace> FarEnd<T> {
    ghost use Rattle.usb_far.specs.Told.{reading};

    /// Reads the host's next line. A line that reports something moves the phase.
    ///
    /// # Errors
    ///
    /// The fault of the line, by the first of these that applies.
    ///
    /// - `Read`: the reader failed. `HostGone`: the input ended in mid-line.
    /// - `LineTooLong`: a line that reports nothing has more than 1,024 bytes.
    /// - `BadCharacter`: a byte of such a line is no printable ASCII.
    /// - `NoQuestion`: such a line is no question, or the hello is not the first one.
    pub fn next_line<R: Read>(&mut self, reader: &mut Watched<R>) -> Result<HostLine, FarFault>
        ensures { TakesLine (reading R.remaining self.old reader.old) result
            (reading R.remaining self.new reader.new) }
    {
        match read_line(reader) {
            Ok(Line::Ended) => Ok(HostLine::Ended),
            Ok(Line::Whole(line)) => self.whole_line(line),
            Ok(Line::Long(front)) => self.long_line(front, reader),
            Err(fault) => Err(FarFault::from(fault)),
        }
    }

    /// What a line of at most 1,024 bytes is.
    fn whole_line(&mut self, line: ArrayVec<u8, 1024>) -> Result<HostLine, FarFault>
        requires unbroken { IsUnbroken line.items }
        requires short { length line.items ≤ 1024 }
        // Whichever reader gave that line.
        ensures { (before behind : APipe)
            → Consumes before.bytes behind.bytes (line.items ++ 10 ∷ [])
            → behind.failed ≡ before.failed
            → TakesLine (record { played = played_of self.old; reader = before }) result
            (record { played = played_of self.new; reader = behind }) }
    {
        let bytes = line.as_slice();
        if is_told(self.phase, bytes) {
            self.phase = phase_behind(self.phase, bytes);
            return Ok(HostLine::Told(line));
        }
        match question_in(self.phase, bytes) {
            Ok(question) => Ok(HostLine::Asked(question)),
            Err(fault) => Err(fault),
        }
    }

    /// What a longer line is, of which these bytes and one more were read. Reads the rest if it reports something.
    fn long_line<R: Read>(
        &mut self,
        front: ArrayVec<u8, 1024>,
        reader: &mut Watched<R>,
    ) -> Result<HostLine, FarFault>
        requires { length front.items ≡ 1024 }
        // Whatever the reader was before it gave that front.
        ensures { (before : APipe) (more : ℕ) → IsUnbroken (front.items ++ more ∷ [])
            → Consumes before.bytes (pipe_of R.remaining reader.old).bytes
            (front.items ++ more ∷ [])
            → (pipe_of R.remaining reader.old).failed ≡ before.failed
            → TakesLine (record { played = played_of self.old; reader = before }) result
            (reading R.remaining self.new reader.new) }
    {
        let bytes = front.as_slice();
        if !is_told(self.phase, bytes) {
            return Err(FarFault::LineTooLong);
        }
        match skip_line(reader) {
            Ok(()) => {
                self.phase = phase_behind(self.phase, bytes);
                Ok(HostLine::Told(front))
            }
            Err(fault) => Err(FarFault::from(fault)),
        }
    }
}

/// The question that a line asks, if it may come there.
fn question_in(phase: Phase, line: &[u8]) -> Result<Question, FarFault>
    ensures asked { IfOk result (HasQuestion phase line.now) }
    ensures fault { IfErr result (HasNoQuestion phase line.now) }
{
    if !all_printable(line) {
        return Err(FarFault::BadCharacter);
    }
    match read_question(line) {
        Some(question) => {
            if may_ask(phase, &question) {
                Ok(question)
            } else {
                Err(FarFault::NoQuestion)
            }
        }
        None => Err(FarFault::NoQuestion),
    }
}

/// Whether each byte is printable ASCII, from space to tilde.
fn all_printable(line: &[u8]) -> bool
    ensures { result ≡ all_printable line.now }
{
    line.iter().all(|byte| is_printable(*byte))
}

/// Whether a byte is a printable ASCII character.
fn is_printable(byte: u8) -> bool
    ensures { result ≡ is_printable byte }
{
    (b' '..=b'~').contains(&byte)
}

/// Whether a line reports something: it is of a listing or of news, or how a transfer or a look
/// went.
fn is_told(phase: Phase, line: &[u8]) -> bool
    ensures { result ≡ is_told phase line.now }
{
    match phase {
        Phase::New => false,
        Phase::Asks => begins_block(line) || is_report(line),
        Phase::Tells => true,
    }
}

/// Whether a line is the first one of a listing or of news.
fn begins_block(line: &[u8]) -> bool
    ensures { result ≡ begins_block line.now }
{
    begins_with(line, b"listing ") || line == NEWS
}

/// Whether a line is how a transfer or a look went.
fn is_report(line: &[u8]) -> bool
    ensures { result ≡ is_report line.now }
{
    begins_with(line, b"send ")
        || begins_with(line, b"receive ")
        || begins_with(line, b"interrupt ")
        || begins_with(line, b"clear ")
        || begins_with(line, b"interface ")
        || begins_with(line, b"control ")
        || begins_with(line, b"look ")
}

/// Whether a line begins with a word.
fn begins_with(line: &[u8], word: &[u8]) -> bool
    ensures { result ≡ begins_with line.now word.now }
{
    line.starts_with(word)
}

/// The first line of news.
const NEWS: &[u8] = b"news";

/// The last line of a listing, and of news.
const BLOCK_END: &[u8] = b"end";

/// What the host does after a line that reports something.
fn phase_behind(phase: Phase, line: &[u8]) -> Phase
    ensures { result ≡ phase_behind phase line.now }
{
    match phase {
        Phase::New => Phase::New,
        Phase::Asks => {
            if begins_block(line) {
                Phase::Tells
            } else {
                Phase::Asks
            }
        }
        Phase::Tells => {
            if line == BLOCK_END {
                Phase::Asks
            } else {
                Phase::Tells
            }
        }
    }
}
