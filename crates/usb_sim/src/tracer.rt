//! What becomes of the lines of a trace: a writer has them, or none is made.
ghost use Rattle.std.specs.Prelude.{◌≡◌, ℕ, List, Option, Bool, [], ◌∷◌, ◌++◌, false, flat_map, None};
ghost use Rattle.usb_world.specs.Trace.{attempt_line};
ghost use Rattle.usb_watch.specs.Watch.{has_failed, known_text, PutsText};

use crate::trace::{Line, push_attempt};
use std::io::Write;
use usb_exchange::ExchangeRoom;
use usb_watch::{Watched, WriteFailed, put_piece, put_pieces};

/// What a simulated bus hands the lines of its trace to.
pub trait Trace {
    /// The text that it has, if that is known.
    ghost text: { Self → Option (List ℕ) };

    /// Whether it has failed.
    ghost failed: { Self → Bool };

    /// Takes the line of an attempt.
    ///
    /// # Errors
    ///
    /// It failed in this call, and has a prefix of the line.
    fn put_attempt(
        &mut self,
        number: u64,
        pre: bool,
        exchange: &ExchangeRoom,
    ) -> Result<(), WriteFailed>
        ensures { PutsText text failed self.old result self.new
            (attempt_line number pre exchange.now ++ 10 ∷ []) };

    /// Takes a line that is of several pieces.
    ///
    /// # Errors
    ///
    /// It failed in this call, and has a prefix of the line.
    fn put_pieces(&mut self, pieces: &[&[u8]]) -> Result<(), WriteFailed>
        ensures { PutsText text failed self.old result self.new
            (flat_map (λ p. p.now) pieces.now) };
}

/// A writer that has the lines.
#[derive(Debug, Drop)]
pub struct Tracer<W> {
    writer: Watched<W>,
    /// The line of the last attempt, whose room is used again.
    line: Line,
}

impl<W> Tracer<W> {
    ghost use Rattle.usb_sim.specs.Tracer.{writer_in};

    /// Lines go to this writer.
    pub fn new(writer: Watched<W>) -> Self
        ensures { writer_in result ≡ writer }
    {
        Tracer {
            writer,
            line: Line::new(),
        }
    }

    /// Gives the writer back.
    pub fn into_writer(self) -> Watched<W>
        ensures { result ≡ writer_in self }
    {
        let Tracer { writer, .. } = self;
        writer
    }
}

impl<W: Write> Trace for Tracer<W> {
    ghost use Rattle.usb_sim.specs.Tracer.{writer_in};

    ghost text = { λ t. known_text W.contents (writer_in t) };

    ghost failed = { λ t. has_failed (writer_in t) };

    fn put_attempt(
        &mut self,
        number: u64,
        pre: bool,
        exchange: &ExchangeRoom,
    ) -> Result<(), WriteFailed> {
        put_attempt(&mut self.writer, &mut self.line, number, pre, exchange)
    }

    fn put_pieces(&mut self, pieces: &[&[u8]]) -> Result<(), WriteFailed> {
        put_pieces(&mut self.writer, pieces)
    }
}

/// A writer alone, for which each line of an attempt is made anew.
impl<W: Write> Trace for Watched<W> {
    ghost text = { known_text W.contents };

    ghost failed = { has_failed };

    fn put_attempt(
        &mut self,
        number: u64,
        pre: bool,
        exchange: &ExchangeRoom,
    ) -> Result<(), WriteFailed> {
        put_attempt(self, &mut Line::new(), number, pre, exchange)
    }

    fn put_pieces(&mut self, pieces: &[&[u8]]) -> Result<(), WriteFailed> {
        put_pieces(self, pieces)
    }
}

/// No line is made, so none can fail; nothing is known of the text.
#[derive(Clone, Copy, Debug, PartialEq, Eq)]
pub struct Untraced;

impl Trace for Untraced {
    ghost text = { λ _. None };

    ghost failed = { λ _. false };

    #[tactic(auto, using(usb_watch::proofs::Interface::puts_unknown))]
    fn put_attempt(
        &mut self,
        _number: u64,
        _pre: bool,
        _exchange: &ExchangeRoom,
    ) -> Result<(), WriteFailed> {
        Ok(())
    }

    #[tactic(auto, using(usb_watch::proofs::Interface::puts_unknown))]
    fn put_pieces(&mut self, _pieces: &[&[u8]]) -> Result<(), WriteFailed> {
        Ok(())
    }
}

/// Makes the line of an attempt in the room that is given, and writes it.
fn put_attempt<W: Write>(
    writer: &mut Watched<W>,
    line: &mut Line,
    number: u64,
    pre: bool,
    exchange: &ExchangeRoom,
) -> Result<(), WriteFailed>
    ensures { PutsText (known_text W.contents) has_failed writer.old result writer.new
        (attempt_line number pre exchange.now ++ 10 ∷ []) }
{
    line.clear();
    push_attempt(line, number, pre, exchange);
    put_piece(writer, line.as_str().as_bytes())
}
