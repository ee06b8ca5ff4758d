//! A trace that goes out through a buffer.
ghost use Rattle.std.specs.Prelude.{◌≡◌, ◌++◌, ◌∷◌, []};
ghost use Rattle.usb_world.specs.Trace.{attempt_line};
ghost use Rattle.usb_watch.specs.Watch.{PutsText};

use crate::output::Output;
use std::io::Write;
use usb_sim::{ExchangeRoom, Line, Trace, push_attempt};
use usb_watch::WriteFailed;

/// An output that has the lines.
#[derive(Drop)]
pub(crate) struct OutputTracer<W> {
    output: Output<W>,
    /// The line of the last attempt, whose room is used again.
    line: Line,
}

impl<W> OutputTracer<W> {
    ghost use Rattle.usb_serve.specs.OutputTraces.{output_in};

    /// Lines go to this output.
    pub(crate) fn new(output: Output<W>) -> Self
        ensures { output_in result ≡ output }
    {
        OutputTracer {
            output,
            line: Line::new(),
        }
    }

    /// Gives the output back.
    pub(crate) fn into_output(self) -> Output<W>
        ensures { result ≡ output_in self }
    {
        let OutputTracer { output, .. } = self;
        output
    }
}

impl<W: Write + Drop> Trace for OutputTracer<W> {
    ghost use Rattle.usb_serve.specs.OutputTraces.{output_in};
    ghost use Rattle.usb_serve.specs.Outputs.{has_ended, held};

    ghost text = { λ t. held W.contents (output_in t) };

    ghost failed = { λ t. has_ended (output_in t) };

    fn put_attempt(
        &mut self,
        number: u64,
        pre: bool,
        exchange: &ExchangeRoom,
    ) -> Result<(), WriteFailed> {
        self.line.clear();
        push_attempt(&mut self.line, number, pre, exchange);
        self.output.put(self.line.as_str().as_bytes())
    }

    fn put_pieces(&mut self, pieces: &[&[u8]]) -> Result<(), WriteFailed> {
        self.output.put_pieces(pieces)
    }
}
