//! The host's lines in, the controller side's lines out.
ghost use Rattle.std.specs.Prelude.{◌≡◌};
ghost use Rattle.usb_watch.specs.Pipes.{out_pipe_of};
ghost use Rattle.usb_far.specs.FarEnd.{played_of};
ghost use Rattle.usb_wire.specs.Questions.{IsQuestion};
ghost use Rattle.usb_far.specs.Serving.{RepliesAll, ServesHost, ServesNext, scene};

use crate::far_end::FarEnd;
use crate::fault::FarFault;
use crate::reply::Replied;
use crate::told::HostLine;
use std::io::{Read, Write};
use usb_sim::Trace;
use usb_watch::{Watched, put_lines};
use usb_wire::Question;

/// Answers the host's lines until its input ends, or until a fault.
///
/// # Errors
///
/// The number of the line, from 1, and its fault, by the first of these that applies. After it
/// nothing is written.
///
/// - `Read`: the reader failed. `HostGone`: the input ended in mid-line.
/// - `LineTooLong`: a line that reports nothing has more than 1,024 bytes.
/// - `BadCharacter`: a byte of such a line is no printable ASCII.
/// - `NoQuestion`: such a line is no question, or the hello is not the first one.
/// - `BadNumber`: there is no such root port.
/// - `LongSend`: an event writes more than 480 bytes to endpoint 0.
/// - `Bus`: the simulated bus has failed.
/// - `Write`: the writer failed.
pub fn serve<T: Trace, R: Read, W: Write>(
    far: &mut FarEnd<T>,
    reader: &mut Watched<R>,
    writer: &mut Watched<W>,
) -> Result<(), (u64, FarFault)>
    ensures { ServesHost (scene R.remaining W.contents far.old reader.old writer.old) result
        (scene R.remaining W.contents far.new reader.new writer.new) }
{
    'lines: for number in 1..u64::MAX {
        match far.serve_next(reader, writer) {
            Ok(true) => {}
            Ok(false) => return Ok(()),
            Err(fault) => return Err((number, fault)),
        }
    }
    Err((u64::MAX, FarFault::LineTooLong))
}

impl<T: Trace> FarEnd<T> {
    /// Answers the next line, or ignores it; returns whether there was one.
    fn serve_next<R: Read, W: Write>(
        &mut self,
        reader: &mut Watched<R>,
        writer: &mut Watched<W>,
    ) -> Result<bool, FarFault>
        ensures { ServesNext (scene R.remaining W.contents self.old reader.old writer.old) result
            (scene R.remaining W.contents self.new reader.new writer.new) }
    {
        match self.next_line(reader) {
            Ok(HostLine::Ended) => Ok(false),
            Ok(HostLine::Told(_)) => Ok(true),
            Ok(HostLine::Asked(question)) => match self.reply_all(question, writer) {
                Ok(()) => Ok(true),
                Err(fault) => Err(fault),
            },
            Err(fault) => Err(fault),
        }
    }

    /// Replies to a question, and to each attempt of a row until one moves no packet.
    fn reply_all<W: Write>(
        &mut self,
        question: Question,
        writer: &mut Watched<W>,
    ) -> Result<(), FarFault>
        requires { IsQuestion question }
        ensures { RepliesAll question (out_pipe_of W.contents writer.old) (played_of self.old)
            result (played_of self.new) (out_pipe_of W.contents writer.new) }
    {
        let mut asked = question;
        'attempts: loop {
            let Replied { lines, rest, .. } = match self.reply(&asked) {
                Ok(reply) => reply,
                Err(fault) => return Err(fault),
            };
            match put_lines(writer, lines.as_slice()) {
                Ok(()) => {}
                Err(_) => return Err(FarFault::Write),
            }
            match rest {
                Some(rest) => asked = rest,
                None => return Ok(()),
            }
        }
    }
}
