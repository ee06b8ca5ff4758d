//! The lines that go to the writer.
ghost use Rattle.std.specs.Prelude.{◌≡◌, [], ◌∷◌, ◌++◌, true, IsSome, OnOk, OnErr};
ghost use Rattle.std.specs.Io.KnownBytes.{Appends};
ghost use Rattle.usb_world.specs.Steps.{PutLine};
ghost use Rattle.usb_watch.specs.Watch.{AppendsFront};

use super::SimBus;
use crate::Trace;
use usb_world::BusFault;

impl<T: Trace> SimBus<T> {
    ghost use Rattle.usb_sim.specs.Sim.{world_of, tracer_of, trace_of};

    /// Writes a line of report, given without its newline. It takes no memory.
    ///
    /// # Errors
    ///
    /// - the fault that was reported before, and nothing is written;
    /// - `Failed`: the writer failed in this call. A prefix of the line is written.
    pub fn put_line(&mut self, line: &[u8]) -> Result<(), BusFault>
        ensures step { PutLine (world_of self.old) result (world_of self.new) }
        ensures front { AppendsFront (trace_of self.old) (trace_of self.new)
            (line.now ++ 10 ∷ []) }
        ensures ok { OnOk result (Appends (trace_of self.old) (trace_of self.new)
            (line.now ++ 10 ∷ [])) }
        ensures again { IsSome (world_of self.old).fault → self.new ≡ self.old }
        ensures trace { (world_of self.old).fault ≡ None
            → OnErr result (T.failed (tracer_of self.new) ≡ true) }
    {
        if let Some(fault) = self.fault {
            return Err(fault);
        }
        if self.tracer.put_pieces(&[line, b"\n"]).is_err() {
            self.fault = Some(BusFault::Failed);
            return Err(BusFault::Failed);
        }
        Ok(())
    }
}
