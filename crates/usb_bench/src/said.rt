//! Lines that go to the trace.
ghost use Rattle.std.specs.Prelude.{◌∷◌, [], IfErr, OnOk};
ghost use Rattle.usb_far.specs.FarEnd.{played_of};
ghost use Rattle.usb_bench.specs.Said.{IsUnsaid, Says};

use crate::fault::BenchFault;
use usb_far::FarEnd;
use usb_sim::Trace;

/// Writes a line to the trace, given without its newline.
///
/// # Errors
///
/// `Far`, with the fault of the bus: the trace failed, or it had a fault before.
pub(crate) fn put<T: Trace>(far: &mut FarEnd<T>, line: &[u8]) -> Result<(), BenchFault>
    ensures said { OnOk result (Says (played_of far.old) (line.now ∷ []) (played_of far.new)) }
    ensures fault { IfErr result (IsUnsaid (played_of far.new)) }
{
    match far.put_line(line) {
        Ok(()) => Ok(()),
        Err(fault) => Err(BenchFault::Far(fault)),
    }
}
