//! What is so of every simulated bus and its trace.
//!
//! Each call does nothing; what it ensures is for a reader, and for proofs to cite.
ghost use Rattle.std.specs.Prelude.{◌≡◌, ◌≢◌, ℕ, List, Some, true};
ghost use Rattle.usb_watch.specs.Shown.{is_unbroken, shown_name};
ghost use Rattle.usb_sim.specs.Sim.{world_of, tracer_of};
ghost use Rattle.usb_world.specs.Trace.{plug_line};
ghost use Rattle.usb_bus.specs.Written.{tells_failure};
ghost use Rattle.usb_world.specs.declared.types.BusFault.TheVariants.{Failed};

use crate::{SimBus, Trace, Untraced};

/// The trace has failed exactly if this is the fault that was reported.
pub fn trace_fault<T: Trace>(bus: &SimBus<T>)
    ensures { T.failed (tracer_of bus.now) ≡ tells_failure (world_of bus.now).fault }
{}

/// A bus that is untraced never reported that its trace failed.
pub fn untraced_fault(bus: &SimBus<Untraced>)
    ensures { (world_of bus.now).fault ≢ Some Failed }
{}

/// A plug is one line of the trace, whatever the name of its device holds.
#[tactic(auto, using(crate::proofs::OneLines::plug_unbroken))]
pub fn plug_is_one_line()
    ensures { (path name : List ℕ) → is_unbroken (plug_line path (shown_name name)) ≡ true }
{}
