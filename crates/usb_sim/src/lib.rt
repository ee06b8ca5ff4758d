//! The simulated bus, over a world that events change between attempts. Packets can be damaged.
//!
//! # What is proved
//!
//! - `SimBus` meets `trait Bus`. Each attempt, event, root call and line of report is an exact
//!   *step* of its world, with its line of the trace.
//! - It reports Failed exactly if its trace has failed (`trace_fault`). One without a trace never
//!   does (`untraced_fault`).
//! - A plug is one line of the trace, whatever its device's name holds (`plug_is_one_line`).
//!
//! After a fault each later attempt, event and line of report reports it again, and changes
//! nothing.
#![tactic(auto)]

mod laws;
mod shown;
mod sim;
mod trace;
mod tracer;

pub use laws::{plug_is_one_line, trace_fault, untraced_fault};
pub use sim::{FollowFault, SimBus};
pub use trace::{Line, push_attempt};
pub use tracer::{Trace, Tracer, Untraced};
pub use usb_device::EndpointNumber;
pub use usb_exchange::ExchangeRoom;
pub use usb_scene::{Damages, Events, Plan};
pub use usb_world::{Action, Ask, Change, Damage, Event, Harm, SentBytes, WriteRequest};
