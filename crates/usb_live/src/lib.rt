//! The host of the live protocol (`docs/output/live.md`): what `usbplan live` does.
//!
//! # What is proved
//!
//! Of any controller side (*Lives*, `specs/Course.antt`):
//!
//! - `live` returns, and asks at most `limit` questions. After a fault it asks and reports nothing,
//!   and the fault has its cause.
//! - It reports each request exactly once, before it asks again (*settles*).
//! - Of a row of attempts it reads one answer each, up to the first that moves no packet.
//! - It returns `Ok` only after a last listing, if the end was requested, or the input ended in
//!   place of that answer.
//!
//! *Only tested*: after which rounds the host asks. *Neither*: that memory was refused if `Memory`
//! is returned.
#![tactic(auto)]

mod bus;
mod end;
mod host;
mod owed;
mod stage;
mod transfer;
mod wanted;

pub use end::LiveEnd;
pub use host::live;
pub use usb_stream::LiveFault;
pub use usb_watch::Watched;
pub use usb_wire::WireFault;
