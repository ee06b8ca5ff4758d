//! The host's end of the live protocol (`docs/output/live.md`): `StreamBus`, a `Bus` of which each attempt
//! is a question. It is not *modelled*: what devices do is up to the controller side.
//!
//! # What is proved
//!
//! Of any controller side:
//!
//! - A question is one line, flushed before its answer is read. Each line that comes is read once,
//!   in order (*AsksOnce*, `specs/Stream.antt`). A row is asked so if the hello's answer was of version 2, else packet
//!   by packet (*RowBy*).
//! - A fault has its cause (*CauseOf*), and is kept: after it nothing is read or written, and each
//!   later call returns the same.
//!
//! *Only tested*: the words of the faults.
#![tactic(auto)]

mod asked;
mod bus;
mod fault;

pub use bus::StreamBus;
pub use fault::LiveFault;
