//! The bus: the trait `Bus`, one transaction attempt at a time, and its trace (`docs/PORTING.md`).
//!
//! # What is proved
//!
//! - Each call of `Bus` is a step of the bus's world, if the bus is *modelled*. An attempt writes
//!   the lines of its events and its own, or a prefix of these if the writer failed (`Attempts`,
//!   `specs/Traces.antt`). Root calls write nothing.
//! - Over any bus, an attempt adds at most one to `spent`, and brings at most the maximum of bytes.
//!   A fault that it reports is `failed` (*Spends*).
#![tactic(auto)]

mod bus;
mod outcome_kind;
mod rows;

pub use bus::Bus;
pub use outcome_kind::OutcomeKind;
pub use rows::{ROW_PACKETS, ROW_ROOM, RowDone, RowEnd};
pub use usb_packet::{Speed, Toggle};
pub use usb_world::{Attempt, BusFault, Destination, Outcome};
