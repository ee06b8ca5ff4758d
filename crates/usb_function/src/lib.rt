//! Simulated devices: how one answers, packet by packet, and a tree of them.
//!
//! # What is proved
//!
//! - `Device::receive` is exactly the *packet table* and the *request table* of `usb_device`
//!   (`specs/Rows.antt`, `specs/Request.antt`). Refused memory changes nothing.
//! - `Ports::deliver` takes a packet through a tree of devices. If memory is refused, only the
//!   devices before the one that was to take the data had the packet.
//! - `Holders` is the index of who holds each address, and whether one is held twice (`IsIndexOf`).
//!
//! What one attempt does to a device is in `src/laws.rt`.
#![tactic(auto)]

mod alone;
mod answer;
mod between;
mod bulk;
mod children;
mod clearing;
mod delivery;
mod device;
mod ends;
mod hearing;
mod holders;
mod laws;
mod lent_packet;
mod own;
mod ports;
mod request;
mod route;
mod transfer;
mod write;

pub use children::Parent;
pub use device::Device;
pub use hearing::Hearing;
pub use holders::Holders;
pub use laws::{
    answer_laws, attempt_laws, control_read_goes_on, control_write_goes_on, sink_goes_on,
    source_goes_on, source_is_cut, stray_laws,
};
pub use lent_packet::LentPacket;
pub use ports::Ports;
