//! The host's table: what is at each port, with the host's pipes to each device.
//!
//! # What is proved
//!
//! - What is plugged has one right listing, but for the addresses (`one_listing`). Over a plan's
//!   course that is what its events have left plugged (`listed_is_what_the_events_left`).
//! - A call through the pipes at a path moves nothing but at the device there. It changes no
//!   address, description or port, and leaves all other pipes level with their endpoints
//!   (`DeviceTable::send` and the others; *KeepsMoved*).
//! - A control write that is done gave the device the data once. If it failed, the device took all
//!   of them or none (`control_out`; *TableWrites*).
#![tactic(auto)]

mod choice;
mod control;
mod entry;
mod fault;
mod found;
mod function_pipes;
mod indexes;
mod interface_setting;
mod kind;
mod known;
mod listing_laws;
mod pipes;
mod row;
mod table;
mod target;

pub use choice::EndpointChoice;
pub use fault::{TableFault, TransferFault};
pub use found::address_of;
pub use known::KnownPort;
pub use listing_laws::{listed_is_what_the_events_left, one_listing};
pub use table::DeviceTable;
pub use usb_enum::Finding;
pub use usb_hub::{Bus, HubPort, PipeFault};
pub use usb_port::{Address, PortPath};
pub use usb_request::EndpointAddress;
