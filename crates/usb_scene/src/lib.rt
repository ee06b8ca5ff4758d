//! What a plan describes, as data: its devices and hubs, its events and its damages.
//!
//! # What is proved
//!
//! - `DeviceSpec` keeps the rules of a device. `Devices` has at most 127 of these, no two of one
//!   name (*AreDevices*, `usb_device/specs/DeviceSpecs.antt`).
//! - `HubSpec` and its hub descriptor (11.23.2.1) do not contradict each other about its ports.
//! - `Plan` keeps the rules of a plan (*IsPlan*, `usb_world/specs/Plans.antt`).
//!
//! `usb_plan` reads one from a text, and `usb_sim` makes a bus of it.
#![tactic(auto)]

mod damage;
mod devices;
mod event;
mod hub_spec;
mod name;
mod plan;
mod spec;

pub use damage::Damages;
pub use devices::Devices;
pub use event::{Events, event_copies};
pub use hub_spec::{HubSpec, has_hub_class};
pub use name::Name;
pub use plan::Plan;
pub use spec::DeviceSpec;
