//! The host's requests as typed calls (9.4), and the ports of the root as a hub's ports (11.24.2).
//!
//! For the calls above it has definitions and lemmas of which device holds which address (9.4.6),
//! and of what is left to do at the ports of a tree.
//!
//! A map claims an address for each path, and no two paths claim one. As long as each reachable
//! device holds its path's, no attempt finds two devices at one address. The lemmas say what each
//! transfer, port call and event does to that.
//!
//! # What is proved
//!
//! - Each typed call makes its own request with what it was given, and at most the attempts of its
//!   control transfer (`uses`).
//! - Over a modelled bus, and if no address was held twice, what a call read is so of the device's
//!   description (`get_device` and the others).
//! - If no address was held twice, only SET_ADDRESS gives a device another one, and only PORT_RESET
//!   sets address 0 (`set_address`, `set_port`).
//!
//! - *Looks owed* (`looks_by`) are of each device the changes of connection at its port and on its
//!   way. *Strays* (`strays_by`) are the other changes that are set.
//! - What is left to do grows only by events, at most by seven looks, one device and one stray each
//!   (*KeepsBy*).
//! - A change that is cleared pays for its handling (`PaysLook`, `PaysBare`).
#![tactic(auto)]

mod asking;
mod changes;
mod external;
mod port;
mod requests;
mod status;

pub use changes::{clear_hub_changes, clear_port_change};
pub use external::{clear_hub_port, hub_port_status, set_hub_port};
pub use port::{HubPort, clear_port, has_root, port_status, set_port};
pub use requests::{
    get_config, get_device, get_status, get_string, hub_descriptor, set_address, set_configuration,
    set_interface,
};
pub use status::DeviceStatus;
pub use usb_port::PortStatus;
pub use usb_transfer::{Bus, BusFault, PipeFault, Target};
