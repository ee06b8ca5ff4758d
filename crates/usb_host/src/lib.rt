//! The host: rounds over the ports of its root and of its hubs (9.1.2, 11.12), looks at a port,
//! transfers, and news.
//!
//! # What is proved
//!
//! - **One holder.** At no attempt do two reachable devices hold one address, and each holds the
//!   address of the entry at its path (*HostMapHolds*; `Host::new` and each call).
//! - **What the host knows is so** (*HostInvariant*). With nothing left to do, it lists what is
//!   plugged (`settled_matches`).
//! - **A device is the same as long as its number is**, over any bus (`KeepsNumbers`; `next_news`).
//!
//! *Only tested*: hubs whose own changes are set, and rest if a root port's change cannot be
//! cleared.
#![tactic(auto)]

mod control;
mod copied;
mod device;
mod endpoint;
mod fault;
mod host;
mod left;
mod listing_laws;
mod look;
mod news;
mod news_laws;
mod numbers;
mod pool;
mod ports;
mod reported;
mod rounds;
mod setting;
mod tree;

pub use device::Device;
pub use fault::HostFault;
pub use host::{Host, Round};
pub use listing_laws::{keeps_few, known_stays, known_stays_at_events, settled_matches};
pub use look::Look;
pub use news::News;
pub use news_laws::device_stays;
pub use tree::Tree;
pub use usb_bus::{Bus, BusFault};
pub use usb_enum::{Cause, Finding, HostOptions};
pub use usb_port::PortPath;
pub use usb_request::EndpointAddress;
pub use usb_table::TransferFault;
pub use usb_transfer::Setup;
