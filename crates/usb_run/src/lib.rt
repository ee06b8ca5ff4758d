//! Runs of a plan: a host over the plan's bus, event by event, and what it makes.
//!
//! # What is proved
//!
//! - Each event becomes its item, and each item is right (`run`, clause `ends`). A listing is what
//!   is plugged if damage is fair.
//! - A plan of at most 127 plugs whose limit is its bound never comes to its limit (`run`, clause
//!   `enough`).
//! - At no attempt do two devices that can be reached hold one address (`run`, clause `ends`).
//!
//! *Only tested*: the rows of plans.
#![tactic(auto)]

mod answers;
mod asked;
mod item;
mod lines;
mod mode;
mod news;
mod runs;
mod transfer;

pub use item::{Item, Task, TaskEnd};
pub use lines::{item_lines, number_of};
pub use mode::Mode;
pub use news::all_news;
pub use runs::{Report, RunFault, Runner, run, settle};
pub use transfer::{answered, counted};
pub use usb_bus::BusFault;
pub use usb_host::{Host, HostFault, Look, News, Round, TransferFault, Tree};
pub use usb_port::PortPath;
pub use usb_request::EndpointAddress;
pub use usb_sim::{Plan, SimBus, Trace, Tracer, Untraced};
pub use usb_table::EndpointChoice;
pub use usb_text::Said;
pub use usb_watch::Watched;
