//! The enumerator: the device at a port is given an address, read and configured, or it is refused
//! with a cause (9.1.2, 9.4, 9.6).
//!
//! # What is proved
//!
//! - *An accepted device is listed as it is*, if it is still reachable (`enumerate`,
//!   `FindingIsTrue`). This needs no premise on damage, plugs or losses.
//! - *A refusal has its cause*, or a change of connection is pending at the port, if damage is fair
//!   (`JustifiesRefusal`). A cause names what ended the enumeration (`EndsFor`).
//! - *Few attempts* (`FewAttempts`): at most 250,000, and 100 for each byte of the plan's longest
//!   configuration texts.
//!
//! *Only tested*: PRE on the bus.
#![tactic(auto)]

mod addressed;
mod cause;
mod configurations;
mod configured;
mod enumeration;
mod fault;
mod finding;
mod hub;
mod options;
mod passes;
mod said;
mod stop;
mod strings;
mod text;

pub use cause::{Cause, Request};
pub use enumeration::{Place, enumerate};
pub use fault::EnumFault;
pub use finding::{Accepted, Finding};
pub use hub::HubFacts;
pub use options::HostOptions;
pub use strings::Strings;
pub use text::{ConfigText, ConfigTexts, StringUnits};
pub use usb_hub::{Bus, BusFault, HubPort};
pub use usb_port::{Address, AddressPool};
