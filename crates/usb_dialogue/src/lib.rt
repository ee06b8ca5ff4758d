//! The host as a program in another language drives it: questions go out and answers come in, as
//! records of bytes. After each answer the call is made anew, on a copy of the host.
//!
//! # What is proved
//!
//! Of any controller side:
//!
//! - **Answers are used once, in their order** (*Hears*, `specs/Hearing.antt`).
//! - **Each want is one call of the host, reported once** (*Makes*, *EndsWith*,
//!   `specs/Drivers.antt`).
//! - **Nothing half done.** A refused call changes nothing (*Steps*), and each fault has its cause.
//!
//! *Neither*: that a call made anew asks the same questions as before. The code refuses a call that
//! leaves an answer unused.
#![tactic(auto)]

mod answer;
mod call;
mod driver;
mod fault;
mod heard;
mod idle;
mod place;
mod progress;
mod question;
mod row;
mod told;
mod want;
mod write;

pub use answer::{Answer, Statuses};
pub use driver::Driver;
pub use fault::DriverFault;
pub use question::Question;
pub use usb_bus::{Attempt, Outcome, Toggle};
pub use usb_host::{EndpointAddress, HostOptions, PortPath, Setup};
pub use usb_request::ReadRequest;
pub use want::Want;
pub use write::{Bytes, WriteRequest};
