//! A driver before the simulated bus of a plan, for tests: its questions and their answers go as
//! records of bytes.
#![tactic(auto)]

mod controller;
mod course;

pub use controller::statuses;
pub use course::Course;
pub use usb_dialogue::{Answer, Driver, DriverFault, Outcome, Statuses, Want};
pub use usb_sim::{Ask, Plan, SimBus, Untraced};
