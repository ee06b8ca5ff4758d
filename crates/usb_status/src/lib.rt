//! How the program ends: its faults, the line of each, and its exit status.
//!
//! # What is proved
//!
//! `exit_status` returns the status of each outcome by one table (`specs/Statuses.antt`). A
//! command's fault becomes the program's unchanged. *Only tested*: the lines of faults.
#![tactic(auto)]

mod fault;
mod status;

pub use fault::{Fault, checked};
pub use status::exit_status;
