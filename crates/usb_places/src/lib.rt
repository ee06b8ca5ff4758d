//! Places in the run of any host, for the events and damages of a plan: `when` in place of `after` and `attempt`.
//!
//! # What is proved
//!
//! - A place is the first attempt of the host's history that its `when` fits (*place_of*, `specs/Places.antt`). `see`
//!   finds exactly these numbers, whatever the history (*IsKnown*).
//! - `plan` is the plan with these numbers, up to the first event whose place is not found (*plan_known*,
//!   `specs/Known.antt`).
//! - Of a document or text without any `when` it is the plan that usb_plan reads, whose faults are reported too
//!   (`plain` of `of_table` and `read`).
//!
//! *Only tested*: the words of the faults.
#![tactic(auto)]

mod fault;
mod known;
mod places;
mod request;
mod seen;
mod sought;
mod transfer;
mod when;

pub use fault::{PlacesFault, WhenFault};
pub use places::Places;
pub use request::{Asked, Request};
pub use seen::{Deed, Seen, Token, Try};
pub use usb_plan::{Place, Plan, PlanFault};
pub use when::{Moment, Sign, When};
