//! The plan of a run, read from a TOML text, and the number of attempts that is enough for it.
//!
//! # What is proved
//!
//! - `read_plan` returns the plan that the text spells, or the text's first fault (`spelled_plan`,
//!   `specs/Plan.antt`), over the document that `toml` reads.
//! - `bound` is its formula (`bound_of`, `specs/Attempts.antt`). That it is enough is a theorem of
//!   usb_run.
//!
//! *Only tested*: the words of the faults.
#![tactic(auto)]

mod action;
mod attempts;
mod bulk;
mod damage;
mod device;
mod digits;
mod endpoints;
mod entry_fault;
mod event;
mod fault;
mod hub;
mod keys;
mod members;
mod own_requests;
mod path;
mod plan;
mod plugged;
mod quirks;
mod scene;
mod texts;
mod value;
mod verb;

pub use attempts::bound;
pub use damage::placed_damage;
pub use fault::{Place, PlanFault};
pub use hub::most_ports;
pub use keys::{
    LAST_ATTEMPT, LAST_BIT, LAST_PACKET, LONGEST_WAIT, MOST_ATTEMPTS, MOST_BEFORE_HALT,
    MOST_DAMAGES, MOST_DEVICES, MOST_ENDPOINT_NAKS, MOST_ENDPOINTS, MOST_EVENTS, MOST_NAKS,
    MOST_PACKETS, MOST_PORTS, MOST_REQUESTS, MOST_ROOTS, MOST_WIDE_PORTS, only_named,
};
pub use plan::{entries_of, plan_of_entries, plan_of_table, read_plan};
pub use usb_scene::Plan;
