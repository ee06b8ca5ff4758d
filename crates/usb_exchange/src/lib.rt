//! How the simulated world takes an attempt with the damage to its packets, and the world's laws.
//!
//! # What is proved
//!
//! - `make_exchange_by` does to what is plugged just what `usb_world` says of an attempt
//!   (*Exchanged*), and keeps the index of who holds each address.
//! - What is plugged is what the events left (`plugged_is_what_the_events_left`).
//! - A device becomes reachable only by PORT_RESET at its own port, which gives it address 0
//!   (`reset_makes_reachable`).
//!
//! Each law is a function of `src/laws.rt` that does nothing.
#![tactic(auto)]

mod exchange;
mod laws;
mod route;
mod wire;

pub use exchange::ExchangeRoom;
pub use laws::{
    a_port_rests_or_is_pending, control_courses_keep_addresses, devices_have_their_ports,
    events_are_pending, one_device_at_most_answers, pending_stays, plugged_is_what_the_events_left,
    reachable_is_the_same, reset_makes_reachable, undisturbed_keeps_what_is_plugged,
    what_an_attempt_does_to_a_device,
};
pub use route::make_exchange_by;
pub use wire::{OutgoingRoom, damage_of};
