//! Laws of the bench: of the host's own listings, of runs whose places are found on the way, and of
//! the runs that a bench judges. Their functions have empty bodies.
//!
//! # What is proved
//!
//! - `own_listings_are_right`: what a host's entries make as a listing (*ports_of_entries*,
//!   `specs/OwnListings.antt`) is right in a world that the entries match (*Matches*, usb_table).
//! - `places_play`: a host does its steps from a plan's start, and places are found on the way. In
//!   the end the world is the one that all these steps give from the start of the plan that is known
//!   then (*PlacedRun*, `specs/PlacedRuns.antt`).
//! - `judged_runs_are_placed`: this holds of the world after each line that usb_bench takes
//!   (*IsPlacedRun*, `specs/JudgedRuns.antt`). Without places, each line has the reply that usb_far
//!   gives (`judged_host_replies_as_far`).
//!
//! The other laws lead to these: a run that follows another plan is that plan's own
//! (`follows_from_start`, `specs/Runs.antt`).
#![tactic(auto)]

mod following_laws;
mod judged_laws;
mod listing_laws;
mod placed_laws;

pub use following_laws::{follows_again, follows_from_start};
pub use judged_laws::{
    judged_host_replies_as_far, judged_hosts_are_placed, judged_runs_are_placed,
};
pub use listing_laws::{own_listings_are_right, own_listings_stand};
pub use placed_laws::{others_find_nothing, places_play};
