//! The transfers of each endpoint of a device over a run. A *stretch* (`specs/Stretches.antt`) is a
//! part of a run, from one of its hosts to a later one, with its items.
//!
//! # What is proved
//!
//! - `transfers_join`: a device listed at the end of a stretch has been at its path since the
//!   beginning, or since it was found anew. Since then the sends to each of its endpoints join end
//!   to end, and so do the receives and polls of each.
//! - `runs_are_stretches`: a run is a stretch.
#![tactic(auto)]

mod stream_laws;

pub use stream_laws::{control_moves_nothing, runs_are_stretches, transfers_join};
