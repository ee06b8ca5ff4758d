//! The world of a bus as plain data (`specs/Worlds.antt`): what is plugged, and what attempts, root
//! calls and events do to it (`specs/Steps.antt`).
//!
//! Definitions and lemmas of the tree of what is plugged (`usb_device/specs/Tree.antt`).
//!
//! # What is proved
//!
//! - A device that is reachable and was not reset since is the same, and was reachable all along
//!   (`same_device`).
//! - A pending change stays until a call clears it (`pending_persists`).
//! - If no address is held twice, at most one device answers an attempt (`one_answers`).
//!
//! `usb_exchange` makes attempts as these say, and lists the laws in one file.
//!
//! - `specs/Paths.antt`, `specs/WayEffects.antt`: if a way to a place has power, what is pending on
//!   it, and which call or packet resets the device at its end.
//! - Two devices with one address are found (`twice_two`), and so is an address's holder
//!   (`HolderOfAddress`).
//! - A tree has *settled* if no device in it remembers a packet (`specs/AttemptPackets.antt`).
#![tactic(auto)]

mod damage;
mod event;
mod exchange;
mod losses;
mod types;
mod wire;

pub use damage::{Damage, Harm};
pub use event::{Action, Ask, Change, Event, SentBytes, WriteRequest};
pub use exchange::{Exchange, ExchangeAnswer};
pub use losses::Losses;
pub use types::{Attempt, BusFault, Destination, Outcome};
pub use wire::{Mark, Outgoing};
