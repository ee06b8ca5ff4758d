//! Real devices' descriptors, from files `descriptors` of Linux's sysfs, and their entries of a
//! plan.
//!
//! # What is proved
//!
//! - `entry_of` returns a device only if the bytes are a device descriptor and the configurations
//!   that it counts, each whole, with nothing after them (*IsEntry*). Each fault has its cause, and
//!   its byte (*HasEntryFault*).
//! - `write_entries` writes *entry_text* of each device in order, or a prefix of that if the writer
//!   failed. If one is no device it writes nothing, and reports the first that is none (*StopsAt*).
//!
//! *Only tested*: that a plan's reader gets exactly those bytes from the table, and that bytes of a
//! real device are not refused.
#![tactic(auto)]

mod entry;
mod fault;
mod item;
mod name;
mod notes;
mod piece;
mod reading;
mod source;
mod speed;
mod text;
mod writing;

pub use entry::{Configuration, Descriptor, Entry};
pub use fault::EntryFault;
pub use notes::{LinuxSpeed, Notes};
pub use reading::entry_of;
pub use source::Source;
pub use text::entry_text;
pub use writing::write_entries;
