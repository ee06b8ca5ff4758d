//! A box, as its pointer and its allocator: two words, for a struct that crosses to C
//! (`usb_host_exports`).
//!
//! # What is proved
//!
//! - `from_box` and `into_box` move the value, change nothing of it, and keep its block.
//! - A `RawBox` owns both. It is not `Drop`: Rattle code cannot lose one.
#![tactic(auto)]

mod raw_box;

pub use raw_box::RawBox;
