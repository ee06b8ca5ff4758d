//! Listings drawn as trees, one device a line: what `usbplan draw` writes of a plan's run.
//!
//! # What is proved
//!
//! - `drawing_lines` returns the heading and one line for each entry, in order. Each is exactly its
//!   text, with no newline (`drawing_laws`).
//! - *The rule* after a refused device is the remark of usb_remarks on the device that the plan's
//!   events had left there; no other entry has one (`ruled_line`).
//! - `draw` writes the drawings of one run of the plan that the text spells, or a prefix if the
//!   writer failed (`IsDrawn`).
//!
//! *Only tested*: whole drawings.
#![tactic(auto)]

mod art;
mod class;
mod device;
mod drawing;
mod listing;
mod refusal;
mod rule;
mod string;

pub use art::Style;
pub use drawing::draw;
pub use listing::{drawing_laws, drawing_lines};
