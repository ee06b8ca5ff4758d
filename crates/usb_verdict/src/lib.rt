//! The verdict on the listings that a host reports (`docs/BENCH.md`, `docs/OUTPUT.md`). They are
//! read line by line, and judged beside what is plugged in a simulated bus.
//!
//! # What is proved
//!
//! - `ReportedListing::take` has the ports that the lines name (*line_joined*,
//!   `specs/Reports.antt`). A line that says nothing has its fault, whatever memory there is, and
//!   changes nothing.
//! - `verdict` returns what is wrong with a listing in the world as it is now, and nothing exactly
//!   if the listing is right in it (*Judges*, `usb_judge`).
//! - Each line is the one that its definition has (`specs/Texts.antt`).
//!
//! - `plugged` lists the devices that are plugged in the bus's world (*ArePlugged*, `usb_judge`).
//!   So what `judge` says of a listing beside them is so in that world (`judged_world`).
//! - It lists each of them once (*ListsOnce*).
//!
//! A device below 7 ports has no path, and counts as none. No event of a plan plugs one there.
//!
//! - `read_listing_line` returns what a line says (*line_says*, `specs/Lines.antt`), and the fault
//!   of any other line. It takes no memory.
//! - `read_bytes` returns the bytes that a word spells (*bytes_in*), and refuses any other word,
//!   whatever memory there is.
#![tactic(auto)]

mod bytes;
mod devices;
mod fault;
mod judging;
mod line;
mod number;
mod report;
mod seen;
mod tally;
mod text;
mod way;

pub use bytes::read_bytes;
pub use devices::plugged;
pub use fault::ListingFault;
pub use judging::verdict;
pub use line::{ListingLine, cut_space, read_listing_line};
pub use report::ReportedListing;
pub use tally::Tally;
pub use text::{fault_line, judgement_line, refusal_line};
pub use usb_judge::{Cause, Claim, Judgement, ListedDevice, ListedPort};
