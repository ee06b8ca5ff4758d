//! The packets of a run's text as a pcap file, which Wireshark reads.
//!
//! # What is proved
//!
//! - `read_attempt` reads a line as an attempt if and only if it is its line, to the byte
//!   (`IsAttemptLine`).
//! - `capture` writes the header and the records of each attempt's packets, in order and with their
//!   damage (`Captures`). At a fault it is that of the whole lines before, or a prefix if the
//!   writer failed.
//! - It stops at the first line that has no form of a run's lines (`specs/Report.antt`), or that
//!   nothing ends.
//!
//! *Only tested*: that a run's lines have these forms (`tools/pcap_rows`).
#![tactic(auto)]

mod attempt;
mod capturing;
mod item;
mod packet;
mod part;
mod record;
mod report;
mod shown;
mod text;
mod told;

pub use attempt::{TracedAttempt, read_attempt};
pub use capturing::{PcapFault, capture};
pub use told::is_told;
