//! What a plan's text holds, or what is wrong with it, in words for a person.
//!
//! # What is proved
//!
//! - *The verdict* (`check_text`, `TellsVerdict`): a text is a plan if and only if `read_plan`
//!   takes it. Else the first line has `read_plan`'s own fault.
//! - *The other faults* (`ListsFaults`): at most 19 follow, each with a place that is an entry of the
//!   document, and with what of that entry makes it (next but one).
//! - `check` writes exactly these lines, or a prefix of them if the writer failed.
//! - *The key of a fault* (`trouble_of`, `IsTroubleOf`): a missing key is absent, `read_plan` takes
//!   no unknown one there, and a wrong value is at its key.
//!
//! *Only tested*: that line and key are those at fault, that a value is wrong, and the words on what
//! is allowed.
#![tactic(auto)]

mod allowed;
mod block;
mod checking;
mod details;
mod endpoints;
mod entry;
mod flaw;
mod key;
mod marks;
mod nearest;
mod others;
mod path_slip;
mod place;
mod report;
mod requests;
mod shown;
mod slip;
mod span;
mod trouble;
mod within;

pub use checking::{CheckFault, Checked, Verdict, check, check_text};
