//! What is printed: the lines of a packet, a listing and a bound.
//!
//! # What is proved
//!
//! - `packet_line` writes a packet's text and its bytes, and returns each fault only for its cause.
//! - Each line of `listing_lines` and `bound_line` is the text that the definition has for it.
#![tactic(auto)]

mod line;
mod lines;
mod listing;
mod said;
mod text;

pub use line::{LineFault, packet_line};
pub use lines::Lines;
pub use listing::{bound_line, listing_lines, push_cause};
pub use said::Said;
pub use text::{push_decimal, push_escaped, push_hex, push_path, push_units};
pub use usb_enum::{Cause, Finding};
pub use usb_packet::PacketFault;
pub use usb_port::PortPath;
