//! What the program writes for a plan: the run (usb_run), from a reader to a writer.
//!
//! # What is proved
//!
//! - `serve` writes the text of a run of the plan that the text spells (*Serves*), and nothing if
//!   no plan was read. Each fault is reported with its cause (*MarksWriter*, *Reads*).
//! - `serve_through` does so through a buffer (*ServesThrough*).
//! - A plan of at most 127 plugs whose limit is its bound never comes to its limit
//!   (*NeverAtLimit*).
//!
//! *Only tested*: the rows of plans, byte for byte.
#![tactic(auto)]

mod input;
mod items;
mod output;
mod serving;
mod tracing;

pub use input::{InputFault, read_text};
pub use items::ItemLines;
pub use output::{Output, ROOM};
pub use serving::{ServeFault, plan_of, serve, serve_through, write_items};
pub use usb_plan::PlanFault;
pub use usb_run::{
    BusFault, Item, Mode, Plan, RunFault, Runner, Trace, Untraced, item_lines, number_of,
};
pub use usb_text::Lines;
pub use usb_watch::{Watched, WriteFailed};
