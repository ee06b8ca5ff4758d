//! The controller side of the live protocol (`docs/output/live.md`), played from a plan on a simulated
//! bus.
//!
//! # What is proved
//!
//! Of readers and writers whose bytes are known (*ServesHost* of `serve`, `specs/Serving.antt`):
//!
//! - Each question has its reply, once and in order (*done*). Of a row each attempt has one, up to the first that moves
//!   no packet (*RowReplied*).
//! - A question is answered and flushed before the next line is read (*InTurn*).
//! - At a fault the lines before it were answered, and nothing more was. Each fault has its cause
//!   (*CauseOf*).
//!
//! A caller's own loop is made of the same pieces: `next_line` (*TakesLine*), `reply` (*Replies*) and `put_line`
//! (*PutsLine*).
//!
//! *Only tested*: the words of the faults.
#![tactic(auto)]

mod attempt;
mod far_end;
mod fault;
mod reply;
mod row;
mod serving;
mod told;
mod wanted;

pub use far_end::{FarEnd, Phase, Statuses};
pub use fault::FarFault;
pub use reply::{Came, Replied, Reply};
pub use serving::serve;
pub use told::HostLine;
