//! The verdict on a host: what it reports of its ports, judged against what is plugged; what it
//! does wrong on the bus; and what is wrong in its reports of received data.
//!
//! # What is proved
//!
//! - `judge` returns a judgement exactly if its cause holds (*Stands*, `specs/Judgements.antt`), in
//!   the order of paths.
//! - It returns none exactly if the listing is right (*IsRight*). Of a world that has these
//!   devices, that is *IsRightIn* (`judged_world`). What has no path (*names_port*) counts as not
//!   there.
//!
//! Policy is not judged: which device is refused, and which configuration is chosen among those
//! that the port can give power.
//!
//! - `judge_attempt` returns a remark exactly if it holds of the attempt (*judged*,
//!   `specs/Holders.antt`).
//! - `Outs` judges toggles by the packets that have no answer (`specs/Answers.antt`). What it keeps
//!   of an endpoint is what the whole run says of it (`left_after_run`).
//! - `Window` keeps the places in a device's source at which the next data may begin. It returns
//!   none exactly if data are at none of them (`specs/Sources.antt`).
#![tactic(auto)]

mod attempts;
mod conduct_laws;
mod holders;
mod judgement;
mod laws;
mod lines;
mod listed;
mod outs;
mod packet_size;
mod plugged;
mod remark;
mod rules;
mod steps;
mod verdict;
mod window;

pub use attempts::{judge_attempt, resets_empty};
pub use conduct_laws::left_after_run;
pub use judgement::{Cause, Judgement};
pub use laws::judged_world;
pub use lines::{data_line, empty_line, remark_line};
pub use listed::{Claim, ListedDevice, ListedPort};
pub use outs::{Outs, Unanswered};
pub use plugged::PluggedDevice;
pub use remark::Remark;
pub use verdict::judge;
pub use window::Window;
