//! A host under test, judged: its questions are answered as the devices of a plan would, and what is
//! wrong with its listings and on the bus goes to the trace.
//!
//! # What is proved
//!
//! - Each question is answered as usb_far does, in turn (*JudgesHost*, `specs/Serving.antt`). At a
//!   place that is found, the plan with that place is played from then on (*Placed*,
//!   `specs/Placing.antt`).
//! - Each listing is judged in the world as it is then (*ListingJudged*, `specs/Reports.antt`).
//! - A remark on an attempt, or on received data, is written exactly if it holds (*BeforeJudged*,
//!   *AfterJudged*, `specs/Attempts.antt`).
#![tactic(auto)]

mod asked;
mod attempt;
mod coming;
mod fault;
mod judge;
mod listing;
mod placing;
mod received;
mod said;
mod serving;

pub use fault::BenchFault;
pub use judge::Judge;
pub use serving::judge_host;
