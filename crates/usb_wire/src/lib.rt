//! The lines of the live protocol (`docs/output/live.md`): the host's questions and their answers.
//!
//! # What is proved
//!
//! - `question_line` and `said_line` write the lines of `specs/Questions.antt` and
//!   `specs/Answers.antt`.
//! - `read_question` and `read_said` return a value exactly if the line says it and may say it
//!   there (*MaySay*). Else `read_said` returns the first fault of `specs/Faults.antt`.
//! - What is written is read back (`lines_are_read_back`).
//!
//! *Only tested*: the words of the faults.
#![tactic(auto)]

mod answer;
mod asking;
mod fault;
mod field;
mod laws;
mod question;
mod reading;
mod words;
mod write;

pub use answer::{Answer, SEND_LIMIT, SEND_ROOM, SEND_TO_LIMIT, Said, said_line};
pub use asking::read_question;
pub use fault::WireFault;
pub use laws::lines_are_read_back;
pub use question::{Asked, DataPacket, Endpoint, Question, ROW_LIMIT, question_line};
pub use reading::{Hubs, read_said};
pub use usb_packet::Speed;
pub use write::{ControlWrite, WRITE_LIMIT};
