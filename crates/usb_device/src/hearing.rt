//! What is heard of the answers to a packet, as it comes.

use crate::answer::AnswerPid;

/// The packet identifier that is heard.
#[derive(Clone, Copy, Debug)]
pub enum HeardPid {
    /// No device answered.
    Nothing,
    /// One device answered.
    One(AnswerPid),
    /// More than one answered, and nothing of it can be read.
    Collision,
}
