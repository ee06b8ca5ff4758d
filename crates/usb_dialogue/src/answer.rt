//! Answers of the controller side.
ghost use Rattle.std.specs.Prelude.{◌≡◌, ◌≤◌, ◌<◌, ℕ, length, IfOk, IfErr, Ok};
ghost use Rattle.usb_dialogue.specs.Answers.{AnswerFault, Came, CameFault, IsAnswer, answer_record};
ghost use Rattle.usb_dialogue.specs.Statuses.{AreStatuses, four_at, statuses_bytes};
ghost use Rattle.usb_dialogue.specs.declared.answer.Answer.{Answer as AnAnswer};

use crate::DriverFault;
use arrayvec::ArrayVec;
use usb_bus::{Outcome, Toggle};

/// wPortStatus and wPortChange of root ports 1 to 7 (11.24.2.7), zeros for a port that does not
/// exist.
pub type Statuses = [[u8; 4]; 7];

/// What came of a question.
#[derive(Debug, Drop)]
pub struct Answer {
    /// What an attempt gave. After any other question it is not read.
    pub outcome: Outcome,
    /// The root ports as they are now.
    pub statuses: Statuses,
}

impl Answer {
    /// Reads the record of an answer, 32 bytes and then data.
    ///
    /// | at | what |
    /// |---|---|
    /// | 0 | 0 nothing, 1 ACK, 2 NAK, 3 STALL, 4 data |
    /// | 1 | 0 DATA0, 1 DATA1; 0 if there are no data |
    /// | 2, 3 | the number of bytes of data, low byte first: 0 to 64; 0 if there are no data |
    /// | 4 to 31 | the statuses of root ports 1 to 7, four bytes each |
    /// | 32 .. | the data |
    ///
    /// # Errors
    ///
    /// In this order:
    ///
    /// - `Length`: fewer than 32 bytes.
    /// - `Kind`: byte 0 is more than 4.
    /// - `Length`: bytes 2 and 3 are not the number of bytes after the 32, or there are data and
    ///   byte 0 is not 4.
    /// - `TooMuch`: more than 64 bytes of data.
    /// - `Number`: byte 1 is more than 1, or it is 1 and byte 0 is not 4.
    pub fn read(bytes: &[u8]) -> Result<Answer, DriverFault>
        ensures read { IfOk result (λ answer.
            IsAnswer answer × (bytes.now ≡ answer_record answer)) }
        ensures only { (answer : AnAnswer) → IsAnswer answer → bytes.now ≡ answer_record answer
            → result ≡ Ok answer }
        ensures cause { IfErr result (AnswerFault bytes.now) }
    {
        answer_in(bytes)
    }
}

const ACK: u8 = 1;

const NAK: u8 = 2;

const STALL: u8 = 3;

const DATA: u8 = 4;

/// The answer of a record.
fn answer_in(bytes: &[u8]) -> Result<Answer, DriverFault>
    ensures read { IfOk result (λ answer. IsAnswer answer × (bytes.now ≡ answer_record answer)) }
    ensures cause { IfErr result (AnswerFault bytes.now) }
{
    let Some((head, rest)) = bytes.split_first_chunk::<4>() else {
        return Err(DriverFault::Length);
    };
    let Some((statuses, came)) = rest.split_first_chunk::<28>() else {
        return Err(DriverFault::Length);
    };
    let [kind, toggle, low, high] = *head;
    if kind > DATA {
        return Err(DriverFault::Kind);
    }
    if usize::from(u16::from_le_bytes([low, high])) != came.len() {
        return Err(DriverFault::Length);
    }
    Ok(Answer {
        outcome: outcome_of(kind, toggle, came)?,
        statuses: statuses_of(statuses),
    })
}

/// What came, by the kind of an answer, its toggle and its data.
fn outcome_of(kind: u8, toggle: u8, came: &[u8]) -> Result<Outcome, DriverFault>
    requires { kind ≤ DATA }
    ensures read { IfOk result (Came kind toggle came.now) }
    ensures cause { IfErr result (CameFault kind toggle came.now) }
{
    if kind == DATA {
        return payload_of(toggle, came);
    }
    if !came.is_empty() {
        return Err(DriverFault::Length);
    }
    if toggle != 0 {
        return Err(DriverFault::Number);
    }
    Ok(match kind {
        ACK => Outcome::Ack,
        NAK => Outcome::Nak,
        STALL => Outcome::Stall,
        _ => Outcome::Nothing,
    })
}

/// Data that came.
fn payload_of(toggle: u8, came: &[u8]) -> Result<Outcome, DriverFault>
    ensures read { IfOk result (Came DATA toggle came.now) }
    ensures cause { IfErr result (CameFault DATA toggle came.now) }
{
    if came.len() > 64 {
        return Err(DriverFault::TooMuch);
    }
    let toggle = match toggle {
        0 => Toggle::Zero,
        1 => Toggle::One,
        _ => return Err(DriverFault::Number),
    };
    Ok(Outcome::Payload(toggle, copied(came)))
}

/// At most 64 bytes.
pub(crate) fn copied(bytes: &[u8]) -> ArrayVec<u8, 64>
    requires { length bytes.now ≤ 64 }
    ensures { result.items ≡ bytes.now }
{
    let mut copy = ArrayVec::new();
    copy.try_extend_from_slice(bytes).unwrap();
    copy
}

/// The statuses that 28 bytes are.
pub(crate) fn statuses_of(bytes: &[u8; 28]) -> Statuses
    ensures bytes { statuses_bytes result ≡ bytes.now }
    ensures are { AreStatuses result }
{
    [
        four_at(bytes, 0),
        four_at(bytes, 4),
        four_at(bytes, 8),
        four_at(bytes, 12),
        four_at(bytes, 16),
        four_at(bytes, 20),
        four_at(bytes, 24),
    ]
}

/// Four bytes from a place on.
fn four_at(bytes: &[u8; 28], at: usize) -> [u8; 4]
    requires { at ≤ 24 }
    ensures { result ≡ four_at bytes.now at }
{
    [bytes[at], bytes[at + 1], bytes[at + 2], bytes[at + 3]]
}
