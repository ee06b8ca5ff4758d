//! Rows of INs, and their answers.
ghost use Rattle.std.specs.Prelude.{◌≡◌, ◌+◌, ◌%◌, ◌≤◌, Some, length, IfOk, IfErr};
ghost use Rattle.usb_bus.specs.Rows.{AddsFull};
ghost use Rattle.usb_dialogue.specs.RowAnswers.{ArePackets, CameFirst, FirstFault, packet_answer};
ghost use Rattle.usb_dialogue.specs.RowAnswers.{row_max};

use crate::answer::copied;
use crate::{Answer, DriverFault, Question, Statuses};
use arrayvec::ArrayVec;
use std::alloc::{AllocError, Global};
use usb_bus::{Outcome, ROW_ROOM, Toggle};

/// Adds the packet that came, if it is a full one of the toggle that is due.
pub(crate) fn add_full(
    got: &mut ArrayVec<u8, ROW_ROOM>,
    max: u8,
    due: Toggle,
    outcome: &Outcome,
) -> bool
    requires { length got.old.items + max ≤ 4096 }
    ensures { AddsFull max due outcome.now got.old.items result got.new.items }
{
    match outcome {
        Outcome::Payload(given, bytes) => {
            let is_full = due.is_same(*given) && bytes.len() == usize::from(max);
            if is_full {
                got.try_extend_from_slice(bytes.as_slice()).unwrap();
            }
            is_full
        }
        Outcome::Ack | Outcome::Nak | Outcome::Stall | Outcome::Nothing => false,
    }
}

/// The packets that came before the last attempt, as answers; none if there are no bytes.
pub(crate) fn first_answers(
    alloc: Global,
    question: &Question,
    before: &[u8],
    statuses: Statuses,
) -> Result<Vec<Answer>, DriverFault>
    requires { row_max (Some question.now) ≤ 64 }
    ensures first { IfOk result (λ answers.
        CameFirst statuses question.now before.now answers.items) }
    ensures cause { IfErr result (FirstFault question.now before.now) }
{
    if before.is_empty() {
        return Ok(Vec::new(alloc));
    }
    let Question::Ins { to, toggle, most } = question else {
        return Err(DriverFault::OutOfTurn);
    };
    let max = usize::from(to.max);
    if !before.len().is_multiple_of(max) {
        return Err(DriverFault::Length);
    }
    if before.len() >= usize::from(*most) * max {
        return Err(DriverFault::TooMuch);
    }
    Ok(packets_of(alloc, *toggle, max, before, statuses)?)
}

/// Bytes as answers, a full packet each. Their toggles alternate from `first`.
fn packets_of(
    alloc: Global,
    first: Toggle,
    max: usize,
    bytes: &[u8],
    statuses: Statuses,
) -> Result<Vec<Answer>, AllocError>
    requires max { (1 ≤ max) × (max ≤ 64) }
    requires full { length bytes.now % max ≡ 0 }
    ensures { IfOk result (λ answers. ArePackets first max statuses bytes.now answers.items) }
{
    let mut answers = Vec::new(alloc);
    let mut rest = bytes;
    let mut due = first;
    'packets: while !rest.is_empty() {
        let (packet, after) = rest.split_at(max);
        answers.push(packet_answer(due, packet, statuses))?;
        due = due.other();
        rest = after;
    }
    Ok(answers)
}

/// A packet as an answer to an IN.
fn packet_answer(toggle: Toggle, packet: &[u8], statuses: Statuses) -> Answer
    requires { length packet.now ≤ 64 }
    ensures { result ≡ packet_answer toggle packet.now statuses }
{
    Answer {
        outcome: Outcome::Payload(toggle, copied(packet)),
        statuses,
    }
}
