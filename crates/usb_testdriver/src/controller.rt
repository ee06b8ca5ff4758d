//! The controller side: what a question's bytes say, done over a simulated bus.
ghost use Rattle.std.specs.Prelude.{IfSome};
ghost use Rattle.usb_world.specs.PlainAttempts.{attempt_data};
ghost use Rattle.usb_world.specs.Worlds.{IsAttempt};
ghost use Rattle.usb_bus.specs.Rows.{IsDestination};

use arrayvec::ArrayVec;
use std::alloc::{AllocError, Global};
use usb_bus::{Bus, BusFault, Destination, Speed};
use usb_dialogue::{Attempt, Outcome, Statuses, Toggle};
use usb_request::feature::{
    C_PORT_CONNECTION, C_PORT_ENABLE, C_PORT_RESET, PORT_ENABLE, PORT_POWER, PORT_RESET,
};
use usb_sim::{SimBus, Untraced};

/// The attempt that a question's bytes ask for, and the first of a row; `None` if it is none.
fn attempt_of(record: &[u8; 72]) -> Option<Attempt>
    ensures { IfSome result (λ attempt. IsAttempt (attempt_data attempt)) }
{
    let speed = match record[3] % 4 {
        0 => Speed::Full,
        1 => Speed::Low,
        3 => Speed::LowBelowHub,
        _ => return None,
    };
    let to = Destination {
        address: record[1],
        number: record[2],
        speed,
        max: record[4],
    };
    if to.address > 127 || to.number > 15 || to.max < 1 || to.max > 64 || record[5] > to.max {
        return None;
    }
    match record[0] {
        1 => Some(Attempt::Setup {
            to,
            bytes: [
                record[8], record[9], record[10], record[11], record[12], record[13], record[14],
                record[15],
            ],
        }),
        2 => out_of(to, record),
        3 | 7 => Some(Attempt::In { to }),
        _ => None,
    }
}

/// The OUT of a question's bytes; `None` if it has more data than the maximum.
fn out_of(to: Destination, record: &[u8; 72]) -> Option<Attempt>
    requires { IsDestination to }
    ensures { IfSome result (λ attempt. IsAttempt (attempt_data attempt)) }
{
    let bytes = sent(record, usize::from(record[5]));
    if bytes.len() > usize::from(to.max) {
        return None;
    }
    Some(Attempt::Out {
        to,
        toggle: toggle_of(record),
        bytes,
    })
}

/// The toggle of an OUT, and of the first packet of a row.
fn toggle_of(record: &[u8; 72]) -> Toggle {
    if record[3] >= 4 {
        Toggle::One
    } else {
        Toggle::Zero
    }
}

/// The first `count` bytes of a question's data.
fn sent(record: &[u8; 72], count: usize) -> ArrayVec<u8, 64> {
    let mut bytes = ArrayVec::new();
    for byte in record.iter().skip(8).take(count) {
        let _ = bytes.try_push(*byte);
    }
    bytes
}

/// What the root ports show.
pub fn statuses(bus: &SimBus<Untraced>) -> Statuses {
    let mut all = [[0; 4]; 7];
    for port in 1..bus.root_ports() + 1 {
        all[usize::from(port) - 1] = bus.root_status(port);
    }
    all
}

/// Does what a question's bytes say, and returns what came of it.
///
/// # Errors
///
/// The fault of the bus.
pub(crate) fn put(bus: &mut SimBus<Untraced>, record: &[u8; 72]) -> Result<Outcome, BusFault> {
    if let Some(attempt) = attempt_of(record) {
        return bus.attempt(&attempt);
    }
    call(bus, record[0], record[1], record[2]);
    Ok(Outcome::Nothing)
}

/// Makes at most `most` attempts of a row. Returns the bytes of the full packets before the last
/// attempt, and what came of that.
///
/// # Errors
///
/// The fault of the bus, or `Memory`: memory was refused.
pub(crate) fn put_row(
    alloc: Global,
    bus: &mut SimBus<Untraced>,
    record: &[u8; 72],
    most: u8,
) -> Result<(Vec<u8>, Outcome), BusFault> {
    let mut before = Vec::new(alloc);
    let mut last = put(bus, record)?;
    let mut due = toggle_of(record);
    'packets: for _ in 1..record[6].min(most) {
        match &last {
            Outcome::Payload(given, bytes)
                if due.is_same(*given) && bytes.len() == usize::from(record[4]) => {
                before.extend_from_slice(bytes.as_slice())?;
            }
            _ => return Ok((before, last)),
        }
        due = due.other();
        last = put(bus, record)?;
    }
    Ok((before, last))
}

/// Does a call at a root port, or begins an endpoint again.
fn call(bus: &mut SimBus<Untraced>, kind: u8, first: u8, second: u8) {
    let feature = u16::from(second);
    let is_port = first >= 1 && first <= bus.root_ports();
    if kind == 4 && is_port && matches!(feature, PORT_POWER | PORT_RESET) {
        bus.root_set(first, feature);
    }
    if kind == 5
        && is_port
        && matches!(
            feature,
            PORT_ENABLE | PORT_POWER | C_PORT_CONNECTION | C_PORT_ENABLE | C_PORT_RESET
        )
    {
        bus.root_clear(first, feature);
    }
    let number = second % 128;
    if kind == 6 && first <= 127 && number >= 1 && number <= 15 {
        bus.restart_endpoint(first, number, second >= 128);
    }
}

/// The record of an answer.
pub(crate) fn answer_record(
    alloc: Global,
    outcome: &Outcome,
    statuses: &Statuses,
) -> Result<Vec<u8>, AllocError> {
    let mut record = Vec::new(alloc);
    record.extend_from_slice(&head_of(outcome))?;
    'ports: for status in statuses {
        record.extend_from_slice(status)?;
    }
    if let Outcome::Payload(_, bytes) = outcome {
        record.extend_from_slice(bytes.as_slice())?;
    }
    Ok(record)
}

/// The first four bytes of an answer's record.
fn head_of(outcome: &Outcome) -> [u8; 4] {
    match outcome {
        Outcome::Nothing => [0; 4],
        Outcome::Ack => [1, 0, 0, 0],
        Outcome::Nak => [2, 0, 0, 0],
        Outcome::Stall => [3, 0, 0, 0],
        Outcome::Payload(Toggle::Zero, bytes) => [4, 0, bytes.len().to_le_bytes()[0], 0],
        Outcome::Payload(Toggle::One, bytes) => [4, 1, bytes.len().to_le_bytes()[0], 0],
    }
}
