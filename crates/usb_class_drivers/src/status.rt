//! The wrapper in which the status of a command comes back (Bulk-Only Transport, 5.2).
ghost use Rattle.std.specs.Prelude.{◌≡◌, ◌≢◌, IfSome, IfNone};
ghost use Rattle.usb_class_drivers.specs.Statuses.{IsNoStatus, StatusTold, outcome_byte};
ghost use Rattle.usb_class_drivers.specs.Statuses.{residue_told, status_bytes};
ghost use Rattle.usb_class_drivers.specs.declared.status.Outcome.{Outcome as AnOutcome};

use crate::fault::DriverFault;

/// What became of a command.
#[derive(Clone, Copy, Debug, PartialEq, Eq)]
pub enum Outcome {
    /// It was done.
    Passed,
    /// The disk could not do it.
    Failed,
    /// Disk and host disagree on what is under way.
    PhaseError,
}

/// The status of a command.
#[derive(Clone, Copy, Debug, PartialEq, Eq)]
pub struct Status {
    /// How many of the data bytes that the wrapper named were not moved.
    pub residue: u32,
    /// What became of it.
    pub outcome: Outcome,
}

/// "USBS".
const SIGNATURE: [u8; 4] = [0x55, 0x53, 0x42, 0x53];

/// The status that these bytes are of the command with this tag; `None` if they are none.
fn status_of(bytes: &[u8], tag: u32) -> Option<Status>
    ensures some { IfSome result (λ status. bytes.now ≡ status_bytes tag status) }
    ensures none { IfNone result (IsNoStatus tag bytes.now) }
{
    let [u, s, b, t, t0, t1, t2, t3, r0, r1, r2, r3, last] = bytes else {
        return None;
    };
    if [*u, *s, *b, *t] != SIGNATURE || [*t0, *t1, *t2, *t3] != tag.to_le_bytes() {
        return None;
    }
    Some(Status {
        residue: u32::from_le_bytes([*r0, *r1, *r2, *r3]),
        outcome: outcome_of(*last)?,
    })
}

/// What the status of the command with this tag, and with so many data bytes, says: how many of them
/// were not moved, if it was done.
pub(crate) fn residue_of(bytes: &[u8], tag: u32, length: u32) -> Result<u32, DriverFault>
    ensures { StatusTold tag length bytes.now result }
{
    match status_of(bytes, tag) {
        Some(status) => residue_told(length, status),
        None => Err(DriverFault::OutOfStep),
    }
}

/// The same of a status. If more bytes were not moved than there are, it means nothing (6.3.2).
fn residue_told(length: u32, status: Status) -> Result<u32, DriverFault>
    ensures { result ≡ residue_told length status }
{
    if status.residue > length {
        return Err(DriverFault::OutOfStep);
    }
    match status.outcome {
        Outcome::Passed => Ok(status.residue),
        Outcome::Failed => Err(DriverFault::Failed),
        Outcome::PhaseError => Err(DriverFault::OutOfStep),
    }
}

/// The outcome that a byte tells, if it tells one.
fn outcome_of(byte: u8) -> Option<Outcome>
    ensures some { IfSome result (λ outcome. byte ≡ outcome_byte outcome) }
    ensures none { IfNone result ((outcome : AnOutcome) → byte ≢ outcome_byte outcome) }
{
    match byte {
        0 => Some(Outcome::Passed),
        1 => Some(Outcome::Failed),
        2 => Some(Outcome::PhaseError),
        _ => None,
    }
}
