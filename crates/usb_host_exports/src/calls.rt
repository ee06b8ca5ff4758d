//! What each export has the driver do.
ghost use Rattle.std.specs.Prelude.{◌≡◌, ◌≢◌, drop, length, IfOk, IfErr};
ghost use Rattle.usb_dialogue.specs.Drivers.{opening};
ghost use Rattle.usb_dialogue.specs.DriverStates.{driver_state};
ghost use Rattle.usb_dialogue.specs.declared.fault.DriverFault.{DriverFault as AFault};
ghost use Rattle.usb_host_exports.specs.Exports.{AnswersBytes, BeginsBytes, OpenFault};
ghost use Rattle.usb_host_exports.specs.Exports.{PutsQuestion, RowBytes, filled, options_in};
ghost use Rattle.usb_host_exports.specs.Exports.{statuses_in};

use std::alloc::Global;
use std::cmp::min;
use usb_dialogue::{Answer, Driver, DriverFault, HostOptions, Statuses, Want};

/// The bytes of a question.
const QUESTION: usize = 72;

/// The bytes of the statuses of seven root ports.
const STATUSES: usize = 28;

/// A driver in a block of its own.
pub(crate) fn opened(
    alloc: Global,
    roots: u8,
    options: HostOptions,
    statuses: &[u8],
) -> Result<Box<Driver>, DriverFault>
    ensures size { IfOk result (λ driver. length statuses.now ≡ 28) }
    ensures open { IfOk result (λ driver.
        driver_state driver.value ≡ opening roots options (statuses_in statuses.now)) }
    ensures cause { IfErr result (OpenFault roots statuses.now) }
{
    let driver = Driver::open(alloc, roots, options, statuses_of(statuses)?)?;
    match Box::new(alloc, driver) {
        Ok(driver) => Ok(driver),
        Err(_) => Err(DriverFault::Memory),
    }
}

/// Wide hubs if `wide` is not 0, and this many bytes of a device; any number if it is the greatest.
pub(crate) fn options_of(wide: u8, device_bytes: u32) -> HostOptions
    ensures { result ≡ options_in wide device_bytes }
{
    HostOptions {
        wide_hubs: wide != 0,
        device_bytes: if device_bytes == u32::MAX {
            None
        } else {
            Some(device_bytes as usize)
        },
    }
}

/// The statuses that 28 bytes are.
fn statuses_of(bytes: &[u8]) -> Result<Statuses, DriverFault>
    ensures size { IfOk result (λ statuses. length bytes.now ≡ 28) }
    ensures value { IfOk result (λ statuses. statuses ≡ statuses_in bytes.now) }
    ensures cause { IfErr result (λ fault. (fault ≡ AFault.Length) × (length bytes.now ≢ 28)) }
{
    if bytes.len() != STATUSES {
        return Err(DriverFault::Length);
    }
    let (ports, _) = bytes.as_chunks::<4>();
    match ports.first_chunk::<7>() {
        Some(statuses) => Ok(*statuses),
        None => Err(DriverFault::Length),
    }
}

/// Begins what these bytes want.
pub(crate) fn begun(alloc: Global, driver: &mut Driver, bytes: &[u8]) -> Result<(), DriverFault>
    ensures { BeginsBytes (driver_state driver.old) bytes.now result (driver_state driver.new) }
{
    let (want, statuses) = Want::read(alloc, bytes)?;
    driver.begin(want, statuses)
}

/// Puts the question into a room of 72 bytes. `false`: there is none, and the room stays as it was.
pub(crate) fn put_question(driver: &mut Driver, room: &mut [u8]) -> Result<bool, DriverFault>
    ensures { PutsQuestion (driver_state driver.old) room.old result (driver_state driver.new)
        room.new }
{
    if room.len() != QUESTION {
        return Err(DriverFault::Length);
    }
    match driver.question() {
        Ok(Some(question)) => {
            room.copy_from_slice(&question.bytes());
            Ok(true)
        }
        Ok(None) => Ok(false),
        Err(fault) => Err(fault),
    }
}

/// Answers with these bytes.
pub(crate) fn answered(driver: &mut Driver, bytes: &[u8]) -> Result<(), DriverFault>
    ensures { AnswersBytes (driver_state driver.old) bytes.now result (driver_state driver.new) }
{
    driver.answer(Answer::read(bytes)?)
}

/// Answers a row with the bytes of its first packets, and the record of its last attempt.
pub(crate) fn row_answered(
    driver: &mut Driver,
    before: &[u8],
    bytes: &[u8],
) -> Result<(), DriverFault>
    ensures { RowBytes (driver_state driver.old) before.now bytes.now result
        (driver_state driver.new) }
{
    driver.answer_row(before, Answer::read(bytes)?)
}

/// Copies the bytes without the first ones, until the room is full.
pub(crate) fn copy_rest(bytes: &[u8], skip: usize, room: &mut [u8])
    ensures { room.new ≡ filled (drop skip bytes.now) room.old }
{
    let Some(rest) = bytes.get(skip..) else {
        return;
    };
    let count = min(rest.len(), room.len());
    room[..count].copy_from_slice(&rest[..count]);
}
