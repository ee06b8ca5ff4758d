//! The seven calls.
ghost use Rattle.std.specs.Prelude.{◌≡◌};
ghost use Rattle.usb_host_exports.specs.Exports.{Answers, AnswersRow, Asks, Begins, Closes, Opens};
ghost use Rattle.usb_host_exports.specs.Exports.{Copies, done_number, held_by, options_in};
ghost use Rattle.usb_host_exports.specs.Exports.{put_number};

use crate::calls::{answered, begun, copy_rest, opened, options_of, put_question, row_answered};
use crate::handle::Handle;
use std::alloc::Global;
use usb_dialogue::DriverFault;

/// The call is done.
const DONE: u8 = 0;

/// There is no question.
const NONE: u8 = 1;

/// The handle is closed.
const CLOSED: u8 = 47;

/// Opens a closed handle: a host of a controller with this number of root ports, 1 to 7.
///
/// `statuses` are 28 bytes: wPortStatus and wPortChange (11.24.2.7) of root ports 1 to 7, the low
/// byte first, and zeros for each port that does not exist. If `wide` is not 0, the host takes hubs
/// of up to 15 ports. A device is refused if its configurations have more than `device_bytes` bytes
/// together; `u32::MAX` is no limit. The first call is under way then: ask for its first question.
///
/// Returns 0, or one of these. The handle stays as it was:
///
/// - 41: it is open.
/// - 43: `statuses` are not 28 bytes.
/// - 45: the number of root ports is not 1 to 7.
/// - 40: memory was refused.
#[unsafe(no_mangle)]
pub extern "C" fn usb_handle_open(
    alloc: Global,
    handle: &mut Handle,
    roots: u8,
    wide: u8,
    device_bytes: u32,
    statuses: &[u8],
) -> u8
    ensures { Opens (held_by handle.old) roots (options_in wide device_bytes) statuses.now result
        (held_by handle.new) }
{
    if handle.live {
        return DriverFault::OutOfTurn.number();
    }
    match opened(alloc, roots, options_of(wide, device_bytes), statuses) {
        Ok(driver) => {
            handle.put(driver);
            DONE
        }
        Err(fault) => fault.number(),
    }
}

/// Begins the call of the host that this record names (`usb_dialogue::Want`).
///
/// Returns 0, or one of these. The host stays as it was:
///
/// - 47: the handle is closed.
/// - 42, 43, 46: the record names no call, as `Want::read` says.
/// - 41: a call is under way.
/// - 40: memory was refused.
#[unsafe(no_mangle)]
pub extern "C" fn usb_handle_begin(alloc: Global, handle: &mut Handle, want: &[u8]) -> u8
    ensures { Begins (held_by handle.old) want.now result (held_by handle.new) }
{
    let Some(mut driver) = handle.take(alloc) else {
        return CLOSED;
    };
    let done = begun(alloc, &mut driver, want);
    handle.put(driver);
    done_number(done)
}

/// Puts the question into a room of 72 bytes (`usb_dialogue::Question`). A second call puts the
/// same question there, until its answer is taken.
///
/// Returns 0 if it is there, 1 if there is none: the call is done. Only at 0 is anything put into
/// the room. Or it returns one of these:
///
/// - 47: the handle is closed.
/// - 43: the room has not 72 bytes.
/// - 40: memory was refused.
#[unsafe(no_mangle)]
pub extern "C" fn usb_handle_question(alloc: Global, handle: &mut Handle, question: &mut [u8]) -> u8
    ensures { Asks (held_by handle.old) question.old result (held_by handle.new) question.new }
{
    let Some(mut driver) = handle.take(alloc) else {
        return CLOSED;
    };
    let put = put_question(&mut driver, question);
    handle.put(driver);
    put_number(put)
}

/// Answers the question with this record (`usb_dialogue::Answer`).
///
/// Returns 0, or one of these. The answer is not taken, and the host stays as it was:
///
/// - 47: the handle is closed.
/// - 42, 43, 44, 46: the record is no answer, as `Answer::read` says.
/// - 41: there is no question.
/// - 44: there are more data than the question's maximum packet.
/// - 40: memory was refused.
#[unsafe(no_mangle)]
pub extern "C" fn usb_handle_answer(alloc: Global, handle: &mut Handle, answer: &[u8]) -> u8
    ensures { Answers (held_by handle.old) answer.now result (held_by handle.new) }
{
    let Some(mut driver) = handle.take(alloc) else {
        return CLOSED;
    };
    let done = answered(&mut driver, answer);
    handle.put(driver);
    done_number(done)
}

/// Answers a row of INs (`usb_dialogue::Question::Ins`): the bytes of the full packets that came
/// first, in order, and the record of the attempt after them. Without such bytes it is
/// `usb_handle_answer`.
///
/// Returns 0, or one of these. Nothing is taken, and the host stays as it was:
///
/// - 47: the handle is closed.
/// - 42, 43, 44, 46: the record is no answer, as `Answer::read` says.
/// - 41: there is no question, or there are first packets and the question is no row.
/// - 43: the length of `before` is no multiple of the question's maximum packet.
/// - 44: there are more packets than the row has, or the last one is too long.
/// - 40: memory was refused.
#[unsafe(no_mangle)]
pub extern "C" fn usb_handle_answer_row(
    alloc: Global,
    handle: &mut Handle,
    before: &[u8],
    answer: &[u8],
) -> u8
    ensures { AnswersRow (held_by handle.old) before.now answer.now result
        (held_by handle.new) }
{
    let Some(mut driver) = handle.take(alloc) else {
        return CLOSED;
    };
    let done = row_answered(&mut driver, before, answer);
    handle.put(driver);
    done_number(done)
}

/// Copies the records of the call that was done last, without their first `skip` bytes, until the
/// room is full. The rest of the room stays as it was.
///
/// Returns how many bytes the records have in all: 0 before the first call is done, and if the
/// handle is closed.
#[unsafe(no_mangle)]
pub extern "C" fn usb_handle_told(
    alloc: Global,
    handle: &mut Handle,
    skip: usize,
    room: &mut [u8],
) -> usize
    ensures same { handle.new.slot.held ≡ handle.old.slot.held }
    ensures told { Copies (held_by handle.old) skip room.old result room.new }
{
    let Some(driver) = handle.take(alloc) else {
        return 0;
    };
    let told = driver.told();
    let count = told.len();
    copy_rest(told, skip, room);
    handle.put(driver);
    count
}

/// Closes the handle, and frees the host. It may be opened again.
///
/// Returns 0, or 47 if it is closed already.
#[unsafe(no_mangle)]
pub extern "C" fn usb_handle_close(alloc: Global, handle: &mut Handle) -> u8
    ensures { Closes (held_by handle.old) result (held_by handle.new) }
{
    match handle.take(alloc) {
        Some(_) => DONE,
        None => CLOSED,
    }
}

/// The number of what came of a call.
fn done_number(done: Result<(), DriverFault>) -> u8
    ensures { result ≡ done_number done }
{
    match done {
        Ok(()) => DONE,
        Err(fault) => fault.number(),
    }
}

/// The number of what came of a request for the question.
fn put_number(put: Result<bool, DriverFault>) -> u8
    ensures { result ≡ put_number put }
{
    match put {
        Ok(true) => DONE,
        Ok(false) => NONE,
        Err(fault) => fault.number(),
    }
}
