//! The four calls.
ghost use Rattle.usb_device_exports.specs.Exports.{Asks, Closes, Opens, Says, held_by};

use crate::calls::{DONE, ask_number, open_number, opened};
use crate::handle::Handle;
use std::alloc::Global;

/// The handle is open.
const OPEN: u8 = 2;

/// The handle is closed.
const CLOSED: u8 = 3;

/// Opens a closed handle: the devices of the plan that this TOML text spells. All root ports are
/// off.
///
/// Returns 0, or one of these. The handle stays as it was:
///
/// - 2: it is open.
/// - 4: the text is no UTF-8.
/// - 5: it is no plan, as `usb_plan::read_plan` says.
/// - 1: memory was refused.
#[unsafe(no_mangle)]
pub extern "C" fn usb_devices_open(alloc: Global, handle: &mut Handle, plan: &[u8]) -> u8
    ensures { Opens (held_by handle.old) plan.now result (held_by handle.new) }
{
    if handle.live {
        return OPEN;
    }
    match opened(alloc, plan) {
        Ok(devices) => {
            handle.put(devices);
            DONE
        }
        Err(fault) => open_number(fault),
    }
}

/// Asks lines of a host, each with its newline (`docs/output/live.md`). They are answered in order,
/// as `usbplan far` does, and the answers wait in the handle.
///
/// Returns 0, or one of these. At the first fault the answers of the lines before it wait, and those
/// to the first attempts of its row. Nothing more is done then: each later call returns the same
/// number.
///
/// - 3: the handle is closed.
/// - 6: the attempts made equal the plan's limit.
/// - 7: a line that reports nothing has more than 1,024 bytes.
/// - 8: a byte of such a line is no printable ASCII.
/// - 9: such a line is no question, or the hello is not the first one.
/// - 10: the plan has no such root port.
/// - 11: the last line has no newline.
/// - 12: the next event sends more than a line has room for.
/// - 1: memory was refused. A prefix of one more answer may wait.
/// - 13: the reader or the trace failed, which these never do.
#[unsafe(no_mangle)]
pub extern "C" fn usb_devices_ask(alloc: Global, handle: &mut Handle, lines: &[u8]) -> u8
    ensures { Asks (held_by handle.old) lines.now result (held_by handle.new) }
{
    let Some(mut devices) = handle.take(alloc) else {
        return CLOSED;
    };
    let asked = devices.ask(lines);
    handle.put(devices);
    ask_number(asked)
}

/// Moves as many of the waiting bytes into the room as it has space for, in order. The rest of the
/// room stays as it was.
///
/// Returns how many: 0 if nothing waits, and if the handle is closed.
#[unsafe(no_mangle)]
pub extern "C" fn usb_devices_said(alloc: Global, handle: &mut Handle, room: &mut [u8]) -> usize
    ensures { Says (held_by handle.old) room.old result (held_by handle.new) room.new }
{
    let Some(mut devices) = handle.take(alloc) else {
        return 0;
    };
    let count = devices.fetch(room);
    handle.put(devices);
    count
}

/// Closes the handle, and frees all that it holds. It may be opened again.
///
/// Returns 0, or 3 if it is closed already.
#[unsafe(no_mangle)]
pub extern "C" fn usb_devices_close(alloc: Global, handle: &mut Handle) -> u8
    ensures { Closes (held_by handle.old) result (held_by handle.new) }
{
    match handle.take(alloc) {
        Some(_) => DONE,
        None => CLOSED,
    }
}
