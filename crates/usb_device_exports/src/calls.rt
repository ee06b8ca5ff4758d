//! The devices in a block of their own, and the numbers of faults.
ghost use Rattle.std.specs.Prelude.{◌≡◌, IfErr, IfOk};
ghost use Rattle.usb_device_exports.specs.Linked.{IsUnopened, Opens, devices_state};
ghost use Rattle.usb_device_exports.specs.Exports.{ask_number, far_number, open_number};

use crate::{Devices, FarFault, OpenFault};
use std::alloc::Global;
use usb_world::BusFault;

/// The call is done.
pub(crate) const DONE: u8 = 0;

/// The devices of a text in a block of their own.
pub(crate) fn opened(alloc: Global, text: &[u8]) -> Result<Box<Devices>, OpenFault>
    ensures open { IfOk result (λ made. Opens text.now (devices_state made.value)) }
    ensures fault { IfErr result (IsUnopened text.now) }
{
    let made = Devices::open(alloc, text)?;
    match Box::new(alloc, made) {
        Ok(made) => Ok(made),
        Err(_) => Err(OpenFault::Memory),
    }
}

/// The number of why a text has no devices.
pub(crate) fn open_number(fault: OpenFault) -> u8
    ensures { result ≡ open_number fault }
{
    match fault {
        OpenFault::Memory => 1,
        OpenFault::NoText => 4,
        OpenFault::Plan(_) => 5,
    }
}

/// The number of what came of lines.
pub(crate) fn ask_number(asked: Result<(), FarFault>) -> u8
    ensures { result ≡ ask_number asked }
{
    match asked {
        Ok(()) => DONE,
        Err(fault) => far_number(fault),
    }
}

/// The number of a fault of lines: 1 if memory was refused, else 6 to 13.
fn far_number(fault: FarFault) -> u8
    ensures { result ≡ far_number fault }
{
    match fault {
        FarFault::Write | FarFault::Bus(BusFault::Memory) => 1,
        FarFault::Bus(BusFault::Limit) => 6,
        FarFault::LineTooLong => 7,
        FarFault::BadCharacter => 8,
        FarFault::NoQuestion => 9,
        FarFault::BadNumber => 10,
        FarFault::HostGone => 11,
        FarFault::LongSend => 12,
        FarFault::Read | FarFault::Bus(BusFault::Failed) => 13,
    }
}
