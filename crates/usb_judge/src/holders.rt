//! The devices that hold an address.
ghost use Rattle.std.specs.Prelude.{◌≡◌, count_by};
ghost use Rattle.std.specs.Option.{option_copied};
ghost use Rattle.std.specs.List.{find};
ghost use Rattle.usb_judge.specs.Holders.{holds, reads};

use crate::PluggedDevice;
use usb_packet::Speed;

/// Whether packets reach the device, and it holds the address.
fn holds(device: &PluggedDevice<'_>, address: u8) -> bool
    ensures { result ≡ holds address device.now }
{
    device.reached && device.address == address
}

/// How many devices hold an address.
pub(crate) fn count_holders(plugged: &[PluggedDevice<'_>], address: u8) -> usize
    ensures { result ≡ count_by (holds address) plugged.now }
{
    plugged
        .iter()
        .filter(|device| holds(device, address))
        .count()
}

/// The first device that holds an address.
pub(crate) fn holder<'a, 'b>(
    plugged: &'b [PluggedDevice<'a>],
    address: u8,
) -> Option<&'b PluggedDevice<'a>>
    ensures { option_copied result ≡ find (holds address) plugged.now }
{
    plugged.iter().find(|device| holds(device, address))
}

/// Whether the device reads packets that go at this speed (8.6.5).
pub(crate) fn reads(device: &PluggedDevice<'_>, speed: Speed) -> bool
    ensures { result ≡ reads device.now speed }
{
    match speed {
        Speed::Full => !device.low,
        Speed::Low => device.low && device.path.numbers().len() <= 1,
        Speed::LowBelowHub => device.low,
    }
}
