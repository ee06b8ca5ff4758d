//! Endpoint 0 of a device that was accepted.
ghost use Rattle.std.specs.Prelude.{◌≡◌, ◌≤◌};
ghost use Rattle.usb_transfer.specs.Transactions.{IsTarget};
ghost use Rattle.usb_enum.specs.Device.{target_of};
ghost use Rattle.usb_table.specs.Findings.{IsSoundDevice};

use usb_enum::Accepted;
use usb_transfer::Target;

/// Endpoint 0 of a device that was accepted, below an external hub or not.
#[tactic(auto, using(crate::proofs::levels::NewPipes::sound_target_fits, crate::proofs::levels::NewPipes::sound_target_wide))]
pub(crate) fn target_to(device: &Accepted, below_hub: bool) -> Target
    requires { IsSoundDevice device.now }
    ensures value { result ≡ target_of device.now below_hub }
    ensures fits { IsTarget result }
    ensures wide { 8 ≤ result.max }
{
    // for the checker: an address is 1 to 127
    let _address = device.address.number();
    device.target(below_hub)
}
