//! What distinguishes findings.
ghost use Rattle.std.specs.Prelude.{◌≡◌};
ghost use Rattle.usb_table.specs.Findings.{address_found, is_accepted, is_hub, is_waiting};

use usb_enum::{Cause, Finding};
use usb_port::Address;

/// The address of a device that was found.
pub fn address_of(finding: &Finding) -> Option<Address>
    ensures { result ≡ address_found finding.now }
{
    match finding {
        Finding::Device(device) => Some(device.address),
        Finding::Refused(_) => None,
    }
}

/// The number of that address.
pub(crate) fn address_number(finding: &Finding) -> Option<u8>
    ensures { result ≡ address_found finding.now }
{
    match address_of(finding) {
        Some(address) => Some(address.number()),
        None => None,
    }
}

/// Whether it is an accepted device, hubs too.
pub(crate) fn is_accepted(finding: &Finding) -> bool
    ensures { result ≡ is_accepted finding.now }
{
    match finding {
        Finding::Device(_) => true,
        Finding::Refused(_) => false,
    }
}

/// Whether it is an accepted hub.
pub(crate) fn is_hub(finding: &Finding) -> bool
    ensures { result ≡ is_hub finding.now }
{
    match finding {
        Finding::Device(device) => device.hub.is_some(),
        Finding::Refused(_) => false,
    }
}

/// Whether it was refused because no address was free.
pub(crate) fn is_waiting(finding: &Finding) -> bool
    ensures { result ≡ is_waiting finding.now }
{
    match finding {
        Finding::Device(_) => false,
        Finding::Refused(cause) => *cause == Cause::NoAddress,
    }
}
