//! What a listed device says it is, and how many ports a hub has.
ghost use Rattle.std.specs.Prelude.{◌≡◌, ◌++◌, OnOk};
ghost use Rattle.usb_drawing.specs.Classes.{codes_of, ports_text};

use std::alloc::AllocError;
use usb_descriptor::{ClassCodes, text_codes};
use usb_enum::{Accepted, HubFacts};
use usb_text::push_decimal;

/// The codes of a device, or if its class is 0 those of its configuration's first interface.
pub(crate) fn codes_of(device: &Accepted) -> ClassCodes
    ensures { result ≡ codes_of device.now }
{
    if device.bytes[4] == 0 {
        return text_codes(device.configuration().as_slice());
    }
    ClassCodes {
        class: device.bytes[4],
        subclass: device.bytes[5],
        protocol: device.bytes[6],
    }
}

/// Adds how many ports a hub has.
pub(crate) fn push_ports(out: &mut Vec<u8>, hub: &Option<HubFacts>) -> Result<(), AllocError>
    ensures { OnOk result (out.new.items ≡ out.old.items ++ ports_text hub.now) }
{
    match hub {
        None => Ok(()),
        Some(facts) if facts.ports == 1 => out.extend_from_slice(b", 1 port"),
        Some(facts) => {
            out.extend_from_slice(b", ")?;
            push_decimal(out, u64::from(facts.ports))?;
            out.extend_from_slice(b" ports")
        }
    }
}
