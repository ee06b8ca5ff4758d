//! Requests of a device's class to an interface of it (9.3).
ghost use Rattle.std.specs.Prelude.{◌≡◌};
ghost use Rattle.usb_class_drivers.specs.Requests.{class_request};

use usb_request::Setup;

/// bmRequestType: a request of the class, to an interface, with no data or data to the device.
const TO_INTERFACE: u8 = 0x21;

/// A request of the class that writes to an interface.
pub(crate) fn class_request(interface: u8, request: u8, value: u16, length: u16) -> Setup
    ensures { result ≡ class_request interface request value length }
{
    Setup {
        request_type: TO_INTERFACE,
        request,
        value,
        index: u16::from(interface),
        length,
    }
}
