//! What an endpoint of a device besides endpoint 0 is for, its toggle and its halt (5.8, 11.12).
ghost use Rattle.usb_device.specs.Bulk.{halted};

use crate::ends::EndpointNumber;
use usb_packet::Toggle;

/// An endpoint besides endpoint 0, as the device keeps it.
#[derive(Clone, Copy, Debug)]
pub struct EndpointState {
    /// The toggle of its next packet (8.6).
    pub toggle: Toggle,
    /// Whether it is halted (9.4.5).
    pub halted: bool,
}

/// An endpoint besides endpoint 0, as a request names it.
#[derive(Clone, Copy, Debug)]
pub enum ServedEndpoint {
    /// The OUT endpoint with this number.
    BulkOut(EndpointNumber),
    /// The IN endpoint with this number.
    BulkIn(EndpointNumber),
    /// The status endpoint of a hub.
    Changes,
}
