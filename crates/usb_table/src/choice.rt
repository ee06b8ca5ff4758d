//! Which endpoint of a device a transfer goes through.

use usb_request::EndpointAddress;

/// Which endpoint of a device a transfer goes through.
#[derive(Clone, Copy, Debug, PartialEq, Eq)]
pub enum EndpointChoice {
    /// Its first bulk endpoint of the transfer's direction (5.8).
    FirstBulk,
    /// The endpoint with this address (9.6.6).
    At(EndpointAddress),
}
