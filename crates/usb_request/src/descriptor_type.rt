//! Types of descriptors (9.4, 11.23.2): the second byte of each, and the high byte of wValue in
//! GET_DESCRIPTOR.

/// DEVICE.
pub const DEVICE: u8 = 1;

/// CONFIGURATION.
pub const CONFIGURATION: u8 = 2;

/// STRING.
pub const STRING: u8 = 3;

/// INTERFACE.
pub const INTERFACE: u8 = 4;

/// ENDPOINT.
pub const ENDPOINT: u8 = 5;

/// The class's descriptor of a hub.
pub const HUB: u8 = 0x29;
