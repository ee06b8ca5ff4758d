//! How many bytes descriptors have (9.6, 11.23.2.1): the least bLength of each.

/// Of a device.
pub const DEVICE_LENGTH: usize = 18;

/// The head of a device's, which ends with bMaxPacketSize0.
pub const DEVICE_HEAD_LENGTH: usize = 8;

/// Of a configuration, without its items.
pub const CONFIGURATION_LENGTH: usize = 9;

/// Of an interface.
pub const INTERFACE_LENGTH: usize = 9;

/// Of an endpoint.
pub const ENDPOINT_LENGTH: usize = 7;

/// Of a hub of at most 7 ports.
pub const HUB_LENGTH: usize = 9;
