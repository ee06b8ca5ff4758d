//! Values of bRequest (9.4, 11.24.2).

/// GET_STATUS: the status of a device, an interface, an endpoint, a hub or a port.
pub const GET_STATUS: u8 = 0;

/// CLEAR_FEATURE: clears a feature of an endpoint or a port.
pub const CLEAR_FEATURE: u8 = 1;

/// SET_FEATURE: sets a feature of an endpoint or a port.
pub const SET_FEATURE: u8 = 3;

/// SET_ADDRESS: gives a device its address.
pub const SET_ADDRESS: u8 = 5;

/// GET_DESCRIPTOR: a descriptor's first bytes.
pub const GET_DESCRIPTOR: u8 = 6;

/// GET_CONFIGURATION: the number of the configuration that is set.
pub const GET_CONFIGURATION: u8 = 8;

/// SET_CONFIGURATION: sets a configuration by its number, or none by 0.
pub const SET_CONFIGURATION: u8 = 9;

/// GET_INTERFACE: the alternate setting of an interface.
pub const GET_INTERFACE: u8 = 10;

/// SET_INTERFACE: chooses an alternate setting of an interface.
pub const SET_INTERFACE: u8 = 11;
