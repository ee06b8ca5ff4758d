//! Values of bmRequestType (9.3.1, 11.24): bit 7 is set if the data go to the host. Bits 6 and 5
//! are the type (0 standard, 1 class), bits 4 to 0 the recipient (0 device, 1 interface, 2
//! endpoint, 3 other).

/// To the host, standard, device.
pub const DEVICE_IN: u8 = 0x80;

/// To the device, standard, device.
pub const DEVICE_OUT: u8 = 0x00;

/// To the device, standard, interface.
pub const INTERFACE_OUT: u8 = 0x01;

/// To the host, standard, interface.
pub const INTERFACE_IN: u8 = 0x81;

/// To the device, standard, endpoint.
pub const ENDPOINT_OUT: u8 = 0x02;

/// To the host, standard, endpoint.
pub const ENDPOINT_IN: u8 = 0x82;

/// To the host, class, device: a hub as a whole.
pub const HUB_IN: u8 = 0xa0;

/// To the host, class, other: a port of a hub.
pub const PORT_IN: u8 = 0xa3;

/// To the device, class, other: a port of a hub.
pub const PORT_OUT: u8 = 0x23;
