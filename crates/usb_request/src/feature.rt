//! Feature selectors: values of wValue in SET_FEATURE and CLEAR_FEATURE (9.4, 11.24.2).

/// ENDPOINT_HALT: an endpoint answers STALL.
pub const ENDPOINT_HALT: u16 = 0;

/// PORT_ENABLE: a port passes packets on.
pub const PORT_ENABLE: u16 = 1;

/// PORT_RESET: a port resets what is attached.
pub const PORT_RESET: u16 = 4;

/// PORT_POWER: a port has power.
pub const PORT_POWER: u16 = 8;

/// C_PORT_CONNECTION: something was attached or taken away.
pub const C_PORT_CONNECTION: u16 = 16;

/// C_PORT_ENABLE: a port was disabled by an error.
pub const C_PORT_ENABLE: u16 = 17;

/// C_PORT_RESET: a port's reset is over.
pub const C_PORT_RESET: u16 = 20;
