//! Feature selectors of changes that a hub reports and that only need to be cleared
//! (table 11-17).

/// C_HUB_LOCAL_POWER: the hub's own supply came or went.
pub const C_HUB_LOCAL_POWER: u16 = 0;

/// C_HUB_OVER_CURRENT: the hub as a whole draws too much, or does so no more.
pub const C_HUB_OVER_CURRENT: u16 = 1;

/// C_PORT_SUSPEND: a port's resume is over.
pub const C_PORT_SUSPEND: u16 = 18;

/// C_PORT_OVER_CURRENT: a port draws too much, or does so no more.
pub const C_PORT_OVER_CURRENT: u16 = 19;
