//! Values of bDeviceClass (9.6.1).

/// The class of hubs (11.23.1).
pub const HUB_CLASS: u8 = 9;
