//! Low speed and PRE (8.6.5).
ghost use Rattle.std.specs.Prelude.{◌≡◌};
ghost use Rattle.usb_packet.specs.Speeds.{speed_has_pre, speed_is_low};

use crate::Speed;

impl Speed {
    /// Whether the device is at low speed.
    pub fn is_low(self) -> bool
        ensures { result ≡ speed_is_low self }
    {
        match self {
            Speed::Full => false,
            Speed::Low | Speed::LowBelowHub => true,
        }
    }

    /// Whether PRE goes before each of the host's packets (8.6.5).
    pub fn has_pre(self) -> bool
        ensures { result ≡ speed_has_pre self }
    {
        match self {
            Speed::Full | Speed::Low => false,
            Speed::LowBelowHub => true,
        }
    }
}
