//! The data toggle (8.6).
ghost use Rattle.std.specs.Prelude.{◌≡◌};
ghost use Rattle.usb_packet.specs.Toggles.{other, is_same};

use crate::Toggle;

impl Toggle {
    /// The toggle of the next packet, once this one's came through (8.6).
    pub fn other(self) -> Toggle
        ensures { result ≡ other self }
    {
        match self {
            Toggle::Zero => Toggle::One,
            Toggle::One => Toggle::Zero,
        }
    }

    /// Whether a packet has the toggle that is awaited.
    pub fn is_same(self, given: Toggle) -> bool
        ensures { result ≡ is_same self given }
    {
        match (self, given) {
            (Toggle::Zero, Toggle::Zero) | (Toggle::One, Toggle::One) => true,
            (Toggle::Zero, Toggle::One) | (Toggle::One, Toggle::Zero) => false,
        }
    }
}
