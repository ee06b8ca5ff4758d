//! The four bytes of a port's status, read.
ghost use Rattle.std.specs.Prelude.{◌≡◌, ◌<◌};
ghost use Rattle.usb_port.specs.PortStates.{PortState, status_of};
ghost use Rattle.usb_port.specs.Status.{has_bit, status_in, seen};

/// What a port's status says (11.24.2.7).
#[derive(Clone, Copy, Debug, PartialEq, Eq)]
pub struct PortStatus {
    /// wPortStatus, bit 0: a device is attached, and the port has power.
    pub connected: bool,
    /// wPortStatus, bit 1: the port passes packets on.
    pub enabled: bool,
    /// wPortStatus, bit 8.
    pub powered: bool,
    /// wPortStatus, bit 9: the device is of low speed.
    pub low_speed: bool,
    /// wPortChange, bit 0: C_PORT_CONNECTION.
    pub connection_changed: bool,
    /// wPortChange, bit 1: C_PORT_ENABLE.
    pub enable_changed: bool,
    /// wPortChange, bit 2: C_PORT_SUSPEND.
    pub suspend_changed: bool,
    /// wPortChange, bit 3: C_PORT_OVER_CURRENT.
    pub over_current_changed: bool,
    /// wPortChange, bit 4: C_PORT_RESET.
    pub reset_changed: bool,
}

impl PortStatus {
    /// Reads wPortStatus and wPortChange, each low byte first. Bits that no field stands for are
    /// ignored.
    #[tactic(auto, unfolding(crate::specs::Status::status_in, crate::specs::Status::has_bit))]
    pub fn from_bytes(bytes: [u8; 4]) -> PortStatus
        ensures bits { result ≡ status_in bytes }
        ensures port { (p : PortState) → bytes ≡ status_of p → result ≡ seen p }
    {
        PortStatus {
            connected: has_bit(bytes[0], 0),
            enabled: has_bit(bytes[0], 1),
            powered: has_bit(bytes[1], 0),
            low_speed: has_bit(bytes[1], 1),
            connection_changed: has_bit(bytes[2], 0),
            enable_changed: has_bit(bytes[2], 1),
            suspend_changed: has_bit(bytes[2], 2),
            over_current_changed: has_bit(bytes[2], 3),
            reset_changed: has_bit(bytes[2], 4),
        }
    }
}

/// Whether the byte has the bit of this number.
#[tactic(auto, unfolding(crate::specs::Status::has_bit))]
fn has_bit(byte: u8, number: u8) -> bool
    requires { number < 8 }
    ensures { result ≡ has_bit byte number }
{
    byte >> number & 1 == 1
}
