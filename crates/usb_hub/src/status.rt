//! The two bytes of a device's status and the four of a hub's, read.
ghost use Rattle.std.specs.Prelude.{◌≡◌};
ghost use Rattle.usb_hub.specs.Changes.{hub_status};
ghost use Rattle.usb_hub.specs.Requests.{device_status};

/// What a device's status says (9.4.5).
#[derive(Clone, Copy, Debug, PartialEq, Eq)]
pub struct DeviceStatus {
    /// Bit 0: the device powers itself at this time.
    pub self_powered: bool,
    /// Bit 1: the device may wake the host.
    pub remote_wakeup: bool,
}

impl DeviceStatus {
    /// Reads the status, low byte first. Bits that no field stands for are ignored.
    #[tactic(auto, unfolding(usb_port::specs::Status::has_bit))]
    pub fn from_bytes(bytes: [u8; 2]) -> DeviceStatus
        ensures { result ≡ device_status bytes }
    {
        DeviceStatus {
            self_powered: bytes[0] & 1 == 1,
            remote_wakeup: bytes[0] >> 1 & 1 == 1,
        }
    }
}

/// What a hub's own status says of changes (11.24.2.6).
#[derive(Clone, Copy, Debug, PartialEq, Eq)]
pub(crate) struct HubStatus {
    /// wHubChange, bit 0: C_HUB_LOCAL_POWER.
    pub(crate) power_changed: bool,
    /// wHubChange, bit 1: C_HUB_OVER_CURRENT.
    pub(crate) over_current_changed: bool,
}

impl HubStatus {
    /// Reads wHubStatus and wHubChange, each low byte first.
    #[tactic(auto, unfolding(usb_port::specs::Status::has_bit))]
    pub(crate) fn from_bytes(bytes: [u8; 4]) -> HubStatus
        ensures { result ≡ hub_status bytes }
    {
        HubStatus {
            power_changed: bytes[2] & 1 == 1,
            over_current_changed: bytes[2] >> 1 & 1 == 1,
        }
    }
}
