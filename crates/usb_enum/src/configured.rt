//! How a configured device is spoken to.
ghost use Rattle.std.specs.Prelude.{◌≡◌};
ghost use Rattle.usb_enum.specs.Device.{configuration_of, target_of};

use crate::{Accepted, ConfigText};
use usb_descriptor::max_packet_0;
use usb_transfer::Target;

impl Accepted {
    /// The configuration that the device was set to.
    pub fn configuration(&self) -> &ConfigText
        ensures { result.now ≡ configuration_of self.now }
    {
        &self.configs.as_slice()[self.chosen]
    }

    /// Endpoint 0 of the device, which has its address. Below an external hub PRE goes before each
    /// packet to a low-speed device (8.6.5).
    pub fn target(&self, below_hub: bool) -> Target
        ensures { result ≡ target_of self.now below_hub }
    {
        Target {
            addr: self.address.number(),
            max: max_packet_0(self.bytes.as_slice()),
            low: self.low,
            pre: self.low && below_hub,
        }
    }
}
