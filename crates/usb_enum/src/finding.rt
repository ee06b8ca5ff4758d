//! What was found at a port.
ghost use Rattle.std.specs.Prelude.{◌≡◌, ◌<◌, length, IfOk};

use crate::{Cause, ConfigTexts, HubFacts, Strings};
use std::alloc::{AllocError, Global};
use usb_port::Address;

/// What was found at a port.
#[derive(Debug, Drop)]
pub enum Finding {
    /// A device that is configured.
    Device(Accepted),
    /// A device that is refused; its port is disabled.
    Refused(Cause),
}

/// A device that is configured.
#[derive(Debug, Drop)]
pub struct Accepted {
    /// The address that it was given (9.4.6).
    pub address: Address,
    /// Whether it is a low-speed device.
    pub low: bool,
    /// Its device descriptor (9.6.1).
    pub bytes: [u8; 18],
    /// Its configurations, each whole (9.6.3).
    pub configs: ConfigTexts,
    /// The index in `configs` of the configuration that it was set to.
    pub chosen: usize,
    /// The strings that its device descriptor names (9.6.7).
    pub strings: Strings,
    /// What a hub says of its ports; `None` of a function.
    pub hub: Option<HubFacts>,
    ghost chosen_in: { chosen < length configs },
}

impl Finding {
    /// A second finding of the same value.
    ///
    /// # Errors
    ///
    /// Memory was refused.
    pub fn try_clone(&self, alloc: Global) -> Result<Finding, AllocError>
        ensures { IfOk result (λ finding. finding ≡ self.now) }
    {
        match self {
            Finding::Device(device) => Ok(Finding::Device(device.try_clone(alloc)?)),
            Finding::Refused(cause) => Ok(Finding::Refused(*cause)),
        }
    }
}

impl Accepted {
    /// A second device of the same value.
    ///
    /// # Errors
    ///
    /// Memory was refused.
    pub fn try_clone(&self, alloc: Global) -> Result<Accepted, AllocError>
        ensures { IfOk result (λ device. device ≡ self.now) }
    {
        Ok(Accepted {
            address: self.address,
            low: self.low,
            bytes: self.bytes,
            configs: self.configs.try_clone(alloc)?,
            chosen: self.chosen,
            strings: self.strings.try_clone(alloc)?,
            hub: self.hub,
        })
    }
}
