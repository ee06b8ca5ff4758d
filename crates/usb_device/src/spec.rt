//! Which requests a device refuses.
ghost use Rattle.std.specs.Prelude.{◌≡◌};
ghost use Rattle.usb_device.specs.DeviceSpecs.{no_stalls};

/// The requests that a device refuses by STALL, whatever else it could answer.
#[derive(Clone, Copy, Debug)]
pub struct Stalls {
    /// GET_DESCRIPTOR of the device descriptor.
    pub device: bool,
    /// SET_ADDRESS.
    pub address: bool,
    /// GET_DESCRIPTOR of a configuration.
    pub config: bool,
    /// SET_CONFIGURATION.
    pub set_config: bool,
    /// GET_STATUS of the device.
    pub status: bool,
    /// GET_DESCRIPTOR of the hub descriptor.
    pub hub: bool,
    /// GET_DESCRIPTOR of a string.
    pub string: bool,
    /// SET_INTERFACE.
    pub interface: bool,
}

impl Stalls {
    /// No request is refused.
    pub fn none() -> Self
        ensures { result ≡ no_stalls }
    {
        Stalls {
            device: false,
            address: false,
            config: false,
            set_config: false,
            status: false,
            hub: false,
            string: false,
            interface: false,
        }
    }
}
