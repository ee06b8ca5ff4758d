//! What is read of a device: its descriptor, and its configurations.
use std::marker::Model;
use usb_descriptor::{ConfigView, DeviceView};

/// A device descriptor: its 18 bytes, and what they say (section 9.6.1).
#[derive(Debug, Drop)]
pub struct Descriptor<'a> {
    pub(crate) bytes: &'a [u8],
    pub(crate) device: DeviceView<'a>,
}

impl<'a> Model for Descriptor<'a> {
    ghost use Rattle.std.specs.Prelude.{◌≡◌, List, ℕ, length};
    ghost use Rattle.usb_request.specs.Codes.{DEVICE_LENGTH};

    ghost Value = { List ℕ };

    ghost view = { λ d. d.bytes.now };

    ghost invariant = { λ d. (d.device ≡ d.bytes.now) × (length d.bytes.now ≡ DEVICE_LENGTH) };
}

impl<'a> Descriptor<'a> {
    ghost use Rattle.std.specs.Prelude.{◌≡◌, length};
    ghost use Rattle.usb_request.specs.Codes.{DEVICE_LENGTH};

    /// The 18 bytes.
    pub fn as_slice(&self) -> &'a [u8]
        ensures value { result.now ≡ self.now }
        ensures long { length self.now ≡ DEVICE_LENGTH }
    {
        self.bytes
    }

    /// What the bytes say.
    pub fn view(&self) -> &DeviceView<'a>
        ensures { result.now ≡ self.now }
    {
        &self.device
    }
}

/// A configuration: its bytes, and what they say (section 9.6.3).
#[derive(Debug, Drop)]
pub struct Configuration<'a> {
    pub(crate) bytes: &'a [u8],
    pub(crate) config: ConfigView<'a>,
}

impl<'a> Model for Configuration<'a> {
    ghost use Rattle.std.specs.Prelude.{◌≡◌, List, ℕ};

    ghost Value = { List ℕ };

    ghost view = { λ c. c.bytes.now };

    ghost invariant = { λ c. c.config ≡ c.bytes.now };
}

impl<'a> Configuration<'a> {
    ghost use Rattle.std.specs.Prelude.{◌≡◌};

    /// All its bytes.
    pub fn as_slice(&self) -> &'a [u8]
        ensures { result.now ≡ self.now }
    {
        self.bytes
    }

    /// What the bytes say.
    pub fn view(&self) -> &ConfigView<'a>
        ensures { result.now ≡ self.now }
    {
        &self.config
    }
}

/// A device as Linux hands it out: its descriptor, and each configuration, by its index.
#[derive(Debug, Drop)]
pub struct Entry<'a> {
    device: Descriptor<'a>,
    configs: Vec<Configuration<'a>>,
}

impl<'a> Model for Entry<'a> {
    ghost use Rattle.usb_entry.specs.EntryData.{EntryData};

    ghost Value = { EntryData };

    ghost view = { λ e. record { device = e.device; configs = e.configs.items } };
}

impl<'a> Entry<'a> {
    ghost use Rattle.std.specs.Prelude.{◌≡◌};

    /// The entry of a device descriptor and its configurations.
    pub(crate) fn new(device: Descriptor<'a>, configs: Vec<Configuration<'a>>) -> Self
        ensures { result ≡ record { device = device.entry; configs = configs.entry.items } }
    {
        Entry { device, configs }
    }

    /// The device descriptor.
    pub fn device(&self) -> &Descriptor<'a>
        ensures { result.now ≡ self.now.device }
    {
        &self.device
    }

    /// The configurations, by their index.
    pub fn configs(&self) -> &[Configuration<'a>]
        ensures { result.now ≡ self.now.configs }
    {
        self.configs.as_slice()
    }
}
