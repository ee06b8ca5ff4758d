//! What is plugged.
ghost use Rattle.std.specs.Prelude.{◌≡◌, take};
ghost use Rattle.std.specs.Option.{option_copied};
ghost use Rattle.usb_judge.specs.Scenes.{device_row};

use usb_port::PortPath;
use usb_request::descriptor_length::DEVICE_LENGTH;

/// A device that is plugged, as it is at a moment.
#[derive(Debug, Drop)]
pub struct PluggedDevice<'a> {
    /// Its port.
    pub path: PortPath,
    /// Whether it is a low-speed device; else it is a full-speed one.
    pub low: bool,
    /// Its device descriptor (9.6.1), which can be any bytes.
    pub descriptor: &'a [u8],
    /// The text of the configuration that it has (9.6.3); None if it has none.
    pub configuration: Option<&'a [u8]>,
    /// How many ports it has: 0 of a function.
    pub ports: u8,
    /// What its port gives, in mA (7.2.1).
    pub supply: u16,
    /// The address that it holds: 0 until SET_ADDRESS has ended (9.4.6).
    pub address: u8,
    /// Whether its port and each on its way is enabled.
    pub reached: bool,
}

impl<'a> PluggedDevice<'a> {
    /// Its device descriptor, as much of it as a host reads: at most 18 bytes (9.6.1).
    pub(crate) fn head(&self) -> &[u8]
        ensures { result.now ≡ take DEVICE_LENGTH self.now.descriptor.now }
    {
        match self.descriptor.get(..DEVICE_LENGTH) {
            Some(head) => head,
            None => self.descriptor,
        }
    }
}

/// The device at the port of a path; None if none is plugged there.
pub(crate) fn device_at<'a, 'b>(
    plugged: &'b [PluggedDevice<'a>],
    path: &PortPath,
) -> Option<&'b PluggedDevice<'a>>
    ensures { option_copied result ≡ device_row plugged.now path.now }
{
    plugged.iter().find(|device| device.path == *path)
}
