//! A device that has its address.
ghost use Rattle.std.specs.Prelude.{◌≡◌, ◌≤◌, ◌==◌, true};
ghost use Rattle.usb_transfer.specs.Transactions.{IsTarget};
ghost use Rattle.usb_descriptor.specs.Device.{device_class, configuration_count};
ghost use Rattle.usb_enum.specs.Device.{is_device, string_indexes};

use crate::strings::StringIndexes;
use usb_descriptor::DeviceView;
use usb_request::class_code::HUB_CLASS;
use usb_transfer::Target;

/// A device that has its address, and its device descriptor.
#[derive(Drop)]
pub(crate) struct Addressed {
    pub target: Target,
    pub bytes: [u8; 18],
    ghost target_fits: { IsTarget target },
    ghost target_max: { 8 ≤ target.max },
    ghost device: { is_device target.low bytes ≡ true },
}

impl Addressed {
    /// The device descriptor (9.6.1).
    #[tactic(auto, using(usb_descriptor::proofs::Interface::whole_of))]
    fn descriptor(&self) -> DeviceView<'_>
        ensures { result ≡ self.now.bytes }
    {
        DeviceView::known(self.bytes.as_slice())
    }

    /// Whether its class is that of hubs (11.23.1).
    pub fn is_hub(&self) -> bool
        ensures { result ≡ (device_class self.now.bytes == HUB_CLASS) }
    {
        self.descriptor().class() == HUB_CLASS
    }

    /// How many configurations the device has.
    pub fn configurations(&self) -> u8
        ensures { result ≡ configuration_count self.now.bytes }
    {
        self.descriptor().configurations()
    }

    /// The indexes of the device's strings.
    pub fn string_indexes(&self) -> StringIndexes
        ensures { result ≡ string_indexes self.now.bytes }
    {
        let device = self.descriptor();
        StringIndexes {
            manufacturer: device.manufacturer_index(),
            product: device.product_index(),
            serial_number: device.serial_index(),
        }
    }
}
