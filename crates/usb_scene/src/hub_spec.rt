//! What a plan says of a hub beside what it says of every device.
ghost use Rattle.std.specs.Prelude.{◌≡◌, ◌≤◌, true, IfOk, length};
ghost use Rattle.usb_device.specs.DeviceSpecs.{Hub, has_hub_class, agrees, usual_descriptor, usual_hub};

use std::alloc::{AllocError, Global};
use std::marker::Model;
use usb_descriptor::read_hub;
use usb_device::Bytes;
use usb_request::class_code::HUB_CLASS;
use usb_request::descriptor_length::HUB_LENGTH;
use usb_request::descriptor_type::HUB;

/// Whether a device descriptor has the class of hubs: its byte 4, bDeviceClass, is theirs (11.23.1).
pub fn has_hub_class(descriptor: &[u8]) -> bool
    ensures { result ≡ has_hub_class descriptor.now }
{
    descriptor.get(4) == Some(&HUB_CLASS)
}

/// The descriptor of a hub whose ports are switched one by one. Each of its last two fields has a bit for each port, in
/// one byte or two.
fn usual_descriptor(alloc: Global, ports: u8) -> Result<Vec<u8>, AllocError>
    ensures { IfOk result (λ bytes. bytes.items ≡ usual_descriptor ports) }
{
    if ports > 7 {
        Ok([11, HUB, ports, 1, 0, 0, 0, 0, 0, 0xff, 0xff].to_vec(alloc)?)
    } else {
        Ok([HUB_LENGTH as u8, HUB, ports, 1, 0, 0, 0, 0, 0xff].to_vec(alloc)?)
    }
}

/// The ports of a hub, 1 to 15, and its hub descriptor (11.23.2.1), which can be any bytes. If its first 9 bytes are
/// the descriptor of a hub, that hub has this number of ports.
#[derive(Debug, Drop)]
pub struct HubSpec {
    ports: u8,
    descriptor: Bytes<255>,
}

impl Model for HubSpec {
    ghost use Rattle.std.specs.Prelude.{◌≡◌, ◌≤◌, true};
    ghost use Rattle.usb_device.specs.DeviceSpecs.{Hub, agrees};

    ghost Value = { Hub };

    ghost view = { λ h. record { ports = h.ports; descriptor = h.descriptor } };

    ghost invariant = { λ h. (1 ≤ h.ports) × (h.ports ≤ 15) × (agrees h.ports h.descriptor ≡ true) };
}

impl HubSpec {
    /// Whether a hub with this number of ports can have this hub descriptor. Its first 9 bytes are no descriptor of a
    /// hub, or of one with this number of ports.
    pub fn agrees(ports: u8, descriptor: &[u8]) -> bool
        ensures { result ≡ agrees ports descriptor.now }
    {
        let front = &descriptor[..descriptor.len().min(HUB_LENGTH)];
        match read_hub(front, true) {
            Ok(hub) => hub.ports() == ports,
            Err(_) => true,
        }
    }

    /// A hub with 1 to 15 ports and this hub descriptor.
    pub fn new(ports: u8, descriptor: Bytes<255>) -> Self
        requires least { 1 ≤ ports }
        requires most { ports ≤ 15 }
        requires agree { agrees ports descriptor ≡ true }
        ensures { result ≡ record { ports = ports; descriptor = descriptor } }
    {
        HubSpec { ports, descriptor }
    }

    /// A hub with 1 to 15 ports that are switched one by one, and the hub descriptor that says so.
    ///
    /// # Errors
    ///
    /// Memory was refused.
    #[tactic(auto, using(crate::proofs::Hubs::usual))]
    pub fn usual(alloc: Global, ports: u8) -> Result<Self, AllocError>
        requires least { 1 ≤ ports }
        requires most { ports ≤ 15 }
        ensures { IfOk result (λ h. h ≡ usual_hub ports) }
    {
        let descriptor = usual_descriptor(alloc, ports)?;
        Ok(HubSpec::new(ports, Bytes::new(descriptor)))
    }

    /// How many ports it has, 1 to 15.
    pub fn ports(&self) -> u8
        ensures value { result ≡ self.now.ports }
        ensures least { 1 ≤ result }
        ensures most { result ≤ 15 }
    {
        self.ports
    }

    /// Its hub descriptor (11.23.2.1).
    pub fn descriptor(&self) -> &[u8]
        ensures value { result.now ≡ self.now.descriptor }
        ensures bound { length self.now.descriptor ≤ 255 }
        ensures agree { agrees self.now.ports self.now.descriptor ≡ true }
    {
        self.descriptor.as_slice()
    }

    /// The same description in memory of its own.
    ///
    /// # Errors
    ///
    /// Memory was refused.
    pub fn try_clone(&self, alloc: Global) -> Result<Self, AllocError>
        ensures { IfOk result (λ h. h ≡ self.now) }
    {
        Ok(HubSpec {
            ports: self.ports,
            descriptor: self.descriptor.try_clone(alloc)?,
        })
    }
}
