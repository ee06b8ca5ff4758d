//! Hub descriptors (section 11.23.2.1).
ghost use Rattle.std.specs.Prelude.{◌≡◌, ◌≤◌, IfOk, slice_index};
ghost use Rattle.usb_request.specs.Layout.{word_at};
ghost use Rattle.usb_descriptor.specs.Hub.{hub_length, hub_spelled, most_ports, port_count, power_mask_of, removable_bits};

use crate::fault::DescriptorFault;
use crate::word::word_at;
use std::marker::Model;
use usb_request::descriptor_length::HUB_LENGTH;
use usb_request::descriptor_type::HUB;

/// A hub descriptor, as a view of its bytes (section 11.23.2.1).
#[derive(Debug, Drop)]
pub struct HubView<'a> {
    bytes: &'a [u8],
}

impl<'a> Model for HubView<'a> {
    ghost use Rattle.std.specs.Prelude.{List, ℕ, ◌≤◌, length};
    ghost use Rattle.usb_request.specs.Codes.{HUB_LENGTH};
    ghost use Rattle.usb_descriptor.specs.Hub.{port_count};

    ghost Value = { List ℕ };

    ghost view = { λ v. v.bytes.now };

    ghost invariant = { λ v. (HUB_LENGTH ≤ length v.bytes.now)
        × (1 ≤ port_count v.bytes.now) × (port_count v.bytes.now ≤ 15) };
}

/// The length of the descriptor of a hub of so many ports: 9 bytes for up to 7 ports, 11 for more.
fn hub_length(ports: u8) -> u8
    ensures { result ≡ hub_length ports }
{
    if ports > 7 { 11 } else { 9 }
}

/// The descriptor, with which the bytes begin, of a hub of 1 to 7 ports, with `wide` of 1 to 15
/// (section 11.23.2.1). The first nine bytes are enough.
///
/// # Errors
///
/// The first fault:
///
/// - `Short`: there are fewer than 9 bytes.
/// - `WrongType`: bDescriptorType is not HUB.
/// - `Length`: bDescLength is under 9, or under 11 where bNbrPorts is above 7. Or bNbrPorts is not
///   1 to 7, with `wide` not 1 to 15.
#[tactic(auto, unfolding(crate::specs::Hub::hub_spelled))]
pub fn read_hub(bytes: &[u8], wide: bool) -> Result<HubView<'_>, DescriptorFault>
    ensures answer { result ≡ hub_spelled wide bytes.now }
    ensures view { IfOk result (λ hub. hub ≡ bytes.now) }
    ensures ports { IfOk result (λ hub. (1 ≤ port_count hub) × (port_count hub ≤ most_ports wide)) }
{
    if bytes.len() < HUB_LENGTH {
        return Err(DescriptorFault::Short);
    }
    if bytes[1] != HUB {
        return Err(DescriptorFault::WrongType);
    }
    let ports = bytes[2];
    let most = if wide { 15 } else { 7 };
    if bytes[0] < hub_length(ports) || !(1..=most).contains(&ports) {
        return Err(DescriptorFault::Length);
    }
    Ok(HubView { bytes })
}

impl HubView<'_> {
    /// bDescLength.
    pub fn length(&self) -> u8
        ensures { result ≡ slice_index self.now 0 }
    {
        self.bytes[0]
    }

    /// bDescriptorType.
    pub fn descriptor_type(&self) -> u8
        ensures { result ≡ slice_index self.now 1 }
    {
        self.bytes[1]
    }

    /// bNbrPorts, 1 to 15.
    pub fn ports(&self) -> u8
        ensures value { result ≡ port_count self.now }
        ensures least { 1 ≤ result }
        ensures most { result ≤ 15 }
    {
        self.bytes[2]
    }

    /// wHubCharacteristics.
    pub fn characteristics(&self) -> u16
        ensures { result ≡ word_at self.now 3 }
    {
        word_at(self.bytes, 3)
    }

    /// bPwrOn2PwrGood, the time until a powered port's power is good, in units of 2 ms.
    pub fn power_on_time(&self) -> u8
        ensures { result ≡ slice_index self.now 5 }
    {
        self.bytes[5]
    }

    /// bHubContrCurrent, what the hub itself needs at most, in mA.
    pub fn controller_current(&self) -> u8
        ensures { result ≡ slice_index self.now 6 }
    {
        self.bytes[6]
    }

    /// DeviceRemovable: a bit for each port, from bit 1 on, that is set if the device stays.
    pub fn removable(&self) -> u16
        ensures { result ≡ removable_bits self.now }
    {
        if self.bytes[2] > 7 {
            word_at(self.bytes, 7)
        } else {
            u16::from(self.bytes[7])
        }
    }

    /// PortPwrCtrlMask of a hub of up to 7 ports. That of one with more stands behind the first nine
    /// bytes, and is not read.
    pub fn power_mask(&self) -> Option<u8>
        ensures { result ≡ power_mask_of self.now }
    {
        if self.bytes[2] > 7 {
            None
        } else {
            Some(self.bytes[8])
        }
    }
}
