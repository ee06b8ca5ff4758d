//! Why a host refuses a device for its bytes alone.
ghost use Rattle.std.specs.Prelude.{◌≡◌, ◌==◌, if◌then◌else◌, map, None, not, option_copied, Some, IfNone, IfSome};
ghost use Rattle.std.specs.List.{list_all, list_any};
ghost use Rattle.usb_descriptor.specs.Config.{configuration_value};
ghost use Rattle.usb_enum.specs.Text.{any_has_value};
ghost use Rattle.usb_device.specs.{hub_ports};
ghost use Rattle.usb_enum.specs.Verdicts.{text_read, texts_below};
ghost use Rattle.usb_remarks.specs.Refusing.{BlamesNoDescriptor, IsRefused};
ghost use Rattle.usb_remarks.specs.Remarks.{config_remark, configs_remark, has_status, hub_remark, lack_status, remark_of};

use crate::text::{TextRemark, text_read, text_remark, value_of};
use usb_descriptor::{DescriptorFault, read_config, read_device, read_hub};
use usb_device::Bytes;
use usb_request::class_code::HUB_CLASS;
use usb_request::descriptor_length::{DEVICE_LENGTH, HUB_LENGTH};
use usb_scene::{DeviceSpec, HubSpec};

/// Why a host refuses a device for its bytes alone.
#[derive(Clone, Copy, Debug, PartialEq, Eq)]
pub enum Remark {
    /// It does not begin with a device descriptor.
    Device(DescriptorFault),
    /// The configuration of this index is malformed.
    Text(usize, TextRemark),
    /// The configuration of this index has the bConfigurationValue of an earlier one.
    Repeated(usize),
    /// bNumConfigurations is over this index, at which there is no configuration.
    Missing(usize),
    /// It has the class of hubs, and no ports.
    NoPorts,
    /// It has the class of hubs, and its hub descriptor is none.
    Hub(DescriptorFault),
    /// It has the class of hubs, and no configuration has a status endpoint that a host uses, with
    /// room for the changes of its ports.
    Status,
}

/// Whether one of the texts, as a host reads it, has this bConfigurationValue.
fn some_has_value(texts: &[Bytes<65535>], value: u8) -> bool
    ensures { result
        ≡ list_any (λ text. configuration_value (text_read text) == value) texts.now }
{
    texts.iter().any(|text| value_of(text.as_slice()) == value)
}

/// Whether one of the texts has this bConfigurationValue.
#[tactic(auto, using(crate::proofs::Values::value_among))]
fn any_has_value(texts: &[Bytes<65535>], value: u8) -> bool
    ensures { result ≡ any_has_value value (map text_read texts.now) }
{
    some_has_value(texts, value)
}

/// What is wrong with the configuration of an index.
#[tactic(auto, unfolding(crate::specs::Remarks::config_remark))]
fn config_remark(configs: &[Bytes<65535>], index: usize) -> Option<Remark>
    ensures { result ≡ config_remark configs.now index }
{
    let Some(text) = configs.get(index) else {
        return Some(Remark::Missing(index));
    };
    if let Some(remark) = text_remark(text.as_slice()) {
        return Some(Remark::Text(index, remark));
    }
    if any_has_value(&configs[..index], value_of(text.as_slice())) {
        return Some(Remark::Repeated(index));
    }
    None
}

/// What is wrong with the first bad one of so many configurations.
fn configs_remark(configs: &[Bytes<65535>], count: usize) -> Option<Remark>
    ensures { result ≡ configs_remark configs.now count }
{
    'configs: for index in 0..count {
        if let Some(remark) = config_remark(configs, index) {
            return Some(remark);
        }
    }
    None
}

/// What is wrong with a device of the class of hubs.
fn hub_remark(hub: Option<&HubSpec>, wide: bool) -> Option<Remark>
    ensures { result ≡ hub_remark wide (option_copied hub.entry) }
{
    let Some(hub) = hub else {
        return Some(Remark::NoPorts);
    };
    let descriptor = hub.descriptor();
    match read_hub(&descriptor[..descriptor.len().min(HUB_LENGTH)], wide) {
        Err(fault) => Some(Remark::Hub(fault)),
        Ok(_) => None,
    }
}

/// Whether the text of a configuration has a status endpoint that holds the changes of so many
/// ports (section 11.12.4).
#[tactic(auto, unfolding(usb_descriptor::specs::Choice::status_endpoint_of))]
fn has_status(wide: bool, ports: u8, text: &[u8]) -> bool
    ensures { result ≡ has_status wide ports text.now }
{
    match read_config(text) {
        Err(_) => false,
        Ok(config) => match config.status_endpoint(wide) {
            None => false,
            Some((_, most)) => ports / 8 + 1 <= most,
        },
    }
}

/// Whether none of the texts has a status endpoint with room for the changes of these ports.
fn all_lack_status(wide: bool, ports: u8, configs: &[Bytes<65535>]) -> bool
    ensures { result
        ≡ list_all (λ text. not (has_status wide ports (text_read text))) configs.now }
{
    configs.iter().all(|text| !has_status(wide, ports, text_read(text.as_slice())))
}

/// Whether none of the texts that a host reads has such a status endpoint.
#[tactic(auto, using(crate::proofs::Values::all_lacking))]
fn lack_status(wide: bool, ports: u8, configs: &[Bytes<65535>]) -> bool
    ensures { result ≡ lack_status wide ports (map text_read configs.now) }
{
    all_lack_status(wide, ports, configs)
}

/// How many ports a device has.
fn ports_of(hub: Option<&HubSpec>) -> u8
    ensures { result ≡ hub_ports (option_copied hub.entry) }
{
    match hub {
        None => 0,
        Some(hub) => hub.ports(),
    }
}

/// What is wrong with so many configurations of a hub.
fn status_remark(spec: &DeviceSpec, wide: bool, count: usize) -> Option<Remark>
    ensures { result ≡ (if lack_status wide (hub_ports spec.now.hub) (texts_below spec.now count)
        then Some Remark.Status else None) }
{
    let configs = spec.configs();
    let read = &configs[..configs.len().min(count)];
    if lack_status(wide, ports_of(spec.hub()), read) {
        Some(Remark::Status)
    } else {
        None
    }
}

/// The first rule that the bytes of a device break.
#[tactic(auto, unfolding(crate::specs::Remarks::remark_of))]
fn first_remark(spec: &DeviceSpec, wide: bool) -> Option<Remark>
    ensures { result ≡ remark_of wide spec.now }
{
    let descriptor = spec.descriptor();
    let front = &descriptor[..descriptor.len().min(DEVICE_LENGTH)];
    let device = match read_device(front, spec.is_low()) {
        Err(fault) => return Some(Remark::Device(fault)),
        Ok(device) => device,
    };
    let count = usize::from(device.configurations());
    let remark = configs_remark(spec.configs(), count);
    if remark.is_some() || device.class() != HUB_CLASS {
        return remark;
    }
    match hub_remark(spec.hub(), wide) {
        None => status_remark(spec, wide, count),
        remark => remark,
    }
}

/// Why a host refuses the device for its bytes alone: the first rule that they break. None if it
/// reads them all; a host may refuse it for another cause even then. With `wide` it is a host that
/// takes hubs of 8 to 15 ports.
#[tactic(auto, using(crate::proofs::Refused::refused_if, crate::proofs::Unblamed::unblamed_if))]
pub fn remark_of(spec: &DeviceSpec, wide: bool) -> Option<Remark>
    ensures value { result ≡ remark_of wide spec.now }
    ensures refused { IfSome result (λ _. IsRefused wide spec.now) }
    ensures unblamed { IfNone result (BlamesNoDescriptor wide spec.now) }
{
    first_remark(spec, wide)
}
