//! The reader of a device's bytes.
ghost use Rattle.std.specs.Prelude.{◌≡◌, ◌≤◌, Ok, IfOk, IfErr, length, take, drop};
ghost use Rattle.usb_descriptor.specs.Config.{config_of};
ghost use Rattle.usb_entry.specs.EntryData.{FrontConfig, BeginsWithDevice, HasEntryFault, HasFrontFault, IsEntry, NextFault};

use crate::entry::{Configuration, Descriptor, Entry};
use crate::fault::EntryFault;
use std::alloc::Global;
use usb_descriptor::{DescriptorFault, config_head, read_config, read_device};
use usb_request::descriptor_length::DEVICE_LENGTH;

/// The most configurations of a device of a plan.
const MOST_CONFIGS: u8 = 8;

/// The device descriptor that the bytes begin with.
fn device_at(bytes: &[u8]) -> Result<Descriptor<'_>, EntryFault>
    ensures ok { IfOk result (BeginsWithDevice bytes.now) }
    ensures err { IfErr result (HasEntryFault bytes.now) }
{
    if bytes.is_empty() {
        return Err(EntryFault::Empty);
    }
    let head = &bytes[..bytes.len().min(DEVICE_LENGTH)];
    match read_device(head, false) {
        Err(fault) => Err(EntryFault::Device(fault)),
        Ok(device) => {
            if device.configurations() > MOST_CONFIGS {
                return Err(EntryFault::TooMany);
            }
            Ok(Descriptor {
                bytes: head,
                device,
            })
        }
    }
}

/// The configuration text that the bytes begin with.
fn front_config(bytes: &[u8]) -> Result<Configuration<'_>, DescriptorFault>
    ensures ok { IfOk result (FrontConfig bytes.now) }
    ensures err { IfErr result (HasFrontFault bytes.now) }
{
    let total = usize::from(config_head(bytes)?);
    let text = &bytes[..bytes.len().min(total)];
    Ok(Configuration {
        bytes: text,
        config: read_config(text)?,
    })
}

/// The configuration that begins at the offset.
fn config_at(bytes: &[u8], offset: usize) -> Result<Configuration<'_>, EntryFault>
    requires { offset ≤ length bytes.now }
    ensures ok { IfOk result (FrontConfig (drop offset bytes.now)) }
    ensures err { IfErr result (NextFault (drop offset bytes.now) offset) }
{
    let rest = &bytes[offset..];
    if rest.is_empty() {
        return Err(EntryFault::Missing(offset));
    }
    match front_config(rest) {
        Ok(config) => Ok(config),
        Err(fault) => Err(EntryFault::Configuration(offset, fault)),
    }
}

/// The device whose descriptor, and each of its configurations whole, the bytes are, one behind the other (sections
/// 9.6.1, 9.6.3).
///
/// # Errors
///
/// The first that holds:
///
/// - `Empty`: there are no bytes.
/// - `Device`: they begin with no device descriptor.
/// - `TooMany`: bNumConfigurations is over 8.
/// - `Configuration`: the configuration at that byte is malformed. `Missing`: no bytes are left for
///   it.
/// - `LeftOver`: bytes are left after the last configuration.
///
/// `Memory` says nothing of the bytes.
pub fn entry_of(alloc: Global, bytes: &[u8]) -> Result<Entry<'_>, EntryFault>
    ensures ok { IfOk result (IsEntry bytes.now) }
    ensures err { IfErr result (HasEntryFault bytes.now) }
{
    let device = device_at(bytes)?;
    let count = usize::from(device.view().configurations());
    let mut configs = Vec::new(alloc);
    let mut offset = DEVICE_LENGTH;
    'configs: while configs.len() < count {
        let config = config_at(bytes, offset)?;
        offset += config.as_slice().len();
        configs.push(config)?;
    }
    if offset < bytes.len() {
        return Err(EntryFault::LeftOver(offset));
    }
    Ok(Entry::new(device, configs))
}
