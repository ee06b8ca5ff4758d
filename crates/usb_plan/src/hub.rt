//! The keys `ports` and `hub_descriptor` of a device.

ghost use Rattle.std.specs.Prelude.{◌≡◌, ◌≤◌, option_map, true};
ghost use Rattle.toml.specs.View.{view};
ghost use Rattle.usb_descriptor.specs.Hub.{most_ports};
ghost use Rattle.usb_plan.specs.EntryFault.{EqualUnless};
ghost use Rattle.usb_plan.specs.declared.entry_fault.EntryFault.TheVariants.{Memory};
ghost use Rattle.usb_device.specs.DeviceSpecs.{agrees};
ghost use Rattle.usb_plan.specs.Hub.{no_hub, is_agreed, built_ports, hub_with, hub_of, hub_in, hub_at, is_low_speed, is_other, class_at};

use crate::entry_fault::EntryFault;
use crate::keys::{MOST_PORTS, MOST_WIDE_PORTS};
use crate::value::{hex_in, number_in};
use std::alloc::Global;
use toml::Value;
use usb_descriptor::read_hub;
use usb_device::Bytes;
use usb_request::descriptor_length::HUB_LENGTH;
use usb_scene::{HubSpec, has_hub_class};

/// The most ports that a hub may have: 7, and 15 with wide hubs (11.23.2.1).
pub fn most_ports(wide: bool) -> u8
    ensures { result ≡ most_ports wide }
{
    if wide { MOST_WIDE_PORTS } else { MOST_PORTS }
}

/// Without `ports` there is no `hub_descriptor`.
#[tactic(auto, unfolding(crate::specs::Hub::no_hub))]
fn no_hub(descriptor: Option<&Value>) -> Result<Option<HubSpec>, EntryFault>
    ensures { result ≡ no_hub (option_map (λ v. view v.now) descriptor.entry) }
{
    match descriptor {
        None => Ok(None),
        Some(_) => Err(EntryFault::BadValue),
    }
}

/// Whether a host that takes wide hubs, or one that does not, finds this number of ports in the hub descriptor, or
/// cannot read it.
#[tactic(auto, unfolding(crate::specs::Hub::is_agreed))]
fn is_agreed(wide: bool, ports: u8, descriptor: &[u8]) -> bool
    ensures { result ≡ is_agreed wide ports descriptor.now }
{
    let front = &descriptor[..descriptor.len().min(HUB_LENGTH)];
    match read_hub(front, wide) {
        Ok(hub) => hub.ports() == ports,
        Err(_) => true,
    }
}

/// The number of ports that a host with wide hubs finds in the hub descriptor, else that of the key.
#[tactic(auto, unfolding(crate::specs::Hub::built_ports))]
fn built_ports(ports: u8, descriptor: &[u8]) -> u8
    requires least { 1 ≤ ports }
    requires most { ports ≤ 15 }
    ensures value { result ≡ built_ports ports descriptor.now }
    ensures least { 1 ≤ result }
    ensures most { result ≤ 15 }
    ensures agree { agrees result descriptor.now ≡ true }
{
    let front = &descriptor[..descriptor.len().min(HUB_LENGTH)];
    match read_hub(front, true) {
        Ok(hub) => hub.ports(),
        Err(_) => ports,
    }
}

/// The hub with this hub descriptor, unless the plan's host finds another number of ports in it than that of the key.
/// Without wide hubs a descriptor may spell more than 7 ports. The hub has them then, and the host refuses it.
#[tactic(auto, unfolding(crate::specs::Hub::hub_with))]
fn hub_with(
    wide: bool,
    ports: u8,
    descriptor: Result<Bytes<255>, EntryFault>,
) -> Result<Option<HubSpec>, EntryFault>
    requires least { 1 ≤ ports }
    requires most { ports ≤ 15 }
    ensures { result ≡ hub_with wide ports descriptor }
{
    let bytes = descriptor?;
    if is_agreed(wide, ports, bytes.as_slice()) {
        let built = built_ports(ports, bytes.as_slice());
        Ok(Some(HubSpec::new(built, bytes)))
    } else {
        Err(EntryFault::BadValue)
    }
}

/// The hub of the key `ports`, with the hub descriptor of its own key, or without that the usual
/// one.
#[tactic(auto, using(crate::proofs::MemoryRefusals::hub_with_unless), unfolding(crate::specs::Hub::hub_of))]
fn hub_of(
    alloc: Global,
    wide: bool,
    ports: u8,
    descriptor: Option<&Value>,
) -> Result<Option<HubSpec>, EntryFault>
    requires least { 1 ≤ ports }
    requires most { ports ≤ 15 }
    ensures { EqualUnless Memory result
        (hub_of wide ports (option_map (λ v. view v.now) descriptor.entry)) }
{
    match descriptor {
        None => Ok(Some(HubSpec::usual(alloc, ports)?)),
        Some(value) => hub_with(wide, ports, hex_in::<255>(alloc, value)),
    }
}

/// The hub of both keys, if `ports` is 1 to 7, or 1 to 15 with wide hubs.
#[tactic(auto, unfolding(crate::specs::Hub::hub_in))]
fn hub_in(
    alloc: Global,
    wide: bool,
    ports: Option<i64>,
    descriptor: Option<&Value>,
) -> Result<Option<HubSpec>, EntryFault>
    ensures { EqualUnless Memory result
        (hub_in wide ports (option_map (λ v. view v.now) descriptor.entry)) }
{
    let ports = number_in(1, u64::from(most_ports(wide)), ports)?;
    hub_of(alloc, wide, ports as u8, descriptor)
}

/// The keys `ports` and `hub_descriptor`, which may be absent.
#[tactic(auto, unfolding(crate::specs::Hub::hub_at))]
pub(crate) fn hub_at(
    alloc: Global,
    wide: bool,
    ports: Option<&Value>,
    descriptor: Option<&Value>,
) -> Result<Option<HubSpec>, EntryFault>
    ensures { EqualUnless Memory result
        (hub_at wide (option_map (λ v. view v.now) ports.entry)
        (option_map (λ v. view v.now) descriptor.entry)) }
{
    match ports {
        None => no_hub(descriptor),
        Some(ports) => hub_in(alloc, wide, ports.as_integer(), descriptor),
    }
}

/// Whether the key `speed` has no fault, and says low speed.
#[tactic(auto, unfolding(crate::specs::Hub::is_low_speed))]
fn is_low_speed(low: &Result<bool, EntryFault>) -> bool
    ensures { result ≡ is_low_speed low.now }
{
    matches!(low, Ok(true))
}

/// Whether the device descriptor is readable, and no hub's.
#[tactic(auto, unfolding(crate::specs::Hub::is_other))]
fn is_other(descriptor: &Result<Bytes<255>, EntryFault>) -> bool
    ensures { result ≡ is_other descriptor.now }
{
    matches!(descriptor, Ok(descriptor) if !has_hub_class(descriptor.as_slice()))
}

/// The key `ports` goes with full speed and the class of hubs alone.
#[tactic(auto, unfolding(crate::specs::Hub::class_at))]
pub(crate) fn class_at(
    ports: Option<&Value>,
    low: &Result<bool, EntryFault>,
    descriptor: &Result<Bytes<255>, EntryFault>,
) -> Result<(), EntryFault>
    ensures { result ≡ class_at (option_map (λ v. view v.now) ports.entry) low.now descriptor.now }
{
    match ports {
        None => Ok(()),
        Some(_) => {
            if is_low_speed(low) || is_other(descriptor) {
                Err(EntryFault::BadValue)
            } else {
                Ok(())
            }
        }
    }
}
