//! The `device` entries of the document.

ghost use Rattle.std.specs.Prelude.{◌≡◌, ◌<◌, ◌≤◌, codes, ◌∷◌, [], IfSome, OnOk, option_map, map, length, true};
ghost use Rattle.std.specs.Result.{ForOk};
ghost use Rattle.toml.specs.Data.{get_member, as_str, as_array};
ghost use Rattle.toml.specs.View.{view, table_view, array_view};
ghost use Rattle.usb_device.specs.DeviceSpecs.{hub_fits};
ghost use Rattle.usb_plan.specs.EntryFault.{EqualUnless};
ghost use Rattle.usb_plan.specs.declared.entry_fault.EntryFault.TheVariants.{Memory};
ghost use Rattle.usb_plan.specs.declared.fault.PlanFault.TheVariants.{Memory as NoMemory};
ghost use Rattle.usb_plan.specs.Device.{name_in, name_at, speed_at, descriptor_at, configs_at, strings_at, device_room, with_quirks, with_halt, with_hub, HubFits, FewNaks, HaltsLater, identity_with, identity_of, device_texts_with, device_texts_of, device_tables_with, device_tables_of, device_of_parts, device_with, read_device, device_in, devices_from};

use crate::bulk::{Bulk, read_bulk};
use crate::endpoints::endpoints_of;
use crate::entry_fault::{EntryFault, entry_at, fault_in_part, least_fault};
use crate::fault::{Place, PlanFault};
use crate::hub::{class_at, hub_at};
use crate::keys::{MOST_DEVICES, keys_at};
use crate::own_requests::requests_of;
use crate::quirks::{Quirks, quirks_of};
use crate::texts::texts_in;
use crate::value::{hex_in, read_text, value_at};
use std::alloc::Global;
use toml::{Table, Value};
use usb_device::{Bytes, ConfigTexts, EndpointSpecs, OwnRequests, StringTexts};
use usb_scene::{DeviceSpec, Devices, HubSpec, Name};

/// A name that is not empty and that no earlier device has.
#[tactic(auto, unfolding(crate::specs::Device::name_in))]
fn name_in(alloc: Global, earlier: &Devices, text: &str) -> Result<Name, EntryFault>
    ensures { EqualUnless Memory result (name_in earlier.now text.now) }
{
    if text.is_empty() || earlier.is_named(text) {
        return Err(EntryFault::BadValue);
    }
    Ok(Name::new(String::from_str(alloc, text)?))
}

/// The key `name`.
#[tactic(auto, unfolding(crate::specs::Device::name_at))]
fn name_at(alloc: Global, earlier: &Devices, value: Option<&Value>) -> Result<Name, EntryFault>
    ensures { EqualUnless Memory result
        (name_at earlier.now (option_map (λ v. view v.now) value.entry)) }
{
    name_in(alloc, earlier, read_text(value)?)
}

/// The key `speed`: whether it is low speed.
#[tactic(auto, unfolding(crate::specs::Device::speed_at))]
fn speed_at(value: Option<&Value>) -> Result<bool, EntryFault>
    ensures { result ≡ speed_at (option_map (λ v. view v.now) value.entry) }
{
    match read_text(value)? {
        "full" => Ok(false),
        "low" => Ok(true),
        _ => Err(EntryFault::BadValue),
    }
}

/// The key `descriptor`.
#[tactic(auto, unfolding(crate::specs::Device::descriptor_at))]
fn descriptor_at(alloc: Global, value: Option<&Value>) -> Result<Bytes<255>, EntryFault>
    ensures { EqualUnless Memory result (descriptor_at (option_map (λ v. view v.now) value.entry)) }
{
    hex_in::<255>(alloc, value.ok_or(EntryFault::MissingKey)?)
}

/// The key `configs`.
#[tactic(auto, unfolding(crate::specs::Device::configs_at))]
fn configs_at(alloc: Global, value: Option<&Value>) -> Result<ConfigTexts, EntryFault>
    ensures { EqualUnless Memory result (configs_at (option_map (λ v. view v.now) value.entry)) }
{
    texts_in::<8, 65535>(alloc, value.ok_or(EntryFault::MissingKey)?)
}

/// The key `strings`, which may be absent.
#[tactic(auto, unfolding(crate::specs::Device::strings_at))]
fn strings_at(alloc: Global, value: Option<&Value>) -> Result<StringTexts, EntryFault>
    ensures { EqualUnless Memory result (strings_at (option_map (λ v. view v.now) value.entry)) }
{
    match value {
        None => Ok(StringTexts::new(alloc)),
        Some(value) => texts_in::<256, 255>(alloc, value),
    }
}

/// Refuses an entry after the most that a plan may have.
#[tactic(auto, unfolding(crate::specs::Device::device_room))]
fn device_room(earlier: &Devices) -> Result<(), EntryFault>
    ensures { result ≡ device_room earlier.now }
{
    if earlier.as_slice().len() < MOST_DEVICES {
        Ok(())
    } else {
        Err(EntryFault::BadValue)
    }
}

/// The device with power of its own, NAKs, silence and refusals as the quirks say.
#[tactic(auto, unfolding(crate::specs::Device::with_quirks))]
fn with_quirks(device: DeviceSpec, quirks: Quirks) -> DeviceSpec
    requires { FewNaks quirks }
    ensures { result ≡ with_quirks quirks device }
{
    device
        .with_self_powered(quirks.self_powered)
        .with_busy(quirks.busy)
        .with_silent(quirks.silent)
        .with_naks(quirks.naks)
        .with_stalls(quirks.stalls)
}

/// The device whose bulk OUT halts after this number of packets; unchanged without one.
#[tactic(auto, unfolding(crate::specs::Device::with_halt))]
fn with_halt(device: DeviceSpec, halt_after: Option<u16>) -> DeviceSpec
    requires { IfSome halt_after (λ n. 1 ≤ n) }
    ensures { result ≡ with_halt halt_after device }
{
    match halt_after {
        None => device,
        Some(packets) => device.with_halt_after(packets),
    }
}

/// The device as this hub; unchanged without one.
#[tactic(auto, unfolding(crate::specs::Device::with_hub))]
fn with_hub(device: DeviceSpec, hub: Option<HubSpec>) -> DeviceSpec
    requires { hub_fits device.low device.descriptor hub ≡ true }
    ensures { result ≡ with_hub hub device }
{
    match hub {
        None => device,
        Some(hub) => device.with_hub(hub),
    }
}

/// What a device is.
#[derive(Drop)]
struct Identity {
    name: Name,
    /// It is of low speed.
    low: bool,
    descriptor: Bytes<255>,
    /// The ports that it has, if it is a hub.
    hub: Option<HubSpec>,
}

/// What a device is, or the least fault of its keys.
#[tactic(auto, unfolding(crate::specs::Device::identity_with))]
fn identity_with(
    name: Result<Name, EntryFault>,
    low: Result<bool, EntryFault>,
    descriptor: Result<Bytes<255>, EntryFault>,
    class: Result<(), EntryFault>,
    hub: Result<Option<HubSpec>, EntryFault>,
) -> Result<Identity, EntryFault>
    ensures { result ≡ identity_with name low descriptor class hub }
{
    least_fault(&[
        fault_in_part(&name),
        fault_in_part(&low),
        fault_in_part(&descriptor),
        fault_in_part(&class),
        fault_in_part(&hub),
    ])?;
    Ok(Identity {
        name: name?,
        low: low?,
        descriptor: descriptor?,
        hub: hub?,
    })
}

/// The keys of what a device is.
#[tactic(auto, using(crate::proofs::MemoryRefusals::identity_unless), unfolding(crate::specs::Device::identity_of))]
fn identity_of(
    alloc: Global,
    wide: bool,
    earlier: &Devices,
    table: &Table,
) -> Result<Identity, EntryFault>
    ensures { EqualUnless Memory result (identity_of wide earlier.now (table_view table.now)) }
{
    let ports = value_at(table, "ports");
    let name = name_at(alloc, earlier, value_at(table, "name"));
    let low = speed_at(value_at(table, "speed"));
    let descriptor = descriptor_at(alloc, value_at(table, "descriptor"));
    let class = class_at(ports, &low, &descriptor);
    let hub = hub_at(alloc, wide, ports, value_at(table, "hub_descriptor"));
    identity_with(name, low, descriptor, class, hub)
}

/// The texts that a device gives.
#[derive(Drop)]
struct DeviceTexts {
    configs: ConfigTexts,
    strings: StringTexts,
}

/// The texts that a device gives, or the least fault of their keys.
#[tactic(auto, unfolding(crate::specs::Device::device_texts_with))]
fn device_texts_with(
    configs: Result<ConfigTexts, EntryFault>,
    strings: Result<StringTexts, EntryFault>,
) -> Result<DeviceTexts, EntryFault>
    ensures { result ≡ device_texts_with configs strings }
{
    least_fault(&[fault_in_part(&configs), fault_in_part(&strings)])?;
    Ok(DeviceTexts {
        configs: configs?,
        strings: strings?,
    })
}

/// The keys of the texts that a device gives.
#[tactic(auto, using(crate::proofs::MemoryRefusals::device_texts_unless), unfolding(crate::specs::Device::device_texts_of))]
fn device_texts_of(alloc: Global, table: &Table) -> Result<DeviceTexts, EntryFault>
    ensures { EqualUnless Memory result (device_texts_of (table_view table.now)) }
{
    let configs = configs_at(alloc, value_at(table, "configs"));
    let strings = strings_at(alloc, value_at(table, "strings"));
    device_texts_with(configs, strings)
}

/// What the tables in a device describe.
#[derive(Drop)]
struct DeviceTables {
    endpoints: EndpointSpecs,
    requests: OwnRequests,
}

/// The endpoints and the requests of a device, or the least fault of their keys.
#[tactic(auto, unfolding(crate::specs::Device::device_tables_with))]
fn device_tables_with(
    endpoints: Result<EndpointSpecs, EntryFault>,
    requests: Result<OwnRequests, EntryFault>,
) -> Result<DeviceTables, EntryFault>
    ensures { result ≡ device_tables_with endpoints requests }
{
    least_fault(&[fault_in_part(&endpoints), fault_in_part(&requests)])?;
    Ok(DeviceTables {
        endpoints: endpoints?,
        requests: requests?,
    })
}

/// The keys of the tables in a device.
#[tactic(auto, using(crate::proofs::MemoryRefusals::device_tables_unless), unfolding(crate::specs::Device::device_tables_of))]
fn device_tables_of(alloc: Global, table: &Table) -> Result<DeviceTables, EntryFault>
    ensures { EqualUnless Memory result (device_tables_of (table_view table.now)) }
{
    let endpoints = endpoints_of(alloc, table);
    let requests = requests_of(alloc, table);
    device_tables_with(endpoints, requests)
}

/// The device of these parts, none of which has a fault.
#[tactic(auto, unfolding(crate::specs::Device::device_of_parts))]
fn device_of_parts(
    identity: Identity,
    texts: DeviceTexts,
    quirks: Quirks,
    bulk: Bulk,
    tables: DeviceTables,
) -> DeviceSpec
    requires hub { HubFits identity }
    requires naks { FewNaks quirks }
    requires halt { HaltsLater bulk }
    ensures { result ≡ device_of_parts identity texts quirks bulk tables }
{
    let device = DeviceSpec::function(
        identity.name,
        identity.descriptor,
        texts.configs,
    ).with_low_speed(identity.low);
    let device = with_hub(device, identity.hub)
        .with_strings(texts.strings)
        .with_source(bulk.source)
        .with_endpoints(tables.endpoints)
        .with_requests(tables.requests);
    with_halt(with_quirks(device, quirks), bulk.halt_after)
}

/// The device of these parts, or their least fault.
#[tactic(auto, unfolding(crate::specs::Device::device_with))]
fn device_with(
    identity: Result<Identity, EntryFault>,
    texts: Result<DeviceTexts, EntryFault>,
    quirks: Result<Quirks, EntryFault>,
    bulk: Result<Bulk, EntryFault>,
    tables: Result<DeviceTables, EntryFault>,
    keys: Result<(), EntryFault>,
    room: Result<(), EntryFault>,
) -> Result<DeviceSpec, EntryFault>
    requires hub { ForOk identity HubFits }
    requires naks { ForOk quirks FewNaks }
    requires halt { ForOk bulk HaltsLater }
    ensures { result ≡ device_with identity texts quirks bulk tables keys room }
{
    least_fault(&[
        fault_in_part(&identity),
        fault_in_part(&texts),
        fault_in_part(&quirks),
        fault_in_part(&bulk),
        fault_in_part(&tables),
        fault_in_part(&keys),
        fault_in_part(&room),
    ])?;
    Ok(device_of_parts(identity?, texts?, quirks?, bulk?, tables?))
}

const KEYS: [&str; 16] = [
    "name",
    "speed",
    "descriptor",
    "configs",
    "strings",
    "ports",
    "hub_descriptor",
    "self_powered",
    "busy",
    "silent",
    "naks",
    "stalls",
    "source",
    "halt_after",
    "endpoint",
    "request",
];

/// The device that a table describes, beside the earlier ones; it may be a wide hub, or may not.
#[tactic(auto, unfolding(crate::specs::Device::read_device))]
fn read_device(
    alloc: Global,
    wide: bool,
    earlier: &Devices,
    table: &Table,
) -> Result<DeviceSpec, EntryFault>
    ensures { EqualUnless Memory result (read_device wide earlier.now (table_view table.now)) }
{
    let identity = identity_of(alloc, wide, earlier, table);
    let texts = device_texts_of(alloc, table);
    let quirks = quirks_of(table);
    let bulk = read_bulk(alloc, table);
    let tables = device_tables_of(alloc, table);
    let keys = keys_at(table, &KEYS);
    let room = device_room(earlier);
    device_with(identity, texts, quirks, bulk, tables, keys, room)
}

/// The device that a table describes; `BadValue` if the value is no table.
#[tactic(auto, unfolding(crate::specs::Device::device_in))]
fn device_in(
    alloc: Global,
    wide: bool,
    earlier: &Devices,
    table: Option<&Table>,
) -> Result<DeviceSpec, EntryFault>
    ensures { EqualUnless Memory result
        (device_in wide earlier.now (option_map (λ t. table_view t.now) table.entry)) }
{
    read_device(alloc, wide, earlier, table.ok_or(EntryFault::BadValue)?)
}

/// The devices that the values describe, or the first fault.
pub(crate) fn devices_of(alloc: Global, wide: bool, values: &[Value]) -> Result<Devices, PlanFault>
    ensures { EqualUnless NoMemory result (devices_from wide 1 [] (map view values.now)) }
{
    let mut done = Devices::new(alloc);
    for (i, value) in values.iter().enumerate() {
        let read = device_in(alloc, wide, &done, value.as_table());
        let device = entry_at(Place::Device(i + 1), read)?;
        done.push(device)?;
    }
    Ok(done)
}
