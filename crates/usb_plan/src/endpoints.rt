//! The key `endpoint` of a device: what its endpoints give, and how they hesitate.

ghost use Rattle.std.specs.Prelude.{◌≡◌, ◌<◌, ◌≤◌, Ok, [], option_map, map, length};
ghost use Rattle.std.specs.List.{list_any};
ghost use Rattle.std.specs.Result.{ForOk};
ghost use Rattle.toml.specs.View.{view, table_view};
ghost use Rattle.usb_device.specs.{Source};
ghost use Rattle.usb_plan.specs.Endpoints.{address_at, address_in, are_distinct, are_same, data_in, data_of, data_with, distinct_at, endpoint_in, endpoint_naks, endpoint_of, endpoint_with, endpoints_at, endpoints_in, endpoints_of, endpoints_with, share_address};
ghost use Rattle.usb_plan.specs.EntryFault.{EqualUnless};
ghost use Rattle.usb_plan.specs.Texts.{items_from, with_item};
ghost use Rattle.usb_plan.specs.declared.entry_fault.EntryFault.TheVariants.{Memory};

use crate::bulk::halt_at;
use crate::entry_fault::{EntryFault, fault_in_part, least_fault};
use crate::keys::{MOST_ENDPOINT_NAKS, MOST_ENDPOINTS, keys_at};
use crate::texts::texts_in;
use crate::value::{byte_at, hex_in, number_or, tables_in, value_at};
use std::alloc::Global;
use toml::{Table, Value};
use usb_device::{Bytes, EndpointData, EndpointSpec, EndpointSpecs};
use usb_request::EndpointAddress;

/// The key `address`.
#[tactic(auto, unfolding(crate::specs::Endpoints::address_at))]
pub(crate) fn address_at(value: Option<&Value>) -> Result<EndpointAddress, EntryFault>
    ensures { result ≡ address_at (option_map (λ v. view v.now) value.entry) }
{
    EndpointAddress::new(byte_at(value)?).ok_or(EntryFault::BadValue)
}

/// What an endpoint gives that has neither key.
fn nothing(alloc: Global) -> EndpointData
    ensures { result ≡ Source [] }
{
    EndpointData::Source(Bytes::new(Vec::new(alloc)))
}

/// What an IN endpoint gives: the bytes of one key, or the packets of another.
#[tactic(auto, unfolding(crate::specs::Endpoints::data_in))]
fn data_in(
    alloc: Global,
    source: Option<&Value>,
    packets: Option<&Value>,
) -> Result<EndpointData, EntryFault>
    ensures { EqualUnless Memory result (data_in (option_map (λ v. view v.now) source.entry)
        (option_map (λ v. view v.now) packets.entry)) }
{
    match (source, packets) {
        (None, None) => Ok(nothing(alloc)),
        (Some(source), None) => Ok(EndpointData::Source(hex_in::<65535>(alloc, source)?)),
        (None, Some(packets)) => Ok(EndpointData::Packets(texts_in::<1000, 64>(alloc, packets)?)),
        (Some(_), Some(_)) => Err(EntryFault::BadValue),
    }
}

/// What an endpoint of this address gives; one to the device gives nothing.
#[tactic(auto, unfolding(crate::specs::Endpoints::data_with))]
fn data_with(
    alloc: Global,
    address: EndpointAddress,
    source: Option<&Value>,
    packets: Option<&Value>,
) -> Result<EndpointData, EntryFault>
    ensures { EqualUnless Memory result (data_with address
        (option_map (λ v. view v.now) source.entry)
        (option_map (λ v. view v.now) packets.entry)) }
{
    if address.is_in() {
        return data_in(alloc, source, packets);
    }
    if source.is_some() || packets.is_some() {
        return Err(EntryFault::BadValue);
    }
    Ok(nothing(alloc))
}

/// The keys `source` and `packets` of a table.
#[tactic(auto, unfolding(crate::specs::Endpoints::data_of))]
fn data_of(alloc: Global, table: &Table) -> Result<EndpointData, EntryFault>
    ensures { EqualUnless Memory result (data_of (table_view table.now)) }
{
    let address = address_at(value_at(table, "address"))?;
    let source = value_at(table, "source");
    let packets = value_at(table, "packets");
    data_with(alloc, address, source, packets)
}

/// The key `naks`, which may be absent.
#[tactic(auto, unfolding(crate::specs::Endpoints::endpoint_naks))]
fn endpoint_naks(value: Option<&Value>) -> Result<u16, EntryFault>
    ensures { result ≡ endpoint_naks (option_map (λ v. view v.now) value.entry) }
{
    let naks = number_or(0, 0, MOST_ENDPOINT_NAKS, value)?;
    Ok(naks as u16)
}

/// The endpoint of these keys, or the least fault of the keys.
#[tactic(auto, unfolding(crate::specs::Endpoints::endpoint_with))]
fn endpoint_with(
    address: Result<EndpointAddress, EntryFault>,
    given: Result<EndpointData, EntryFault>,
    halt_after: Result<Option<u16>, EntryFault>,
    naks: Result<u16, EntryFault>,
    keys: Result<(), EntryFault>,
) -> Result<EndpointSpec, EntryFault>
    ensures { result ≡ endpoint_with address given halt_after naks keys }
{
    least_fault(&[
        fault_in_part(&address),
        fault_in_part(&given),
        fault_in_part(&halt_after),
        fault_in_part(&naks),
        fault_in_part(&keys),
    ])?;
    Ok(EndpointSpec {
        address: address?,
        data: given?,
        halt_after: halt_after?,
        naks: naks?,
    })
}

const KEYS: [&str; 5] = ["address", "source", "packets", "halt_after", "naks"];

/// The endpoint that a table describes.
#[tactic(auto, using(crate::proofs::MemoryRefusals::endpoint_unless), unfolding(crate::specs::Endpoints::endpoint_of))]
fn endpoint_of(alloc: Global, table: &Table) -> Result<EndpointSpec, EntryFault>
    ensures { EqualUnless Memory result (endpoint_of (table_view table.now)) }
{
    let address = address_at(value_at(table, "address"));
    let given = data_of(alloc, table);
    let halt_after = halt_at(value_at(table, "halt_after"));
    let naks = endpoint_naks(value_at(table, "naks"));
    let keys = keys_at(table, &KEYS);
    endpoint_with(address, given, halt_after, naks, keys)
}

/// The endpoint that a value describes; `BadValue` if the value is no table.
#[tactic(auto, unfolding(crate::specs::Endpoints::endpoint_in))]
fn endpoint_in(alloc: Global, value: &Value) -> Result<EndpointSpec, EntryFault>
    ensures { EqualUnless Memory result (endpoint_in (view value.now)) }
{
    endpoint_of(alloc, value.as_table().ok_or(EntryFault::BadValue)?)
}

/// The endpoints with one more at their end.
#[tactic(auto, unfolding(crate::specs::Texts::with_item))]
fn with_endpoint(
    endpoints: Result<EndpointSpecs, EntryFault>,
    endpoint: Result<EndpointSpec, EntryFault>,
) -> Result<EndpointSpecs, EntryFault>
    requires { ForOk endpoints (λ x. length x < 30) }
    ensures { EqualUnless Memory result (with_item endpoints endpoint) }
{
    least_fault(&[fault_in_part(&endpoints), fault_in_part(&endpoint)])?;
    let mut endpoints = endpoints?;
    endpoints.push(endpoint?)?;
    Ok(endpoints)
}

/// The endpoints of at most this number of values, or the first fault of them in the order of
/// faults.
fn endpoints_among(alloc: Global, values: &[Value]) -> Result<EndpointSpecs, EntryFault>
    requires { length values.now ≤ 30 }
    ensures { EqualUnless Memory result
        (items_from endpoint_in (Ok []) (map view values.now)) }
{
    let mut endpoints = Ok(EndpointSpecs::new(alloc));
    for value in values {
        endpoints = with_endpoint(endpoints, endpoint_in(alloc, value));
    }
    endpoints
}

/// The address in a table.
#[tactic(auto, unfolding(crate::specs::Endpoints::address_in))]
fn address_in(value: &Value) -> Result<EndpointAddress, EntryFault>
    ensures { result ≡ address_in (view value.now) }
{
    let table = value.as_table().ok_or(EntryFault::BadValue)?;
    address_at(value_at(table, "address"))
}

/// Whether both are addresses without a fault, and equal.
#[tactic(auto, unfolding(crate::specs::Endpoints::are_same))]
fn are_same(a: Result<EndpointAddress, EntryFault>, b: Result<EndpointAddress, EntryFault>) -> bool
    ensures { result ≡ are_same a b }
{
    match (a, b) {
        (Ok(a), Ok(b)) => a == b,
        _ => false,
    }
}

/// Whether two tables have the same address, whatever else is wrong with them.
#[tactic(auto, unfolding(crate::specs::Endpoints::share_address))]
fn share_address(a: &Value, b: &Value) -> bool
    ensures { result ≡ share_address (view a.now) (view b.now) }
{
    are_same(address_in(a), address_in(b))
}

/// Whether some other table has the same address.
fn shares_some(value: &Value, others: &[Value]) -> bool
    ensures { result ≡ list_any (λ v. share_address (view value.now) (view v)) others.now }
{
    others.iter().any(|other| share_address(value, other))
}

/// Whether each table has an address of its own.
#[tactic(auto, using(crate::proofs::Steps::some_share_view), unfolding(crate::specs::Endpoints::are_distinct))]
fn are_distinct(values: &[Value]) -> bool
    ensures { result ≡ are_distinct (map view values.now) }
{
    match values.split_first() {
        None => true,
        Some((value, others)) => !shares_some(value, others) && are_distinct(others),
    }
}

/// Refuses a second table of an address.
#[tactic(auto, unfolding(crate::specs::Endpoints::distinct_at))]
fn distinct_at(values: &[Value]) -> Result<(), EntryFault>
    ensures { result ≡ distinct_at (map view values.now) }
{
    if are_distinct(values) {
        Ok(())
    } else {
        Err(EntryFault::BadValue)
    }
}

/// The endpoints, if no two have the same address; else the least fault.
#[tactic(auto, unfolding(crate::specs::Endpoints::endpoints_with))]
fn endpoints_with(
    endpoints: Result<EndpointSpecs, EntryFault>,
    distinct: Result<(), EntryFault>,
) -> Result<EndpointSpecs, EntryFault>
    ensures { result ≡ endpoints_with endpoints distinct }
{
    least_fault(&[fault_in_part(&endpoints), fault_in_part(&distinct)])?;
    endpoints
}

/// The endpoints of an array of at most 30 tables.
#[tactic(auto, using(crate::proofs::MemoryRefusals::endpoints_unless), unfolding(crate::specs::Endpoints::endpoints_in))]
fn endpoints_in(alloc: Global, value: &Value) -> Result<EndpointSpecs, EntryFault>
    ensures { EqualUnless Memory result (endpoints_in (view value.now)) }
{
    let values = tables_in(MOST_ENDPOINTS, value)?;
    endpoints_with(endpoints_among(alloc, values), distinct_at(values))
}

/// The key of them, which may be absent.
#[tactic(auto, unfolding(crate::specs::Endpoints::endpoints_at))]
fn endpoints_at(alloc: Global, value: Option<&Value>) -> Result<EndpointSpecs, EntryFault>
    ensures { EqualUnless Memory result
        (endpoints_at (option_map (λ v. view v.now) value.entry)) }
{
    match value {
        None => Ok(EndpointSpecs::new(alloc)),
        Some(value) => endpoints_in(alloc, value),
    }
}

/// The key `endpoint` of a device.
#[tactic(auto, unfolding(crate::specs::Endpoints::endpoints_of))]
pub(crate) fn endpoints_of(alloc: Global, table: &Table) -> Result<EndpointSpecs, EntryFault>
    ensures { EqualUnless Memory result (endpoints_of (table_view table.now)) }
{
    endpoints_at(alloc, value_at(table, "endpoint"))
}
