//! The endpoints of a device besides endpoint 0 (5.8, 11.12): which ones there are, their toggles
//! and their halts.
ghost use Rattle.std.specs.Prelude.{◌≡◌, ◌≤◌, true, false, [], length, ◌==◌, is_some, IfNone, IfSome};
ghost use Rattle.usb_descriptor.specs.Choice.{IsUsable, status_endpoint_of};
ghost use Rattle.usb_descriptor.specs.Item.{items_of};
ghost use Rattle.usb_device.specs.Request.{items_at};
ghost use Rattle.usb_descriptor.specs.Usable.{IsTableOf, usable_under};
ghost use Rattle.usb_device.specs.Bulk.{turned, halted, count_down, is_last, text_with, total_of, text_of, bulk_in, bulk_at, is_numbered, served, served_at, advanced, tells_changes, status_number};
ghost use Rattle.usb_function.specs.ServedBulk.{AreServed};

use crate::request::has_value;
use usb_descriptor::{ConfigView, Settings, UsableEndpoints, read_config};
use usb_device::{Bytes, EndpointNumber, EndpointState, Registers, ServedEndpoint};
use usb_packet::Toggle;
use usb_request::endpoint_address::DIRECTION_IN;
use usb_scene::DeviceSpec;

/// An endpoint as a configuration leaves it (9.4.7).
pub const RESTED: EndpointState = EndpointState {
    toggle: Toggle::Zero,
    halted: false,
};

/// The endpoints that a configured device serves.
#[derive(Clone, Copy, Debug)]
pub struct ServedEndpoints {
    /// The number and the maximum packet of the first bulk IN endpoint, if the device has a source.
    pub bulk_in: Option<(u8, u8)>,
    /// All of them.
    pub table: UsableEndpoints,
    /// The number of the status endpoint, if the device is a hub (11.12.1).
    pub status: u8,
}

/// The endpoint after a packet that moved.
pub fn turned(state: EndpointState) -> EndpointState
    ensures { result ≡ turned state }
{
    EndpointState {
        toggle: state.toggle.other(),
        halted: state.halted,
    }
}

/// The endpoint once it is halted.
pub fn halted(state: EndpointState) -> EndpointState
    ensures { result ≡ halted state }
{
    EndpointState {
        toggle: state.toggle,
        halted: true,
    }
}

/// How many packets are still to be taken until the halt, after one more.
pub fn counted_down(until_halt: Option<u16>) -> Option<u16>
    ensures { result ≡ count_down until_halt }
{
    match until_halt {
        None => None,
        Some(n) => { if n <= 1 { None } else { Some(n - 1) } }
    }
}

/// Whether the halt comes with the next packet.
pub fn is_last(until_halt: Option<u16>) -> bool
    ensures { result ≡ is_last until_halt }
{
    match until_halt {
        None => false,
        Some(n) => n == 1,
    }
}

#[cycle(text_with)]
fn text_with(value: u16, configs: &[Bytes<65535>]) -> &[u8]
    ensures { result.now ≡ text_with value configs.now }
{
    match configs.split_first() {
        None => &[],
        Some((text, rest)) => {
            if has_value(text.as_slice(), value) {
                text.as_slice()
            } else {
                text_with(value, rest)
            }
        }
    }
}

/// wTotalLength of a text, its bytes 2 and 3 (9.6.3); 0 if it has no fourth byte.
fn total_of(text: &[u8]) -> usize
    ensures { result ≡ total_of text.now }
{
    if text.len() < 4 {
        0
    } else {
        usize::from(u16::from_le_bytes([text[2], text[3]]))
    }
}

/// The text of the configuration, as long as it says and is.
fn text_of<'a>(spec: &'a DeviceSpec, registers: &Registers) -> &'a [u8]
    ensures { result.now ≡ text_of spec.now registers.now }
{
    let text = text_with(u16::from(registers.configuration), spec.configs());
    let total = total_of(text).min(text.len());
    &text[..total]
}

/// The text of the configuration, if there is one and its text is good.
pub(crate) fn config_at<'a>(spec: &'a DeviceSpec, registers: &Registers) -> Option<ConfigView<'a>>
    ensures some { IfSome result (λ config. items_at spec.now registers.now ≡ items_of config) }
    ensures none { IfNone result (items_at spec.now registers.now ≡ []) }
{
    if registers.configuration == 0 {
        return None;
    }
    read_config(text_of(spec, registers)).ok()
}

/// The first bulk endpoint of a direction in a text, if it is a configuration.
#[tactic(auto, using(usb_device::proofs::Endpoints::endpoints))]
fn bulk_in(is_in: bool, text: &[u8]) -> Option<(u8, u8)>
    ensures { result ≡ bulk_in is_in text.now }
{
    let config = read_config(text).ok()?;
    if is_in {
        config.bulk_in()
    } else {
        config.bulk_out()
    }
}

/// The first bulk endpoint of a direction that is served: its number and its maximum packet.
pub(crate) fn bulk_at(spec: &DeviceSpec, registers: &Registers, is_in: bool) -> Option<(u8, u8)>
    ensures { result ≡ bulk_at spec.now registers.now is_in }
{
    if spec.is_low() || registers.configuration == 0 {
        return None;
    }
    bulk_in(is_in, text_of(spec, registers))
}

/// All endpoints of a text that pipes can use under these settings, if it is a configuration.
#[tactic(auto, using(usb_device::proofs::Endpoints::endpoints))]
fn table_of(low: bool, settings: &Settings, text: &[u8]) -> UsableEndpoints
    ensures { IsTableOf (λ is_in e. usable_under settings.now low is_in e text.now) result }
{
    match read_config(text) {
        Ok(config) => config.usable_endpoints(low, settings),
        Err(_) => UsableEndpoints::none(),
    }
}

/// All endpoints that are served.
pub(crate) fn table_at(spec: &DeviceSpec, registers: &Registers) -> UsableEndpoints
    ensures { IsTableOf (served_at spec.now registers.now) result }
{
    if registers.configuration == 0 {
        return UsableEndpoints::none();
    }
    table_of(spec.is_low(), &registers.settings, text_of(spec, registers))
}

/// The endpoint by which a hub tells its changes (11.23.1), if the text is a configuration that has
/// one.
#[tactic(auto, using(usb_device::proofs::Endpoints::endpoints))]
fn status_in(text: &[u8]) -> Option<(u8, u8)>
    ensures value { result ≡ status_endpoint_of true text.now }
    ensures usable { IfSome result IsUsable }
{
    read_config(text).ok()?.status_endpoint(true)
}

/// The number of that endpoint, 1 to 15; 1 if the configuration has none.
fn status_number(spec: &DeviceSpec, registers: &Registers) -> u8
    ensures value { result ≡ status_number spec.now registers.now }
    ensures least { 1 ≤ result }
    ensures most { result ≤ 15 }
{
    match status_in(text_of(spec, registers)) {
        None => 1,
        Some((number, _)) => number,
    }
}

/// The first bulk IN endpoint that is served, if it has a source to give.
fn source_at(spec: &DeviceSpec, registers: &Registers) -> Option<(u8, u8)>
    ensures { (length spec.now.source == 0) ≡ false
        → result ≡ bulk_at spec.now registers.now true }
{
    if spec.source().is_empty() {
        None
    } else {
        bulk_at(spec, registers, true)
    }
}

/// The number of the status endpoint, if the device is a hub.
fn status_at(spec: &DeviceSpec, registers: &Registers) -> u8
    ensures { is_some spec.now.hub ≡ true → result ≡ status_number spec.now registers.now }
{
    if spec.hub().is_some() {
        status_number(spec, registers)
    } else {
        0
    }
}

/// No endpoints.
pub fn none_served() -> ServedEndpoints {
    ServedEndpoints {
        bulk_in: None,
        table: UsableEndpoints::none(),
        status: 0,
    }
}

/// The endpoints that are served by a device with these registers.
pub fn served_endpoints(spec: &DeviceSpec, registers: &Registers) -> ServedEndpoints
    ensures { AreServed spec.now registers.now result }
{
    ServedEndpoints {
        bulk_in: source_at(spec, registers),
        table: table_at(spec, registers),
        status: status_at(spec, registers),
    }
}

/// Whether an endpoint has this number.
pub(crate) fn is_numbered(number: u8, end: Option<(u8, u8)>) -> bool
    ensures { result ≡ is_numbered number end }
{
    match end {
        None => false,
        Some((found, _)) => found == number,
    }
}

/// Whether the device reports which of its ports changed (11.12.1): a configured hub does.
pub fn tells_changes(spec: &DeviceSpec, registers: &Registers) -> bool
    ensures { result ≡ tells_changes spec.now registers.now }
{
    spec.hub().is_some() && registers.configuration != 0
}

/// The served endpoint that wIndex of a request names (9.3.4).
#[tactic(auto, using(usb_device::proofs::ServedNumbers::far))]
pub fn served(spec: &DeviceSpec, registers: &Registers, index: u16) -> Option<ServedEndpoint>
    ensures { result ≡ served spec.now registers.now index }
{
    let status = DIRECTION_IN + status_number(spec, registers);
    if index == u16::from(status) && tells_changes(spec, registers) {
        return Some(ServedEndpoint::Changes);
    }
    if index > 0xff {
        return None;
    }
    let number = index as u8;
    let table = table_at(spec, registers);
    if table.get(number, false).is_some() {
        Some(ServedEndpoint::BulkOut(EndpointNumber::new(number)))
    } else if number >= DIRECTION_IN && table.get(number - DIRECTION_IN, true).is_some() {
        Some(ServedEndpoint::BulkIn(EndpointNumber::new(number - DIRECTION_IN)))
    } else {
        None
    }
}

/// The place after another packet of at most `max` bytes of `len`.
pub fn advanced(place: u16, max: u8, len: u16) -> u16
    ensures { result ≡ advanced place max len }
{
    place + len.saturating_sub(place).min(u16::from(max))
}
