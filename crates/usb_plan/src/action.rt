//! What an event does, by the keys that go with its `do`.

ghost use Rattle.std.specs.Prelude.{◌≡◌, ◌≤◌, option_map};
ghost use Rattle.toml.specs.View.{view};
ghost use Rattle.usb_plan.specs.Action.{device_index_at, bytes_at, packets_at, any_endpoint, out_endpoint, in_endpoint, in_endpoint_at, setup_in, setup_at, no_bytes, given, write_bytes, write_with, request_with, request_at, asked, plug, send, receive, send_to, receive_from, poll, clear_end, set_interface, send_with, receive_with, clear_with, control, plug_of, unplug_of, send_of, receive_of, clear_of, control_of, look_of, interrupt_of, interface_of, show_of, names_common, verb_fits, keys_given};
ghost use Rattle.usb_plan.specs.EventMembers.{found};
ghost use Rattle.usb_plan.specs.declared.action.OtherKeys.TheVariants.{PathSetting, Said};
ghost use Rattle.usb_request.specs.Layout.{IsToDevice};
ghost use Rattle.usb_plan.specs.EntryFault.{EqualUnless};
ghost use Rattle.usb_plan.specs.declared.entry_fault.EntryFault.TheVariants.{Memory};

use crate::endpoints::address_at;
use crate::entry_fault::{EntryFault, fault_in_part, least_fault};
use crate::keys::MOST_PACKETS;
use crate::members::EventMembers;
use crate::path::{free_path, read_path, taken_path};
use crate::quirks::flag_at;
use crate::scene::Scene;
use crate::value::{byte_at, hex_bytes, number_at, read_text};
use std::alloc::Global;
use toml::Value;
use usb_port::PortPath;
use usb_request::{EndpointAddress, ReadRequest, Setup};
use usb_world::{Action, Ask, Change, SentBytes, WriteRequest};

/// The key `device`.
#[tactic(auto, unfolding(crate::specs::Action::device_index_at))]
fn device_index_at(scene: &Scene<'_>, value: Option<&Value>) -> Result<usize, EntryFault>
    ensures { result ≡ device_index_at scene.now (option_map (λ v. view v.now) value.entry) }
{
    scene
        .device_named(read_text(value)?)
        .ok_or(EntryFault::UnknownDevice)
}

/// The key `bytes`.
#[tactic(auto, unfolding(crate::specs::Action::bytes_at))]
fn bytes_at(alloc: Global, value: Option<&Value>) -> Result<SentBytes, EntryFault>
    ensures { EqualUnless Memory result (bytes_at (option_map (λ v. view v.now) value.entry)) }
{
    hex_bytes(alloc, value.ok_or(EntryFault::MissingKey)?)
}

/// The key `packets`.
#[tactic(auto, unfolding(crate::specs::Action::packets_at))]
fn packets_at(value: Option<&Value>) -> Result<u16, EntryFault>
    ensures { result ≡ packets_at (option_map (λ v. view v.now) value.entry) }
{
    let packets = number_at(0, MOST_PACKETS, value)?;
    Ok(packets as u16)
}

/// The key `endpoint`, where it stands.
#[tactic(auto, unfolding(crate::specs::Action::any_endpoint))]
fn any_endpoint(value: &Value) -> Result<EndpointAddress, EntryFault>
    ensures { result ≡ any_endpoint (view value.now) }
{
    address_at(Some(value))
}

/// The same of an endpoint that takes bytes.
#[tactic(auto, unfolding(crate::specs::Action::out_endpoint))]
fn out_endpoint(value: &Value) -> Result<EndpointAddress, EntryFault>
    ensures { result ≡ out_endpoint (view value.now) }
{
    let endpoint = any_endpoint(value)?;
    if endpoint.is_in() {
        Err(EntryFault::BadValue)
    } else {
        Ok(endpoint)
    }
}

/// The same of an endpoint that gives packets.
#[tactic(auto, unfolding(crate::specs::Action::in_endpoint))]
fn in_endpoint(value: &Value) -> Result<EndpointAddress, EntryFault>
    ensures { result ≡ in_endpoint (view value.now) }
{
    let endpoint = any_endpoint(value)?;
    if endpoint.is_in() {
        Ok(endpoint)
    } else {
        Err(EntryFault::BadValue)
    }
}

/// The same, where the key has to be there.
#[tactic(auto, unfolding(crate::specs::Action::in_endpoint_at))]
fn in_endpoint_at(value: Option<&Value>) -> Result<EndpointAddress, EntryFault>
    ensures { result ≡ in_endpoint_at (option_map (λ v. view v.now) value.entry) }
{
    in_endpoint(value.ok_or(EntryFault::MissingKey)?)
}

/// Setup data, of their eight bytes (9.3).
#[tactic(auto, unfolding(crate::specs::Action::setup_in))]
fn setup_in(bytes: &[u8]) -> Result<Setup, EntryFault>
    ensures { result ≡ setup_in bytes.now }
{
    match <[u8; 8]>::try_from(bytes) {
        Ok(bytes) => Ok(Setup::from_bytes(bytes)),
        Err(_) => Err(EntryFault::BadValue),
    }
}

/// The key `setup`.
#[tactic(auto, unfolding(crate::specs::Action::setup_at))]
fn setup_at(alloc: Global, value: Option<&Value>) -> Result<Setup, EntryFault>
    ensures { EqualUnless Memory result (setup_at (option_map (λ v. view v.now) value.entry)) }
{
    let bytes = bytes_at(alloc, value)?;
    setup_in(bytes.as_slice())
}

/// A request of endpoint 0.
#[derive(Drop)]
enum Request {
    /// It reads.
    Read(ReadRequest),
    /// It writes.
    Write(WriteRequest),
}

/// The key `bytes`, if it must be absent.
#[tactic(auto, unfolding(crate::specs::Action::no_bytes))]
fn no_bytes(value: Option<&Value>) -> Result<(), EntryFault>
    ensures { result ≡ no_bytes (option_map (λ v. view v.now) value.entry) }
{
    match value {
        None => Ok(()),
        Some(_) => Err(EntryFault::BadValue),
    }
}

/// The key `bytes` by itself, which may be absent.
#[tactic(auto, unfolding(crate::specs::Action::given))]
fn given(alloc: Global, value: Option<&Value>) -> Result<(), EntryFault>
    ensures { EqualUnless Memory result (given (option_map (λ v. view v.now) value.entry)) }
{
    if let Some(value) = value {
        hex_bytes(alloc, value)?;
    }
    Ok(())
}

/// The key `bytes` of a request that writes, which is absent if there are none.
#[tactic(auto, unfolding(crate::specs::Action::write_bytes))]
fn write_bytes(alloc: Global, length: u16, value: Option<&Value>) -> Result<SentBytes, EntryFault>
    ensures { EqualUnless Memory result
        (write_bytes length (option_map (λ v. view v.now) value.entry)) }
{
    if length == 0 {
        no_bytes(value)?;
        return Ok(SentBytes::new(Vec::new(alloc)));
    }
    bytes_at(alloc, value)
}

/// A request that writes: it has wLength bytes.
#[tactic(auto, unfolding(crate::specs::Action::write_with))]
fn write_with(setup: Setup, bytes: SentBytes) -> Result<WriteRequest, EntryFault>
    requires { IsToDevice setup }
    ensures { result ≡ write_with setup bytes }
{
    WriteRequest::new(setup, bytes).ok_or(EntryFault::BadValue)
}

/// A request of these setup data, with the bytes of a key if it writes any.
#[tactic(auto, unfolding(crate::specs::Action::request_with, crate::specs::Action::write_with))]
fn request_with(alloc: Global, setup: Setup, value: Option<&Value>) -> Result<Request, EntryFault>
    ensures { EqualUnless Memory result
        (request_with setup (option_map (λ v. view v.now) value.entry)) }
{
    match ReadRequest::new(setup) {
        Some(read) => {
            no_bytes(value)?;
            Ok(Request::Read(read))
        }
        None => {
            let bytes = write_bytes(alloc, setup.length, value)?;
            Ok(Request::Write(write_with(setup, bytes)?))
        }
    }
}

/// The keys `setup` and `bytes`.
#[tactic(auto, unfolding(crate::specs::Action::request_at))]
fn request_at(alloc: Global, members: &EventMembers<'_>) -> Result<Request, EntryFault>
    ensures { EqualUnless Memory result (request_at (found members.now)) }
{
    let setup = setup_at(alloc, members.setup)?;
    request_with(alloc, setup, members.bytes)
}

/// What a request of endpoint 0 asks of the device at a path.
#[tactic(auto, unfolding(crate::specs::Action::asked))]
fn asked(path: PortPath, request: Request) -> Ask
    ensures { result ≡ asked path request }
{
    match request {
        Request::Read(read) => Ask::ControlIn(path, read),
        Request::Write(write) => Ask::ControlOut(path, write),
    }
}

/// The plug of parts of which some may be faults.
#[tactic(auto, unfolding(crate::specs::Action::plug))]
fn faulty_plug(
    path: Result<PortPath, EntryFault>,
    device: Result<usize, EntryFault>,
) -> Result<Action, EntryFault>
    ensures { result ≡ plug path device }
{
    least_fault(&[fault_in_part(&path), fault_in_part(&device)])?;
    Ok(Action::Change(Change::Plug(path?, device?)))
}

/// The plug of these parts; that both are there is seen first.
#[tactic(auto, unfolding(crate::specs::Action::plug, crate::specs::EntryFault::fault_in_part, crate::specs::EntryFault::least_fault, crate::specs::EntryFault::sooner))]
fn plug(
    path: Result<PortPath, EntryFault>,
    device: Result<usize, EntryFault>,
) -> Result<Action, EntryFault>
    ensures { result ≡ plug path device }
{
    match (path, device) {
        (Ok(path), Ok(device)) => Ok(Action::Change(Change::Plug(path, device))),
        (path, device) => faulty_plug(path, device),
    }
}

/// The action to send bytes to the first bulk OUT, or the least fault of the parts.
#[tactic(auto, unfolding(crate::specs::Action::send))]
fn send(
    path: Result<PortPath, EntryFault>,
    bytes: Result<SentBytes, EntryFault>,
) -> Result<Action, EntryFault>
    ensures { result ≡ send path bytes }
{
    least_fault(&[fault_in_part(&path), fault_in_part(&bytes)])?;
    Ok(Action::Ask(Ask::Send(path?, bytes?)))
}

/// The action to receive packets from the first bulk IN, or the least fault of the parts.
#[tactic(auto, unfolding(crate::specs::Action::receive))]
fn receive(
    path: Result<PortPath, EntryFault>,
    packets: Result<u16, EntryFault>,
) -> Result<Action, EntryFault>
    ensures { result ≡ receive path packets }
{
    least_fault(&[fault_in_part(&path), fault_in_part(&packets)])?;
    Ok(Action::Ask(Ask::Receive(path?, packets?)))
}

/// The action to send bytes to this OUT endpoint, or the least fault of the parts.
#[tactic(auto, unfolding(crate::specs::Action::send_to))]
fn send_to(
    path: Result<PortPath, EntryFault>,
    endpoint: Result<EndpointAddress, EntryFault>,
    bytes: Result<SentBytes, EntryFault>,
) -> Result<Action, EntryFault>
    ensures { result ≡ send_to path endpoint bytes }
{
    least_fault(&[
        fault_in_part(&path),
        fault_in_part(&endpoint),
        fault_in_part(&bytes),
    ])?;
    Ok(Action::Ask(Ask::SendTo(path?, endpoint?, bytes?)))
}

/// The action to receive packets from this IN endpoint, or the least fault of the parts.
#[tactic(auto, unfolding(crate::specs::Action::receive_from))]
fn receive_from(
    path: Result<PortPath, EntryFault>,
    endpoint: Result<EndpointAddress, EntryFault>,
    packets: Result<u16, EntryFault>,
) -> Result<Action, EntryFault>
    ensures { result ≡ receive_from path endpoint packets }
{
    least_fault(&[
        fault_in_part(&path),
        fault_in_part(&endpoint),
        fault_in_part(&packets),
    ])?;
    Ok(Action::Ask(Ask::ReceiveFrom(path?, endpoint?, packets?)))
}

/// The action to ask this IN endpoint once for a packet, or the least fault of the parts.
#[tactic(auto, unfolding(crate::specs::Action::poll))]
fn poll(
    path: Result<PortPath, EntryFault>,
    endpoint: Result<EndpointAddress, EntryFault>,
) -> Result<Action, EntryFault>
    ensures { result ≡ poll path endpoint }
{
    least_fault(&[fault_in_part(&path), fault_in_part(&endpoint)])?;
    Ok(Action::Ask(Ask::Poll(path?, endpoint?)))
}

/// The action to clear the halt of this endpoint, or the least fault of the parts.
#[tactic(auto, unfolding(crate::specs::Action::clear_end))]
fn clear_end(
    path: Result<PortPath, EntryFault>,
    endpoint: Result<EndpointAddress, EntryFault>,
) -> Result<Action, EntryFault>
    ensures { result ≡ clear_end path endpoint }
{
    least_fault(&[fault_in_part(&path), fault_in_part(&endpoint)])?;
    Ok(Action::Ask(Ask::ClearOf(path?, endpoint?)))
}

/// The action to choose this alternate setting of an interface, or the least fault of the parts.
#[tactic(auto, unfolding(crate::specs::Action::set_interface))]
fn set_interface(
    path: Result<PortPath, EntryFault>,
    interface: Result<u8, EntryFault>,
    setting: Result<u8, EntryFault>,
) -> Result<Action, EntryFault>
    ensures { result ≡ set_interface path interface setting }
{
    least_fault(&[
        fault_in_part(&path),
        fault_in_part(&interface),
        fault_in_part(&setting),
    ])?;
    Ok(Action::Ask(Ask::SetInterface(path?, interface?, setting?)))
}

/// Sends to the endpoint at a key, without it to the first bulk OUT.
#[tactic(auto, unfolding(crate::specs::Action::send_with))]
fn send_with(
    endpoint: Option<&Value>,
    path: Result<PortPath, EntryFault>,
    bytes: Result<SentBytes, EntryFault>,
) -> Result<Action, EntryFault>
    ensures { result ≡ send_with (option_map (λ v. view v.now) endpoint.entry) path bytes }
{
    match endpoint {
        None => send(path, bytes),
        Some(endpoint) => send_to(path, out_endpoint(endpoint), bytes),
    }
}

/// Receives from the endpoint at a key, without it from the first bulk IN.
#[tactic(auto, unfolding(crate::specs::Action::receive_with))]
fn receive_with(
    endpoint: Option<&Value>,
    path: Result<PortPath, EntryFault>,
    packets: Result<u16, EntryFault>,
) -> Result<Action, EntryFault>
    ensures { result ≡ receive_with (option_map (λ v. view v.now) endpoint.entry) path packets }
{
    match endpoint {
        None => receive(path, packets),
        Some(endpoint) => receive_from(path, in_endpoint(endpoint), packets),
    }
}

/// Clears the halt of the endpoint at a key, without it those of the first bulk endpoints.
#[tactic(auto, unfolding(crate::specs::Action::clear_with))]
fn clear_with(
    endpoint: Option<&Value>,
    path: Result<PortPath, EntryFault>,
) -> Result<Action, EntryFault>
    ensures { result ≡ clear_with (option_map (λ v. view v.now) endpoint.entry) path }
{
    match endpoint {
        None => Ok(Action::Ask(Ask::Clear(path?))),
        Some(endpoint) => clear_end(path, any_endpoint(endpoint)),
    }
}

/// The action to make this request of endpoint 0, or the least fault of the parts. `bytes` is the
/// check of that key by itself.
#[tactic(auto, unfolding(crate::specs::Action::control))]
fn control(
    path: Result<PortPath, EntryFault>,
    request: Result<Request, EntryFault>,
    bytes: Result<(), EntryFault>,
) -> Result<Action, EntryFault>
    ensures { result ≡ control path request bytes }
{
    least_fault(&[
        fault_in_part(&path),
        fault_in_part(&request),
        fault_in_part(&bytes),
    ])?;
    Ok(Action::Ask(asked(path?, request?)))
}

/// Plugs a device.
#[tactic(auto, unfolding(crate::specs::Action::plug_of))]
pub(crate) fn plug_of(scene: &Scene<'_>, members: &EventMembers<'_>) -> Result<Action, EntryFault>
    ensures { result ≡ plug_of scene.now (found members.now) }
{
    let path = read_path(scene, members.path);
    let device = device_index_at(scene, members.device);
    plug(free_path(scene, path), device)
}

/// Unplugs what is at a port.
#[tactic(auto, unfolding(crate::specs::Action::unplug_of))]
pub(crate) fn unplug_of(scene: &Scene<'_>, members: &EventMembers<'_>) -> Result<Action, EntryFault>
    ensures { result ≡ unplug_of scene.now (found members.now) }
{
    let path = taken_path(scene, read_path(scene, members.path))?;
    Ok(Action::Change(Change::Unplug(path)))
}

/// Sends bytes.
#[tactic(auto, using(crate::proofs::MemoryRefusals::send_with_unless), unfolding(crate::specs::Action::send_of))]
pub(crate) fn send_of(
    alloc: Global,
    scene: &Scene<'_>,
    members: &EventMembers<'_>,
) -> Result<Action, EntryFault>
    ensures { EqualUnless Memory result (send_of scene.now (found members.now)) }
{
    let path = read_path(scene, members.path);
    let bytes = bytes_at(alloc, members.bytes);
    send_with(members.endpoint, path, bytes)
}

/// Receives packets.
#[tactic(auto, unfolding(crate::specs::Action::receive_of))]
pub(crate) fn receive_of(
    scene: &Scene<'_>,
    members: &EventMembers<'_>,
) -> Result<Action, EntryFault>
    ensures { result ≡ receive_of scene.now (found members.now) }
{
    let path = read_path(scene, members.path);
    let packets = packets_at(members.packets);
    receive_with(members.endpoint, path, packets)
}

/// Clears halts.
#[tactic(auto, unfolding(crate::specs::Action::clear_of))]
pub(crate) fn clear_of(scene: &Scene<'_>, members: &EventMembers<'_>) -> Result<Action, EntryFault>
    ensures { result ≡ clear_of scene.now (found members.now) }
{
    clear_with(members.endpoint, read_path(scene, members.path))
}

/// Makes a request of endpoint 0.
#[tactic(auto, using(crate::proofs::MemoryRefusals::control_unless), unfolding(crate::specs::Action::control_of))]
pub(crate) fn control_of(
    alloc: Global,
    scene: &Scene<'_>,
    members: &EventMembers<'_>,
) -> Result<Action, EntryFault>
    ensures { EqualUnless Memory result (control_of scene.now (found members.now)) }
{
    let path = read_path(scene, members.path);
    let request = request_at(alloc, members);
    control(path, request, given(alloc, members.bytes))
}

/// Lists what the host found, with what refused devices said if the key `said` says so.
#[tactic(auto, unfolding(crate::specs::Action::show_of))]
pub(crate) fn show_of(members: &EventMembers<'_>) -> Result<Action, EntryFault>
    ensures { result ≡ show_of (found members.now) }
{
    let said = flag_at(members.said)?;
    Ok(Action::Ask(Ask::Show { said }))
}

/// Looks once more at a port.
#[tactic(auto, unfolding(crate::specs::Action::look_of))]
pub(crate) fn look_of(scene: &Scene<'_>, members: &EventMembers<'_>) -> Result<Action, EntryFault>
    ensures { result ≡ look_of scene.now (found members.now) }
{
    let path = read_path(scene, members.path)?;
    Ok(Action::Ask(Ask::Look(path)))
}

/// Asks an interrupt endpoint for a packet.
#[tactic(auto, unfolding(crate::specs::Action::interrupt_of))]
pub(crate) fn interrupt_of(
    scene: &Scene<'_>,
    members: &EventMembers<'_>,
) -> Result<Action, EntryFault>
    ensures { result ≡ interrupt_of scene.now (found members.now) }
{
    let path = read_path(scene, members.path);
    poll(path, in_endpoint_at(members.endpoint))
}

/// Chooses an alternate setting of an interface.
#[tactic(auto, unfolding(crate::specs::Action::interface_of))]
pub(crate) fn interface_of(
    scene: &Scene<'_>,
    members: &EventMembers<'_>,
) -> Result<Action, EntryFault>
    ensures { result ≡ interface_of scene.now (found members.now) }
{
    let path = read_path(scene, members.path);
    set_interface(path, byte_at(members.interface), byte_at(members.setting))
}

/// The keys that go with an event's `do` and `after`.
#[derive(Clone, Copy)]
pub(crate) enum OtherKeys {
    /// None.
    Alone,
    /// `path`.
    Path,
    /// `path` and `device`.
    PathDevice,
    /// `path`, `bytes` and maybe `endpoint`.
    PathBytes,
    /// `path`, `packets` and maybe `endpoint`.
    PathPackets,
    /// `path` and `endpoint`.
    PathEndpoint,
    /// `path`, `setup` and maybe `bytes`.
    PathSetup,
    /// `path`, `interface` and `setting`.
    PathSetting,
    /// Maybe `said`.
    Said,
}

/// Whether there is no other key, and none of those that go with `show` or `interface` alone.
fn names_common(members: &EventMembers<'_>) -> bool
    ensures { result ≡ names_common (found members.now) }
{
    let no_others = !members.has_others;
    let no_said = members.said.is_none();
    no_others && no_said && members.setting.is_none() && members.interface.is_none()
}

/// Whether each key that is there goes with `interface`.
#[tactic(auto, unfolding(crate::specs::Action::verb_fits))]
fn interface_fits(members: &EventMembers<'_>) -> bool
    ensures { result ≡ verb_fits PathSetting (found members.now) }
{
    let no_others = !members.has_others;
    let no_said = members.said.is_none();
    let no_end = members.endpoint.is_none();
    let no_setup = members.setup.is_none();
    let no_packets = members.packets.is_none();
    let no_bytes = members.bytes.is_none();
    let no_device = members.device.is_none();
    no_others && no_said && no_end && no_setup && no_packets && no_bytes && no_device
}

/// Whether each key that is there goes with `show`.
#[tactic(auto, unfolding(crate::specs::Action::verb_fits))]
fn show_fits(members: &EventMembers<'_>) -> bool
    ensures { result ≡ verb_fits Said (found members.now) }
{
    let no_others = !members.has_others;
    let no_setting = members.setting.is_none();
    let no_interface = members.interface.is_none();
    let no_end = members.endpoint.is_none();
    let no_setup = members.setup.is_none();
    let no_packets = members.packets.is_none();
    let no_bytes = members.bytes.is_none();
    let no_device = members.device.is_none();
    let no_path = members.path.is_none();
    let alone = no_others && no_setting && no_interface;
    alone && no_end && no_setup && no_packets && no_bytes && no_device && no_path
}

/// Whether each key that is there is one of those, `do` or `after`.
#[tactic(auto, unfolding(crate::specs::Action::verb_fits))]
fn fits(keys: OtherKeys, members: &EventMembers<'_>) -> bool
    ensures { result ≡ verb_fits keys (found members.now) }
{
    let known = names_common(members);
    let no_device = members.device.is_none();
    let no_bytes = members.bytes.is_none();
    let no_packets = members.packets.is_none();
    let no_setup = members.setup.is_none();
    let no_end = members.endpoint.is_none();
    match keys {
        OtherKeys::Alone => {
            let no_path = members.path.is_none();
            known && no_end && no_setup && no_packets && no_bytes && no_device && no_path
        }
        OtherKeys::Path => known && no_end && no_setup && no_packets && no_bytes && no_device,
        OtherKeys::PathDevice => known && no_end && no_setup && no_packets && no_bytes,
        OtherKeys::PathBytes => known && no_setup && no_packets && no_device,
        OtherKeys::PathPackets => known && no_setup && no_bytes && no_device,
        OtherKeys::PathEndpoint => known && no_setup && no_packets && no_bytes && no_device,
        OtherKeys::PathSetup => known && no_end && no_packets && no_device,
        OtherKeys::PathSetting => interface_fits(members),
        OtherKeys::Said => show_fits(members),
    }
}

/// Refuses a key that does not go with `do`.
#[tactic(auto, unfolding(crate::specs::Action::keys_given))]
pub(crate) fn keys_given(keys: OtherKeys, members: &EventMembers<'_>) -> Result<(), EntryFault>
    ensures { result ≡ keys_given keys (found members.now) }
{
    if fits(keys, members) {
        Ok(())
    } else {
        Err(EntryFault::BadValue)
    }
}
