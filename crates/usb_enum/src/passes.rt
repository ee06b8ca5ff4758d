//! The steps up to a device that has its address and has given its device descriptor.
ghost use Rattle.std.specs.Prelude.{◌≡◌, ◌≤◌, ◌<◌, ◌*◌, IfErr, IfSome, true, ℕ, ⊤, MatchResult};
ghost use Rattle.usb_request.specs.Codes.{DEVICE_HEAD_LENGTH, DEVICE_LENGTH};
ghost use Rattle.usb_request.specs.declared.feature.TheConstants.{PORT_RESET};
ghost use Rattle.usb_port.specs.Calls.{set_call};
ghost use Rattle.usb_hub.specs.Addresses.{KeepsDevices, Resets};
ghost use Rattle.usb_hub.specs.Port.{IsAsked, status_bound, order_bound};
ghost use Rattle.usb_transfer.specs.Transactions.{IsTarget};
ghost use Rattle.usb_enum.specs.Addresses.{AtPort};
ghost use Rattle.usb_enum.specs.Bounds.{PASSES, read_bound, reset_bound, unaddressed_bound, pass_bound};
ghost use Rattle.usb_enum.specs.Calls.{CalledAt, SettlesReset, StatusAt};
ghost use Rattle.usb_enum.specs.Device.{IsUnaddressed, device_bytes, is_device, needs_pre};
ghost use Rattle.usb_enum.specs.FairEnumerations.{PassEnds};
ghost use Rattle.usb_enum.specs.Parts.{Both, FailsAt, IsDone, Part, Read, StopsAt, StopsDescriptor, StopsHead, TakesAddressed};
ghost use Rattle.usb_enum.specs.PresentDevices.{Awaits, WasReset};
ghost use Rattle.usb_enum.specs.Reasons.{DescriptorTold, PassTold};
ghost use Rattle.usb_enum.specs.Refusals.{FindsHead, FindsDescriptor, no_fault, early_fault, addressed_fault};
ghost use Rattle.usb_enum.specs.Readings.{AtMaximum};
ghost use Rattle.usb_enum.specs.Said.{Answers, BeginsWith, Says};
ghost use Rattle.usb_enum.specs.Stops.{IsEarlyStop, as_stop};

use crate::addressed::Addressed;
use crate::said::keep;
use crate::stop::{Stop, answered_or, at_port};
use crate::{Cause, EnumFault, Request};
use arrayvec::ArrayVec;
use std::alloc::Global;
use usb_bus::Bus;
use usb_descriptor::{device_head, read_device};
use usb_hub::{HubPort, PortStatus, clear_port, get_device, port_status, set_address, set_port};
use usb_request::descriptor_length::{DEVICE_HEAD_LENGTH, DEVICE_LENGTH};
use usb_request::feature::{C_PORT_RESET, PORT_RESET};
use usb_transfer::{PipeFault, Target};

/// How often a device is given its address at most.
const PASSES: u8 = 3;

/// The maximum packet of endpoint 0 that every device has at least (5.5.3).
const LEAST_PACKET: u8 = 8;

/// How many bytes of the device descriptor are asked for at address 0.
const HEAD: u16 = DEVICE_HEAD_LENGTH as u16;

/// How many are asked for once the device has its address.
const WHOLE: u16 = DEVICE_LENGTH as u16;

/// Sets PORT_RESET.
fn begin_reset<B: Bus>(bus: &mut B, port: HubPort) -> Result<(), EnumFault>
    requires { IsAsked B.modelled (B.world bus.old) port }
    ensures part { (a : ℕ) → Part B.modelled B.world B.trace B.spent B.ports B.failed
        (AtPort port a) (order_bound port) IsDone (FailsAt port) bus.old (as_stop result) bus.new }
    ensures resets { B.modelled ≡ true → Resets port (B.world bus.old) (B.world bus.new) }
    ensures calls { B.modelled ≡ true
        → CalledAt port (set_call PORT_RESET) (B.world bus.old) result (B.world bus.new) }
{
    at_port(set_port(bus, port, PORT_RESET))
}

/// The status of the port.
fn read_status<B: Bus>(alloc: Global, bus: &mut B, port: HubPort) -> Result<PortStatus, EnumFault>
    requires { IsAsked B.modelled (B.world bus.old) port }
    ensures read { Read B.modelled B.world B.trace B.spent B.ports B.failed (status_bound port)
        (λ _ _ _. ⊤) (FailsAt port) bus.old (as_stop result) bus.new }
    ensures status { B.modelled ≡ true → StatusAt port (B.world bus.old) result (B.world bus.new) }
{
    at_port(port_status(alloc, bus, port))
}

/// Resets the port (11.5.1.5), and returns whether a low-speed device is there.
fn reset<B: Bus>(alloc: Global, bus: &mut B, port: HubPort) -> Result<bool, Stop>
    requires port { IsAsked B.modelled (B.world bus.old) port }
    ensures plain { IfErr result IsEarlyStop }
    ensures part { (a : ℕ) → Part B.modelled B.world B.trace B.spent B.ports B.failed
        (AtPort port a) (reset_bound port) (λ old new low. WasReset low port a old new)
        (StopsAt port a no_fault) bus.old result bus.new }
{
    begin_reset(bus, port)?;
    let status = read_status(alloc, bus, port)?;
    if !status.enabled {
        return Err(Stop::Refused(Cause::Lost));
    }
    settle(bus, port, status.reset_changed)?;
    Ok(status.low_speed)
}

/// Clears C_PORT_RESET where it is set.
fn settle<B: Bus>(bus: &mut B, port: HubPort, changed: bool) -> Result<(), EnumFault>
    requires { IsAsked B.modelled (B.world bus.old) port }
    ensures part { (a : ℕ) → Part B.modelled B.world B.trace B.spent B.ports B.failed
        (AtPort port a) (order_bound port) IsDone (FailsAt port) bus.old (as_stop result) bus.new }
    ensures devices { B.modelled ≡ true → KeepsDevices (B.world bus.old) (B.world bus.new) }
    ensures calls { B.modelled ≡ true
        → SettlesReset port changed (B.world bus.old) result (B.world bus.new) }
{
    if !changed {
        return Ok(());
    }
    at_port(clear_port(bus, port, C_PORT_RESET))
}

/// Whether PRE goes before packets to a low-speed device at the port (8.6.5).
fn needs_pre(port: HubPort) -> bool
    ensures { result ≡ needs_pre port }
{
    match port {
        HubPort::Root(_) => false,
        HubPort::External { .. } => true,
    }
}

/// The maximum packet of endpoint 0, from the first eight bytes of the device descriptor.
#[tactic(auto, using(usb_transfer::proofs::Interface::bound_wide), unfolding(usb_descriptor::specs::Device::device_head_of))]
fn first_maximum<B: Bus>(
    alloc: Global,
    bus: &mut B,
    unaddressed: Target,
    said: &mut ArrayVec<u8, 18>,
) -> Result<u8, Stop>
    requires target { IsTarget unaddressed }
    requires max { unaddressed.max ≡ 8 }
    ensures fits { MatchResult result (λ max. (8 ≤ max) × (max ≤ 64)) IsEarlyStop }
    ensures read { Read B.modelled B.world B.trace B.spent B.ports B.failed
        (read_bound DEVICE_HEAD_LENGTH) (FindsHead unaddressed) (StopsHead unaddressed)
        bus.old result bus.new }
    ensures said { B.modelled ≡ true → Answers (BeginsWith said.new.items) unaddressed
        DEVICE_HEAD_LENGTH said.old.items said.new.items (B.world bus.old) (B.world bus.new) }
{
    let stalled = Cause::Stalled(Request::Device);
    let bytes = answered_or(stalled, get_device(alloc, bus, unaddressed, HEAD))?;
    keep(said, bytes.as_slice());
    match device_head(bytes.as_slice(), unaddressed.low) {
        Ok(max) => Ok(max),
        Err(_) => Err(Stop::Refused(Cause::BadDevice)),
    }
}

/// The device descriptor, or `None` if the device gave no answer.
#[tactic(auto, using(usb_transfer::proofs::Interface::bound_wide))]
fn descriptor<B: Bus>(
    alloc: Global,
    bus: &mut B,
    target: Target,
    said: &mut ArrayVec<u8, 18>,
) -> Result<Option<[u8; 18]>, Stop>
    requires target { IsTarget target }
    requires max { 8 ≤ target.max }
    ensures device { MatchResult result
        (λ found. IfSome found (λ bytes. (is_device target.low bytes ≡ true)
        × (said.new.items ≡ bytes))) IsEarlyStop }
    ensures read { Read B.modelled B.world B.trace B.spent B.ports B.failed
        (read_bound DEVICE_LENGTH) (Both (DescriptorTold target) (FindsDescriptor target))
        (StopsDescriptor target) bus.old result bus.new }
    ensures said { B.modelled ≡ true → Answers (AtMaximum target (BeginsWith said.new.items))
        target DEVICE_LENGTH said.old.items said.new.items (B.world bus.old) (B.world bus.new) }
{
    let outcome = get_device(alloc, bus, target, WHOLE);
    if outcome == Err(PipeFault::NoAnswer) {
        return Ok(None);
    }
    let bytes = answered_or(Cause::Stalled(Request::Device), outcome)?;
    keep(said, bytes.as_slice());
    match bytes.as_slice().first_chunk::<DEVICE_LENGTH>() {
        Some(bytes) => device_bytes(bytes, target.low),
        None => Err(Stop::Refused(Cause::BadDevice)),
    }
}

/// The bytes, if they are the descriptor of a device at this speed.
fn device_bytes(bytes: &[u8; 18], low: bool) -> Result<Option<[u8; 18]>, Stop>
    ensures { result ≡ device_bytes low bytes.now }
{
    if read_device(bytes.as_slice(), low).is_ok() {
        Ok(Some(*bytes))
    } else {
        Err(Stop::Refused(Cause::BadDevice))
    }
}

/// The device at address 0, once its port is reset and its maximum packet is known.
pub(crate) fn unaddressed<B: Bus>(
    alloc: Global,
    bus: &mut B,
    port: HubPort,
    said: &mut ArrayVec<u8, 18>,
) -> Result<Target, Stop>
    requires port { IsAsked B.modelled (B.world bus.old) port }
    ensures target { MatchResult result (IsUnaddressed port) IsEarlyStop }
    ensures part { (a : ℕ) → Part B.modelled B.world B.trace B.spent B.ports B.failed
        (AtPort port a) (unaddressed_bound port) (λ old new target. Awaits target port a old new)
        (StopsAt port a early_fault) bus.old result bus.new }
    ensures said { B.modelled ≡ true → (a : ℕ)
        → Says port a said.old.items said.new.items (B.world bus.old) (B.world bus.new) }
{
    let low = reset(alloc, bus, port)?;
    let pre = low && needs_pre(port);
    let addr = 0;
    let max = first_maximum(
        alloc,
        bus,
        Target {
            addr,
            max: LEAST_PACKET,
            low,
            pre,
        },
        said,
    )?;
    Ok(Target {
        addr,
        max,
        low,
        pre,
    })
}

/// One pass, from the port's reset to the device descriptor; `None` if the device gave no
/// answer once it should have its address.
fn pass<B: Bus>(
    alloc: Global,
    bus: &mut B,
    port: HubPort,
    address: u8,
    said: &mut ArrayVec<u8, 18>,
) -> Result<Option<Addressed>, Stop>
    requires port { IsAsked B.modelled (B.world bus.old) port }
    requires least { 1 ≤ address }
    requires most { address < 128 }
    ensures addressed { MatchResult result
        (λ found. IfSome found (λ device. (device.target.addr ≡ address)
        × (said.new.items ≡ device.bytes))) IsEarlyStop }
    ensures part { Part B.modelled B.world B.trace B.spent B.ports B.failed
        (AtPort port address) (pass_bound port)
        (Both (PassTold port address) (PassEnds port address))
        (StopsAt port address addressed_fault) bus.old result bus.new }
    ensures said { B.modelled ≡ true
        → Says port address said.old.items said.new.items (B.world bus.old) (B.world bus.new) }
{
    let target = unaddressed(alloc, bus, port, said)?;
    let stalled = Cause::Stalled(Request::Address);
    answered_or(stalled, set_address(bus, target, address))?;
    let target = Target {
        addr: address,
        ..target
    };
    match descriptor(alloc, bus, target, said)? {
        Some(bytes) => Ok(Some(Addressed { target, bytes })),
        None => Ok(None),
    }
}

/// At most three passes: a device that missed the end of SET_ADDRESS is reset, and given the same
/// address again.
pub(crate) fn passes<B: Bus>(
    alloc: Global,
    bus: &mut B,
    port: HubPort,
    address: u8,
    said: &mut ArrayVec<u8, 18>,
) -> Result<Addressed, Stop>
    requires port { IsAsked B.modelled (B.world bus.old) port }
    requires least { 1 ≤ address }
    requires most { address < 128 }
    ensures addressed { MatchResult result (λ device. (device.target.addr ≡ address)
        × (said.new.items ≡ device.bytes)) IsEarlyStop }
    ensures part { Part B.modelled B.world B.trace B.spent B.ports B.failed
        (AtPort port address) (PASSES * pass_bound port) (TakesAddressed port address)
        (StopsAt port address addressed_fault) bus.old result bus.new }
    ensures said { B.modelled ≡ true
        → Says port address said.old.items said.new.items (B.world bus.old) (B.world bus.new) }
{
    for _pass in 0..PASSES {
        if let Some(device) = pass(alloc, bus, port, address, said)? {
            return Ok(device);
        }
    }
    Err(Stop::Refused(Cause::Silent))
}
