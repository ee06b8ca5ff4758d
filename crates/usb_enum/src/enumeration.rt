//! The whole enumeration.
ghost use Rattle.std.specs.Prelude.{◌≡◌, IfOk, IfErr, MatchResult, true, Err};
ghost use Rattle.usb_bus.specs.Traces.{Steps};
ghost use Rattle.usb_transfer.specs.Uses.{UsesBus};
ghost use Rattle.usb_hub.specs.Port.{IsAsked, order_bound};
ghost use Rattle.usb_enum.specs.Addresses.{AtPort};
ghost use Rattle.usb_enum.specs.Bounds.{unaddressed_bound, examination_bound, enumeration_bound, configured_bound, configured_by, hub_bound};
ghost use Rattle.usb_enum.specs.Device.{HasFittingFacts, fits_tier, is_hub_device};
ghost use Rattle.usb_enum.specs.Findings.{Enumerates, ExaminesAt, GivenUp, HandsOn, IsAccepted, IsFound, IsListed, IsWhole, TakesFor};
ghost use Rattle.usb_enum.specs.Frames.{OnlySets, OnlyTells};
ghost use Rattle.usb_enum.specs.Parts.{EndsWithout, Part, StopsConfiguring, StopsExamining, StopsStart, IsDone};
ghost use Rattle.usb_enum.specs.PresentDevices.{LearnsPorts};
ghost use Rattle.usb_enum.specs.Said.{IsSaid, IsSaidAt};
ghost use Rattle.usb_enum.specs.Stops.{FaultAllowedAt, FitsStop, IsHubStop, IsReported, IsReportedStop, IsStopWithout, EnumWorks};
ghost use Rattle.usb_enum.specs.TextLengths.{FewFor};

use crate::addressed::Addressed;
use crate::configurations::{choose_configuration, read_configurations};
use crate::hub::start_hub;
use crate::passes::{passes, unaddressed};
use crate::stop::{Stop, answered_or, at_port};
use crate::strings::read_strings;
use crate::{Accepted, Cause, ConfigText, EnumFault, Finding, HostOptions, HubFacts, Request};
use arrayvec::ArrayVec;
use std::alloc::Global;
use usb_bus::Bus;
use usb_hub::{HubPort, clear_port, set_configuration};
use usb_port::{Address, AddressPool};
use usb_request::feature::PORT_ENABLE;

/// The last tier in which a device may be (4.1.1).
const LAST_TIER: u8 = 7;

/// What is known of a port, and what the host takes there.
#[derive(Clone, Copy, Debug, PartialEq, Eq)]
pub struct Place {
    /// The tier of a device at the port, 2 at the root, to 7 (4.1.1).
    pub tier: u8,
    /// What the port gives, in mA.
    pub supply: u16,
    /// What the host takes.
    pub options: HostOptions,
}

/// Enumerates the device at a port (9.1.2): the port is reset, and the device is given the least
/// free address, read and configured.
///
/// A device that is refused has its port disabled and leaves the pool as it was. `said` gets the
/// bytes of the last read of its device descriptor that it answered, none where it answered none:
/// 8 bytes are asked for at address 0, and 18 at its own (9.6.1).
///
/// The caller has let go of all that it knew at the port and below it: no device there holds an
/// address that is taken in the pool. So a port that is still enabled is disabled before, and what
/// was found there is forgotten. At a port that is still enabled nothing is said of whose the
/// finding is, of who holds which address in the end, nor of other devices and ports.
///
/// # Errors
///
/// The pool is then as it was.
///
/// - `ParentLost`: a request to the hub that has the port failed. A root port has no such request.
/// - `Bus`: the bus has failed.
/// - `Memory`: memory was refused.
pub fn enumerate<B: Bus>(
    alloc: Global,
    bus: &mut B,
    pool: &mut AddressPool,
    port: HubPort,
    place: Place,
    said: &mut ArrayVec<u8, 18>,
) -> Result<Finding, EnumFault>
    requires port { IsAsked B.modelled (B.world bus.old) port }
    ensures uses { UsesBus B.modelled (Steps B.world B.trace) B.spent B.ports B.failed
        (enumeration_bound port) (λ last. IfErr result (λ fault. IsReported fault last))
        bus.old bus.new }
    ensures told { B.modelled ≡ true → MatchResult result
        (IsSaid port pool.old said.new.items (B.world bus.old) (B.world bus.new))
        (λ fault. FaultAllowedAt port fault (B.world bus.new)) }
    ensures pool { TakesFor result pool.old pool.new }
    ensures found { IfOk result (IsFound pool.old place.options place.tier place.supply) }
    ensures ends { B.modelled ≡ true
        → Enumerates port pool.old place.options place.tier place.supply
        (B.world bus.old) result (B.world bus.new) }
{
    said.clear();
    let Some(address) = pool.take() else {
        let stop = without_address(alloc, bus, port, said);
        return give_up(bus, port, stop);
    };
    match examine(alloc, bus, port, address, place, said) {
        Ok(device) => Ok(Finding::Device(device)),
        Err(stop) => {
            let finding = give_up(bus, port, stop);
            pool.release(address);
            finding
        }
    }
}

/// Goes on until a device would be given its address, if none is free.
fn without_address<B: Bus>(
    alloc: Global,
    bus: &mut B,
    port: HubPort,
    said: &mut ArrayVec<u8, 18>,
) -> Stop
    requires { IsAsked B.modelled (B.world bus.old) port }
    ensures without { IsStopWithout result }
    ensures part { Part B.modelled B.world B.trace B.spent B.ports B.failed
        (AtPort port 0) (unaddressed_bound port) IsDone
        (EndsWithout port said.old.items said.new.items) bus.old (Err result) bus.new }
{
    match unaddressed(alloc, bus, port, said) {
        Ok(_) => Stop::Refused(Cause::NoAddress),
        Err(stop) => stop,
    }
}

/// Disables the port of a device that is refused.
fn give_up<B: Bus>(bus: &mut B, port: HubPort, stop: Stop) -> Result<Finding, EnumFault>
    requires { IsAsked B.modelled (B.world bus.old) port }
    ensures uses { UsesBus B.modelled (Steps B.world B.trace) B.spent B.ports B.failed
        (order_bound port) (λ last. IsReportedStop stop (B.failed bus.old)
        → IfErr result (λ fault. IsReported fault last)) bus.old bus.new }
    ensures hands { HandsOn stop result }
    ensures left { B.modelled ≡ true
        → GivenUp port stop (B.world bus.old) result (B.world bus.new) }
    ensures works { B.modelled ≡ true → EnumWorks result (B.world bus.old) (B.world bus.new) }
{
    match stop {
        Stop::Refused(cause) => {
            at_port(clear_port(bus, port, PORT_ENABLE))?;
            Ok(Finding::Refused(cause))
        }
        Stop::Fault(fault) => Err(fault),
    }
}

/// Gives the device its address, and reads and configures it.
fn examine<B: Bus>(
    alloc: Global,
    bus: &mut B,
    port: HubPort,
    address: Address,
    place: Place,
    said: &mut ArrayVec<u8, 18>,
) -> Result<Accepted, Stop>
    requires port { IsAsked B.modelled (B.world bus.old) port }
    ensures whole { MatchResult result
        (λ device. (device.address ≡ address) × IsWhole place.options place.supply device
        × (said.new.items ≡ device.bytes))
        (λ stop. FitsStop place.tier stop × IsSaidAt stop said.new.items) }
    ensures part { Part B.modelled B.world B.trace B.spent B.ports B.failed
        (AtPort port address) (examination_bound port)
        (IsAccepted port address place.options place.tier place.supply)
        (StopsExamining port address place.options place.tier place.supply)
        bus.old result bus.new }
    ensures made { B.modelled ≡ true → ExaminesAt port address said.old.items said.new.items
        (B.world bus.old) (B.world bus.new) }
{
    let device = passes(alloc, bus, port, address.number(), said)?;
    configure(alloc, bus, address, device, place)
}

/// Reads and configures a device that has its address.
fn configure<B: Bus>(
    alloc: Global,
    bus: &mut B,
    address: Address,
    device: Addressed,
    place: Place,
) -> Result<Accepted, Stop>
    requires { device.target.addr ≡ address }
    ensures whole { MatchResult result
        (λ found. (found.address ≡ address) × IsWhole place.options place.supply found
        × (found.bytes ≡ device.bytes)) (FitsStop place.tier) }
    ensures part { Part B.modelled B.world B.trace B.spent B.ports B.failed
        (OnlySets address) configured_bound (IsListed device place.options place.tier)
        (StopsConfiguring device.target device.bytes place.options place.tier place.supply)
        bus.old result bus.new }
    ensures few { B.modelled ≡ true
        → FewFor configured_by device.target (B.world bus.old) (B.world bus.new) }
{
    let target = device.target;
    fits_tier(&device, place.tier)?;
    let budget = place.options.device_bytes;
    let configs = read_configurations(alloc, bus, target, device.configurations(), budget)?;
    let Some(chosen) = choose_configuration(&configs, place.supply) else {
        return Err(Stop::Refused(Cause::NoPower));
    };
    let value = configs.as_slice()[chosen].value();
    let stalled = Cause::Stalled(Request::SetConfig);
    answered_or(stalled, set_configuration(bus, target, value))?;
    let wide = place.options.wide_hubs;
    let hub = hub_facts(alloc, bus, &device, &configs.as_slice()[chosen], wide)?;
    let strings = read_strings(alloc, bus, target, device.string_indexes())?;
    Ok(Accepted {
        address,
        low: target.low,
        bytes: device.bytes,
        configs,
        chosen,
        strings,
        hub,
    })
}

/// Refuses a hub in the last tier.
fn fits_tier(device: &Addressed, tier: u8) -> Result<(), Stop>
    ensures { result ≡ fits_tier tier device.now.bytes }
{
    if device.is_hub() && tier == LAST_TIER {
        return Err(Stop::Refused(Cause::TooDeep));
    }
    Ok(())
}

/// What a device says of its ports if it is a hub, which then have power.
fn hub_facts<B: Bus>(
    alloc: Global,
    bus: &mut B,
    device: &Addressed,
    text: &ConfigText,
    wide: bool,
) -> Result<Option<HubFacts>, Stop>
    ensures hub { MatchResult result (HasFittingFacts wide device.now.bytes text.now)
        (λ stop. (is_hub_device device.now.bytes ≡ true) × IsHubStop stop) }
    ensures part { Part B.modelled B.world B.trace B.spent B.ports B.failed
        (OnlyTells device.now.target.addr) hub_bound (LearnsPorts wide device.now text.now)
        (StopsStart wide device.now.target text.now) bus.old result bus.new }
{
    if !device.is_hub() {
        return Ok(None);
    }
    Ok(Some(start_hub(alloc, bus, device.target, text, wide)?))
}
