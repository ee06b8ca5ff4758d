//! The standard's requests to a device (9.4).
ghost use Rattle.std.specs.Prelude.{◌≡◌, ◌≤◌, false, true};
ghost use Rattle.usb_bus.specs.Traces.{Steps};
ghost use Rattle.usb_world.specs.Devices.{EachWas};
ghost use Rattle.usb_request.specs.Codes.{HUB_LENGTH};
ghost use Rattle.usb_transfer.specs.Transactions.{IsTarget};
ghost use Rattle.usb_transfer.specs.TransactionFailures.{NoThreeDamaged};
ghost use Rattle.usb_transfer.specs.Control.{BusToldIt, control_bound, write_bound};
ghost use Rattle.usb_transfer.specs.Uses.{UsesBus};
ghost use Rattle.usb_transfer.specs.Failures.{WriteFailure};
ghost use Rattle.usb_request.specs.Requests.{get_device_descriptor, get_configuration_descriptor, get_string_descriptor, get_hub_descriptor, get_status as status_request, set_address as address_request, set_configuration as configuration_request, set_interface as interface_request};
ghost use Rattle.usb_hub.specs.Ownership.{KeepsAddresses};
ghost use Rattle.usb_hub.specs.Addresses.{KeepsAnswered, GivesAddress};
ghost use Rattle.usb_hub.specs.GivenAnswers.{DeviceAsked, ConfigAsked, StringAsked, HubAsked, StatusAsked, ReadFailure};
ghost use Rattle.usb_hub.specs.Requests.{Queried, ReadAs, Commanded, ToldWithin, device_status};
ghost use Rattle.usb_hub.specs.Settings.{AddressAsked, ConfigurationAsked, InterfaceAsked};

use crate::DeviceStatus;
use crate::asking::{ask, ask_all, order};
use std::alloc::Global;
use usb_transfer::{Bus, PipeFault, Setup, Target};

/// The first `length` bytes, or all, of the device descriptor (9.4.3); `length` is not 0.
///
/// # Errors
///
/// - `Stalled`: the device refused the request.
/// - `Busy`, `NoAnswer`: a transaction ended so ([`PipeFault`]).
/// - `Memory`: the answer's bytes find no room.
/// - `Bus`: the bus has failed.
#[tactic(auto, using(crate::proofs::GivenAnswers::device_asked, crate::proofs::GivenAnswers::device_why))]
pub fn get_device<B: Bus>(
    alloc: Global,
    bus: &mut B,
    target: Target,
    length: u16,
) -> Result<Vec<u8>, PipeFault>
    requires target { IsTarget target }
    requires some { 1 ≤ length }
    ensures uses { UsesBus B.modelled (Steps B.world B.trace) B.spent B.ports B.failed
        (control_bound target.max length) (BusToldIt result) bus.old bus.new }
    ensures asked { B.modelled ≡ true → Queried target (get_device_descriptor length)
        (B.world bus.old) result (B.world bus.new) }
    ensures what { B.modelled ≡ true → (B.world bus.new).shared ≡ false
        → EachWas (DeviceAsked target length result) (B.world bus.old) (B.world bus.new) }
    ensures why { B.modelled ≡ true → NoThreeDamaged (B.world bus.old) → 8 ≤ target.max
        → (B.world bus.new).shared ≡ false
        → EachWas (ReadFailure target length result) (B.world bus.old) (B.world bus.new) }
    ensures addresses { B.modelled ≡ true
        → KeepsAnswered target.addr (B.world bus.old) result (B.world bus.new) }
{
    ask(alloc, bus, target, Setup::get_device_descriptor(length))
}

/// The first `length` bytes, or all, of a configuration's text, by its index from 0 (9.4.3);
/// `length` is not 0. No more bytes are given, whatever the bus does.
///
/// # Errors
///
/// - `Stalled`: the device refused the request.
/// - `Busy`, `NoAnswer`: a transaction ended so ([`PipeFault`]).
/// - `Memory`: the answer's bytes find no room.
/// - `Bus`: the bus has failed.
#[tactic(auto, using(crate::proofs::GivenAnswers::config_asked, crate::proofs::GivenAnswers::config_why))]
pub fn get_config<B: Bus>(
    alloc: Global,
    bus: &mut B,
    target: Target,
    index: u8,
    length: u16,
) -> Result<Vec<u8>, PipeFault>
    requires target { IsTarget target }
    requires some { 1 ≤ length }
    ensures uses { UsesBus B.modelled (Steps B.world B.trace) B.spent B.ports B.failed
        (control_bound target.max length) (ToldWithin length result) bus.old bus.new }
    ensures asked { B.modelled ≡ true → Queried target (get_configuration_descriptor index length)
        (B.world bus.old) result (B.world bus.new) }
    ensures what { B.modelled ≡ true → (B.world bus.new).shared ≡ false
        → EachWas (ConfigAsked target index length result) (B.world bus.old) (B.world bus.new) }
    ensures why { B.modelled ≡ true → NoThreeDamaged (B.world bus.old) → 8 ≤ target.max
        → (B.world bus.new).shared ≡ false
        → EachWas (ReadFailure target length result) (B.world bus.old) (B.world bus.new) }
    ensures keeps { B.modelled ≡ true → KeepsAddresses (B.world bus.old) (B.world bus.new) }
{
    ask(
        alloc,
        bus,
        target,
        Setup::get_configuration_descriptor(index, length),
    )
}

/// A string descriptor, at most 255 bytes, by its index and its language (9.4.3). String 0 holds
/// the languages.
///
/// # Errors
///
/// - `Stalled`: the device refused the request.
/// - `Busy`, `NoAnswer`: a transaction ended so ([`PipeFault`]).
/// - `Memory`: the answer's bytes find no room.
/// - `Bus`: the bus has failed.
#[tactic(auto, using(crate::proofs::GivenAnswers::string_asked, crate::proofs::GivenAnswers::string_why))]
pub fn get_string<B: Bus>(
    alloc: Global,
    bus: &mut B,
    target: Target,
    index: u8,
    language: u16,
) -> Result<Vec<u8>, PipeFault>
    requires target { IsTarget target }
    ensures uses { UsesBus B.modelled (Steps B.world B.trace) B.spent B.ports B.failed
        (control_bound target.max 255) (BusToldIt result) bus.old bus.new }
    ensures asked { B.modelled ≡ true → Queried target (get_string_descriptor index language)
        (B.world bus.old) result (B.world bus.new) }
    ensures what { B.modelled ≡ true → (B.world bus.new).shared ≡ false
        → EachWas (StringAsked target index result) (B.world bus.old) (B.world bus.new) }
    ensures why { B.modelled ≡ true → NoThreeDamaged (B.world bus.old) → 8 ≤ target.max
        → (B.world bus.new).shared ≡ false
        → EachWas (ReadFailure target 255 result) (B.world bus.old) (B.world bus.new) }
    ensures keeps { B.modelled ≡ true → KeepsAddresses (B.world bus.old) (B.world bus.new) }
{
    ask(
        alloc,
        bus,
        target,
        Setup::get_string_descriptor(index, language),
    )
}

/// The first nine bytes, or all, of a hub's descriptor (11.24.2.5).
///
/// # Errors
///
/// - `Stalled`: the device refused the request.
/// - `Busy`, `NoAnswer`: a transaction ended so ([`PipeFault`]).
/// - `Memory`: the answer's bytes find no room.
/// - `Bus`: the bus has failed.
#[tactic(auto, using(crate::proofs::GivenAnswers::hub_asked, crate::proofs::GivenAnswers::hub_why))]
pub fn hub_descriptor<B: Bus>(
    alloc: Global,
    bus: &mut B,
    target: Target,
) -> Result<Vec<u8>, PipeFault>
    requires { IsTarget target }
    ensures uses { UsesBus B.modelled (Steps B.world B.trace) B.spent B.ports B.failed
        (control_bound target.max HUB_LENGTH) (BusToldIt result) bus.old bus.new }
    ensures asked { B.modelled ≡ true
        → Queried target get_hub_descriptor (B.world bus.old) result (B.world bus.new) }
    ensures what { B.modelled ≡ true → (B.world bus.new).shared ≡ false
        → EachWas (HubAsked target result) (B.world bus.old) (B.world bus.new) }
    ensures why { B.modelled ≡ true → NoThreeDamaged (B.world bus.old) → 8 ≤ target.max
        → (B.world bus.new).shared ≡ false
        → EachWas (ReadFailure target HUB_LENGTH result) (B.world bus.old) (B.world bus.new) }
    ensures keeps { B.modelled ≡ true → KeepsAddresses (B.world bus.old) (B.world bus.new) }
{
    ask(alloc, bus, target, Setup::get_hub_descriptor())
}

/// The status of a device (9.4.5).
///
/// # Errors
///
/// - `Stalled`: the device refused the request, or its answer is not two bytes long.
/// - `Busy`, `NoAnswer`: a transaction ended so ([`PipeFault`]).
/// - `Memory`: the answer's bytes find no room.
/// - `Bus`: the bus has failed.
pub fn get_status<B: Bus>(
    alloc: Global,
    bus: &mut B,
    target: Target,
) -> Result<DeviceStatus, PipeFault>
    requires { IsTarget target }
    ensures uses { UsesBus B.modelled (Steps B.world B.trace) B.spent B.ports B.failed
        (control_bound target.max 2) (BusToldIt result) bus.old bus.new }
    ensures told { B.modelled ≡ true → ReadAs device_status target status_request
        (B.world bus.old) result (B.world bus.new) }
    ensures what { B.modelled ≡ true → (B.world bus.new).shared ≡ false
        → EachWas (StatusAsked target result) (B.world bus.old) (B.world bus.new) }
    ensures why { B.modelled ≡ true → NoThreeDamaged (B.world bus.old) → 8 ≤ target.max
        → (B.world bus.new).shared ≡ false
        → EachWas (ReadFailure target 2 result) (B.world bus.old) (B.world bus.new) }
    ensures keeps { B.modelled ≡ true → KeepsAddresses (B.world bus.old) (B.world bus.new) }
{
    let bytes = ask_all(alloc, bus, target, Setup::get_status())?;
    Ok(DeviceStatus::from_bytes(bytes))
}

/// Gives the device at `target` an address, 1 to 127 (9.4.6). It has it from the end of the status
/// stage on.
///
/// # Errors
///
/// - `Stalled`: the device refused the request.
/// - `Busy`, `NoAnswer`: a transaction ended so ([`PipeFault`]). The device may have the address.
/// - `Bus`: the bus has failed.
#[tactic(auto, using(crate::proofs::AddressesKept::address_given, crate::proofs::Settings::address_asked, crate::proofs::Settings::address_why))]
pub fn set_address<B: Bus>(bus: &mut B, target: Target, address: u8) -> Result<(), PipeFault>
    requires target { IsTarget target }
    requires least { 1 ≤ address }
    requires most { address ≤ 127 }
    ensures uses { UsesBus B.modelled (Steps B.world B.trace) B.spent B.ports B.failed
        write_bound (BusToldIt result) bus.old bus.new }
    ensures ordered { B.modelled ≡ true → Commanded target (address_request address)
        (B.world bus.old) result (B.world bus.new) }
    ensures what { B.modelled ≡ true → (B.world bus.new).shared ≡ false
        → EachWas (AddressAsked target address result (B.world bus.old) (B.world bus.new))
        (B.world bus.old) (B.world bus.new) }
    ensures why { B.modelled ≡ true
        → NoThreeDamaged (B.world bus.old) → (B.world bus.new).shared ≡ false
        → EachWas (WriteFailure target result) (B.world bus.old) (B.world bus.new) }
    ensures gives { B.modelled ≡ true
        → GivesAddress target.addr address (B.world bus.old) (B.world bus.new) }
{
    order(bus, target, Setup::set_address(address))
}

/// Configures the device with the configuration whose bConfigurationValue this is; 0 unconfigures
/// it (9.4.7). Each interface has setting 0 then.
///
/// # Errors
///
/// - `Stalled`: the device refused the request.
/// - `Busy`, `NoAnswer`: a transaction ended so ([`PipeFault`]). The device may be configured.
/// - `Bus`: the bus has failed.
#[tactic(auto, using(crate::proofs::AddressesKept::configured, crate::proofs::Settings::configuration_asked, crate::proofs::Settings::configuration_why))]
pub fn set_configuration<B: Bus>(bus: &mut B, target: Target, value: u8) -> Result<(), PipeFault>
    requires target { IsTarget target }
    ensures uses { UsesBus B.modelled (Steps B.world B.trace) B.spent B.ports B.failed
        write_bound (BusToldIt result) bus.old bus.new }
    ensures ordered { B.modelled ≡ true → Commanded target (configuration_request value)
        (B.world bus.old) result (B.world bus.new) }
    ensures what { B.modelled ≡ true → (B.world bus.new).shared ≡ false
        → EachWas (ConfigurationAsked target value result (B.world bus.new))
        (B.world bus.old) (B.world bus.new) }
    ensures why { B.modelled ≡ true
        → NoThreeDamaged (B.world bus.old) → (B.world bus.new).shared ≡ false
        → EachWas (WriteFailure target result) (B.world bus.old) (B.world bus.new) }
    ensures keeps { B.modelled ≡ true → KeepsAddresses (B.world bus.old) (B.world bus.new) }
{
    order(bus, target, Setup::set_configuration(value))
}

/// Gives an interface of the configuration one of its alternate settings (9.4.10).
///
/// # Errors
///
/// - `Stalled`: the device refused the request, and no interface has another setting.
/// - `Busy`, `NoAnswer`: a transaction ended so ([`PipeFault`]). The interface may have it.
/// - `Bus`: the bus has failed.
#[tactic(auto, using(crate::proofs::AddressesKept::interface_set, crate::proofs::Settings::interface_asked, crate::proofs::Settings::interface_why))]
pub fn set_interface<B: Bus>(
    bus: &mut B,
    target: Target,
    interface: u8,
    setting: u8,
) -> Result<(), PipeFault>
    requires target { IsTarget target }
    ensures uses { UsesBus B.modelled (Steps B.world B.trace) B.spent B.ports B.failed
        write_bound (BusToldIt result) bus.old bus.new }
    ensures ordered { B.modelled ≡ true → Commanded target (interface_request interface setting)
        (B.world bus.old) result (B.world bus.new) }
    ensures what { B.modelled ≡ true → (B.world bus.new).shared ≡ false
        → EachWas (InterfaceAsked target interface setting result)
        (B.world bus.old) (B.world bus.new) }
    ensures why { B.modelled ≡ true
        → NoThreeDamaged (B.world bus.old) → (B.world bus.new).shared ≡ false
        → EachWas (WriteFailure target result) (B.world bus.old) (B.world bus.new) }
    ensures keeps { B.modelled ≡ true → KeepsAddresses (B.world bus.old) (B.world bus.new) }
{
    order(bus, target, Setup::set_interface(interface, setting))
}
