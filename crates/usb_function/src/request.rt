//! What a device makes of each request (9.4).
ghost use Rattle.std.specs.Prelude.{◌≡◌, ◌<◌, true};
ghost use Rattle.std.specs.List.{list_any};
ghost use Rattle.usb_device.specs.DeviceSpecs.{Spec};
ghost use Rattle.usb_device.specs.Request.{outcome, asked_at, asked_by_answer, asked_own, unless, asked_descriptor, asked_status, asked_address, is_value, asked_configuration, endpoint_of, on_endpoint, halts, unhalts, asked_hub_descriptor, port_named, called_at, asked_port_status, port_feature, is_endpoint_0, told_halt, asked_endpoint_status, items_at, asked_interface_status, asked_setting, asked_interface};
ghost use Rattle.usb_device.specs.Rows.{at_reset};
ghost use Rattle.usb_descriptor.specs.Interfaces.{has_interface, has_setting};
ghost use Rattle.usb_device.specs.Bulk.{has_value};
ghost use Rattle.usb_device.specs.OwnRequests.{bytes_given, own_bytes};
ghost use Rattle.usb_device.specs.Code.{meaning_of};

use crate::bulk::{config_at, served};
use usb_descriptor::Settings;
use usb_device::{Bytes, OwnAnswer, OwnRequest, Reaction, Registers, ServedEndpoint, Source};
use usb_port::PortCall;
use usb_request::endpoint_address::DIRECTION_IN;
use usb_request::feature::ENDPOINT_HALT;
use usb_request::request_code::{
    CLEAR_FEATURE, GET_CONFIGURATION, GET_DESCRIPTOR, GET_INTERFACE, GET_STATUS, SET_ADDRESS,
    SET_CONFIGURATION, SET_FEATURE, SET_INTERFACE,
};
use usb_request::request_type::{
    DEVICE_IN, DEVICE_OUT, ENDPOINT_IN, ENDPOINT_OUT, HUB_IN, INTERFACE_IN, INTERFACE_OUT, PORT_IN,
    PORT_OUT,
};
use usb_request::{Setup, descriptor_type};
use usb_scene::DeviceSpec;

/// The registers of a device that was just plugged or reset.
pub fn at_reset() -> Registers
    ensures { result ≡ at_reset }
{
    Registers {
        address: 0,
        configuration: 0,
        settings: Settings::all_zero(),
    }
}

fn unless(refused: bool, reaction: Reaction) -> Reaction
    ensures { (s : Spec) → meaning_of s result ≡ unless refused (meaning_of s reaction) }
{
    if refused { Reaction::Refuse } else { reaction }
}

fn get_descriptor(spec: &DeviceSpec, value: u16) -> Reaction
    ensures { meaning_of spec.now result ≡ asked_descriptor spec.now value }
{
    let stalls = spec.stalls();
    let [index, kind] = value.to_le_bytes();
    let index = usize::from(index);
    match kind {
        descriptor_type::DEVICE if index == 0 => {
            unless(stalls.device, Reaction::Answer(Source::Descriptor))
        }
        descriptor_type::CONFIGURATION if index < spec.configs().len() => {
            unless(stalls.config, Reaction::Answer(Source::Config(index)))
        }
        descriptor_type::STRING if index < spec.strings().len() => {
            unless(stalls.string, Reaction::Answer(Source::Text(index)))
        }
        _ => Reaction::Refuse,
    }
}

fn get_status(setup: &Setup) -> Reaction
    ensures { (s : Spec) → meaning_of s result ≡ asked_status s setup.now }
{
    if setup.value == 0 && setup.index == 0 {
        Reaction::Answer(Source::Status)
    } else {
        Reaction::Refuse
    }
}

fn set_address(setup: &Setup) -> Reaction
    ensures { (s : Spec) → meaning_of s result ≡ asked_address setup.now }
{
    if setup.value <= 127 && setup.length == 0 {
        Reaction::TakeAddress(setup.value as u8)
    } else {
        Reaction::Refuse
    }
}

/// Whether the text of a configuration has this value, by byte 5, bConfigurationValue (9.6.3).
pub fn has_value(text: &[u8], value: u16) -> bool
    ensures { result ≡ has_value value text.now }
{
    text.len() > 5 && u16::from(text[5]) == value
}

fn any_has_value(configs: &[Bytes<65535>], value: u16) -> bool
    ensures { result ≡ list_any (has_value value) configs.now }
{
    configs.iter().any(|text| has_value(text.as_slice(), value))
}

fn is_value(configs: &[Bytes<65535>], value: u16) -> bool
    ensures { result ≡ is_value configs.now value }
{
    value < 256 && (value == 0 || any_has_value(configs, value))
}

fn set_configuration(spec: &DeviceSpec, registers: &Registers, setup: &Setup) -> Reaction
    ensures { meaning_of spec.now result ≡ asked_configuration spec.now registers.now setup.now }
{
    if registers.address != 0 && is_value(spec.configs(), setup.value) && setup.length == 0 {
        Reaction::TakeConfiguration(setup.value as u8)
    } else {
        Reaction::Refuse
    }
}

/// The endpoint that a CLEAR_FEATURE or SET_FEATURE of ENDPOINT_HALT names, if it is served.
fn endpoint_of(spec: &DeviceSpec, registers: &Registers, setup: &Setup) -> Option<ServedEndpoint>
    ensures { result ≡ endpoint_of spec.now registers.now setup.now }
{
    if setup.value == ENDPOINT_HALT && setup.length == 0 {
        served(spec, registers, setup.index)
    } else {
        None
    }
}

fn halt(endpoint: Option<ServedEndpoint>) -> Reaction
    ensures { (s : Spec) → meaning_of s result ≡ on_endpoint halts endpoint }
{
    match endpoint {
        Some(endpoint) => Reaction::Halt(endpoint),
        None => Reaction::Refuse,
    }
}

fn unhalt(endpoint: Option<ServedEndpoint>) -> Reaction
    ensures { (s : Spec) → meaning_of s result ≡ on_endpoint unhalts endpoint }
{
    match endpoint {
        Some(endpoint) => Reaction::Unhalt(endpoint),
        None => Reaction::Refuse,
    }
}

/// Whether wIndex names endpoint 0, with either direction (9.3.4).
fn is_endpoint_0(index: u16) -> bool
    ensures { result ≡ is_endpoint_0 index }
{
    index == 0 || index == u16::from(DIRECTION_IN)
}

fn told_halt(endpoint: Option<ServedEndpoint>) -> Reaction
    ensures { (s : Spec) → meaning_of s result ≡ told_halt endpoint }
{
    match endpoint {
        Some(endpoint) => Reaction::TellHalt(Some(endpoint)),
        None => Reaction::Refuse,
    }
}

fn get_endpoint_status(spec: &DeviceSpec, registers: &Registers, setup: &Setup) -> Reaction
    ensures { (s : Spec) → meaning_of s result
        ≡ asked_endpoint_status spec.now registers.now setup.now }
{
    if setup.value != 0 {
        Reaction::Refuse
    } else if is_endpoint_0(setup.index) {
        Reaction::TellHalt(None)
    } else {
        told_halt(served(spec, registers, setup.index))
    }
}

/// Whether the configuration has the interface that wIndex names.
fn has_interface(spec: &DeviceSpec, registers: &Registers, index: u16) -> bool
    ensures value { result ≡ has_interface index (items_at spec.now registers.now) }
    ensures bound { result ≡ true → index < 256 }
{
    match config_at(spec, registers) {
        Some(config) => config.has_interface(index),
        None => false,
    }
}

/// Whether it has that interface with the setting that wValue names.
fn has_setting(spec: &DeviceSpec, registers: &Registers, setup: &Setup) -> bool
    ensures value { result
        ≡ has_setting setup.now.index setup.now.value (items_at spec.now registers.now) }
    ensures bounds { result ≡ true → (setup.now.index < 256) × (setup.now.value < 256) }
{
    match config_at(spec, registers) {
        Some(config) => config.has_setting(setup.index, setup.value),
        None => false,
    }
}

fn get_interface_status(spec: &DeviceSpec, registers: &Registers, setup: &Setup) -> Reaction
    ensures { (s : Spec) → meaning_of s result
        ≡ asked_interface_status spec.now registers.now setup.now }
{
    if setup.value == 0 && has_interface(spec, registers, setup.index) {
        Reaction::Answer(Source::Flag(false))
    } else {
        Reaction::Refuse
    }
}

fn get_interface(spec: &DeviceSpec, registers: &Registers, setup: &Setup) -> Reaction
    ensures { (s : Spec) → meaning_of s result
        ≡ asked_setting spec.now registers.now setup.now }
{
    if setup.value == 0 && has_interface(spec, registers, setup.index) {
        Reaction::Answer(Source::Byte(registers.settings.get(setup.index as u8)))
    } else {
        Reaction::Refuse
    }
}

fn set_interface(spec: &DeviceSpec, registers: &Registers, setup: &Setup) -> Reaction
    ensures { (s : Spec) → meaning_of s result
        ≡ asked_interface spec.now registers.now setup.now }
{
    if setup.length == 0 && has_setting(spec, registers, setup) {
        Reaction::TakeSetting(setup.index as u8, setup.value as u8)
    } else {
        Reaction::Refuse
    }
}

fn get_hub_descriptor(spec: &DeviceSpec, setup: &Setup) -> Reaction
    ensures { meaning_of spec.now result ≡ asked_hub_descriptor spec.now.hub setup.now }
{
    let [index, kind] = setup.value.to_le_bytes();
    if spec.hub().is_some() && kind == descriptor_type::HUB && index == 0 {
        Reaction::Answer(Source::Hub)
    } else {
        Reaction::Refuse
    }
}

/// The port of a configured hub that wIndex names, counted from 0.
fn port_named(spec: &DeviceSpec, registers: &Registers, index: u16) -> Option<usize>
    ensures { result ≡ port_named spec.now.hub registers.now index }
{
    let ports = u16::from(spec.hub()?.ports());
    if registers.configuration != 0 && (1..=ports).contains(&index) {
        Some(usize::from(index - 1))
    } else {
        None
    }
}

fn get_port_status(spec: &DeviceSpec, registers: &Registers, setup: &Setup) -> Reaction
    ensures { (s : Spec) → meaning_of s result
        ≡ asked_port_status spec.now registers.now setup.now }
{
    match port_named(spec, registers, setup.index) {
        Some(port) => Reaction::TellPort(port),
        None => Reaction::Refuse,
    }
}

fn called_at(call: Option<PortCall>, port: Option<usize>) -> Reaction
    ensures { (s : Spec) → meaning_of s result ≡ called_at call port }
{
    match (call, port) {
        (Some(call), Some(port)) => Reaction::CallPort(call, port),
        (None, _) | (Some(_), None) => Reaction::Refuse,
    }
}

/// A SetPortFeature or ClearPortFeature, whose feature names this call.
fn port_feature(
    call: Option<PortCall>,
    spec: &DeviceSpec,
    registers: &Registers,
    setup: &Setup,
) -> Reaction
    ensures { (s : Spec) → meaning_of s result
        ≡ port_feature call spec.now registers.now setup.now }
{
    if setup.length == 0 {
        called_at(call, port_named(spec, registers, setup.index))
    } else {
        Reaction::Refuse
    }
}

/// What a row of the device's own requests, at a place, does.
fn own_reaction(row: &OwnRequest, place: usize) -> Reaction
    ensures { (s : Spec) → own_bytes s.requests place ≡ bytes_given row.now.answer
        → meaning_of s result ≡ asked_by_answer row.now.answer }
{
    match &row.answer {
        OwnAnswer::RefuseData => Reaction::Refuse,
        OwnAnswer::RefuseStatus => Reaction::Take(false),
        OwnAnswer::Give(_) => Reaction::Answer(Source::Own(place)),
        OwnAnswer::GiveTaken => Reaction::Answer(Source::Taken),
        OwnAnswer::Take => Reaction::Take(true),
    }
}

/// What the row at a place does, if there is one.
fn reaction_at(spec: &DeviceSpec, place: Option<usize>) -> Reaction
    ensures { meaning_of spec.now result ≡ asked_at spec.now.requests place }
{
    let Some(place) = place else {
        return Reaction::Refuse;
    };
    match spec.requests().as_slice().get(place) {
        Some(row) => own_reaction(row, place),
        None => Reaction::Refuse,
    }
}

/// What a configured device does about a request of its own.
fn react_own(spec: &DeviceSpec, registers: &Registers, setup: &Setup) -> Reaction
    ensures { meaning_of spec.now result ≡ asked_own spec.now.requests registers.now setup.now }
{
    if registers.configuration == 0 {
        Reaction::Refuse
    } else {
        reaction_at(spec, spec.requests().place_of(setup))
    }
}

/// What a device with these registers does about a request.
#[tactic(auto, unfolding(usb_device::specs::Request::outcome))]
pub fn react(spec: &DeviceSpec, registers: &Registers, setup: &Setup) -> Reaction
    ensures { meaning_of spec.now result ≡ outcome spec.now registers.now setup.now }
{
    let stalls = spec.stalls();
    match (setup.request_type, setup.request) {
        (DEVICE_IN, GET_DESCRIPTOR) => get_descriptor(spec, setup.value),
        (DEVICE_IN, GET_STATUS) => unless(stalls.status, get_status(setup)),
        (DEVICE_IN, GET_CONFIGURATION) => {
            Reaction::Answer(Source::Byte(registers.configuration))
        }
        (DEVICE_OUT, SET_ADDRESS) => unless(stalls.address, set_address(setup)),
        (DEVICE_OUT, SET_CONFIGURATION) => unless(
            stalls.set_config,
            set_configuration(spec, registers, setup),
        ),
        (INTERFACE_IN, GET_STATUS) => get_interface_status(spec, registers, setup),
        (INTERFACE_IN, GET_INTERFACE) => get_interface(spec, registers, setup),
        (INTERFACE_OUT, SET_INTERFACE) => {
            unless(stalls.interface, set_interface(spec, registers, setup))
        }
        (ENDPOINT_IN, GET_STATUS) => get_endpoint_status(spec, registers, setup),
        (ENDPOINT_OUT, CLEAR_FEATURE) => unhalt(endpoint_of(spec, registers, setup)),
        (ENDPOINT_OUT, SET_FEATURE) => halt(endpoint_of(spec, registers, setup)),
        (HUB_IN, GET_DESCRIPTOR) => unless(stalls.hub, get_hub_descriptor(spec, setup)),
        (PORT_IN, GET_STATUS) => get_port_status(spec, registers, setup),
        (PORT_OUT, SET_FEATURE) => {
            let call = PortCall::of_set(setup.value);
            port_feature(call, spec, registers, setup)
        }
        (PORT_OUT, CLEAR_FEATURE) => {
            let call = PortCall::of_clear(setup.value);
            port_feature(call, spec, registers, setup)
        }
        _ => react_own(spec, registers, setup),
    }
}
