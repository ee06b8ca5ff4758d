//! A maker for each request that the host sends.
ghost use Rattle.std.specs.Prelude.{◌≡◌, ◌≤◌, ◌<◌};
ghost use Rattle.usb_request.specs.Layout.{IsToHost, IsToDevice};
ghost use Rattle.usb_request.specs.Requests.{descriptor_value, get_device_descriptor, get_configuration_descriptor, get_string_descriptor, get_hub_descriptor, get_status, set_address, set_configuration, clear_endpoint_halt, set_interface, get_port_status, set_port_feature, clear_port_feature};

use crate::descriptor_length::HUB_LENGTH;
use crate::request_code::{
    CLEAR_FEATURE, GET_DESCRIPTOR, GET_STATUS, SET_ADDRESS, SET_CONFIGURATION, SET_FEATURE,
    SET_INTERFACE,
};
use crate::request_type::{
    DEVICE_IN, DEVICE_OUT, ENDPOINT_OUT, HUB_IN, INTERFACE_OUT, PORT_IN, PORT_OUT,
};
use crate::{Setup, descriptor_type, feature};

impl Setup {
    /// GET_DESCRIPTOR of the device (9.4.3): its first `length` bytes.
    #[tactic(auto, unfolding(crate::specs::Requests::get_device_descriptor))]
    pub fn get_device_descriptor(length: u16) -> Setup
        ensures setup { result ≡ get_device_descriptor length }
        ensures direction { IsToHost result }
        ensures data_length { result.length ≡ length }
    {
        Setup {
            request_type: DEVICE_IN,
            request: GET_DESCRIPTOR,
            value: descriptor_value(descriptor_type::DEVICE, 0),
            index: 0,
            length,
        }
    }

    /// GET_DESCRIPTOR of a configuration by its index from 0 (9.4.3): the first `length` bytes of
    /// its text.
    #[tactic(auto, unfolding(crate::specs::Requests::get_configuration_descriptor))]
    pub fn get_configuration_descriptor(index: u8, length: u16) -> Setup
        ensures setup { result ≡ get_configuration_descriptor index length }
        ensures direction { IsToHost result }
        ensures data_length { result.length ≡ length }
    {
        Setup {
            request_type: DEVICE_IN,
            request: GET_DESCRIPTOR,
            value: descriptor_value(descriptor_type::CONFIGURATION, index),
            index: 0,
            length,
        }
    }

    /// GET_DESCRIPTOR of a string by its index and its language (9.4.3), as long as one can be.
    /// String 0 holds the languages.
    #[tactic(auto, unfolding(crate::specs::Requests::get_string_descriptor))]
    pub fn get_string_descriptor(index: u8, language: u16) -> Setup
        ensures setup { result ≡ get_string_descriptor index language }
        ensures direction { IsToHost result }
        ensures data_length { result.length ≡ 255 }
    {
        Setup {
            request_type: DEVICE_IN,
            request: GET_DESCRIPTOR,
            value: descriptor_value(descriptor_type::STRING, index),
            index: language,
            length: 255,
        }
    }

    /// GetHubDescriptor (11.24.2.5): the bytes of that of a hub of at most 7 ports.
    #[tactic(auto, unfolding(crate::specs::Requests::get_hub_descriptor))]
    pub fn get_hub_descriptor() -> Setup
        ensures setup { result ≡ get_hub_descriptor }
        ensures direction { IsToHost result }
        ensures data_length { result.length ≡ HUB_LENGTH }
    {
        Setup {
            request_type: HUB_IN,
            request: GET_DESCRIPTOR,
            value: descriptor_value(descriptor_type::HUB, 0),
            index: 0,
            length: HUB_LENGTH as u16,
        }
    }

    /// GET_STATUS of the device (9.4.5): two bytes, bit 0 of the first says whether it powers
    /// itself.
    #[tactic(auto, unfolding(crate::specs::Requests::get_status))]
    pub fn get_status() -> Setup
        ensures setup { result ≡ get_status }
        ensures direction { IsToHost result }
        ensures data_length { result.length ≡ 2 }
    {
        Setup {
            request_type: DEVICE_IN,
            request: GET_STATUS,
            value: 0,
            index: 0,
            length: 2,
        }
    }

    /// SET_ADDRESS (9.4.6): the device's address from the end of the transfer on, 1 to 127.
    #[tactic(auto, unfolding(crate::specs::Requests::set_address))]
    pub fn set_address(address: u8) -> Setup
        requires { (1 ≤ address) × (address < 128) }
        ensures setup { result ≡ set_address address }
        ensures direction { IsToDevice result }
        ensures data_length { result.length ≡ 0 }
    {
        Setup {
            request_type: DEVICE_OUT,
            request: SET_ADDRESS,
            value: u16::from(address),
            index: 0,
            length: 0,
        }
    }

    /// SET_CONFIGURATION (9.4.7) by a bConfigurationValue; 0 sets none.
    #[tactic(auto, unfolding(crate::specs::Requests::set_configuration))]
    pub fn set_configuration(configuration: u8) -> Setup
        ensures setup { result ≡ set_configuration configuration }
        ensures direction { IsToDevice result }
        ensures data_length { result.length ≡ 0 }
    {
        Setup {
            request_type: DEVICE_OUT,
            request: SET_CONFIGURATION,
            value: u16::from(configuration),
            index: 0,
            length: 0,
        }
    }

    /// CLEAR_FEATURE(ENDPOINT_HALT) (9.4.1) of an endpoint by its address: bit 7 is set for IN,
    /// bits 3 to 0 are its number.
    #[tactic(auto, unfolding(crate::specs::Requests::clear_endpoint_halt))]
    pub fn clear_endpoint_halt(endpoint: u8) -> Setup
        ensures setup { result ≡ clear_endpoint_halt endpoint }
        ensures direction { IsToDevice result }
        ensures data_length { result.length ≡ 0 }
    {
        Setup {
            request_type: ENDPOINT_OUT,
            request: CLEAR_FEATURE,
            value: feature::ENDPOINT_HALT,
            index: u16::from(endpoint),
            length: 0,
        }
    }

    /// SET_INTERFACE (9.4.10): chooses an alternate setting of an interface.
    #[tactic(auto, unfolding(crate::specs::Requests::set_interface))]
    pub fn set_interface(interface: u8, setting: u8) -> Setup
        ensures setup { result ≡ set_interface interface setting }
        ensures direction { IsToDevice result }
        ensures data_length { result.length ≡ 0 }
    {
        Setup {
            request_type: INTERFACE_OUT,
            request: SET_INTERFACE,
            value: u16::from(setting),
            index: u16::from(interface),
            length: 0,
        }
    }

    /// GetPortStatus (11.24.2.7) of a hub's port: four bytes, wPortStatus and wPortChange.
    #[tactic(auto, unfolding(crate::specs::Requests::get_port_status))]
    pub fn get_port_status(port: u8) -> Setup
        ensures setup { result ≡ get_port_status port }
        ensures direction { IsToHost result }
        ensures data_length { result.length ≡ 4 }
    {
        Setup {
            request_type: PORT_IN,
            request: GET_STATUS,
            value: 0,
            index: u16::from(port),
            length: 4,
        }
    }

    /// SetPortFeature (11.24.2.13) of a hub's port.
    #[tactic(auto, unfolding(crate::specs::Requests::set_port_feature))]
    pub fn set_port_feature(feature: u16, port: u8) -> Setup
        ensures setup { result ≡ set_port_feature feature port }
        ensures direction { IsToDevice result }
        ensures data_length { result.length ≡ 0 }
    {
        Setup {
            request_type: PORT_OUT,
            request: SET_FEATURE,
            value: feature,
            index: u16::from(port),
            length: 0,
        }
    }

    /// ClearPortFeature (11.24.2.2) of a hub's port.
    #[tactic(auto, unfolding(crate::specs::Requests::clear_port_feature, crate::specs::Requests::set_port_feature))]
    pub fn clear_port_feature(feature: u16, port: u8) -> Setup
        ensures setup { result ≡ clear_port_feature feature port }
        ensures direction { IsToDevice result }
        ensures data_length { result.length ≡ 0 }
    {
        let set = Setup::set_port_feature(feature, port);
        Setup {
            request: CLEAR_FEATURE,
            ..set
        }
    }
}

/// wValue of GET_DESCRIPTOR: the descriptor's type in the high byte, its index in the low one.
fn descriptor_value(descriptor_type: u8, index: u8) -> u16
    ensures { result ≡ descriptor_value descriptor_type index }
{
    u16::from_le_bytes([index, descriptor_type])
}
