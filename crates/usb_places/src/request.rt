//! The names of requests in a plan, and which setup data they mean.

ghost use Rattle.std.specs.Prelude.{◌≡◌};
ghost use Rattle.usb_places.specs.Requests.{feature_request, is_asked, is_of_port, is_request, port_request, reads_by, request_named, same_setup, writes_by};

use crate::fault::WhenFault;
use usb_request::Setup;
use usb_request::feature::{C_PORT_CONNECTION, PORT_POWER, PORT_RESET};
use usb_request::request_code::{
    CLEAR_FEATURE, GET_DESCRIPTOR, GET_STATUS, SET_ADDRESS, SET_CONFIGURATION, SET_FEATURE,
    SET_INTERFACE,
};
use usb_request::request_type::{DEVICE_IN, ENDPOINT_IN, ENDPOINT_OUT, PORT_IN, PORT_OUT};

/// A name of requests.
#[derive(Clone, Copy, Debug, PartialEq, Eq)]
pub enum Request {
    /// GET_STATUS of a device, an interface or an endpoint (9.4.5).
    GetStatus,
    /// CLEAR_FEATURE of one of these (9.4.1).
    ClearFeature,
    /// SET_FEATURE of one of these (9.4.9).
    SetFeature,
    /// SET_ADDRESS (9.4.6).
    SetAddress,
    /// GET_DESCRIPTOR (9.4.3).
    GetDescriptor,
    /// SET_CONFIGURATION (9.4.7).
    SetConfiguration,
    /// SET_INTERFACE (9.4.10).
    SetInterface,
    /// GetPortStatus (11.24.2.7).
    GetPortStatus,
    /// ClearPortFeature (11.24.2.2).
    ClearPortFeature,
    /// SetPortFeature (11.24.2.13).
    SetPortFeature,
    /// SetPortFeature of PORT_RESET.
    PortReset,
    /// SetPortFeature of PORT_POWER.
    PortPower,
    /// ClearPortFeature of C_PORT_CONNECTION.
    ClearConnection,
}

/// The request that a text names.
#[tactic(auto, unfolding(crate::specs::Requests::request_named))]
pub(crate) fn request_named(text: &str) -> Result<Request, WhenFault>
    ensures { result ≡ request_named text.now }
{
    match text {
        "get_status" => Ok(Request::GetStatus),
        "clear_feature" => Ok(Request::ClearFeature),
        "set_feature" => Ok(Request::SetFeature),
        "set_address" => Ok(Request::SetAddress),
        "get_descriptor" => Ok(Request::GetDescriptor),
        "set_configuration" => Ok(Request::SetConfiguration),
        "set_interface" => Ok(Request::SetInterface),
        "get_port_status" => Ok(Request::GetPortStatus),
        "clear_port_feature" => Ok(Request::ClearPortFeature),
        "set_port_feature" => Ok(Request::SetPortFeature),
        "port_reset" => Ok(Request::PortReset),
        "port_power" => Ok(Request::PortPower),
        "clear_connection" => Ok(Request::ClearConnection),
        _ => Err(WhenFault::Request),
    }
}

impl Request {
    /// Whether it is to a port of a hub.
    pub(crate) fn is_of_port(self) -> bool
        ensures { result ≡ is_of_port self }
    {
        match self {
            Request::GetPortStatus
            | Request::ClearPortFeature
            | Request::SetPortFeature
            | Request::PortReset
            | Request::PortPower
            | Request::ClearConnection => true,
            Request::GetStatus
            | Request::ClearFeature
            | Request::SetFeature
            | Request::SetAddress
            | Request::GetDescriptor
            | Request::SetConfiguration
            | Request::SetInterface => false,
        }
    }
}

/// Whether it is a request of the standard that reads, with this code (9.3.1).
fn reads_by(code: u8, setup: Setup) -> bool
    ensures { result ≡ reads_by code setup }
{
    DEVICE_IN <= setup.request_type && setup.request_type <= ENDPOINT_IN && setup.request == code
}

/// Whether it is a request of the standard that writes, with this code (9.3.1).
fn writes_by(code: u8, setup: Setup) -> bool
    ensures { result ≡ writes_by code setup }
{
    setup.request_type <= ENDPOINT_OUT && setup.request == code
}

/// Whether it is a request to a port of a hub, of this type and with this code (11.24.2).
fn port_request(request_type: u8, code: u8, port: u8, setup: Setup) -> bool
    ensures { result ≡ port_request request_type code port setup }
{
    setup.request_type == request_type && setup.request == code && setup.index == u16::from(port)
}

/// Whether it sets or clears this feature of a port of a hub.
fn feature_request(code: u8, feature: u16, port: u8, setup: Setup) -> bool
    ensures { result ≡ feature_request code feature port setup }
{
    port_request(PORT_OUT, code, port, setup) && setup.value == feature
}

/// Whether the setup data are a request of that name, of a port to this one.
#[tactic(auto, unfolding(crate::specs::Requests::is_request))]
fn is_request(request: Request, port: u8, setup: Setup) -> bool
    ensures { result ≡ is_request request port setup }
{
    match request {
        Request::GetStatus => reads_by(GET_STATUS, setup),
        Request::ClearFeature => writes_by(CLEAR_FEATURE, setup),
        Request::SetFeature => writes_by(SET_FEATURE, setup),
        Request::SetAddress => writes_by(SET_ADDRESS, setup),
        Request::GetDescriptor => reads_by(GET_DESCRIPTOR, setup),
        Request::SetConfiguration => writes_by(SET_CONFIGURATION, setup),
        Request::SetInterface => writes_by(SET_INTERFACE, setup),
        Request::GetPortStatus => port_request(PORT_IN, GET_STATUS, port, setup),
        Request::ClearPortFeature => port_request(PORT_OUT, CLEAR_FEATURE, port, setup),
        Request::SetPortFeature => port_request(PORT_OUT, SET_FEATURE, port, setup),
        Request::PortReset => feature_request(SET_FEATURE, PORT_RESET, port, setup),
        Request::PortPower => feature_request(SET_FEATURE, PORT_POWER, port, setup),
        Request::ClearConnection => feature_request(CLEAR_FEATURE, C_PORT_CONNECTION, port, setup),
    }
}

/// Whether all fields are alike.
pub(crate) fn same_setup(one: Setup, other: Setup) -> bool
    ensures { result ≡ same_setup one other }
{
    one.request_type == other.request_type
        && one.request == other.request
        && one.value == other.value
        && one.index == other.index
        && one.length == other.length
}

/// Which requests are counted.
#[derive(Clone, Copy, Debug, PartialEq, Eq)]
pub enum Asked {
    /// Those of a name; those to a port of a hub only if they are to this port.
    Named(Request, u8),
    /// Those with these setup data.
    Exact(Setup),
}

/// Whether a request with these setup data is counted.
pub(crate) fn is_asked(asked: Asked, setup: Setup) -> bool
    ensures { result ≡ is_asked asked setup }
{
    match asked {
        Asked::Named(request, port) => is_request(request, port, setup),
        Asked::Exact(exact) => same_setup(exact, setup),
    }
}
