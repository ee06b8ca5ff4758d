//! Requests with the bytes that go over the bus.
use usb_request::feature::{C_PORT_CONNECTION, C_PORT_RESET, PORT_ENABLE, PORT_POWER, PORT_RESET};
use usb_request::{Setup, request_code, request_type};

/// A maker and what it is given.
#[derive(Clone, Copy)]
enum Maker {
    DeviceDescriptor { length: u16 },
    ConfigurationDescriptor { index: u8, length: u16 },
    StringDescriptor { index: u8, language: u16 },
    HubDescriptor,
    Status,
    Address(u8),
    Configuration(u8),
    ClearHalt { endpoint: u8 },
    PortStatus { port: u8 },
    SetFeature { feature: u16, port: u8 },
    ClearFeature { feature: u16, port: u8 },
    /// The fields themselves.
    Fields(Setup),
}

struct Row {
    maker: Maker,
    bytes: [u8; 8],
}

const REQUESTS: &[Row] = &[
    Row {
        maker: Maker::DeviceDescriptor { length: 8 },
        bytes: [0x80, 6, 0, 1, 0, 0, 8, 0],
    },
    Row {
        maker: Maker::ConfigurationDescriptor {
            index: 0,
            length: 18,
        },
        bytes: [0x80, 6, 0, 2, 0, 0, 0x12, 0],
    },
    Row {
        maker: Maker::StringDescriptor {
            index: 1,
            language: 0x0409,
        },
        bytes: [0x80, 6, 1, 3, 9, 4, 0xff, 0],
    },
    Row {
        maker: Maker::HubDescriptor,
        bytes: [0xa0, 6, 0, 0x29, 0, 0, 9, 0],
    },
    Row {
        maker: Maker::Status,
        bytes: [0x80, 0, 0, 0, 0, 0, 2, 0],
    },
    Row {
        maker: Maker::Address(1),
        bytes: [0, 5, 1, 0, 0, 0, 0, 0],
    },
    Row {
        maker: Maker::Configuration(1),
        bytes: [0, 9, 1, 0, 0, 0, 0, 0],
    },
    Row {
        maker: Maker::ClearHalt { endpoint: 2 },
        bytes: [2, 1, 0, 0, 2, 0, 0, 0],
    },
    Row {
        maker: Maker::PortStatus { port: 1 },
        bytes: [0xa3, 0, 0, 0, 1, 0, 4, 0],
    },
    Row {
        maker: Maker::SetFeature {
            feature: PORT_RESET,
            port: 1,
        },
        bytes: [0x23, 3, 4, 0, 1, 0, 0, 0],
    },
    Row {
        maker: Maker::SetFeature {
            feature: PORT_POWER,
            port: 2,
        },
        bytes: [0x23, 3, 8, 0, 2, 0, 0, 0],
    },
    Row {
        maker: Maker::ClearFeature {
            feature: PORT_ENABLE,
            port: 2,
        },
        bytes: [0x23, 1, 1, 0, 2, 0, 0, 0],
    },
    Row {
        maker: Maker::ClearFeature {
            feature: C_PORT_CONNECTION,
            port: 1,
        },
        bytes: [0x23, 1, 0x10, 0, 1, 0, 0, 0],
    },
    Row {
        maker: Maker::ClearFeature {
            feature: C_PORT_RESET,
            port: 1,
        },
        bytes: [0x23, 1, 0x14, 0, 1, 0, 0, 0],
    },
    // each field of two bytes with two that differ
    Row {
        maker: Maker::Fields(Setup {
            request_type: request_type::DEVICE_IN,
            request: request_code::GET_DESCRIPTOR,
            value: 0x0301,
            index: 0x0409,
            length: 0x02ff,
        }),
        bytes: [0x80, 6, 1, 3, 9, 4, 0xff, 2],
    },
];

/// The request, None for an address that no device has.
fn made(maker: Maker) -> Option<Setup> {
    Some(match maker {
        Maker::DeviceDescriptor { length } => Setup::get_device_descriptor(length),
        Maker::ConfigurationDescriptor { index, length } => {
            Setup::get_configuration_descriptor(index, length)
        }
        Maker::StringDescriptor { index, language } => Setup::get_string_descriptor(
            index, language,
        ),
        Maker::HubDescriptor => Setup::get_hub_descriptor(),
        Maker::Status => Setup::get_status(),
        Maker::Address(address) if address >= 1 && address < 128 => Setup::set_address(address),
        Maker::Address(_) => return None,
        Maker::Configuration(configuration) => Setup::set_configuration(configuration),
        Maker::ClearHalt { endpoint } => Setup::clear_endpoint_halt(endpoint),
        Maker::PortStatus { port } => Setup::get_port_status(port),
        Maker::SetFeature { feature, port } => Setup::set_port_feature(feature, port),
        Maker::ClearFeature { feature, port } => Setup::clear_port_feature(feature, port),
        Maker::Fields(setup) => setup,
    })
}

#[test]
fn requests_as_they_go_over_the_bus(rt: HostRuntime) {
    for row in REQUESTS {
        let read = Setup::from_bytes(row.bytes);
        let told = (made(row.maker), read.to_bytes());
        assert_eq!(rt; told, (Some(read), row.bytes), "{:?}", row.bytes);
    }
}

/// Whether a request is reserved to a function, and to a hub.
struct ReservedRow {
    bytes: [u8; 8],
    to_function: bool,
    to_hub: bool,
}

const RESERVED: &[ReservedRow] = &[
    ReservedRow {
        bytes: [0, 5, 1, 0, 0, 0, 0, 0],
        to_function: true,
        to_hub: true,
    },
    ReservedRow {
        bytes: [0, 9, 1, 0, 0, 0, 0, 0],
        to_function: true,
        to_hub: true,
    },
    ReservedRow {
        bytes: [1, 11, 1, 0, 0, 0, 0, 0],
        to_function: true,
        to_hub: true,
    },
    // CLEAR_FEATURE and SET_FEATURE of ENDPOINT_HALT, and CLEAR_FEATURE of another feature
    ReservedRow {
        bytes: [2, 1, 0, 0, 0x81, 0, 0, 0],
        to_function: true,
        to_hub: true,
    },
    ReservedRow {
        bytes: [2, 3, 0, 0, 0x81, 0, 0, 0],
        to_function: false,
        to_hub: true,
    },
    ReservedRow {
        bytes: [2, 1, 1, 0, 0x81, 0, 0, 0],
        to_function: false,
        to_hub: true,
    },
    ReservedRow {
        bytes: [0x23, 1, 16, 0, 1, 0, 0, 0],
        to_function: true,
        to_hub: true,
    },
    ReservedRow {
        bytes: [0x23, 3, 4, 0, 1, 0, 0, 0],
        to_function: true,
        to_hub: true,
    },
    ReservedRow {
        bytes: [0x23, 2, 4, 0, 1, 0, 0, 0],
        to_function: false,
        to_hub: true,
    },
    // SET_IDLE, and reads
    ReservedRow {
        bytes: [0x21, 10, 0, 0, 0, 0, 0, 0],
        to_function: false,
        to_hub: true,
    },
    ReservedRow {
        bytes: [0xa3, 0, 0, 0, 1, 0, 4, 0],
        to_function: false,
        to_hub: false,
    },
    ReservedRow {
        bytes: [0x80, 5, 0, 0, 0, 0, 1, 0],
        to_function: false,
        to_hub: false,
    },
];

#[test]
fn requests_of_the_host_alone(rt: HostRuntime) {
    for row in RESERVED {
        let setup = Setup::from_bytes(row.bytes);
        let is = (setup.is_reserved(false), setup.is_reserved(true));
        assert_eq!(rt; is, (row.to_function, row.to_hub), "{:?}", row.bytes);
    }
}
