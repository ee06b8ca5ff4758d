//! Descriptors read: what each reader reports of bytes, the first fault among it, and the items and
//! the usable endpoints of a configuration.
use arrayvec::ArrayVec;
use usb_descriptor::DescriptorFault::{
    Length, MaxPacket, NoConfiguration, Short, Total, WrongType,
};
use usb_descriptor::EndpointKind::{Bulk, Interrupt};
use usb_descriptor::{
    DescriptorFault, EndpointKind, EndpointView, InterfaceView, Item, Settings, TransferType,
    config_head, device_head, read_config, read_device, read_hub, read_string,
};

const DEVICE: &[u8] = &[
    0x12, 0x01, 0x00, 0x01, 0x00, 0x00, 0x00, 0x40, 0x34, 0x12, 0x78, 0x56, 0x00, 0x01, 0x00, 0x01,
    0x00, 0x01,
];

/// A configuration with one interface, a bulk OUT and a bulk IN endpoint.
const BULK: &[u8] = &[
    0x09, 0x02, 0x20, 0x00, 0x01, 0x01, 0x00, 0x80, 0x32, 0x09, 0x04, 0x00, 0x00, 0x02, 0xff, 0x00,
    0x00, 0x00, 0x07, 0x05, 0x02, 0x02, 0x40, 0x00, 0x00, 0x07, 0x05, 0x82, 0x02, 0x40, 0x00, 0x00,
];

/// The same, with the interface of another alternate setting.
const BULK_OTHER: &[u8] = &[
    0x09, 0x02, 0x20, 0x00, 0x01, 0x01, 0x00, 0x80, 0x32, 0x09, 0x04, 0x00, 0x01, 0x02, 0xff, 0x00,
    0x00, 0x00, 0x07, 0x05, 0x02, 0x02, 0x40, 0x00, 0x00, 0x07, 0x05, 0x82, 0x02, 0x40, 0x00, 0x00,
];

/// A hub's configuration.
const HUB: &[u8] = &[
    0x09, 0x02, 0x19, 0x00, 0x01, 0x01, 0x00, 0xc0, 0x00, 0x09, 0x04, 0x00, 0x00, 0x01, 0x09, 0x00,
    0x00, 0x00, 0x07, 0x05, 0x81, 0x03, 0x01, 0x00, 0xff,
];

/// The same, with the endpoint of another number.
const HUB_AT_2: &[u8] = &[
    0x09, 0x02, 0x19, 0x00, 0x01, 0x01, 0x00, 0xc0, 0x00, 0x09, 0x04, 0x00, 0x00, 0x01, 0x09, 0x00,
    0x00, 0x00, 0x07, 0x05, 0x82, 0x03, 0x02, 0x00, 0xff,
];

/// The same, before endpoint 1.
const HUB_AT_BOTH: &[u8] = &[
    0x09, 0x02, 0x20, 0x00, 0x01, 0x01, 0x00, 0xc0, 0x00, 0x09, 0x04, 0x00, 0x00, 0x01, 0x09, 0x00,
    0x00, 0x00, 0x07, 0x05, 0x82, 0x03, 0x02, 0x00, 0xff, 0x07, 0x05, 0x81, 0x03, 0x01, 0x00, 0xff,
];

/// A configuration of a hub whose endpoints are, in order: interrupt IN 0, interrupt OUT 3, bulk IN 4,
/// interrupt IN 5 with 65 bytes, and the same with no bytes; in another setting interrupt IN 7.
const NO_STATUS: &[u8] = &[
    9, 2, 0x45, 0, 1, 1, 0, 0xc0, 0, 9, 4, 0, 0, 5, 9, 0, 0, 0, 7, 5, 0x80, 3, 2, 0, 0xff, 7, 5, 3,
    3, 2, 0, 0xff, 7, 5, 0x84, 2, 8, 0, 0, 7, 5, 0x85, 3, 0x41, 0, 0xff, 7, 5, 0x86, 3, 0, 0, 0xff,
    9, 4, 0, 1, 1, 9, 0, 0, 0, 7, 5, 0x87, 3, 2, 0, 0xff,
];

/// Two endpoints that may report a hub's changes, the first with reserved bits of bEndpointAddress, and
/// with more than the size in wMaxPacketSize.
const TWO_STATUS: &[u8] = &[
    9, 2, 0x20, 0, 1, 1, 0, 0xc0, 0, 9, 4, 0, 0, 2, 9, 0, 0, 0, 7, 5, 0xff, 3, 0x40, 8, 0xff, 7, 5,
    0x82, 3, 2, 0, 0xff,
];

/// The descriptor of a hub of ten ports (11.23.2.1): DeviceRemovable and PortPwrCtrlMask have two bytes.
const TEN_PORTS: &[u8] = &[11, 0x29, 10, 9, 0, 50, 100, 2, 4, 0xff, 0xff];

/// A configuration with one item, neither an interface nor an endpoint.
const OTHER: &[u8] = &[9, 2, 12, 0, 0, 1, 0, 0, 0, 3, 0x24, 7];

/// A configuration with two interfaces. Interface 0 has two settings: with interrupt IN endpoint 1,
/// and with bulk IN endpoint 1 and bulk OUT endpoint 2. Interface 1 has interrupt IN endpoint 3.
const SETTINGS: &[u8] = &[
    9, 2, 0x40, 0, 2, 1, 0, 0x80, 0x32, 9, 4, 0, 0, 1, 0xff, 0, 0, 0, 7, 5, 0x81, 3, 8, 0, 1, 9, 4,
    0, 1, 2, 0xff, 0, 0, 0, 7, 5, 0x81, 2, 0x40, 0, 0, 7, 5, 2, 2, 0x40, 0, 0, 9, 4, 1, 0, 1, 0xff,
    0, 0, 0, 7, 5, 0x83, 3, 8, 0, 1,
];

/// A configuration with three interfaces. IN endpoint 1 is in setting 0 of interface 0 and in
/// setting 1 of interface 1; OUT endpoint 1 is in interface 2.
const SHARED: &[u8] = &[
    9, 2, 0x42, 0, 3, 1, 0, 0x80, 0x32, 9, 4, 0, 0, 1, 0xff, 0, 0, 0, 7, 5, 0x81, 3, 8, 0, 1, 9, 4,
    1, 0, 0, 0xff, 0, 0, 0, 9, 4, 1, 1, 1, 0xff, 0, 0, 0, 7, 5, 0x81, 3, 8, 0, 1, 9, 4, 2, 0, 1,
    0xff, 0, 0, 0, 7, 5, 1, 2, 0x40, 0, 0,
];

/// Numbers that a reader reports.
type Numbers = ArrayVec<u16, 14>;

/// The numbers as a list, empty if they are more than it holds.
fn list(numbers: &[u16]) -> Numbers {
    let mut list = ArrayVec::new();
    let _ = list.try_extend_from_slice(numbers);
    list
}

/// What is read of bytes.
#[derive(Clone, Copy, Debug)]
enum Reader {
    /// The maximum packet in the head of a low-speed device.
    LowDeviceHead,
    /// The same of a full-speed device.
    DeviceHead,
    /// The fields of a full-speed device, in the order of its bytes.
    Device,
    /// The total length in the head of a configuration.
    ConfigHead,
    /// The fields of a configuration, in the order of its bytes.
    Config,
    /// The number and the maximum packet of the endpoint of a configuration, if there is one.
    BulkOut,
    BulkIn,
    StatusEndpoint,
    /// The same for a host that takes endpoints of any number.
    AnyStatusEndpoint,
    /// 1 if the interface can be given the alternate setting, else 0.
    Settable(u8, u8),
    /// 1 if some setting of the interface has the endpoint with this number, else 0.
    NamesOut(u8, u8),
    NamesIn(u8, u8),
    /// The fields of a hub of up to seven ports, in the order of its bytes.
    Hub,
    /// The same of one of up to fifteen ports, but for PortPwrCtrlMask of more than seven.
    WideHub,
    /// The length and the type of a string, and its units.
    Units,
    /// The first language of a string, if there is one.
    FirstLanguage,
}

fn device_max(bytes: &[u8], low: bool) -> Result<Numbers, DescriptorFault> {
    Ok(list(&[u16::from(device_head(bytes, low)?)]))
}

fn device_fields(bytes: &[u8]) -> Result<Numbers, DescriptorFault> {
    let device = read_device(bytes, false)?;
    Ok(list(&[
        u16::from(device.length()),
        u16::from(device.descriptor_type()),
        device.usb_release(),
        u16::from(device.class()),
        u16::from(device.subclass()),
        u16::from(device.protocol()),
        u16::from(device.max_packet()),
        device.vendor_id(),
        device.product_id(),
        device.device_release(),
        u16::from(device.manufacturer_index()),
        u16::from(device.product_index()),
        u16::from(device.serial_index()),
        u16::from(device.configurations()),
    ]))
}

fn config_total(bytes: &[u8]) -> Result<Numbers, DescriptorFault> {
    Ok(list(&[config_head(bytes)?]))
}

fn config_fields(bytes: &[u8]) -> Result<Numbers, DescriptorFault> {
    let config = read_config(bytes)?;
    Ok(list(&[
        u16::from(config.length()),
        u16::from(config.descriptor_type()),
        config.total_length(),
        u16::from(config.interfaces()),
        u16::from(config.value()),
        u16::from(config.string_index()),
        u16::from(config.attributes()),
        u16::from(config.max_power()),
    ]))
}

fn endpoint_of(reader: Reader, bytes: &[u8]) -> Result<Numbers, DescriptorFault> {
    let config = read_config(bytes)?;
    let found = match reader {
        Reader::BulkOut => config.bulk_out(),
        Reader::BulkIn => config.bulk_in(),
        Reader::AnyStatusEndpoint => config.status_endpoint(true),
        _ => config.status_endpoint(false),
    };
    Ok(match found {
        Some((number, max)) => list(&[u16::from(number), u16::from(max)]),
        None => list(&[]),
    })
}

fn interface_of(reader: Reader, bytes: &[u8]) -> Result<Numbers, DescriptorFault> {
    let config = read_config(bytes)?;
    let told = match reader {
        Reader::Settable(interface, setting) => config.is_settable(interface, setting),
        Reader::NamesOut(interface, number) => config.names(interface, number, false),
        Reader::NamesIn(interface, number) => config.names(interface, number, true),
        _ => false,
    };
    Ok(list(&[u16::from(told)]))
}

fn hub_fields(bytes: &[u8], wide: bool) -> Result<Numbers, DescriptorFault> {
    let hub = read_hub(bytes, wide)?;
    let mut fields = list(&[
        u16::from(hub.length()),
        u16::from(hub.descriptor_type()),
        u16::from(hub.ports()),
        hub.characteristics(),
        u16::from(hub.power_on_time()),
        u16::from(hub.controller_current()),
        hub.removable(),
    ]);
    if let Some(mask) = hub.power_mask() {
        let _ = fields.try_push(u16::from(mask));
    }
    Ok(fields)
}

fn string_units(bytes: &[u8]) -> Result<Numbers, DescriptorFault> {
    let text = read_string(bytes)?;
    let mut numbers = list(&[u16::from(text.length()), u16::from(text.descriptor_type())]);
    for unit in text.units() {
        let _ = numbers.try_push(unit);
    }
    Ok(numbers)
}

fn first_language(bytes: &[u8]) -> Result<Numbers, DescriptorFault> {
    Ok(match read_string(bytes)?.first_language() {
        Some(language) => list(&[language]),
        None => list(&[]),
    })
}

fn told_by(reader: Reader, bytes: &[u8]) -> Result<Numbers, DescriptorFault> {
    match reader {
        Reader::LowDeviceHead => device_max(bytes, true),
        Reader::DeviceHead => device_max(bytes, false),
        Reader::Device => device_fields(bytes),
        Reader::ConfigHead => config_total(bytes),
        Reader::Config => config_fields(bytes),
        Reader::BulkOut | Reader::BulkIn | Reader::StatusEndpoint | Reader::AnyStatusEndpoint =>
            endpoint_of(reader, bytes),
        Reader::Settable(..) | Reader::NamesOut(..) | Reader::NamesIn(..) => {
            interface_of(reader, bytes)
        }
        Reader::Hub => hub_fields(bytes, false),
        Reader::WideHub => hub_fields(bytes, true),
        Reader::Units => string_units(bytes),
        Reader::FirstLanguage => first_language(bytes),
    }
}

/// Bytes, and what the reader reports of them: numbers, or the first fault.
const READINGS: &[(Reader, &[u8], Result<&[u16], DescriptorFault>)] = &[
    (
        Reader::DeviceHead,
        &[0x12, 1, 0, 1, 0, 0, 0, 0x40],
        Ok(&[64]),
    ),
    (
        Reader::Device,
        DEVICE,
        Ok(&[18, 1, 0x100, 0, 0, 0, 64, 0x1234, 0x5678, 0x100, 0, 1, 0, 1]),
    ),
    (
        Reader::ConfigHead,
        &[9, 2, 0x20, 0, 1, 1, 0, 0x80, 0x32],
        Ok(&[32]),
    ),
    (Reader::Config, BULK, Ok(&[9, 2, 32, 1, 1, 0, 0x80, 0x32])),
    (Reader::BulkOut, BULK, Ok(&[2, 64])),
    (Reader::BulkIn, BULK, Ok(&[2, 64])),
    (Reader::StatusEndpoint, BULK, Ok(&[])),
    (Reader::BulkOut, HUB, Ok(&[])),
    (Reader::BulkIn, HUB, Ok(&[])),
    (Reader::StatusEndpoint, HUB, Ok(&[1, 1])),
    // endpoint 1 reports the changes, and without it, if the host takes any, the first that may (11.12.1)
    (Reader::AnyStatusEndpoint, BULK, Ok(&[])),
    (Reader::AnyStatusEndpoint, HUB, Ok(&[1, 1])),
    (Reader::StatusEndpoint, HUB_AT_2, Ok(&[])),
    (Reader::AnyStatusEndpoint, HUB_AT_2, Ok(&[2, 2])),
    (Reader::StatusEndpoint, HUB_AT_BOTH, Ok(&[1, 1])),
    (Reader::AnyStatusEndpoint, HUB_AT_BOTH, Ok(&[1, 1])),
    (Reader::AnyStatusEndpoint, NO_STATUS, Ok(&[])),
    (Reader::StatusEndpoint, TWO_STATUS, Ok(&[])),
    (Reader::AnyStatusEndpoint, TWO_STATUS, Ok(&[15, 64])),
    // endpoints of another alternate setting do not count
    (Reader::BulkOut, BULK_OTHER, Ok(&[])),
    (Reader::BulkIn, BULK_OTHER, Ok(&[])),
    // an interface has the settings that its items have
    (Reader::Settable(0, 0), SETTINGS, Ok(&[1])),
    (Reader::Settable(0, 1), SETTINGS, Ok(&[1])),
    (Reader::Settable(0, 2), SETTINGS, Ok(&[0])),
    (Reader::Settable(1, 0), SETTINGS, Ok(&[1])),
    (Reader::Settable(1, 1), SETTINGS, Ok(&[0])),
    (Reader::Settable(2, 0), SETTINGS, Ok(&[0])),
    (Reader::Settable(0, 0), BULK_OTHER, Ok(&[0])),
    // two interfaces cannot share an endpoint (9.2.3); a number and a direction are one
    (Reader::Settable(0, 0), SHARED, Ok(&[0])),
    (Reader::Settable(1, 0), SHARED, Ok(&[0])),
    (Reader::Settable(1, 1), SHARED, Ok(&[0])),
    (Reader::Settable(2, 0), SHARED, Ok(&[1])),
    // the endpoints of all settings of an interface are its own
    (Reader::NamesIn(0, 1), SETTINGS, Ok(&[1])),
    (Reader::NamesOut(0, 1), SETTINGS, Ok(&[0])),
    (Reader::NamesOut(0, 2), SETTINGS, Ok(&[1])),
    (Reader::NamesIn(0, 2), SETTINGS, Ok(&[0])),
    (Reader::NamesIn(0, 3), SETTINGS, Ok(&[0])),
    (Reader::NamesIn(1, 3), SETTINGS, Ok(&[1])),
    (Reader::NamesIn(1, 1), SETTINGS, Ok(&[0])),
    (Reader::NamesIn(1, 1), SHARED, Ok(&[1])),
    (
        Reader::Hub,
        &[9, 0x29, 2, 1, 0, 0, 0, 0, 0xff],
        Ok(&[9, 0x29, 2, 1, 0, 0, 0, 0xff]),
    ),
    (
        Reader::WideHub,
        &[9, 0x29, 2, 1, 0, 0, 0, 0, 0xff],
        Ok(&[9, 0x29, 2, 1, 0, 0, 0, 0xff]),
    ),
    (
        Reader::WideHub,
        TEN_PORTS,
        Ok(&[11, 0x29, 10, 9, 50, 100, 0x402]),
    ),
    // the first nine bytes are enough
    (
        Reader::WideHub,
        &[11, 0x29, 8, 0, 0, 0, 0, 0, 1],
        Ok(&[11, 0x29, 8, 0, 0, 0, 0x100]),
    ),
    (
        Reader::WideHub,
        &[11, 0x29, 15, 0, 0, 0, 0, 0, 0x80],
        Ok(&[11, 0x29, 15, 0, 0, 0, 0x8000]),
    ),
    (Reader::FirstLanguage, &[4, 3, 9, 4], Ok(&[0x409])),
    (Reader::FirstLanguage, &[2, 3], Ok(&[])),
    (
        Reader::Units,
        &[8, 3, 0x41, 0, 0x22, 0, 0x0a, 0, 0xff],
        Ok(&[8, 3, 0x41, 0x22, 0x0a]),
    ),
    (Reader::LowDeviceHead, &[0; 7], Err(Short)),
    (Reader::LowDeviceHead, &[0; 8], Err(WrongType)),
    (
        Reader::LowDeviceHead,
        &[0, 1, 0, 0, 0, 0, 0, 0],
        Err(Length),
    ),
    (
        Reader::LowDeviceHead,
        &[18, 1, 0, 0, 0, 0, 0, 0],
        Err(MaxPacket),
    ),
    (
        Reader::LowDeviceHead,
        &[18, 1, 0, 0, 0, 0, 0, 64],
        Err(MaxPacket),
    ),
    (
        Reader::Device,
        &[18, 1, 0, 0, 0, 0, 0, 9, 0, 0, 0, 0, 0, 0, 0, 0, 0],
        Err(Short),
    ),
    (Reader::Device, &[0; 18], Err(WrongType)),
    (
        Reader::Device,
        &[0, 1, 0, 0, 0, 0, 0, 9, 0, 0, 0, 0, 0, 0, 0, 0, 0, 0],
        Err(Length),
    ),
    (
        Reader::Device,
        &[18, 1, 0, 0, 0, 0, 0, 9, 0, 0, 0, 0, 0, 0, 0, 0, 0, 0],
        Err(MaxPacket),
    ),
    (
        Reader::Device,
        &[18, 1, 0, 0, 0, 0, 0, 64, 0, 0, 0, 0, 0, 0, 0, 0, 0, 0],
        Err(NoConfiguration),
    ),
    (Reader::ConfigHead, &[0; 8], Err(Short)),
    (Reader::ConfigHead, &[0; 9], Err(WrongType)),
    (
        Reader::ConfigHead,
        &[0, 2, 0, 0, 0, 0, 0, 0, 0],
        Err(Length),
    ),
    (Reader::ConfigHead, &[9, 2, 8, 0, 0, 0, 0, 0, 0], Err(Total)),
    (
        Reader::ConfigHead,
        &[9, 2, 9, 0, 0, 0, 0, 0, 0],
        Err(NoConfiguration),
    ),
    (Reader::Config, &[0; 8], Err(Short)),
    (Reader::Config, &[0; 9], Err(WrongType)),
    (Reader::Config, &[0, 2, 0, 0, 0, 0, 0, 0, 0], Err(Length)),
    (Reader::Config, &[9, 2, 8, 0, 0, 0, 0, 0, 0], Err(Total)),
    (
        Reader::Config,
        &[9, 2, 9, 0, 0, 0, 0, 0, 0],
        Err(NoConfiguration),
    ),
    (Reader::Config, &[9, 2, 11, 0, 0, 1, 0, 0, 0, 1], Err(Short)),
    (
        Reader::Config,
        &[9, 2, 10, 0, 0, 1, 0, 0, 0, 1, 0],
        Err(Total),
    ),
    // one byte is left over, whatever its value
    (Reader::Config, &[9, 2, 10, 0, 0, 1, 0, 0, 0, 1], Err(Total)),
    (
        Reader::Config,
        &[9, 2, 12, 0, 0, 1, 0, 0, 0, 2, 9, 2],
        Err(Total),
    ),
    (
        Reader::Config,
        &[9, 2, 11, 0, 0, 1, 0, 0, 0, 1, 9],
        Err(Length),
    ),
    // the type's least length goes before the end
    (
        Reader::Config,
        &[9, 2, 11, 0, 0, 1, 0, 0, 0, 8, 4],
        Err(Length),
    ),
    (
        Reader::Config,
        &[9, 2, 11, 0, 0, 1, 0, 0, 0, 9, 4],
        Err(Total),
    ),
    (
        Reader::Config,
        &[9, 2, 11, 0, 0, 1, 0, 0, 0, 6, 5],
        Err(Length),
    ),
    (
        Reader::Config,
        &[9, 2, 11, 0, 0, 1, 0, 0, 0, 7, 5],
        Err(Total),
    ),
    (Reader::Hub, &[0; 8], Err(Short)),
    (Reader::Hub, &[0; 9], Err(WrongType)),
    (Reader::Hub, &[8, 0x29, 1, 0, 0, 0, 0, 0, 0], Err(Length)),
    (Reader::Hub, &[9, 0x29, 0, 0, 0, 0, 0, 0, 0], Err(Length)),
    (Reader::Hub, &[9, 0x29, 8, 0, 0, 0, 0, 0, 0], Err(Length)),
    (Reader::Hub, TEN_PORTS, Err(Length)),
    (Reader::WideHub, &[0; 8], Err(Short)),
    (Reader::WideHub, &[0; 9], Err(WrongType)),
    (
        Reader::WideHub,
        &[8, 0x29, 1, 0, 0, 0, 0, 0, 0],
        Err(Length),
    ),
    (
        Reader::WideHub,
        &[11, 0x29, 0, 0, 0, 0, 0, 0, 0],
        Err(Length),
    ),
    (
        Reader::WideHub,
        &[11, 0x29, 16, 0, 0, 0, 0, 0, 0],
        Err(Length),
    ),
    // more than seven ports take eleven bytes
    (
        Reader::WideHub,
        &[9, 0x29, 8, 0, 0, 0, 0, 0, 0],
        Err(Length),
    ),
    (
        Reader::WideHub,
        &[10, 0x29, 15, 0, 0, 0, 0, 0, 0],
        Err(Length),
    ),
    (Reader::Units, &[3], Err(Short)),
    (Reader::Units, &[3, 2], Err(WrongType)),
    (Reader::Units, &[3, 3, 0], Err(Length)),
    (Reader::Units, &[0, 3, 0], Err(Length)),
    (Reader::Units, &[4, 3, 0], Err(Length)),
];

#[test]
fn readings(rt: HostRuntime) {
    for (reader, bytes, want) in READINGS {
        let read = told_by(*reader, bytes);
        let told = match &read {
            Ok(numbers) => Ok(numbers.as_slice()),
            Err(fault) => Err(*fault),
        };
        assert_eq!(rt; told, *want, "{reader:?} of {bytes:?}");
    }
}

/// What an item of a configuration and its view report.
#[derive(Drop)]
struct ItemTold {
    item: &'static [u8],
    view: &'static [u8],
    /// The fields in the order of the bytes; of an endpoint then its number, and 1 for IN.
    numbers: Numbers,
    /// An endpoint's.
    transfer_type: Option<TransferType>,
}

fn item_told(item: &Item<'static>) -> ItemTold {
    let (view, numbers, transfer_type) = match item {
        Item::Interface(interface) => (interface.as_slice(), interface_numbers(interface), None),
        Item::Endpoint(endpoint) => (
            endpoint.as_slice(),
            endpoint_numbers(endpoint),
            Some(endpoint.transfer_type()),
        ),
        Item::Other(other) => (
            other.as_slice(),
            list(&[
                u16::from(other.length()),
                u16::from(other.descriptor_type()),
            ]),
            None,
        ),
    };
    ItemTold {
        item: item.as_slice(),
        view,
        numbers,
        transfer_type,
    }
}

fn interface_numbers(interface: &InterfaceView<'_>) -> Numbers {
    list(&[
        u16::from(interface.length()),
        u16::from(interface.descriptor_type()),
        u16::from(interface.number()),
        u16::from(interface.alternate_setting()),
        u16::from(interface.endpoints()),
        u16::from(interface.class()),
        u16::from(interface.subclass()),
        u16::from(interface.protocol()),
        u16::from(interface.string_index()),
    ])
}

fn endpoint_numbers(endpoint: &EndpointView<'_>) -> Numbers {
    list(&[
        u16::from(endpoint.length()),
        u16::from(endpoint.descriptor_type()),
        u16::from(endpoint.address()),
        u16::from(endpoint.attributes()),
        endpoint.max_packet(),
        u16::from(endpoint.interval()),
        u16::from(endpoint.number()),
        u16::from(endpoint.is_in()),
    ])
}

/// The item of this place from 0, None after the last.
fn told_at(config: &'static [u8], place: u8) -> Option<ItemTold> {
    let config = read_config(config).ok()?;
    let mut items = config.items();
    for _ in 0..place {
        items.next()?;
    }
    let item = items.next()?;
    Some(item_told(&item))
}

/// An item by its place from 0; after the last there are no bytes.
struct ItemRow {
    config: &'static [u8],
    place: u8,
    bytes: &'static [u8],
    /// As [`ItemTold`] has them.
    numbers: &'static [u16],
    transfer_type: Option<TransferType>,
}

const ITEMS: &[ItemRow] = &[
    ItemRow {
        config: BULK,
        place: 0,
        bytes: &[9, 4, 0, 0, 2, 0xff, 0, 0, 0],
        numbers: &[9, 4, 0, 0, 2, 0xff, 0, 0, 0],
        transfer_type: None,
    },
    ItemRow {
        config: BULK,
        place: 1,
        bytes: &[7, 5, 2, 2, 0x40, 0, 0],
        numbers: &[7, 5, 2, 2, 64, 0, 2, 0],
        transfer_type: Some(TransferType::Bulk),
    },
    ItemRow {
        config: BULK,
        place: 2,
        bytes: &[7, 5, 0x82, 2, 0x40, 0, 0],
        numbers: &[7, 5, 0x82, 2, 64, 0, 2, 1],
        transfer_type: Some(TransferType::Bulk),
    },
    ItemRow {
        config: BULK,
        place: 3,
        bytes: &[],
        numbers: &[],
        transfer_type: None,
    },
    ItemRow {
        config: OTHER,
        place: 0,
        bytes: &[3, 0x24, 7],
        numbers: &[3, 0x24],
        transfer_type: None,
    },
];

#[test]
fn items_of_a_configuration(rt: HostRuntime) {
    for row in ITEMS {
        let found = told_at(row.config, row.place);
        let told: (&[u8], &[u8], &[u16], Option<TransferType>) = match &found {
            Some(told) => (
                told.item,
                told.view,
                told.numbers.as_slice(),
                told.transfer_type,
            ),
            None => (&[], &[], &[], None),
        };
        let want = (row.bytes, row.bytes, row.numbers, row.transfer_type);
        assert_eq!(rt; told, want, "item {} of {:?}", row.place, row.config);
    }
}

/// A configuration, the alternate settings of its interfaces that are not 0, and the number, the
/// kind and the maximum packet of each endpoint of it that a pipe can use.
struct UsableRow {
    low: bool,
    settings: &'static [(u8, u8)],
    config: &'static [u8],
    outs: &'static [(u8, EndpointKind, u8)],
    ins: &'static [(u8, EndpointKind, u8)],
}

const USABLE: &[UsableRow] = &[
    // of the items with one address the first bulk item counts
    UsableRow {
        low: false,
        settings: &[],
        config: &[
            9, 2, 0x20, 0, 1, 1, 0, 0x80, 0x32, 9, 4, 0, 0, 1, 0xff, 0, 0, 0, 7, 5, 0x81, 3, 8, 0,
            1, 7, 5, 0x81, 2, 0x40, 0, 1,
        ],
        outs: &[],
        ins: &[(1, Bulk, 64)],
    },
    // there is no bulk at low speed
    UsableRow {
        low: true,
        settings: &[],
        config: &[
            9, 2, 0x20, 0, 1, 1, 0, 0x80, 0x32, 9, 4, 0, 0, 1, 0xff, 0, 0, 0, 7, 5, 0x81, 3, 8, 0,
            1, 7, 5, 0x81, 2, 0x40, 0, 1,
        ],
        outs: &[],
        ins: &[(1, Interrupt, 8)],
    },
    // else the first interrupt item
    UsableRow {
        low: false,
        settings: &[],
        config: &[
            9, 2, 0x20, 0, 1, 1, 0, 0x80, 0x32, 9, 4, 0, 0, 1, 0xff, 0, 0, 0, 7, 5, 2, 3, 0x10, 0,
            1, 7, 5, 2, 3, 0x20, 0, 1,
        ],
        outs: &[(2, Interrupt, 16)],
        ins: &[],
    },
    // an interrupt item after it, and another bulk item, change nothing
    UsableRow {
        low: false,
        settings: &[],
        config: &[
            9, 2, 0x27, 0, 1, 1, 0, 0x80, 0x32, 9, 4, 0, 0, 1, 0xff, 0, 0, 0, 7, 5, 3, 2, 8, 0, 1,
            7, 5, 3, 3, 0x40, 0, 1, 7, 5, 3, 2, 0x40, 0, 1,
        ],
        outs: &[(3, Bulk, 8)],
        ins: &[],
    },
    // an address is a number and a direction
    UsableRow {
        low: false,
        settings: &[],
        config: &[
            9, 2, 0x20, 0, 1, 1, 0, 0x80, 0x32, 9, 4, 0, 0, 1, 0xff, 0, 0, 0, 7, 5, 1, 2, 0x10, 0,
            1, 7, 5, 0x81, 3, 5, 0, 1,
        ],
        outs: &[(1, Bulk, 16)],
        ins: &[(1, Interrupt, 5)],
    },
    // an interrupt packet has 8 bytes at low speed, 64 at full speed (5.7.3)
    UsableRow {
        low: true,
        settings: &[],
        config: &[
            9, 2, 0x20, 0, 1, 1, 0, 0x80, 0x32, 9, 4, 0, 0, 1, 0xff, 0, 0, 0, 7, 5, 0x81, 3, 9, 0,
            1, 7, 5, 0x82, 3, 8, 0, 1,
        ],
        outs: &[],
        ins: &[(2, Interrupt, 8)],
    },
    UsableRow {
        low: false,
        settings: &[],
        config: &[
            9, 2, 0x20, 0, 1, 1, 0, 0x80, 0x32, 9, 4, 0, 0, 1, 0xff, 0, 0, 0, 7, 5, 0x81, 3, 9, 0,
            1, 7, 5, 0x82, 3, 8, 0, 1,
        ],
        outs: &[],
        ins: &[(1, Interrupt, 9), (2, Interrupt, 8)],
    },
    UsableRow {
        low: false,
        settings: &[],
        config: &[
            9, 2, 0x27, 0, 1, 1, 0, 0x80, 0x32, 9, 4, 0, 0, 1, 0xff, 0, 0, 0, 7, 5, 0x81, 3, 0x41,
            0, 1, 7, 5, 0x82, 3, 0x40, 0, 1, 7, 5, 0x83, 3, 0, 0, 1,
        ],
        outs: &[],
        ins: &[(2, Interrupt, 64)],
    },
    // a bulk packet has 8, 16, 32 or 64 bytes (5.8.3)
    UsableRow {
        low: false,
        settings: &[],
        config: &[
            9, 2, 0x2e, 0, 1, 1, 0, 0x80, 0x32, 9, 4, 0, 0, 1, 0xff, 0, 0, 0, 7, 5, 1, 2, 8, 0, 1,
            7, 5, 2, 2, 9, 0, 1, 7, 5, 3, 2, 0x20, 0, 1, 7, 5, 4, 2, 0, 0, 1,
        ],
        outs: &[(1, Bulk, 8), (3, Bulk, 32)],
        ins: &[],
    },
    // endpoints of another alternate setting do not count, nor do those before any interface
    UsableRow {
        low: false,
        settings: &[],
        config: &[
            9, 2, 0x30, 0, 1, 1, 0, 0x80, 0x32, 7, 5, 5, 2, 0x40, 0, 1, 9, 4, 0, 1, 1, 0xff, 0, 0,
            0, 7, 5, 1, 2, 0x40, 0, 1, 9, 4, 1, 0, 1, 0xff, 0, 0, 0, 7, 5, 0x82, 2, 0x40, 0, 1,
        ],
        outs: &[],
        ins: &[(2, Bulk, 64)],
    },
    // bits 4 to 6 of bEndpointAddress are reserved (9.6.6)
    UsableRow {
        low: false,
        settings: &[],
        config: &[
            9, 2, 0x20, 0, 1, 1, 0, 0x80, 0x32, 9, 4, 0, 0, 1, 0xff, 0, 0, 0, 7, 5, 0x71, 2, 0x40,
            0, 1, 7, 5, 0xff, 3, 1, 0, 1,
        ],
        outs: &[(1, Bulk, 64)],
        ins: &[(15, Interrupt, 1)],
    },
    // endpoint 0 is no pipe's
    UsableRow {
        low: false,
        settings: &[],
        config: &[
            9, 2, 0x20, 0, 1, 1, 0, 0x80, 0x32, 9, 4, 0, 0, 1, 0xff, 0, 0, 0, 7, 5, 0, 2, 0x40, 0,
            1, 7, 5, 0x80, 3, 8, 0, 1,
        ],
        outs: &[],
        ins: &[],
    },
    // the low eleven bits of wMaxPacketSize are the size; a bulk endpoint has no others
    UsableRow {
        low: false,
        settings: &[],
        config: &[
            9, 2, 0x2e, 0, 1, 1, 0, 0x80, 0x32, 9, 4, 0, 0, 1, 0xff, 0, 0, 0, 7, 5, 1, 2, 0x40, 8,
            1, 7, 5, 0x82, 3, 0x40, 8, 1, 7, 5, 0x83, 3, 0, 8, 1, 7, 5, 0x84, 3, 1, 0xf8, 1,
        ],
        outs: &[],
        ins: &[(2, Interrupt, 64), (4, Interrupt, 1)],
    },
    // the low two bits of bmAttributes are the type; control and isochronous endpoints are none
    UsableRow {
        low: false,
        settings: &[],
        config: &[
            9, 2, 0x2e, 0, 1, 1, 0, 0x80, 0x32, 9, 4, 0, 0, 1, 0xff, 0, 0, 0, 7, 5, 1, 0, 0x40, 0,
            1, 7, 5, 2, 1, 0x40, 0, 1, 7, 5, 3, 0xfe, 0x40, 0, 1, 7, 5, 4, 0x3f, 0x40, 0, 1,
        ],
        outs: &[(3, Bulk, 64), (4, Interrupt, 64)],
        ins: &[],
    },
    // endpoints of the alternate setting that their interface has count, and no others
    UsableRow {
        low: false,
        settings: &[],
        config: SETTINGS,
        outs: &[],
        ins: &[(1, Interrupt, 8), (3, Interrupt, 8)],
    },
    UsableRow {
        low: false,
        settings: &[(0, 1)],
        config: SETTINGS,
        outs: &[(2, Bulk, 64)],
        ins: &[(1, Bulk, 64), (3, Interrupt, 8)],
    },
    UsableRow {
        low: false,
        settings: &[(1, 0), (0, 1), (0, 0)],
        config: SETTINGS,
        outs: &[],
        ins: &[(1, Interrupt, 8), (3, Interrupt, 8)],
    },
    // an interface that has none of its settings has no endpoints
    UsableRow {
        low: false,
        settings: &[(0, 1), (1, 1)],
        config: SETTINGS,
        outs: &[(2, Bulk, 64)],
        ins: &[(1, Bulk, 64)],
    },
    UsableRow {
        low: false,
        settings: &[(0, 1)],
        config: BULK_OTHER,
        outs: &[(2, Bulk, 64)],
        ins: &[(2, Bulk, 64)],
    },
];

/// The kind and the maximum packet of the endpoint with this number.
fn end_of(ends: &[(u8, EndpointKind, u8)], number: u8) -> Option<(EndpointKind, u8)> {
    for (found, kind, max) in ends {
        if *found == number {
            return Some((*kind, *max));
        }
    }
    None
}

/// The same in a configuration.
fn usable_end(row: &UsableRow, number: u8, is_in: bool) -> Option<(EndpointKind, u8)> {
    let config = read_config(row.config).ok()?;
    let mut settings = Settings::all_zero();
    for (interface, setting) in row.settings {
        settings.set(*interface, *setting);
    }
    let end = config
        .usable_endpoints(row.low, &settings)
        .get(number, is_in)?;
    Some((end.kind, end.max))
}

#[test]
fn usable_endpoints(rt: HostRuntime) {
    for row in USABLE {
        assert!(rt; read_config(row.config).is_ok(), "{:?}", row.config);
        for number in 0..=16 {
            let told = (
                usable_end(row, number, false),
                usable_end(row, number, true),
            );
            let want = (end_of(row.outs, number), end_of(row.ins, number));
            assert_eq!(rt; told, want, "endpoint {number} of {:?}", row.config);
        }
    }
}
