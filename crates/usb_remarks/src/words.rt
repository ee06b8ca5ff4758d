//! Remarks in words.
ghost use Rattle.std.specs.Prelude.{◌≡◌, ◌<◌, ◌^◌, ◌++◌, [], drop, get_or, decimal, nat_lt, OnOk, string_bytes, slice_index_or};
ghost use Rattle.usb_device.specs.{hub_ports};
ghost use Rattle.usb_remarks.specs.Remarks.{first_endpoint};
ghost use Rattle.usb_remarks.specs.Words.{address_rule, config_words, count_words, cut_words, descriptor_words, device_words, endpoint_words, given_words, head_words, hub_bytes, hub_words, index_words, is_count, is_status_address, item_rule, item_words, key_words, lacking_words, length_rule, missing_words, packet_rule, passing_words, portless_words, ports_rule, ports_words, remark_words, repeated_words, rule_words, said_total, size_rule, small_words, status_words, text_words};

use crate::remark::Remark;
use crate::text::{TextRemark, byte_at, first_endpoint, text_read};
use std::alloc::{AllocError, Global};
use usb_descriptor::DescriptorFault;
use usb_device::Bytes;
use usb_request::descriptor_type::{ENDPOINT, INTERFACE};
use usb_request::endpoint_address::STATUS_ENDPOINT;
use usb_scene::DeviceSpec;

const DEVICE_SHORT: &str = " bytes, a device descriptor has 18";

const DEVICE_TYPE: &str = ", of a device it is 1";

const DEVICE_COUNT: &str = ", it is at least 1";

const DEVICE_SIZE: &str = ", of a device it is 18";

const HEAD_SHORT: &str = " bytes, a configuration descriptor has 9";

const HEAD_TYPE: &str = ", of a configuration it is 2";

const HEAD_TOTAL: &str = ", it is at least 9";

const HEAD_VALUE: &str = ", it is at least 1";

const HEAD_SIZE: &str = ", of a configuration it is 9";

const HUB_SHORT: &str = " bytes, a hub descriptor has 9";

const NO_ENDPOINT: &str = ", of a hub one has a status endpoint";

const OTHER_KIND: &str = ", of an interrupt endpoint it is 3";

/// Adds a number in decimal digits.
fn push_number(alloc: Global, out: &mut String, number: usize) -> Result<(), AllocError>
    ensures { OnOk result (string_bytes out.new ≡ string_bytes out.old ++ decimal number) }
{
    let digits = number.to_string(alloc)?;
    out.push_str(digits.as_str())
}

/// Adds the byte where a rule is broken, the field with its value, and the rule.
fn push_rule(
    alloc: Global,
    out: &mut String,
    byte: usize,
    field: &str,
    value: usize,
    rule: &str,
) -> Result<(), AllocError>
    ensures { OnOk result (string_bytes out.new
        ≡ string_bytes out.old ++ rule_words byte field.now value rule.now) }
{
    out.push_str("byte ")?;
    push_number(alloc, out, byte)?;
    out.push_str(": ")?;
    out.push_str(field)?;
    push_number(alloc, out, value)?;
    out.push_str(rule)
}

/// Adds what is wrong with a device descriptor.
fn push_device(
    alloc: Global,
    out: &mut String,
    low: bool,
    bytes: &[u8],
    fault: DescriptorFault,
) -> Result<(), AllocError>
    ensures { OnOk result (string_bytes out.new
        ≡ string_bytes out.old ++ device_words low bytes.now fault) }
{
    let first = usize::from(byte_at(bytes, 0));
    let kind = usize::from(byte_at(bytes, 1));
    let most = usize::from(byte_at(bytes, 7));
    let count = usize::from(byte_at(bytes, 17));
    match fault {
        DescriptorFault::Short => {
            push_rule(alloc, out, 0, "the text has ", bytes.len(), DEVICE_SHORT)
        }
        DescriptorFault::WrongType => {
            push_rule(alloc, out, 1, "bDescriptorType is ", kind, DEVICE_TYPE)
        }
        DescriptorFault::MaxPacket => {
            push_rule(alloc, out, 7, "bMaxPacketSize0 is ", most, packet_rule(low))
        }
        DescriptorFault::NoConfiguration => {
            push_rule(
                alloc,
                out,
                17,
                "bNumConfigurations is ",
                count,
                DEVICE_COUNT,
            )
        }
        DescriptorFault::Length | DescriptorFault::Total => {
            push_rule(alloc, out, 0, "bLength is ", first, DEVICE_SIZE)
        }
    }
}

/// Adds what is wrong with the descriptor of a configuration.
fn push_head(
    alloc: Global,
    out: &mut String,
    bytes: &[u8],
    fault: DescriptorFault,
) -> Result<(), AllocError>
    ensures { OnOk result (string_bytes out.new
        ≡ string_bytes out.old ++ head_words bytes.now fault) }
{
    let first = usize::from(byte_at(bytes, 0));
    let kind = usize::from(byte_at(bytes, 1));
    let value = usize::from(byte_at(bytes, 5));
    let total = word_of(bytes);
    match fault {
        DescriptorFault::Short => {
            push_rule(alloc, out, 0, "the text has ", bytes.len(), HEAD_SHORT)
        }
        DescriptorFault::WrongType => {
            push_rule(alloc, out, 1, "bDescriptorType is ", kind, HEAD_TYPE)
        }
        DescriptorFault::Total => {
            push_rule(alloc, out, 2, "wTotalLength is ", total, HEAD_TOTAL)
        }
        DescriptorFault::NoConfiguration => {
            push_rule(alloc, out, 5, "bConfigurationValue is ", value, HEAD_VALUE)
        }
        DescriptorFault::Length | DescriptorFault::MaxPacket => {
            push_rule(alloc, out, 0, "bLength is ", first, HEAD_SIZE)
        }
    }
}

/// wTotalLength, as far as it is there.
fn word_of(bytes: &[u8]) -> usize
    ensures { result ≡ said_total bytes.now }
{
    usize::from(byte_at(bytes, 2)) + 256 * usize::from(byte_at(bytes, 3))
}

/// The most that bMaxPacketSize0 may be.
fn packet_rule(low: bool) -> &'static str
    ensures { result.now ≡ packet_rule low }
{
    if low {
        ", at low speed it is 8"
    } else {
        ", at full speed it is 8, 16, 32 or 64"
    }
}

/// The least length of an item of a type.
fn item_rule(kind: u8) -> &'static str
    ensures { result.now ≡ item_rule kind }
{
    match kind {
        INTERFACE => ", of an interface it is at least 9",
        ENDPOINT => ", of an endpoint it is at least 7",
        _ => ", it is at least 2",
    }
}

/// The bytes from a place on, none after the end.
fn rest_at(bytes: &[u8], at: usize) -> &[u8]
    ensures { result.now ≡ drop at bytes.now }
{
    if at < bytes.len() { &bytes[at..] } else { &[] }
}

/// Adds that an item passes the end.
fn push_passing(alloc: Global, out: &mut String, text: &[u8], at: usize) -> Result<(), AllocError>
    ensures { OnOk result (string_bytes out.new
        ≡ string_bytes out.old ++ passing_words text.now at) }
{
    let length = usize::from(byte_at(rest_at(text, at), 0));
    push_rule(
        alloc,
        out,
        at,
        "bLength is ",
        length,
        ", wTotalLength leaves ",
    )?;
    push_number(alloc, out, word_of(text).saturating_sub(at))
}

/// Adds that an item is too small.
fn push_small(alloc: Global, out: &mut String, text: &[u8], at: usize) -> Result<(), AllocError>
    ensures { OnOk result (string_bytes out.new
        ≡ string_bytes out.old ++ small_words text.now at) }
{
    let item = rest_at(text, at);
    let length = usize::from(byte_at(item, 0));
    let rule = item_rule(byte_at(item, 1));
    push_rule(alloc, out, at, "bLength is ", length, rule)
}

/// Adds what is wrong with an item.
fn push_item(
    alloc: Global,
    out: &mut String,
    text: &[u8],
    at: usize,
    fault: DescriptorFault,
) -> Result<(), AllocError>
    ensures { OnOk result (string_bytes out.new
        ≡ string_bytes out.old ++ item_words text.now at fault) }
{
    match fault {
        DescriptorFault::Total => push_passing(alloc, out, text, at),
        DescriptorFault::Short
        | DescriptorFault::WrongType
        | DescriptorFault::Length
        | DescriptorFault::MaxPacket
        | DescriptorFault::NoConfiguration => push_small(alloc, out, text, at),
    }
}

/// Adds that a text ends before its wTotalLength.
fn push_cut(alloc: Global, out: &mut String, text: &[u8]) -> Result<(), AllocError>
    ensures { OnOk result (string_bytes out.new ≡ string_bytes out.old ++ cut_words text.now) }
{
    push_rule(
        alloc,
        out,
        2,
        "wTotalLength is ",
        word_of(text),
        ", the text has ",
    )?;
    push_number(alloc, out, text.len())?;
    out.push_str(" bytes")
}

/// Adds what is wrong with the text of a configuration.
fn push_text(
    alloc: Global,
    out: &mut String,
    text: &[u8],
    remark: TextRemark,
) -> Result<(), AllocError>
    ensures { OnOk result (string_bytes out.new
        ≡ string_bytes out.old ++ text_words text.now remark) }
{
    match remark {
        TextRemark::Head(fault) => push_head(alloc, out, text, fault),
        TextRemark::Cut => push_cut(alloc, out, text),
        TextRemark::Item(at, fault) => push_item(alloc, out, text, at, fault),
    }
}

/// The least length of a hub descriptor.
fn length_rule(long: bool) -> &'static str
    ensures { result.now ≡ length_rule long }
{
    if long {
        ", with more than 7 ports it is at least 11"
    } else {
        ", it is at least 9"
    }
}

/// The ports that a hub may have.
fn ports_rule(wide: bool) -> &'static str
    ensures { result.now ≡ ports_rule wide }
{
    if wide {
        ", it is 1 to 15"
    } else {
        ", it is 1 to 7"
    }
}

/// Whether a hub may have this number of ports.
fn is_count(wide: bool, ports: usize) -> bool
    ensures { result ≡ is_count wide ports }
{
    1 <= ports && ports <= if wide { 15 } else { 7 }
}

/// Adds what is wrong with a hub descriptor's length, or with its number of ports.
fn push_ports(alloc: Global, out: &mut String, bytes: &[u8], wide: bool) -> Result<(), AllocError>
    ensures { OnOk result (string_bytes out.new
        ≡ string_bytes out.old ++ ports_words wide bytes.now) }
{
    let length = usize::from(byte_at(bytes, 0));
    let ports = usize::from(byte_at(bytes, 2));
    let short = length < 9;
    if short || is_count(wide, ports) {
        let rule = length_rule(!short);
        push_rule(alloc, out, 0, "bDescLength is ", length, rule)
    } else {
        push_rule(alloc, out, 2, "bNbrPorts is ", ports, ports_rule(wide))
    }
}

/// Adds what is wrong with a hub descriptor.
#[tactic(auto, unfolding(crate::specs::Words::hub_words))]
fn push_hub(
    alloc: Global,
    out: &mut String,
    bytes: &[u8],
    wide: bool,
    fault: DescriptorFault,
) -> Result<(), AllocError>
    ensures { OnOk result (string_bytes out.new
        ≡ string_bytes out.old ++ hub_words wide bytes.now fault) }
{
    let kind = usize::from(byte_at(bytes, 1));
    match fault {
        DescriptorFault::Short => {
            push_rule(alloc, out, 0, "the text has ", bytes.len(), HUB_SHORT)
        }
        DescriptorFault::WrongType => {
            push_rule(
                alloc,
                out,
                1,
                "bDescriptorType is ",
                kind,
                ", of a hub it is 41",
            )
        }
        DescriptorFault::Length
        | DescriptorFault::MaxPacket
        | DescriptorFault::Total
        | DescriptorFault::NoConfiguration => push_ports(alloc, out, bytes, wide),
    }
}

/// The text at an index, empty without one.
fn config_at(configs: &[Bytes<65535>], index: usize) -> &[u8]
    ensures { result.now ≡ slice_index_or configs.now index [] }
{
    match configs.get(index) {
        None => &[],
        Some(text) => text.as_slice(),
    }
}

/// The hub descriptor, empty without one.
fn hub_bytes(spec: &DeviceSpec) -> &[u8]
    ensures { result.now ≡ hub_bytes spec.now.hub }
{
    match spec.hub() {
        None => &[],
        Some(hub) => hub.descriptor(),
    }
}

/// Adds the index of a configuration.
fn push_index(alloc: Global, out: &mut String, index: usize) -> Result<(), AllocError>
    ensures { OnOk result (string_bytes out.new ≡ string_bytes out.old ++ index_words index) }
{
    out.push_str("configs[")?;
    push_number(alloc, out, index)?;
    out.push_str("], ")
}

/// Adds what is wrong with a configuration, after its index.
fn push_config(
    alloc: Global,
    out: &mut String,
    configs: &[Bytes<65535>],
    index: usize,
    remark: TextRemark,
) -> Result<(), AllocError>
    ensures { OnOk result (string_bytes out.new
        ≡ string_bytes out.old ++ config_words configs.now index remark) }
{
    push_index(alloc, out, index)?;
    push_text(alloc, out, config_at(configs, index), remark)
}

/// Adds that a value is repeated.
fn push_repeated(
    alloc: Global,
    out: &mut String,
    configs: &[Bytes<65535>],
    index: usize,
) -> Result<(), AllocError>
    ensures { OnOk result (string_bytes out.new
        ≡ string_bytes out.old ++ repeated_words configs.now index) }
{
    let value = usize::from(byte_at(config_at(configs, index), 5));
    push_index(alloc, out, index)?;
    push_rule(
        alloc,
        out,
        5,
        "bConfigurationValue is ",
        value,
        ", as of an earlier one",
    )
}

/// Adds how many configurations there are in place of bNumConfigurations.
fn push_counts(
    alloc: Global,
    out: &mut String,
    bytes: &[u8],
    index: usize,
) -> Result<(), AllocError>
    ensures { OnOk result (string_bytes out.new
        ≡ string_bytes out.old ++ count_words bytes.now index) }
{
    let count = usize::from(byte_at(bytes, 17));
    push_rule(
        alloc,
        out,
        17,
        "bNumConfigurations is ",
        count,
        ", `configs` has ",
    )?;
    push_number(alloc, out, index)
}

/// Adds the key that has the bytes.
#[tactic(auto, unfolding(crate::specs::Words::key_words))]
fn push_key(out: &mut String, key: &str) -> Result<(), AllocError>
    ensures { OnOk result (string_bytes out.new ≡ string_bytes out.old ++ key_words key.now) }
{
    out.push_str(key)?;
    out.push_str(", ")
}

/// Adds that a configuration is missing.
fn push_missing(
    alloc: Global,
    out: &mut String,
    bytes: &[u8],
    index: usize,
) -> Result<(), AllocError>
    ensures { OnOk result (string_bytes out.new
        ≡ string_bytes out.old ++ missing_words bytes.now index) }
{
    push_key(out, "descriptor")?;
    push_counts(alloc, out, bytes, index)
}

/// Adds what is wrong with the device descriptor, after its key.
fn push_descriptor(
    alloc: Global,
    out: &mut String,
    spec: &DeviceSpec,
    fault: DescriptorFault,
) -> Result<(), AllocError>
    ensures { OnOk result (string_bytes out.new
        ≡ string_bytes out.old ++ descriptor_words spec.now fault) }
{
    push_key(out, "descriptor")?;
    push_device(alloc, out, spec.is_low(), spec.descriptor(), fault)
}

/// Adds that a hub has no ports.
fn push_portless(alloc: Global, out: &mut String, bytes: &[u8]) -> Result<(), AllocError>
    ensures { OnOk result (string_bytes out.new
        ≡ string_bytes out.old ++ portless_words bytes.now) }
{
    let class = usize::from(byte_at(bytes, 4));
    push_key(out, "descriptor")?;
    push_rule(
        alloc,
        out,
        4,
        "bDeviceClass is ",
        class,
        ", of a hub: it needs `ports`",
    )
}

/// Adds what is wrong with a device's hub descriptor, after its key.
fn push_given(
    alloc: Global,
    out: &mut String,
    bytes: &[u8],
    wide: bool,
    fault: DescriptorFault,
) -> Result<(), AllocError>
    ensures { OnOk result (string_bytes out.new
        ≡ string_bytes out.old ++ given_words wide bytes.now fault) }
{
    push_key(out, "hub_descriptor")?;
    push_hub(alloc, out, bytes, wide, fault)
}

/// Whether a status endpoint may have this address.
fn is_status_address(wide: bool, address: u8) -> bool
    ensures { result ≡ is_status_address wide address }
{
    address == STATUS_ENDPOINT || (wide && 129 <= address && address <= 143)
}

/// The addresses that a status endpoint may have.
fn address_rule(wide: bool) -> &'static str
    ensures { result.now ≡ address_rule wide }
{
    if wide {
        ", of a hub's status endpoint it is 129 to 143"
    } else {
        ", of a hub's status endpoint it is 129, or to 143 with `wide_hubs`"
    }
}

/// The packets that a status endpoint may have, of a hub of more than seven ports or not.
fn size_rule(many: bool) -> &'static str
    ensures { result.now ≡ size_rule many }
{
    if many {
        ", of a hub with more than 7 ports it is 2 to 64"
    } else {
        ", of a hub's status endpoint it is 1 to 64"
    }
}

/// Adds why an endpoint that begins at this byte is no status endpoint.
#[tactic(auto, unfolding(crate::specs::Words::endpoint_words))]
fn push_endpoint(
    alloc: Global,
    out: &mut String,
    wide: bool,
    many: bool,
    at: usize,
    endpoint: &[u8],
) -> Result<(), AllocError>
    requires { at < 2 ^ 63 }
    ensures { OnOk result (string_bytes out.new
        ≡ string_bytes out.old ++ endpoint_words wide many at endpoint.now) }
{
    let address = byte_at(endpoint, 2);
    let kind = byte_at(endpoint, 3);
    let most = usize::from(byte_at(endpoint, 4)) + 256 * usize::from(byte_at(endpoint, 5));
    if !is_status_address(wide, address) {
        let number = usize::from(address);
        let rule = address_rule(wide);
        push_rule(alloc, out, at + 2, "bEndpointAddress is ", number, rule)
    } else if kind % 4 != 3 {
        push_rule(
            alloc,
            out,
            at + 3,
            "bmAttributes is ",
            usize::from(kind),
            OTHER_KIND,
        )
    } else {
        push_rule(
            alloc,
            out,
            at + 4,
            "wMaxPacketSize is ",
            most,
            size_rule(many),
        )
    }
}

/// Adds that a text has no status endpoint.
fn push_lacking(
    alloc: Global,
    out: &mut String,
    wide: bool,
    many: bool,
    text: &[u8],
) -> Result<(), AllocError>
    ensures { OnOk result (string_bytes out.new
        ≡ string_bytes out.old ++ lacking_words wide many text.now (first_endpoint text.now)) }
{
    match first_endpoint(text) {
        None => {
            let interfaces = usize::from(byte_at(text, 4));
            push_rule(alloc, out, 4, "bNumInterfaces is ", interfaces, NO_ENDPOINT)
        }
        Some(at) => push_endpoint(alloc, out, wide, many, at, rest_at(text, at)),
    }
}

/// Whether a device has more than seven ports.
fn has_many_ports(spec: &DeviceSpec) -> bool
    ensures { result ≡ nat_lt 7 (hub_ports spec.now.hub) }
{
    match spec.hub() {
        None => false,
        Some(hub) => hub.ports() > 7,
    }
}

/// Adds that a hub has no status endpoint.
fn push_status(
    alloc: Global,
    out: &mut String,
    spec: &DeviceSpec,
    wide: bool,
) -> Result<(), AllocError>
    ensures { OnOk result
        (string_bytes out.new ≡ string_bytes out.old ++ status_words wide spec.now) }
{
    push_index(alloc, out, 0)?;
    let text = text_read(config_at(spec.configs(), 0));
    push_lacking(alloc, out, wide, has_many_ports(spec), text)
}

/// Adds a remark on the device: the key with the bytes, the byte, the field with its value, and the
/// rule. It is that of a host which takes hubs of 8 to 15 ports, or not. For example
/// `configs[0], byte 2: wTotalLength is 34, the text has 25 bytes`.
///
/// # Errors
///
/// Memory was refused.
#[tactic(auto, unfolding(crate::specs::Words::remark_words))]
pub fn push_remark(
    alloc: Global,
    out: &mut String,
    spec: &DeviceSpec,
    wide: bool,
    remark: Remark,
) -> Result<(), AllocError>
    ensures { OnOk result (string_bytes out.new
        ≡ string_bytes out.old ++ remark_words wide spec.now remark) }
{
    match remark {
        Remark::Device(fault) => push_descriptor(alloc, out, spec, fault),
        Remark::Text(index, remark) => push_config(alloc, out, spec.configs(), index, remark),
        Remark::Repeated(index) => push_repeated(alloc, out, spec.configs(), index),
        Remark::Missing(index) => push_missing(alloc, out, spec.descriptor(), index),
        Remark::NoPorts => push_portless(alloc, out, spec.descriptor()),
        Remark::Hub(fault) => push_given(alloc, out, hub_bytes(spec), wide, fault),
        Remark::Status => push_status(alloc, out, spec, wide),
    }
}
