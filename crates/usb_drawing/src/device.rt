//! What the line of an entry says of what was found there.
ghost use Rattle.std.specs.Prelude.{◌≡◌, ◌+◌, ◌<◌, ◌++◌, length, codes, if◌then◌else◌, nat_lt, OnOk};
ghost use Rattle.usb_drawing.specs.Devices.{address_column, device_text, finding_text, identity_text, ids_text, power_text, speed_column, strings_text, word_digits};

use crate::art::Style;
use crate::class::{codes_of, push_ports};
use crate::refusal::push_refused;
use crate::string::push_labelled;
use std::alloc::{AllocError, Global};
use usb_descriptor::push_class;
use usb_enum::{Accepted, Finding, Strings};
use usb_text::push_decimal;

/// Adds what was found at a port that gives so much.
pub(crate) fn push_finding(
    alloc: Global,
    out: &mut Vec<u8>,
    style: Style,
    granted: Option<u16>,
    finding: &Finding,
) -> Result<(), AllocError>
    ensures { OnOk result (out.new.items
        ≡ out.old.items ++ finding_text style granted finding.now) }
{
    match finding {
        Finding::Device(device) => push_device(alloc, out, style, granted, device),
        Finding::Refused(cause) => push_refused(out, granted, *cause),
    }
}

/// Adds what a device is, its strings, and its power.
fn push_device(
    alloc: Global,
    out: &mut Vec<u8>,
    style: Style,
    granted: Option<u16>,
    device: &Accepted,
) -> Result<(), AllocError>
    ensures { OnOk result (out.new.items ≡ out.old.items ++ device_text style granted device.now) }
{
    push_identity(alloc, out, device)?;
    push_strings(out, style, &device.strings)?;
    push_power(out, granted, device.configuration().need())
}

/// Adds address, speed, vendor and product, and class.
#[tactic(auto, unfolding(crate::specs::Devices::identity_text))]
fn push_identity(alloc: Global, out: &mut Vec<u8>, device: &Accepted) -> Result<(), AllocError>
    ensures { OnOk result (out.new.items ≡ out.old.items ++ identity_text device.now) }
{
    push_address(out, device.address.number())?;
    out.extend_from_slice(speed_column(device.low).as_bytes())?;
    push_ids(alloc, out, &device.bytes)?;
    push_class(alloc, out, codes_of(device))?;
    push_ports(out, &device.hub)
}

/// Adds the strings that there are, each after its label.
#[tactic(auto, unfolding(crate::specs::Devices::strings_text))]
fn push_strings(out: &mut Vec<u8>, style: Style, strings: &Strings) -> Result<(), AllocError>
    ensures { OnOk result (out.new.items ≡ out.old.items ++ strings_text style strings.now) }
{
    push_labelled(out, style, " ", &strings.product)?;
    push_labelled(out, style, " by ", &strings.manufacturer)?;
    push_labelled(out, style, " serial ", &strings.serial_number)
}

/// Adds `address` and its number, with blanks up to the next column.
fn push_address(out: &mut Vec<u8>, address: u8) -> Result<(), AllocError>
    ensures { OnOk result (out.new.items ≡ out.old.items ++ address_column address) }
{
    out.extend_from_slice(b"address ")?;
    push_decimal(out, u64::from(address))?;
    out.extend_from_slice(blanks_behind(address).as_bytes())
}

/// Blanks up to three digits, and two more.
fn blanks_behind(address: u8) -> &'static str
    ensures { result.now ≡ (if nat_lt address 10 then codes "    "
        else if nat_lt address 100 then codes "   " else codes "  ") }
{
    if address < 10 {
        "    "
    } else if address < 100 {
        "   "
    } else {
        "  "
    }
}

/// The speed, with blanks up to the next column.
fn speed_column(low: bool) -> &'static str
    ensures { result.now ≡ speed_column low }
{
    if low { "low   " } else { "full  " }
}

/// Adds idVendor and idProduct.
fn push_ids(alloc: Global, out: &mut Vec<u8>, bytes: &[u8; 18]) -> Result<(), AllocError>
    ensures { OnOk result (out.new.items ≡ out.old.items ++ ids_text bytes.now) }
{
    push_word(alloc, out, bytes, 8)?;
    out.extend_from_slice(b":")?;
    push_word(alloc, out, bytes, 10)?;
    out.extend_from_slice(b" ")
}

/// Adds the word whose low byte is at the index, in four digits.
fn push_word(alloc: Global, out: &mut Vec<u8>, bytes: &[u8], at: usize) -> Result<(), AllocError>
    requires { at + 1 < length bytes.now }
    ensures { OnOk result (out.new.items ≡ out.old.items ++ word_digits bytes.now at) }
{
    let word: &[u8] = &[bytes[at + 1], bytes[at]];
    out.extend_from_slice(hex::encode(alloc, word)?.as_bytes())
}

/// Adds what a configuration draws, of what its port gives where that is known.
fn push_power(out: &mut Vec<u8>, granted: Option<u16>, drawn: u16) -> Result<(), AllocError>
    ensures { OnOk result (out.new.items ≡ out.old.items ++ power_text granted drawn) }
{
    out.extend_from_slice(b"  ")?;
    push_decimal(out, u64::from(drawn))?;
    if let Some(granted) = granted {
        out.extend_from_slice(b" of ")?;
        push_decimal(out, u64::from(granted))?;
    }
    out.extend_from_slice(b" mA")
}
