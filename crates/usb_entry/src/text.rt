//! The table of a device, and its lines.
ghost use Rattle.std.specs.Prelude.{◌≡◌, ◌++◌, flat_map, IfOk, OnOk};
ghost use Rattle.usb_entry.specs.Speed.{is_taken_low};
ghost use Rattle.usb_entry.specs.Text.{configuration_lines, descriptor_line, entry_codes, entry_text, first_config_codes, has_ports, head_line, identity_lines, maker_text, is_self_powered, ports_line, power_line, product_text, speed_line, known_speed_line};

use crate::entry::{Configuration, Entry};
use crate::item::push_items;
use crate::name::{push_name, push_string};
use crate::notes::{LinuxSpeed, Notes};
use crate::piece::{push_comment, push_decimal, push_digits, push_key, push_text, push_word};
use crate::speed::is_taken_low;
use std::alloc::{AllocError, Global};
use usb_descriptor::{ClassCodes, first_codes, push_class};
use usb_request::class_code::HUB_CLASS;

/// The codes of the first interface of the first configuration; 0 each if there is none.
fn first_config_codes(configs: &[Configuration<'_>]) -> ClassCodes
    ensures { result ≡ first_config_codes configs.now }
{
    match configs.first() {
        Some(config) => first_codes(config.view()),
        None => ClassCodes {
            class: 0,
            subclass: 0,
            protocol: 0,
        },
    }
}

/// The codes of a device, or where its class is 0 those of its first interface.
fn entry_codes(entry: &Entry<'_>) -> ClassCodes
    ensures { result ≡ entry_codes entry.now }
{
    let device = entry.device().view();
    if device.class() == 0 {
        return first_config_codes(entry.configs());
    }
    ClassCodes {
        class: device.class(),
        subclass: device.subclass(),
        protocol: device.protocol(),
    }
}

/// Adds the product, if Linux names one.
fn push_product(alloc: Global, out: &mut Vec<u8>, product: Option<&str>) -> Result<(), AllocError>
    ensures { OnOk result (out.new.items ≡ out.old.items ++ product_text product.entry) }
{
    match product {
        Some(product) => {
            push_text(out, ", product ")?;
            push_string(alloc, out, product)
        }
        None => Ok(()),
    }
}

/// Adds idVendor and idProduct.
#[tactic(auto, unfolding(crate::specs::Text::maker_text))]
fn push_maker(alloc: Global, out: &mut Vec<u8>, entry: &Entry<'_>) -> Result<(), AllocError>
    ensures { OnOk result (out.new.items ≡ out.old.items ++ maker_text entry.now) }
{
    let device = entry.device().as_slice();
    push_text(out, "# ")?;
    push_word(alloc, out, device, 8)?;
    push_text(out, ":")?;
    push_word(alloc, out, device, 10)
}

/// Adds idVendor, idProduct, the class and the product.
#[tactic(auto, unfolding(crate::specs::Text::head_line))]
fn push_head(
    alloc: Global,
    out: &mut Vec<u8>,
    product: Option<&str>,
    entry: &Entry<'_>,
) -> Result<(), AllocError>
    ensures { OnOk result (out.new.items ≡ out.old.items ++ head_line product.entry entry.now) }
{
    push_maker(alloc, out, entry)?;
    push_text(out, " ")?;
    push_class(alloc, out, entry_codes(entry))?;
    push_product(alloc, out, product)?;
    push_text(out, "\n")
}

/// The line of a speed that is taken from the descriptors; a comment marks low speed, which may be
/// wrong.
#[tactic(auto, unfolding(crate::specs::Text::speed_line))]
fn speed_line(low: bool) -> &'static str
    ensures { result.now ≡ speed_line low }
{
    if low {
        "speed = \"low\" # no packet has more than 8 bytes; \"full\" if the device is of full speed\n"
    } else {
        "speed = \"full\"\n"
    }
}

/// The line of the speed that Linux has, or else of the one that the device is taken to have.
#[tactic(auto, unfolding(crate::specs::Text::known_speed_line))]
fn known_speed_line(speed: Option<LinuxSpeed>, entry: &Entry<'_>) -> &'static str
    ensures { result.now ≡ known_speed_line speed entry.now }
{
    match speed {
        Some(LinuxSpeed::Low) => "speed = \"low\"\n",
        Some(LinuxSpeed::Full) => "speed = \"full\"\n",
        None => speed_line(is_taken_low(entry)),
    }
}

/// Adds the line of the speed that Linux has, or that the device is taken to have.
fn push_speed(
    out: &mut Vec<u8>,
    speed: Option<LinuxSpeed>,
    entry: &Entry<'_>,
) -> Result<(), AllocError>
    ensures { OnOk result (out.new.items ≡ out.old.items ++ known_speed_line speed entry.now) }
{
    push_text(out, known_speed_line(speed, entry))
}

/// Adds the line of the device descriptor, in hexadecimal digits.
#[tactic(auto, unfolding(crate::specs::Text::descriptor_line))]
fn push_descriptor(alloc: Global, out: &mut Vec<u8>, entry: &Entry<'_>) -> Result<(), AllocError>
    ensures { OnOk result (out.new.items ≡ out.old.items ++ descriptor_line entry.now.device) }
{
    push_key(out, "descriptor")?;
    push_text(out, "\"")?;
    push_digits(alloc, out, entry.device().as_slice())?;
    push_text(out, "\"\n")
}

/// Adds what a configuration is, in comments, and its bytes.
#[tactic(auto, unfolding(crate::specs::Text::configuration_lines))]
fn push_config(
    alloc: Global,
    out: &mut Vec<u8>,
    config: &Configuration<'_>,
) -> Result<(), AllocError>
    ensures { OnOk result (out.new.items ≡ out.old.items ++ configuration_lines config.now) }
{
    let view = config.view();
    push_comment(out, "configuration ")?;
    push_decimal(alloc, out, u16::from(view.value()))?;
    push_text(out, ": ")?;
    push_decimal(alloc, out, 2 * u16::from(view.max_power()))?;
    push_text(out, " mA\n")?;
    push_items(alloc, out, view)?;
    push_text(out, "  \"")?;
    push_digits(alloc, out, config.as_slice())?;
    push_text(out, "\",\n")
}

/// Adds the lines of each configuration.
fn push_configs(
    alloc: Global,
    out: &mut Vec<u8>,
    configs: &[Configuration<'_>],
) -> Result<(), AllocError>
    ensures { OnOk result (out.new.items
        ≡ out.old.items ++ flat_map configuration_lines configs.now) }
{
    'configs: for config in configs {
        push_config(alloc, out, config)?;
    }
    Ok(())
}

/// Whether a device is a hub: its class is that of hubs, and Linux does not have it at low speed,
/// which no hub has (section 11.1).
fn has_ports(speed: Option<LinuxSpeed>, entry: &Entry<'_>) -> bool
    ensures { result ≡ has_ports speed entry.now.device }
{
    match speed {
        Some(LinuxSpeed::Low) => false,
        Some(LinuxSpeed::Full) | None => entry.device().view().class() == HUB_CLASS,
    }
}

/// Adds how many ports a hub has.
#[tactic(auto, unfolding(crate::specs::Text::ports_line))]
fn push_ports(
    alloc: Global,
    out: &mut Vec<u8>,
    speed: Option<LinuxSpeed>,
    entry: &Entry<'_>,
    ports: u8,
) -> Result<(), AllocError>
    ensures { OnOk result
        (out.new.items ≡ out.old.items ++ ports_line speed entry.now.device ports) }
{
    if !has_ports(speed, entry) {
        return Ok(());
    }
    push_key(out, "ports")?;
    push_decimal(alloc, out, u16::from(ports))?;
    push_text(out, " # how many it has is not in these descriptors\n")
}

/// Whether the first configuration has power of its own: bit 6 of bmAttributes (section 9.6.3).
fn is_self_powered(configs: &[Configuration<'_>]) -> bool
    ensures { result ≡ is_self_powered configs.now }
{
    match configs.first() {
        Some(config) => config.view().attributes() % 128 >= 64,
        None => false,
    }
}

/// The line of a device with power of its own; nothing for any other.
fn power_line(self_powered: bool) -> &'static str
    ensures { result.now ≡ power_line self_powered }
{
    if self_powered {
        "self_powered = true\n"
    } else {
        ""
    }
}

/// Adds what the device is: its name, its speed, its descriptor.
#[tactic(auto, unfolding(crate::specs::Text::identity_lines))]
fn push_identity(
    alloc: Global,
    out: &mut Vec<u8>,
    name: &str,
    notes: &Notes<'_>,
    entry: &Entry<'_>,
) -> Result<(), AllocError>
    ensures { OnOk result (out.new.items
        ≡ out.old.items ++ identity_lines name.now notes.now entry.now) }
{
    push_head(alloc, out, notes.product, entry)?;
    push_text(out, "[[device]]\n")?;
    push_name(alloc, out, name)?;
    push_speed(out, notes.speed, entry)?;
    push_descriptor(alloc, out, entry)
}

/// The `[[device]]` table of a plan whose device has this name and these bytes, with comments on what they say.
///
/// The descriptors do not have the speed. If the notes do not have it, it is `low` for a device that is no hub and
/// whose packets have at most 8 bytes, on control and interrupt endpoints alone. Nor do the descriptors have the number
/// of ports of a hub: a plan takes 1 to 7, and with `wide_hubs` 1 to 15. A device of low speed is not a hub (11.1).
///
/// # Errors
///
/// Memory was refused.
#[tactic(auto, unfolding(crate::specs::Text::entry_text))]
pub fn entry_text(
    alloc: Global,
    name: &str,
    ports: u8,
    notes: &Notes<'_>,
    entry: &Entry<'_>,
) -> Result<Vec<u8>, AllocError>
    ensures { IfOk result (λ text. text.items ≡ entry_text name.now ports notes.now entry.now) }
{
    let mut text = Vec::new(alloc);
    push_identity(alloc, &mut text, name, notes, entry)?;
    push_text(&mut text, "configs = [\n")?;
    push_configs(alloc, &mut text, entry.configs())?;
    push_text(&mut text, "]\n")?;
    push_ports(alloc, &mut text, notes.speed, entry, ports)?;
    push_text(&mut text, power_line(is_self_powered(entry.configs())))?;
    Ok(text)
}
