//! What is said of the interfaces and endpoints of a configuration.
ghost use Rattle.std.specs.Prelude.{◌≡◌, ◌++◌, flat_map, OnOk};
ghost use Rattle.usb_descriptor.specs.Choice.{is_bulk_size, packet_size};
ghost use Rattle.usb_descriptor.specs.Item.{items_of, max_packet_size, transfer_of};
ghost use Rattle.usb_entry.specs.Text.{direction_word, endpoint_line, interface_line, is_misfit, item_line, misfit_text, setting_text, transfer_word};

use crate::piece::{push_comment, push_decimal, push_text};
use std::alloc::{AllocError, Global};
use usb_descriptor::{
    ConfigView, EndpointView, InterfaceView, Item, TransferType, interface_codes, push_class,
};

/// Adds the number of an alternate setting, but of the one in which a device begins.
#[tactic(auto, unfolding(crate::specs::Text::setting_text))]
fn push_setting(alloc: Global, out: &mut Vec<u8>, setting: u8) -> Result<(), AllocError>
    ensures { OnOk result (out.new.items ≡ out.old.items ++ setting_text setting) }
{
    if setting == 0 {
        return Ok(());
    }
    push_text(out, ", setting ")?;
    push_decimal(alloc, out, u16::from(setting))
}

/// Adds the comment line of an interface: its number, its alternate setting unless 0, and its
/// class.
#[tactic(auto, unfolding(crate::specs::Text::interface_line))]
fn push_interface(
    alloc: Global,
    out: &mut Vec<u8>,
    interface: &InterfaceView<'_>,
) -> Result<(), AllocError>
    ensures { OnOk result (out.new.items ≡ out.old.items ++ interface_line interface.now) }
{
    push_comment(out, "interface ")?;
    push_decimal(alloc, out, u16::from(interface.number()))?;
    push_setting(alloc, out, interface.alternate_setting())?;
    push_text(out, ": ")?;
    push_class(alloc, out, interface_codes(interface))?;
    push_text(out, "\n")
}

/// The direction of an endpoint, in words.
fn direction_word(is_in: bool) -> &'static str
    ensures { result.now ≡ direction_word is_in }
{
    if is_in { " in: " } else { " out: " }
}

/// The type of an endpoint's transfers, in a word (9.6.6).
fn transfer_word(transfer: TransferType) -> &'static str
    ensures { result.now ≡ transfer_word transfer }
{
    match transfer {
        TransferType::Control => "control",
        TransferType::Isochronous => "isochronous",
        TransferType::Bulk => "bulk",
        TransferType::Interrupt => "interrupt",
    }
}

/// The low eleven bits of wMaxPacketSize (section 9.6.6).
fn packet_size(endpoint: &EndpointView<'_>) -> u16
    ensures { result ≡ packet_size endpoint.now }
{
    endpoint.max_packet() % 2048
}

/// A maximum packet of a bulk endpoint at full speed (section 5.8.3).
fn is_bulk_size(size: u16) -> bool
    ensures { result ≡ is_bulk_size size }
{
    matches!(size, 8 | 16 | 32 | 64)
}

/// Whether full speed has no packets of the endpoint's size (sections 5.5.3, 5.6.3, 5.7.3, 5.8.3).
fn is_misfit(endpoint: &EndpointView<'_>) -> bool
    ensures { result ≡ is_misfit (transfer_of endpoint.now) endpoint.now }
{
    match endpoint.transfer_type() {
        TransferType::Bulk => !is_bulk_size(endpoint.max_packet()),
        TransferType::Isochronous => packet_size(endpoint) > 1023,
        TransferType::Control | TransferType::Interrupt => packet_size(endpoint) > 64,
    }
}

/// The remark on a packet size that full speed does not have; nothing for any other size.
fn misfit_text(misfit: bool) -> &'static str
    ensures { result.now ≡ misfit_text misfit }
{
    if misfit {
        ", no size of full speed: the host leaves it unused"
    } else {
        ""
    }
}

/// Adds the comment line of an endpoint: its number, direction, transfer type and packet size.
#[tactic(auto, unfolding(crate::specs::Text::endpoint_line))]
fn push_endpoint(
    alloc: Global,
    out: &mut Vec<u8>,
    endpoint: &EndpointView<'_>,
) -> Result<(), AllocError>
    ensures { OnOk result (out.new.items ≡ out.old.items ++ endpoint_line endpoint.now) }
{
    push_comment(out, "endpoint ")?;
    push_decimal(alloc, out, u16::from(endpoint.number()))?;
    push_text(out, direction_word(endpoint.is_in()))?;
    push_text(out, transfer_word(endpoint.transfer_type()))?;
    push_text(out, ", ")?;
    push_decimal(alloc, out, packet_size(endpoint))?;
    push_text(out, " bytes")?;
    push_text(out, misfit_text(is_misfit(endpoint)))?;
    push_text(out, "\n")
}

/// Adds the comment line of an interface or an endpoint; any other item has none.
fn push_item(alloc: Global, out: &mut Vec<u8>, item: &Item<'_>) -> Result<(), AllocError>
    ensures { OnOk result (out.new.items ≡ out.old.items ++ item_line item.now) }
{
    match item {
        Item::Interface(interface) => push_interface(alloc, out, interface),
        Item::Endpoint(endpoint) => push_endpoint(alloc, out, endpoint),
        Item::Other(_) => Ok(()),
    }
}

/// Adds a line for each interface and each endpoint.
pub(crate) fn push_items(
    alloc: Global,
    out: &mut Vec<u8>,
    config: &ConfigView<'_>,
) -> Result<(), AllocError>
    ensures { OnOk result
        (out.new.items ≡ out.old.items ++ flat_map item_line (items_of config.now)) }
{
    for item in config.items() {
        push_item(alloc, out, &item)?;
    }
    Ok(())
}
