//! How long a packet of an OUT endpoint may be.
ghost use Rattle.std.specs.Prelude.{◌≡◌, option_map};
ghost use Rattle.std.specs.List.{list_any};
ghost use Rattle.usb_descriptor.specs.Item.{items_of};
ghost use Rattle.usb_judge.specs.Holders.{control_most, has_out_for, is_out_for, is_over};
ghost use Rattle.usb_judge.specs.Holders.{is_too_long};

use crate::PluggedDevice;
use usb_descriptor::{ConfigView, Item, read_config};

/// The most data of a packet of endpoint 0, in bytes (5.5.3, 9.6.1).
fn control_most(device: &PluggedDevice<'_>) -> usize
    ensures { result ≡ control_most device.now }
{
    match device.descriptor.get(7) {
        Some(16) if !device.low => 16,
        Some(32) if !device.low => 32,
        Some(64) if !device.low => 64,
        _ => 8,
    }
}

/// Whether the item is an OUT endpoint with this number, whose packets may have that many bytes.
fn is_out_for(number: u8, bytes: usize, item: &Item<'_>) -> bool
    ensures { result ≡ is_out_for number bytes item.now }
{
    match item {
        Item::Endpoint(endpoint) => {
            !endpoint.is_in()
                && endpoint.number() == number
                && bytes <= usize::from(endpoint.max_packet() % 2048)
        }
        Item::Interface(_) | Item::Other(_) => false,
    }
}

/// Whether some OUT endpoint with this number, in any setting, takes that many bytes in a packet.
fn has_out(number: u8, bytes: usize, config: &ConfigView<'_>) -> bool
    ensures { result ≡ list_any (is_out_for number bytes) (items_of config.now) }
{
    'items: for item in config.items() {
        if is_out_for(number, bytes, &item) {
            return true;
        }
    }
    false
}

/// Whether the text is a configuration that has such an endpoint, in some setting.
fn has_out_for(number: u8, bytes: usize, text: &[u8]) -> bool
    ensures { result ≡ has_out_for number bytes text.now }
{
    match read_config(text) {
        Ok(config) => has_out(number, bytes, &config),
        Err(_) => false,
    }
}

/// Whether the configuration has an OUT endpoint with this number, and none whose packets may have
/// that many bytes.
fn is_over(number: u8, bytes: usize, configuration: Option<&[u8]>) -> bool
    ensures { result ≡ is_over number bytes (option_map (λ text. text.now) configuration.entry) }
{
    match configuration {
        Some(text) => has_out_for(number, 0, text) && !has_out_for(number, bytes, text),
        None => false,
    }
}

/// Whether that many bytes are more than the maximum packet of the endpoint with this number.
pub(crate) fn is_too_long(device: &PluggedDevice<'_>, number: u8, bytes: usize) -> bool
    ensures { result ≡ is_too_long device.now number bytes }
{
    if number == 0 {
        bytes > control_most(device)
    } else {
        is_over(number, bytes, device.configuration)
    }
}
