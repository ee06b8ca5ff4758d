//! The speed that a device is taken to have, which its descriptors do not tell.
ghost use Rattle.std.specs.Prelude.{◌≡◌};
ghost use Rattle.usb_descriptor.specs.Item.{items_of};
ghost use Rattle.usb_entry.specs.Speed.{configs_fit, fits_low_speed, is_taken_low, item_fits, items_fit};

use crate::entry::{Configuration, Entry};
use usb_descriptor::{ConfigView, EndpointView, Item, TransferType};
use usb_request::class_code::HUB_CLASS;

/// The longest packet at low speed, in bytes (sections 5.5.3, 5.7.3).
const LOW_SPEED_PACKET: u16 = 8;

/// An endpoint that low speed has: for control or interrupt transfers, of packets of at most 8 bytes.
fn fits_low_speed(endpoint: &EndpointView<'_>) -> bool
    ensures { result ≡ fits_low_speed endpoint.now }
{
    match endpoint.transfer_type() {
        TransferType::Control | TransferType::Interrupt => {
            endpoint.max_packet() <= LOW_SPEED_PACKET
        }
        TransferType::Isochronous | TransferType::Bulk => false,
    }
}

/// Whether low speed may have the item: if it is an endpoint, that must fit.
fn item_fits(item: &Item<'_>) -> bool
    ensures { result ≡ item_fits item.now }
{
    match item {
        Item::Endpoint(endpoint) => fits_low_speed(endpoint),
        Item::Interface(_) | Item::Other(_) => true,
    }
}

/// Whether each endpoint of a configuration fits low speed.
fn items_fit(config: &ConfigView<'_>) -> bool
    ensures { result ≡ items_fit (items_of config.now) }
{
    for item in config.items() {
        if !item_fits(&item) {
            return false;
        }
    }
    true
}

/// Whether each endpoint of all configurations fits low speed.
fn configs_fit(configs: &[Configuration<'_>]) -> bool
    ensures { result ≡ configs_fit configs.now }
{
    configs.iter().all(|config| items_fit(config.view()))
}

/// Whether a device is taken to be of low speed: it is no hub, and all its endpoints fit low speed, endpoint 0 too.
#[tactic(auto, unfolding(crate::specs::Speed::is_taken_low))]
pub(crate) fn is_taken_low(entry: &Entry<'_>) -> bool
    ensures { result ≡ is_taken_low entry.now }
{
    let device = entry.device().view();
    u16::from(device.max_packet()) == LOW_SPEED_PACKET
        && device.class() != HUB_CLASS
        && configs_fit(entry.configs())
}
