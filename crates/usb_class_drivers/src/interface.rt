//! What a driver looks for in a configuration: an interface, and its endpoints (9.6.5, 9.6.6).
ghost use Rattle.std.specs.Prelude.{◌≡◌, None};
ghost use Rattle.usb_descriptor.specs.Item.{items_of};
ghost use Rattle.usb_host.specs.Numbers.{device_in};
ghost use Rattle.usb_host.specs.Progress.{known_in};
ghost use Rattle.usb_class_drivers.specs.Interfaces.{end_of, found_from, interface_at, moves_as};
ghost use Rattle.usb_class_drivers.specs.Interfaces.{opened, with_end};

use crate::found::{End, Interface, Kind, PacketSize};
use usb_bus::Bus;
use usb_descriptor::{ConfigView, EndpointKind, EndpointView, InterfaceView, Item, TransferType};
use usb_host::{Host, PortPath};
use usb_request::EndpointAddress;

/// The first interface of a kind, in its setting 0, of the device at a path.
pub(crate) fn interface_of<B: Bus>(host: &Host<B>, path: &PortPath, kind: Kind) -> Option<Interface>
    ensures { result ≡ interface_at kind (device_in path.now (known_in host.now)) }
{
    let device = host.device(path)?;
    let text = device.accepted().configuration();
    interface_in(&ConfigView::known(text.as_slice()), kind)
}

/// The first interface of a kind, in its setting 0, of a configuration.
#[tactic(auto, unfolding(crate::specs::Interfaces::found_from))]
fn interface_in(text: &ConfigView<'_>, kind: Kind) -> Option<Interface>
    ensures { result ≡ found_from kind None (items_of text.now) }
{
    let mut found = None;
    'items: for item in text.items() {
        match (item, found) {
            (Item::Interface(_), Some(_)) => return found,
            (Item::Interface(interface), None) => found = opened(kind, &interface),
            (Item::Endpoint(endpoint), Some(interface)) => {
                found = Some(interface.with(end_of(kind.transfer, &endpoint)));
            }
            _ => {}
        }
    }
    found
}

/// An interface of the kind, in its setting 0, with no endpoint so far.
fn opened(kind: Kind, interface: &InterfaceView<'_>) -> Option<Interface>
    ensures { result ≡ opened kind interface.now }
{
    let is_kind = interface.class() == kind.class
        && interface.subclass() == kind.subclass
        && interface.protocol() == kind.protocol
        && interface.alternate_setting() == 0;
    if is_kind {
        Some(Interface {
            number: interface.number(),
            into: None,
            out: None,
        })
    } else {
        None
    }
}

impl Interface {
    /// The interface with another endpoint, unless it has one of its direction.
    fn with(self, end: Option<End>) -> Interface
        ensures { result ≡ with_end end self }
    {
        match end {
            Some(end) if end.address.is_in() => Interface {
                into: self.into.or(Some(end)),
                ..self
            },
            Some(end) => Interface {
                out: self.out.or(Some(end)),
                ..self
            },
            None => self,
        }
    }
}

/// An endpoint, if it moves data as was looked for.
fn end_of(transfer: EndpointKind, endpoint: &EndpointView<'_>) -> Option<End>
    ensures { result ≡ end_of transfer endpoint.now }
{
    if !moves_as(transfer, endpoint.transfer_type()) {
        return None;
    }
    let most = PacketSize::new(endpoint.max_packet())?;
    let address = EndpointAddress::new(endpoint.address())?;
    Some(End { address, most })
}

/// Whether an endpoint moves data as was looked for.
fn moves_as(wanted: EndpointKind, transfer: TransferType) -> bool
    ensures { result ≡ moves_as wanted transfer }
{
    match transfer {
        TransferType::Bulk => wanted == EndpointKind::Bulk,
        TransferType::Interrupt => wanted == EndpointKind::Interrupt,
        TransferType::Control | TransferType::Isochronous => false,
    }
}
