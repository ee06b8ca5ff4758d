//! The endpoints of a configuration that a pipe can use, each by its number and its direction
//! (sections 5.7.3, 5.8.3, 9.6.6).
ghost use Rattle.std.specs.Prelude.{◌≡◌, ◌≤◌, None};
ghost use Rattle.std.specs.Option.{IfSome};
ghost use Rattle.usb_descriptor.specs.Item.{items_of};
ghost use Rattle.usb_descriptor.specs.declared.item.Item.TheVariants.{Interface as AnInterface};
ghost use Rattle.usb_descriptor.specs.Choice.{IsUsable};
ghost use Rattle.usb_descriptor.specs.Usable.{IsPipeMost, IsTableOf, TakesItem, as_usable, counting_of, inside_after, usable_at, usable_item, usable_under};

use crate::choice::{bulk_at, interrupt_at};
use crate::config::ConfigView;
use crate::item::{EndpointView, InterfaceView, Item};
use crate::settings::Settings;
use std::marker::Model;

/// How an endpoint moves data.
#[derive(Clone, Copy, Debug, PartialEq, Eq)]
pub enum EndpointKind {
    /// In bulk (section 5.8).
    Bulk,
    /// By interrupts (section 5.7).
    Interrupt,
}

/// An endpoint that a pipe can use.
#[derive(Clone, Copy, Debug, PartialEq, Eq)]
pub struct UsableEndpoint {
    /// How it moves data.
    pub kind: EndpointKind,
    /// The most data bytes of its packets, 1 to 64.
    pub max: u8,
    /// The number of the interface that it belongs to.
    pub interface: u8,
}

/// How many endpoints a direction has room for, endpoint 0 included (section 9.6.6).
const ENDPOINTS: usize = 16;

/// The endpoints that a pipe can use, by their directions and numbers.
#[derive(Clone, Copy, Debug)]
pub struct UsableEndpoints {
    outs: [Option<UsableEndpoint>; 16],
    ins: [Option<UsableEndpoint>; 16],
}

impl Model for UsableEndpoints {
    ghost use Rattle.std.specs.Prelude.{◌≡◌, length, All};
    ghost use Rattle.std.specs.Option.{IfSome};
    ghost use Rattle.usb_descriptor.specs.Usable.{EndpointTable, IsPipeMost};

    ghost Value = { EndpointTable };

    ghost view = { λ t. record { outs = t.outs; ins = t.ins } };

    ghost invariant = { λ t. (length t.outs ≡ 16) × (length t.ins ≡ 16)
        × All (λ end. IfSome end IsPipeMost) t.outs × All (λ end. IfSome end IsPipeMost) t.ins };

    ghost inverse = { λ t. record { outs = t.outs; ins = t.ins } };
}

/// An endpoint of an interface, with its number and its maximum, as a pipe can use it.
fn as_usable(kind: EndpointKind, interface: u8, end: Option<(u8, u8)>) -> Option<UsableEndpoint>
    requires { IfSome end IsUsable }
    ensures value { result ≡ as_usable kind interface end }
    ensures most { IfSome result IsPipeMost }
{
    let (_, max) = end?;
    Some(UsableEndpoint {
        kind,
        max,
        interface,
    })
}

/// What an endpoint of an interface is to a pipe, whatever its address.
fn usable_item(low: bool, interface: u8, endpoint: &EndpointView<'_>) -> Option<UsableEndpoint>
    ensures value { result ≡ usable_item low interface endpoint.now }
    ensures most { IfSome result IsPipeMost }
{
    let kind = EndpointKind::Interrupt;
    let interrupt = as_usable(kind, interface, interrupt_at(low, endpoint));
    if low {
        return interrupt;
    }
    match as_usable(EndpointKind::Bulk, interface, bulk_at(endpoint)) {
        Some(bulk) => Some(bulk),
        None => interrupt,
    }
}

/// Of two endpoints with one address the one that counts.
fn counting_of(had: Option<UsableEndpoint>, found: Option<UsableEndpoint>) -> Option<UsableEndpoint>
    requires had { IfSome had IsPipeMost }
    requires found { IfSome found IsPipeMost }
    ensures value { result ≡ counting_of had found }
    ensures most { IfSome result IsPipeMost }
{
    match (had, found) {
        (None, found) => found,
        (Some(had), None) => Some(had),
        (Some(had), Some(found)) => match (had.kind, found.kind) {
            (EndpointKind::Interrupt, EndpointKind::Bulk) => Some(found),
            _ => Some(had),
        },
    }
}

impl UsableEndpoints {
    ghost use Rattle.std.specs.Prelude.{◌≡◌, ◌<◌, None};
    ghost use Rattle.std.specs.Option.{IfSome};
    ghost use Rattle.usb_descriptor.specs.Usable.{IsPipeMost, end_at};

    /// No endpoints.
    pub fn none() -> Self
        ensures { IsTableOf (λ to_host e. None) result }
    {
        UsableEndpoints {
            outs: [None; ENDPOINTS],
            ins: [None; ENDPOINTS],
        }
    }

    /// The endpoint with a direction and a number, if there is one.
    pub fn get(&self, number: u8, is_in: bool) -> Option<UsableEndpoint>
        ensures value { result ≡ end_at self.now is_in number }
        ensures number { IfSome result (λ end. number < 16) }
        ensures most { IfSome result IsPipeMost }
    {
        let number = usize::from(number);
        if number >= ENDPOINTS {
            None
        } else if is_in {
            self.ins[number]
        } else {
            self.outs[number]
        }
    }

    /// Takes another endpoint of an interface into the table.
    fn take(&mut self, low: bool, interface: u8, endpoint: &EndpointView<'_>)
        ensures { TakesItem low interface endpoint.now self.old self.new }
    {
        let number = usize::from(endpoint.number());
        let found = usable_item(low, interface, endpoint);
        if endpoint.is_in() {
            self.ins[number] = counting_of(self.ins[number], found);
        } else {
            self.outs[number] = counting_of(self.outs[number], found);
        }
    }
}

/// The interface to which the endpoints after an interface item belong, if they count.
fn inside_after(settings: &Settings, interface: &InterfaceView<'_>) -> Option<u8>
    ensures { result ≡ inside_after settings.now None (AnInterface interface.now) }
{
    if interface.alternate_setting() == settings.get(interface.number()) {
        Some(interface.number())
    } else {
        None
    }
}

impl ConfigView<'_> {
    /// The endpoints that a pipe can use, of a device of low or of full speed, while its interfaces
    /// have these alternate settings. Of the items with one address the first bulk item counts,
    /// else the first interrupt item.
    pub fn usable_endpoints(&self, low: bool, settings: &Settings) -> UsableEndpoints
        ensures items { IsTableOf (λ to_host e.
            usable_at settings.now low to_host e (items_of self.now)) result }
        ensures text { IsTableOf (λ to_host e.
            usable_under settings.now low to_host e self.now) result }
    {
        let mut table = UsableEndpoints::none();
        let mut inside = None;
        for item in self.items() {
            match item {
                Item::Interface(interface) => inside = inside_after(settings, &interface),
                Item::Endpoint(endpoint) => {
                    if let Some(interface) = inside {
                        table.take(low, interface, &endpoint);
                    }
                }
                Item::Other(_) => {}
            }
        }
        table
    }
}
