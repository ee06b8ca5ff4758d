//! The interfaces of a configuration, their settings and the addresses that these name (section
//! 9.2.3).
ghost use Rattle.std.specs.Prelude.{◌≡◌, ◌<◌, ℕ, Ok, true};
ghost use Rattle.usb_descriptor.specs.Config.{config_of};
ghost use Rattle.usb_descriptor.specs.Item.{items_of};
ghost use Rattle.usb_descriptor.specs.Interfaces.{has_interface, has_setting, is_apart, is_apart_at, is_interface, is_named, is_setting, is_settable, is_shared, names, names_elsewhere, names_in, settable_in};

use crate::config::ConfigView;
use crate::item::Item;

/// How many numbers an endpoint of a direction can have (section 9.6.6).
const ENDPOINTS: u8 = 16;

/// Whether the item begins a setting of the interface with this number.
fn is_interface(interface: u16, item: &Item<'_>) -> bool
    ensures value { result ≡ is_interface interface item.now }
    ensures bound { result ≡ true → interface < 256 }
{
    match item {
        Item::Interface(found) => u16::from(found.number()) == interface,
        Item::Endpoint(_) | Item::Other(_) => false,
    }
}

/// Whether the item begins this setting of it.
fn is_setting(interface: u16, setting: u16, item: &Item<'_>) -> bool
    ensures value { result ≡ is_setting interface setting item.now }
    ensures bounds { result ≡ true → (interface < 256) × (setting < 256) }
{
    match item {
        Item::Interface(found) => {
            u16::from(found.number()) == interface
                && u16::from(found.alternate_setting()) == setting
        }
        Item::Endpoint(_) | Item::Other(_) => false,
    }
}

/// Whether the item is an endpoint with this number and direction.
fn is_named(number: u8, is_in: bool, item: &Item<'_>) -> bool
    ensures { result ≡ is_named is_in number item.now }
{
    match item {
        Item::Endpoint(endpoint) => endpoint.is_in() == is_in && endpoint.number() == number,
        Item::Interface(_) | Item::Other(_) => false,
    }
}

/// Whether there is an interface with this number and this alternate setting.
fn has_setting(config: &ConfigView<'_>, interface: u16, setting: u16) -> bool
    ensures items { result ≡ has_setting interface setting (items_of config.now) }
    ensures bounds { result ≡ true → (interface < 256) × (setting < 256) }
    ensures text { config_of config.now ≡ Ok config.now }
{
    for item in config.items() {
        if is_setting(interface, setting, &item) {
            return true;
        }
    }
    false
}

impl ConfigView<'_> {
    /// Whether there is an interface with this number, as a request names it (section 9.4).
    pub fn has_interface(&self, interface: u16) -> bool
        ensures value { result ≡ has_interface interface (items_of self.now) }
        ensures bound { result ≡ true → interface < 256 }
    {
        for item in self.items() {
            if is_interface(interface, &item) {
                return true;
            }
        }
        false
    }

    /// Whether there is an interface with this number and this alternate setting, as a request
    /// names them.
    pub fn has_setting(&self, interface: u16, setting: u16) -> bool
        ensures value { result ≡ has_setting interface setting (items_of self.now) }
        ensures bounds { result ≡ true → (interface < 256) × (setting < 256) }
    {
        has_setting(self, interface, setting)
    }

    /// Whether some setting of the interface has an endpoint with this number, 0 to 15, and this
    /// direction.
    #[tactic(auto, unfolding(crate::specs::Interfaces::names))]
    pub fn names(&self, interface: u8, number: u8, is_in: bool) -> bool
        ensures items { result ≡ names interface is_in number (items_of self.now) }
        ensures text { result ≡ names_in interface is_in number self.now }
    {
        let mut is_own = false;
        for item in self.items() {
            if is_own && is_named(number, is_in, &item) {
                return true;
            }
            if let Item::Interface(found) = item {
                is_own = found.number() == interface;
            }
        }
        false
    }

    /// Whether some setting of another interface has.
    #[tactic(auto, unfolding(crate::specs::Interfaces::names_elsewhere))]
    fn names_elsewhere(&self, interface: u8, number: u8, is_in: bool) -> bool
        ensures { result ≡ names_elsewhere interface is_in number (items_of self.now) }
    {
        let mut is_other = false;
        for item in self.items() {
            if is_other && is_named(number, is_in, &item) {
                return true;
            }
            if let Item::Interface(found) = item {
                is_other = found.number() != interface;
            }
        }
        false
    }

    /// Whether the interface shares an endpoint with this number and direction with another one.
    fn is_shared(&self, interface: u8, number: u8, is_in: bool) -> bool
        ensures { result ≡ is_shared interface is_in number (items_of self.now) }
    {
        self.names(interface, number, is_in) && self.names_elsewhere(interface, number, is_in)
    }

    /// Whether the interface shares no endpoint with this number with another one.
    fn is_apart_at(&self, interface: u8, number: u8) -> bool
        ensures { result ≡ is_apart_at interface (items_of self.now) number }
    {
        !self.is_shared(interface, number, false) && !self.is_shared(interface, number, true)
    }

    /// Whether the interface shares no endpoint with another one (section 9.2.3).
    fn is_apart(&self, interface: u8) -> bool
        ensures { result ≡ is_apart interface (items_of self.now) }
    {
        for number in 0..ENDPOINTS {
            if !self.is_apart_at(interface, number) {
                return false;
            }
        }
        true
    }

    /// Whether the interface can be given this alternate setting: it has the setting, and shares no
    /// endpoint with another interface (section 9.2.3).
    #[tactic(auto, unfolding(crate::specs::Interfaces::is_settable, crate::specs::Interfaces::settable_in))]
    pub fn is_settable(&self, interface: u8, setting: u8) -> bool
        ensures items { result ≡ is_settable interface setting (items_of self.now) }
        ensures text { result ≡ settable_in interface setting self.now }
    {
        has_setting(self, u16::from(interface), u16::from(setting)) && self.is_apart(interface)
    }
}
