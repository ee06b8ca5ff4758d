//! The requests that no driver may send.
ghost use Rattle.std.specs.Prelude.{◌≡◌};
ghost use Rattle.usb_request.specs.Reserved.{changes_kept, is_reserved};

use crate::Setup;
use crate::endpoint_address::DIRECTION_IN;
use crate::feature::ENDPOINT_HALT;
use crate::request_code::{
    CLEAR_FEATURE, SET_ADDRESS, SET_CONFIGURATION, SET_FEATURE, SET_INTERFACE,
};
use crate::request_type::{DEVICE_OUT, ENDPOINT_OUT, INTERFACE_OUT, PORT_OUT};

impl Setup {
    /// Whether the host alone may send the request, to a hub or to another device.
    ///
    /// These are SET_ADDRESS (9.4.6), SET_CONFIGURATION (9.4.7), SET_INTERFACE (9.4.10),
    /// CLEAR_FEATURE of ENDPOINT_HALT (9.4.1), and requests 1 and 3 of type 23 hex, which set the
    /// ports of a hub (11.24.2). To a hub it is each request that does not read. A request that
    /// reads is never reserved.
    #[tactic(auto, unfolding(crate::specs::Reserved::is_reserved))]
    pub fn is_reserved(&self, to_hub: bool) -> bool
        ensures { result ≡ is_reserved to_hub self.now }
    {
        self.request_type < DIRECTION_IN && (to_hub || self.changes_kept())
    }

    /// Whether it changes the address, the configuration, a setting, a toggle or a port.
    fn changes_kept(&self) -> bool
        ensures { result ≡ changes_kept self.now }
    {
        match (self.request_type, self.request) {
            (DEVICE_OUT, SET_ADDRESS | SET_CONFIGURATION) => true,
            (INTERFACE_OUT, SET_INTERFACE) => true,
            (ENDPOINT_OUT, CLEAR_FEATURE) => self.value == ENDPOINT_HALT,
            (PORT_OUT, CLEAR_FEATURE | SET_FEATURE) => true,
            _ => false,
        }
    }
}
