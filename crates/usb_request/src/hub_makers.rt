//! A maker for each request to a hub as a whole (11.24.2).
ghost use Rattle.std.specs.Prelude.{◌≡◌};
ghost use Rattle.usb_request.specs.Layout.{IsToHost, IsToDevice};
ghost use Rattle.usb_request.specs.HubRequests.{get_hub_status, clear_hub_feature};

use crate::Setup;
use crate::request_code::{CLEAR_FEATURE, GET_STATUS};
use crate::request_type::HUB_IN;

/// bmRequestType: to the device, class, device: a hub as a whole.
const HUB_OUT: u8 = 0x20;

impl Setup {
    /// GetHubStatus (11.24.2.6): four bytes, wHubStatus and wHubChange.
    #[tactic(auto, unfolding(crate::specs::HubRequests::get_hub_status))]
    pub fn get_hub_status() -> Setup
        ensures setup { result ≡ get_hub_status }
        ensures direction { IsToHost result }
        ensures data_length { result.length ≡ 4 }
    {
        Setup {
            request_type: HUB_IN,
            request: GET_STATUS,
            value: 0,
            index: 0,
            length: 4,
        }
    }

    /// ClearHubFeature (11.24.2.1).
    #[tactic(auto, unfolding(crate::specs::HubRequests::clear_hub_feature))]
    pub fn clear_hub_feature(feature: u16) -> Setup
        ensures setup { result ≡ clear_hub_feature feature }
        ensures direction { IsToDevice result }
        ensures data_length { result.length ≡ 0 }
    {
        Setup {
            request_type: HUB_OUT,
            request: CLEAR_FEATURE,
            value: feature,
            index: 0,
            length: 0,
        }
    }
}
