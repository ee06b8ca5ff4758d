//! A whole attempt at one device, of which nothing is damaged (8.5).
ghost use Rattle.std.specs.Prelude.{◌≡◌};
ghost use Rattle.usb_device.specs.Delivery.{is_heard};
ghost use Rattle.usb_device.specs.AloneAttempts.{no_side, token_sent};

use crate::effect::Effect;
use usb_packet::TokenKind;

/// What the host has to say in an attempt, of which nothing is damaged.
///
/// `low` says that its token and its ACK are at low speed, `pre` that PRE goes before each of them.
/// It takes data of at most `max` bytes, and then answers by its ACK. Its own data are beside.
#[derive(Clone, Copy, Debug)]
pub struct HostSide {
    pub low: bool,
    pub pre: bool,
    pub kind: TokenKind,
    pub addr: u8,
    pub ep: u8,
    pub max: u8,
}

/// What became of an attempt at a device.
#[derive(Clone, Copy, Debug)]
pub struct DeviceSide {
    /// The host took data, and sent its ACK.
    pub acknowledged: bool,
    /// What the device asked of its ports.
    pub effect: Effect,
    /// The device awaits the ACK that would end its SET_ADDRESS, though the host sent one (9.4.6).
    pub address_lost: bool,
    /// Its address then; None if no device was there.
    pub address: Option<u8>,
}

impl DeviceSide {
    /// Of no device.
    pub fn nobody() -> Self
        ensures { result ≡ no_side }
    {
        DeviceSide {
            acknowledged: false,
            effect: Effect::Leaves,
            address_lost: false,
            address: None,
        }
    }
}

impl HostSide {
    /// Whether a device of a speed hears its token and its ACK; it is `deep` on a port of a hub.
    pub fn is_heard(&self, deep: bool, low: bool) -> bool
        ensures { result ≡ is_heard (token_sent self.now) deep low }
    {
        if self.low {
            low && (!deep || self.pre)
        } else {
            !low
        }
    }
}
