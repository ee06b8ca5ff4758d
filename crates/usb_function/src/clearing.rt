//! Whether a packet clears a change of connection (11.24.2.2).
ghost use Rattle.std.specs.Prelude.{◌≡◌, false};
ghost use Rattle.usb_function.specs.Places.{ports_kept};
ghost use Rattle.usb_device.specs.Delivery.{effect_of, clears_change, clears_whole, clears_in};

use crate::delivery::is_heard;
use crate::device::Device;
use crate::lent_packet::LentPacket;
use crate::ports::{Place, Ports};
use usb_device::Effect;

impl Ports {
    /// Whether a device that a packet reaches clears a change of connection at one of its ports
    /// (11.24.2.2). It has then heard the SETUP token, and the packet is the data of
    /// ClearPortFeature of C_PORT_CONNECTION. It is asked before the packet is delivered.
    pub fn clears_change(&self, sent: &LentPacket<'_>) -> bool
        ensures { result ≡ clears_change sent.now false self.now }
    {
        self.clears(sent, false)
    }

    #[cycle(clearing)]
    #[tactic(auto, using(crate::proofs::packets::ForgottenPackets::betweens))]
    fn clears(&self, sent: &LentPacket<'_>, deep: bool) -> bool
        ensures { result ≡ clears_change sent.now deep self.now }
    {
        !self.places.is_empty() && any_clears(self.places.as_slice(), sent, deep)
    }
}

#[cycle(clearing)]
#[tactic(auto, using(crate::proofs::packets::ForgottenPackets::betweens))]
fn any_clears(places: &[Place], sent: &LentPacket<'_>, deep: bool) -> bool
    ensures { result ≡ clears_change sent.now deep (ports_kept places.now) }
{
    match places.split_first() {
        None => false,
        Some((place, rest)) => place.clears(sent, deep) || any_clears(rest, sent, deep),
    }
}

impl Place {
    #[cycle(clearing)]
    fn clears(&self, sent: &LentPacket<'_>, deep: bool) -> bool
        ensures { result ≡ clears_in sent.now deep self.now.port self.now.device }
    {
        match &self.device {
            Some(device) if self.port.is_enabled() => device.clears(sent, deep),
            _ => false,
        }
    }
}

impl Device {
    #[cycle(clearing)]
    fn clears(&self, sent: &LentPacket<'_>, deep: bool) -> bool
        ensures { result ≡ clears_whole sent.now deep self.now }
    {
        self.effect(sent, deep).clears_change() || self.ports.clears(sent, true)
    }

    /// What the device itself asks of its ports at a packet.
    #[tactic(auto, unfolding(usb_device::specs::Delivery::effect_of))]
    pub(crate) fn effect(&self, sent: &LentPacket<'_>, deep: bool) -> Effect
        ensures { result ≡ effect_of sent.now deep self.now.own }
    {
        match sent.packet() {
            Some(packet) if is_heard(sent, deep, self.is_low()) => self.own.asks(packet),
            _ => Effect::Leaves,
        }
    }
}
