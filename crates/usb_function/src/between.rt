//! What is so of a tree of devices between two attempts of a bus, or when one ends.
ghost use Rattle.std.specs.Prelude.{◌≡◌};
ghost use Rattle.usb_function.specs.Places.{ports_kept};
ghost use Rattle.usb_device.specs.Delivery.{all_forgotten, forgotten_whole, has_loss, has_loss_in};

use crate::device::Device;
use crate::ports::{Place, Ports};

impl Ports {
    /// The end of an attempt: every device forgets a token that waits for data and data that wait
    /// for an ACK.
    #[cycle(over)]
    #[tactic(auto, using(crate::proofs::packets::ForgottenPackets::betweens))]
    pub fn attempt_over(&mut self)
        ensures { self.new ≡ all_forgotten self.old }
    {
        if !self.places.is_empty() {
            forget_all(self.places.as_mut_slice());
        }
    }

    /// Whether some device awaits the ACK that would end its SET_ADDRESS.
    #[cycle(losing)]
    #[tactic(auto, using(crate::proofs::packets::ForgottenPackets::betweens))]
    pub fn has_address_loss(&self) -> bool
        ensures { result ≡ has_loss self.now }
    {
        !self.places.is_empty() && any_loses(self.places.as_slice())
    }
}

#[cycle(over)]
#[tactic(auto, using(crate::proofs::packets::ForgottenPackets::betweens))]
fn forget_all(places: &mut [Place])
    ensures { ports_kept places.new ≡ all_forgotten (ports_kept places.old) }
{
    if let Some((place, rest)) = places.split_first_mut() {
        if let Some(device) = &mut place.device {
            device.attempt_over();
        }
        forget_all(rest);
    }
}

#[cycle(losing)]
#[tactic(auto, using(crate::proofs::packets::ForgottenPackets::betweens))]
fn any_loses(places: &[Place]) -> bool
    ensures { result ≡ has_loss (ports_kept places.now) }
{
    match places.split_first() {
        None => false,
        Some((place, rest)) => loses_at(place) || any_loses(rest),
    }
}

#[cycle(losing)]
fn loses_at(place: &Place) -> bool
    ensures { result ≡ has_loss_in place.now.device }
{
    match &place.device {
        None => false,
        Some(device) => device.own.awaits_address() || device.ports.has_address_loss(),
    }
}

impl Device {
    /// The end of an attempt, for the device and all below it: a token that waits for data and data
    /// that wait for an ACK are forgotten.
    #[cycle(over)]
    pub fn attempt_over(&mut self)
        ensures { self.new ≡ forgotten_whole self.old }
    {
        self.own.attempt_over();
        self.ports.attempt_over();
    }
}
