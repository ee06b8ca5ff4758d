//! A packet that goes straight to one device, by its path.
ghost use Rattle.std.specs.Prelude.{◌≡◌, OnOk, OnErr};
ghost use Rattle.usb_device.specs.Tree.{changed, changed_in, device_there, plugged_in};
ghost use Rattle.usb_function.specs.Places.{stood};
ghost use Rattle.usb_device.specs.Delivery.{both, heard_from};
ghost use Rattle.usb_device.specs.Route.{sent_in, answer_by, RefusedBy, effect_by, forgotten_in, address_by};

use crate::hearing::Hearing;
use crate::lent_packet::LentPacket;
use crate::ports::{Place, Ports};
use std::alloc::AllocError;
use usb_device::Effect;

impl Ports {
    /// A packet at the device at a path alone, which is `deep` if it is on a port of a hub. What is
    /// heard of its answer joins what was heard before.
    ///
    /// # Errors
    ///
    /// Memory was refused, and nothing changes.
    #[cycle(deliver_at)]
    #[tactic(auto, using(crate::proofs::places::NumberedPlaces::routing))]
    pub fn deliver_at(
        &mut self,
        path: &[u8],
        sent: &LentPacket<'_>,
        deep: bool,
        heard: &mut Hearing,
    ) -> Result<(), AllocError>
        ensures heard { OnOk result (heard.new ≡ both heard.old
            (heard_from (answer_by sent.now deep (device_there self.old path.now)))) }
        ensures ok { OnOk result (self.new ≡ changed (sent_in sent.now deep) self.old path.now) }
        ensures err { OnErr result (self.new ≡ self.old) }
        ensures refused { OnErr result (RefusedBy sent.now deep (device_there self.old path.now)) }
    {
        let Some((number, rest)) = path.split_first() else {
            return Ok(());
        };
        let i = usize::from(*number);
        if i == 0 || i > self.places.len() {
            return Ok(());
        }
        self.places[i - 1].deliver_at(rest, sent, deep, heard)
    }

    /// What the device at a path asks of its ports at a packet; nothing if none is there. It is
    /// asked before the packet is delivered.
    pub fn effect_at(&self, path: &[u8], sent: &LentPacket<'_>, deep: bool) -> Effect
        ensures { result ≡ effect_by sent.now deep (device_there self.now path.now) }
    {
        match self.device_at(path) {
            None => Effect::Leaves,
            Some(device) => device.effect(sent, deep),
        }
    }

    /// The device at a path forgets a token that waits for data and data that wait for an ACK, and
    /// its address is reported.
    #[cycle(forget_at)]
    #[tactic(auto, using(crate::proofs::places::NumberedPlaces::routing))]
    pub fn forget_at(&mut self, path: &[u8]) -> Option<u8>
        ensures address { result ≡ address_by (device_there self.old path.now) }
        ensures after { self.new ≡ changed forgotten_in self.old path.now }
    {
        let (number, rest) = path.split_first()?;
        let i = usize::from(*number);
        if i == 0 || i > self.places.len() {
            return None;
        }
        self.places[i - 1].forget_at(rest)
    }
}

impl Place {
    #[cycle(deliver_at)]
    #[tactic(auto, using(usb_device::proofs::places::FirstPlaces::paths))]
    fn deliver_at(
        &mut self,
        path: &[u8],
        sent: &LentPacket<'_>,
        deep: bool,
        heard: &mut Hearing,
    ) -> Result<(), AllocError>
        ensures heard { OnOk result (heard.new ≡ both heard.old
            (heard_from (answer_by sent.now deep (plugged_in (stood self.old) path.now)))) }
        ensures ok { OnOk result (stood self.new
            ≡ changed_in (sent_in sent.now deep) (stood self.old) path.now) }
        ensures err { OnErr result (self.new ≡ self.old) }
        ensures refused { OnErr result
            (RefusedBy sent.now deep (plugged_in (stood self.old) path.now)) }
    {
        match &mut self.device {
            None => Ok(()),
            Some(device) => match path {
                [] => {
                    let mut effect = Effect::Leaves;
                    device.take_sent(sent, deep, heard, &mut effect)
                }
                [_, ..] => device.ports.deliver_at(path, sent, deep, heard),
            },
        }
    }

    #[cycle(forget_at)]
    #[tactic(auto, using(usb_device::proofs::places::FirstPlaces::paths))]
    fn forget_at(&mut self, path: &[u8]) -> Option<u8>
        ensures address { result ≡ address_by (plugged_in (stood self.old) path.now) }
        ensures after { stood self.new ≡ changed_in forgotten_in (stood self.old) path.now }
    {
        let device = self.device.as_mut()?;
        match path {
            [] => {
                device.own.attempt_over();
                Some(device.address())
            }
            [_, ..] => device.ports.forget_at(path),
        }
    }
}
