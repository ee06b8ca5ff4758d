//! A packet on its way through the tree of devices (8.6.5, 11.8.4).
ghost use Rattle.std.specs.Prelude.{◌≡◌, false, true, IfOk, OnOk, OnErr};
ghost use Rattle.std.specs.Option.{option_copied};
ghost use Rattle.usb_device.specs.LentPackets.{content_of};
ghost use Rattle.usb_device.specs.Tree.{row_of};
ghost use Rattle.usb_device.specs.Rows.{sink_grows};
ghost use Rattle.usb_device.specs.ReceivedBytes.{received_by};
ghost use Rattle.usb_function.specs.Places.{ports_kept, stood};
ghost use Rattle.usb_device.specs.StoppedPackets.{Stopped, StoppedDevice, StoppedPlace, IsRefused, IsRefusedContent};
ghost use Rattle.usb_device.specs.Effects.{asks};
ghost use Rattle.usb_device.specs.Delivery.{asked_by, effect_of, is_heard, heard_joined, with_answer, delivered, taken_content, taken_sent, delivered_device, delivered_place, figure, figure_in, figure_of};

use crate::device::Device;
use crate::hearing::Hearing;
use crate::lent_packet::LentPacket;
use crate::ports::{Place, Ports};
use arrayvec::ArrayVec;
use std::alloc::AllocError;
use usb_device::{Effect, Heard, HeardPid, Sent};
use usb_packet::Packet;

/// Whether a device of a speed hears a packet, which is `deep` if it is on a port of a hub:
/// there it hears low-speed packets only with PRE.
pub(crate) fn is_heard(sent: &LentPacket<'_>, deep: bool, low: bool) -> bool
    ensures { result ≡ is_heard sent.now deep low }
{
    if sent.is_low() {
        low && (!deep || sent.has_pre())
    } else {
        !low
    }
}

impl Ports {
    /// A packet goes down the tree, through the enabled ports, and what is heard of the answers
    /// comes back. A device on one of these ports hears low-speed packets; one below hears them
    /// only with PRE.
    ///
    /// # Errors
    ///
    /// Memory was refused for data that a device was to take. The devices before that one and below
    /// it had the packet; it and those after it had not. The same devices are at the same ports,
    /// and the ports of the row itself are as they were.
    pub fn deliver(&mut self, sent: &Sent) -> Result<Heard, AllocError>
        ensures ok { IfOk result (λ heard. (heard, self.new) ≡ delivered sent.now false self.old) }
        ensures err { OnErr result (figure self.new ≡ figure self.old) }
        ensures row { OnErr result (row_of self.new ≡ row_of self.old) }
        ensures stopped { OnErr result (Stopped sent.now false self.old self.new) }
    {
        let mut heard = Hearing::nothing();
        self.deliver_after(&LentPacket::of(sent), &mut heard)?;
        Ok(heard.into_heard())
    }

    /// The same after another packet, of which something may have been heard: what is heard of
    /// this one joins it.
    ///
    /// # Errors
    ///
    /// Memory was refused, as of `deliver`.
    pub fn deliver_after(
        &mut self,
        sent: &LentPacket<'_>,
        heard: &mut Hearing,
    ) -> Result<(), AllocError>
        ensures ok { OnOk result ((heard.new, self.new)
            ≡ heard_joined heard.old (delivered sent.now false self.old)) }
        ensures err { OnErr result (figure self.new ≡ figure self.old) }
        ensures row { row_of self.new ≡ row_of self.old }
        ensures stopped { OnErr result (Stopped sent.now false self.old self.new) }
    {
        self.pass(sent, false, heard)
    }

    #[cycle(deliver)]
    #[tactic(auto, using(crate::proofs::Deliveries::delivering))]
    fn pass(
        &mut self,
        sent: &LentPacket<'_>,
        deep: bool,
        heard: &mut Hearing,
    ) -> Result<(), AllocError>
        ensures ok { OnOk result ((heard.new, self.new)
            ≡ heard_joined heard.old (delivered sent.now deep self.old)) }
        ensures err { OnErr result (figure self.new ≡ figure self.old) }
        ensures row { row_of self.new ≡ row_of self.old }
        ensures stopped { OnErr result (Stopped sent.now deep self.old self.new) }
    {
        if self.places.is_empty() {
            return Ok(());
        }
        deliver_all(self.places.as_mut_slice(), sent, deep, heard)
    }
}

#[cycle(deliver)]
#[tactic(auto, using(crate::proofs::Deliveries::delivering, usb_device::proofs::Figures::figures, usb_device::proofs::packets::Rows::rows))]
fn deliver_all(
    places: &mut [Place],
    sent: &LentPacket<'_>,
    deep: bool,
    heard: &mut Hearing,
) -> Result<(), AllocError>
    ensures ok { OnOk result ((heard.new, ports_kept places.new)
        ≡ heard_joined heard.old (delivered sent.now deep (ports_kept places.old))) }
    ensures err { OnErr result (figure (ports_kept places.new) ≡ figure (ports_kept places.old)) }
    ensures row { row_of (ports_kept places.new) ≡ row_of (ports_kept places.old) }
    ensures stopped { OnErr result
        (Stopped sent.now deep (ports_kept places.old) (ports_kept places.new)) }
{
    match places.split_first_mut() {
        None => Ok(()),
        Some((place, rest)) => {
            place.deliver(sent, deep, heard)?;
            deliver_all(rest, sent, deep, heard)
        }
    }
}

impl Place {
    #[cycle(deliver)]
    fn deliver(
        &mut self,
        sent: &LentPacket<'_>,
        deep: bool,
        heard: &mut Hearing,
    ) -> Result<(), AllocError>
        ensures ok { OnOk result ((heard.new, stood self.new)
            ≡ heard_joined heard.old (delivered_place sent.now deep (stood self.old))) }
        ensures err { OnErr result (figure_in (stood self.new) ≡ figure_in (stood self.old)) }
        ensures port { self.new.port ≡ self.old.port }
        ensures stopped { OnErr result
            (StoppedPlace sent.now deep (stood self.old) (stood self.new)) }
    {
        match &mut self.device {
            Some(device) if self.port.is_enabled() => device.deliver(sent, deep, heard),
            _ => Ok(()),
        }
    }
}

impl Device {
    /// The devices below come first, by the enables as they were, then the device itself, then
    /// what it asks of its ports.
    #[cycle(deliver)]
    #[tactic(auto, using(crate::proofs::Deliveries::delivering, usb_device::proofs::Figures::figures))]
    fn deliver(
        &mut self,
        sent: &LentPacket<'_>,
        deep: bool,
        heard: &mut Hearing,
    ) -> Result<(), AllocError>
        ensures ok { OnOk result ((heard.new, self.new)
            ≡ heard_joined heard.old (delivered_device sent.now deep self.old)) }
        ensures err { OnErr result (figure_of self.new ≡ figure_of self.old) }
        ensures stopped { OnErr result (StoppedDevice sent.now deep self.old self.new) }
    {
        self.ports.pass(sent, true, heard)?;
        let mut effect = Effect::Leaves;
        self.take_sent(sent, deep, heard, &mut effect)
    }

    /// A packet at the device itself, if it hears it; what it asks of its ports is put into `effect`.
    #[inline(always)]
    #[tactic(auto, unfolding(usb_device::specs::Delivery::answer_of, usb_device::specs::Delivery::effect_of), using(usb_device::proofs::Deliveries::strays))]
    pub(crate) fn take_sent(
        &mut self,
        sent: &LentPacket<'_>,
        deep: bool,
        heard: &mut Hearing,
        effect: &mut Effect,
    ) -> Result<(), AllocError>
        ensures ok { OnOk result ((heard.new, self.new)
            ≡ with_answer heard.old (taken_sent sent.now deep self.old)) }
        ensures asked { effect.new ≡ effect_of sent.now deep self.old.own }
        ensures err { OnErr result (self.new ≡ self.old) }
        ensures refused { OnErr result (IsRefused sent.now deep self.old.own) }
    {
        if is_heard(sent, deep, self.is_low()) {
            self.take_read(sent.packet(), heard, effect)
        } else {
            *effect = Effect::Leaves;
            Ok(())
        }
    }

    /// A packet that is for another device, and one that cannot be read, only end what the device
    /// remembers.
    #[tactic(auto, using(usb_device::proofs::Deliveries::strays))]
    fn take_read(
        &mut self,
        packet: Option<&Packet>,
        heard: &mut Hearing,
        effect: &mut Effect,
    ) -> Result<(), AllocError>
        ensures ok { OnOk result ((heard.new, self.new) ≡ with_answer heard.old
            (taken_content (content_of (option_copied packet.entry)) self.old)) }
        ensures asked { effect.new
            ≡ asked_by (content_of (option_copied packet.entry)) self.old.own }
        ensures err { OnErr result (self.new ≡ self.old) }
        ensures refused { OnErr result
            (IsRefusedContent (content_of (option_copied packet.entry)) self.old.own) }
    {
        match packet {
            Some(packet) if self.own.is_for(packet) => self.join(packet, heard, effect),
            _ => {
                *effect = Effect::Leaves;
                self.own.unread();
                Ok(())
            }
        }
    }

    /// A packet at the device itself, whose answer joins what was heard before it. The bytes of a
    /// second answer, which nobody reads, are put aside.
    fn join(
        &mut self,
        packet: &Packet,
        heard: &mut Hearing,
        effect: &mut Effect,
    ) -> Result<(), AllocError>
        ensures ok { OnOk result ((heard.new, self.new)
            ≡ with_answer heard.old (received_by self.old packet.now)) }
        ensures asked { effect.new ≡ asks self.old.own packet.now }
        ensures err { OnErr result (self.new ≡ self.old) }
        ensures grows { OnErr result (sink_grows self.old.own packet.now ≡ true) }
    {
        match heard.pid {
            HeardPid::Nothing => {
                if let Some(pid) = self.take(packet, &mut heard.room, effect)? {
                    heard.pid = HeardPid::One(pid);
                }
            }
            HeardPid::One(_) | HeardPid::Collision => {
                let mut aside = ArrayVec::new();
                if self.take(packet, &mut aside, effect)?.is_some() {
                    heard.pid = HeardPid::Collision;
                }
            }
        }
        Ok(())
    }
}
