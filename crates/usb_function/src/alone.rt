//! A whole attempt at one device, of which nothing is damaged (8.5).
ghost use Rattle.std.specs.Prelude.{◌≡◌, Some, OnOk, OnErr};
ghost use Rattle.usb_device.specs.Tree.{changed, changed_in, device_there, plugged_in};
ghost use Rattle.usb_function.specs.Places.{stood};
ghost use Rattle.usb_device.specs.Delivery.{is_heard, both, heard_from, taken_sent};
ghost use Rattle.usb_device.specs.declared.delivery.Heard.TheVariants.{NoAnswer};
ghost use Rattle.usb_device.specs.AloneAttempts.{no_side, token_sent, ack_sent, takes_data, heard_pid, after_packet_at, answer_from, asked_from, with_asked, RefusedFrom, after_token, heard_of_both, after_reply, side_of, forgot, heard_at, side_at, left_in, cut_in, RefusedAt};

use crate::device::Device;
use crate::hearing::Hearing;
use crate::lent_packet::LentPacket;
use crate::ports::{Place, Ports};
use std::alloc::AllocError;
use usb_device::{AnswerPid, DeviceSide, Effect, HeardPid, HostSide};

/// What is heard of one answer.
fn heard_pid(pid: Option<AnswerPid>) -> HeardPid
    ensures { result ≡ heard_pid pid }
{
    match pid {
        None => HeardPid::Nothing,
        Some(pid) => HeardPid::One(pid),
    }
}

impl Hearing {
    /// Whether it is data of at most `max` bytes.
    fn is_taken(&self, max: u8) -> bool
        ensures { result ≡ takes_data max self.now }
    {
        match self.pid {
            HeardPid::One(AnswerPid::Data(_)) => self.room.len() <= usize::from(max),
            _ => false,
        }
    }
}

impl Device {
    /// The token. Of what was heard before, nothing is left.
    #[tactic(auto, unfolding(usb_device::specs::Delivery::answer_of), using(usb_device::proofs::AloneAttempts::calm))]
    fn take_token(&mut self, attempt: &HostSide, deep: bool, heard: &mut Hearing)
        ensures heard { heard.new
            ≡ heard_from (taken_sent (token_sent attempt.now) deep self.old).0 }
        ensures after { self.new ≡ after_token attempt.now deep self.old }
    {
        if attempt.is_heard(deep, self.is_low()) {
            let pid = self.own.take_token(
                &self.ports,
                attempt.kind,
                attempt.addr,
                attempt.ep,
                &mut heard.room,
            );
            heard.pid = heard_pid(pid);
        } else {
            heard.pid = HeardPid::Nothing;
        }
    }

    /// The host's data, if it sends some; what the device asks of its ports is reported.
    fn take_data(
        &mut self,
        payload: &Option<LentPacket<'_>>,
        deep: bool,
        heard: &mut Hearing,
        side: &mut DeviceSide,
    ) -> Result<(), AllocError>
        ensures heard { OnOk result (heard.new
            ≡ both heard.old (heard_from (answer_from payload.now deep self.old))) }
        ensures after { OnOk result (self.new ≡ after_packet_at payload.now deep self.old) }
        ensures asked { side.new ≡ with_asked (asked_from payload.now deep self.old) side.old }
        ensures err { OnErr result (self.new ≡ self.old) }
        ensures refused { OnErr result (RefusedFrom payload.now deep self.old) }
    {
        match payload {
            None => {
                side.effect = Effect::Leaves;
                Ok(())
            }
            Some(sent) => self.take_sent(sent, deep, heard, &mut side.effect),
        }
    }

    /// The host's ACK.
    #[tactic(auto, unfolding(usb_device::specs::Delivery::answer_of, usb_device::specs::Rows::received), using(usb_device::proofs::AloneAttempts::calm))]
    fn take_ack(&mut self, attempt: &HostSide, deep: bool)
        ensures { self.new ≡ (taken_sent (ack_sent attempt.now) deep self.old).1 }
    {
        if attempt.is_heard(deep, self.is_low()) {
            self.own.take_ack();
        }
    }

    /// The packets of the attempt.
    #[tactic(auto, unfolding(usb_device::specs::AloneAttempts::heard_of_both, usb_device::specs::AloneAttempts::after_reply, usb_device::specs::AloneAttempts::side_of))]
    fn exchange(
        &mut self,
        attempt: &HostSide,
        payload: &Option<LentPacket<'_>>,
        deep: bool,
        heard: &mut Hearing,
        side: &mut DeviceSide,
    ) -> Result<(), AllocError>
        ensures heard { OnOk result
            (heard.new ≡ heard_of_both attempt.now payload.now deep self.old) }
        ensures side { OnOk result (side.new ≡ side_of attempt.now payload.now deep self.old) }
        ensures after { OnOk result (self.new ≡ after_reply attempt.now payload.now deep self.old) }
        ensures err { OnErr result (self.new ≡ after_token attempt.now deep self.old) }
        ensures refused { OnErr result
            (RefusedFrom payload.now deep (after_token attempt.now deep self.old)) }
    {
        self.take_token(attempt, deep, heard);
        self.take_data(payload, deep, heard, side)?;
        let acknowledged = heard.is_taken(attempt.max);
        if acknowledged {
            self.take_ack(attempt, deep);
        }
        side.acknowledged = acknowledged;
        side.address_lost = acknowledged && self.awaits_address();
        side.address = Some(self.address());
        Ok(())
    }

    /// The same, and its end.
    fn attempt(
        &mut self,
        attempt: &HostSide,
        payload: &Option<LentPacket<'_>>,
        deep: bool,
        heard: &mut Hearing,
        side: &mut DeviceSide,
    ) -> Result<(), AllocError>
        ensures heard { OnOk result
            (heard.new ≡ heard_of_both attempt.now payload.now deep self.old) }
        ensures side { OnOk result (side.new ≡ side_of attempt.now payload.now deep self.old) }
        ensures after { OnOk result
            (self.new ≡ forgot (after_reply attempt.now payload.now deep self.old)) }
        ensures err { OnErr result (self.new ≡ forgot (after_token attempt.now deep self.old)) }
        ensures refused { OnErr result
            (RefusedFrom payload.now deep (after_token attempt.now deep self.old)) }
    {
        let made = self.exchange(attempt, payload, deep, heard, side);
        self.own.attempt_over();
        made
    }
}

/// What becomes of an attempt where no device is.
fn unheard(heard: &mut Hearing, side: &mut DeviceSide)
    ensures heard { heard.new ≡ NoAnswer }
    ensures side { side.new ≡ no_side }
{
    heard.pid = HeardPid::Nothing;
    *side = DeviceSide::nobody();
}

impl Ports {
    /// A whole attempt at the device at a path alone, which is `deep` if it is on a port of a hub.
    /// `payload` is the host's data, for SETUP and OUT. What is heard of the answers is reported,
    /// and what became of it. After it the device remembers no packet.
    ///
    /// # Errors
    ///
    /// Memory was refused for the host's data. The device had the token, and remembers nothing of
    /// it.
    #[cycle(attempt_at)]
    #[tactic(auto, using(crate::proofs::places::NumberedPlaces::routing))]
    pub fn attempt_at(
        &mut self,
        path: &[u8],
        attempt: &HostSide,
        payload: &Option<LentPacket<'_>>,
        deep: bool,
        heard: &mut Hearing,
        side: &mut DeviceSide,
    ) -> Result<(), AllocError>
        ensures heard { OnOk result (heard.new
            ≡ heard_at attempt.now payload.now deep (device_there self.old path.now)) }
        ensures side { OnOk result (side.new
            ≡ side_at attempt.now payload.now deep (device_there self.old path.now)) }
        ensures ok { OnOk result
            (self.new ≡ changed (left_in attempt.now payload.now deep) self.old path.now) }
        ensures err { OnErr result
            (self.new ≡ changed (cut_in attempt.now deep) self.old path.now) }
        ensures refused { OnErr result
            (RefusedAt attempt.now payload.now deep (device_there self.old path.now)) }
    {
        let Some((number, rest)) = path.split_first() else {
            unheard(heard, side);
            return Ok(());
        };
        let i = usize::from(*number);
        if i == 0 || i > self.places.len() {
            unheard(heard, side);
            return Ok(());
        }
        self.places[i - 1].attempt_at(rest, attempt, payload, deep, heard, side)
    }
}

impl Place {
    #[cycle(attempt_at)]
    #[tactic(auto, using(usb_device::proofs::places::FirstPlaces::paths))]
    fn attempt_at(
        &mut self,
        path: &[u8],
        attempt: &HostSide,
        payload: &Option<LentPacket<'_>>,
        deep: bool,
        heard: &mut Hearing,
        side: &mut DeviceSide,
    ) -> Result<(), AllocError>
        ensures heard { OnOk result (heard.new
            ≡ heard_at attempt.now payload.now deep (plugged_in (stood self.old) path.now)) }
        ensures side { OnOk result (side.new
            ≡ side_at attempt.now payload.now deep (plugged_in (stood self.old) path.now)) }
        ensures ok { OnOk result (stood self.new
            ≡ changed_in (left_in attempt.now payload.now deep) (stood self.old) path.now) }
        ensures err { OnErr result (stood self.new
            ≡ changed_in (cut_in attempt.now deep) (stood self.old) path.now) }
        ensures refused { OnErr result
            (RefusedAt attempt.now payload.now deep (plugged_in (stood self.old) path.now)) }
    {
        match &mut self.device {
            None => {
                unheard(heard, side);
                Ok(())
            }
            Some(device) => match path {
                [] => device.attempt(attempt, payload, deep, heard, side),
                [_, ..] => device
                    .ports
                    .attempt_at(path, attempt, payload, deep, heard, side),
            },
        }
    }
}
