//! What an attempt was: the host's packets, and what came to them.
ghost use Rattle.usb_world.specs.Exchanges.{answer_mark};

use crate::wire::{Mark, Outgoing};
use usb_packet::Packet;

/// What the devices' answers to an attempt are together.
#[derive(Debug, Drop)]
pub enum ExchangeAnswer {
    /// No device answered.
    Nothing,
    /// One answer.
    One(Packet),
    /// Two answers at once: nobody can read them.
    Collision,
}

/// The packets of an attempt as they went over the bus.
#[derive(Debug, Drop)]
pub struct Exchange {
    /// The host's token.
    pub token: Outgoing,
    /// The host's data, for SETUP and OUT.
    pub payload: Option<Outgoing>,
    /// What the devices answered.
    pub answer: ExchangeAnswer,
    /// What damage did to the answer of one device.
    pub answer_mark: Mark,
    /// The host's ACK, if it took data.
    pub reply: Option<Outgoing>,
    /// A device did not see the ACK at which it was to take its address (9.4.6).
    pub address_lost: bool,
    /// A hub cleared a change of connection of one of its ports (11.24.2.2).
    pub change_cleared: bool,
}
