//! A packet on its way through the tree of devices (8.6.5, 11.8.4).
ghost use Rattle.usb_device.specs.Delivery.{Carries};

use crate::answer::Answer;
use usb_packet::{Packet, decode};

/// What goes out.
#[derive(Debug, Drop)]
pub enum Content {
    /// A packet.
    Whole(Packet),
    /// Bytes that spell no packet.
    Broken,
}

impl Content {
    /// What bytes carry.
    pub fn of(bytes: &[u8]) -> Content
        ensures { Carries bytes.now result }
    {
        match decode(bytes) {
            Ok(packet) => Content::Whole(packet),
            Err(_) => Content::Broken,
        }
    }
}

/// A packet of the host, and how it goes out.
#[derive(Debug, Drop)]
pub struct Sent {
    /// At low speed, else at full.
    pub low: bool,
    /// With PRE before it (8.6.5).
    pub pre: bool,
    /// What goes out.
    pub content: Content,
}

/// What is heard after a packet went out.
#[derive(Debug, Drop)]
pub enum Heard {
    /// No device answered.
    NoAnswer,
    /// One device answered.
    One(Answer),
    /// More than one answered, and nothing of it can be read.
    Collision,
}
