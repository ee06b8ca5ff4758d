//! A packet of the host on its way through the tree of devices, lent to each of them.
ghost use Rattle.std.specs.Prelude.{◌≡◌};
ghost use Rattle.std.specs.Option.{option_copied};
ghost use Rattle.usb_device.specs.LentPackets.{content_of};

use std::marker::Model;
use usb_device::{Content, Sent};
use usb_packet::Packet;

/// What goes out, as `Sent` has it, but its packet is lent: nothing of it is copied on its way.
#[derive(Debug, Drop)]
pub struct LentPacket<'a> {
    low: bool,
    pre: bool,
    /// None if it spells no packet.
    packet: Option<&'a Packet>,
}

impl<'a> Model for LentPacket<'a> {
    ghost use Rattle.std.specs.Option.{option_copied};
    ghost use Rattle.usb_device.specs.declared.delivery.Sent.{Sent};
    ghost use Rattle.usb_device.specs.LentPackets.{content_of};

    ghost Value = { Sent };

    ghost view = { λ p. record {
      low = p.low;
      pre = p.pre;
      content = content_of (option_copied p.packet);
    } };
}

impl<'a> LentPacket<'a> {
    ghost use Rattle.usb_device.specs.LentPackets.{whole, broken};

    /// A packet at low or full speed, with PRE before it or without (8.6.5).
    pub fn whole(low: bool, pre: bool, packet: &'a Packet) -> Self
        ensures { result ≡ whole low pre packet.now }
    {
        LentPacket {
            low,
            pre,
            packet: Some(packet),
        }
    }

    /// Bytes that spell no packet, in the same way.
    pub fn broken(low: bool, pre: bool) -> Self
        ensures { result ≡ broken low pre }
    {
        LentPacket {
            low,
            pre,
            packet: None,
        }
    }

    /// What goes out, lent.
    pub fn of(sent: &'a Sent) -> Self
        ensures { result ≡ sent.now }
    {
        match &sent.content {
            Content::Whole(packet) => LentPacket::whole(sent.low, sent.pre, packet),
            Content::Broken => LentPacket::broken(sent.low, sent.pre),
        }
    }

    pub(crate) fn is_low(&self) -> bool
        ensures { result ≡ self.now.low }
    {
        self.low
    }

    pub(crate) fn has_pre(&self) -> bool
        ensures { result ≡ self.now.pre }
    {
        self.pre
    }

    /// The packet; None if it spells none.
    pub(crate) fn packet(&self) -> Option<&Packet>
        ensures { content_of (option_copied result) ≡ self.now.content }
    {
        self.packet
    }
}
