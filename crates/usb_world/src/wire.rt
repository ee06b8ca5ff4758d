//! A packet of the host on its way, with what damage did to it.
ghost use Rattle.std.specs.Prelude.{◌≡◌};
ghost use Rattle.usb_world.specs.Wire.{is_read};

use usb_packet::Packet;

/// What damage did to a packet on its way.
#[derive(Clone, Copy, Debug)]
pub enum Mark {
    /// Nothing.
    Whole,
    /// It is lost.
    Lost,
    /// The PRE before it is lost (8.6.5).
    PreLost,
    /// This bit of it is flipped, counted from 0.
    Flipped(u16),
}

impl Mark {
    /// Whether a listener reads the packet: it is not lost, and no bit of it is wrong (8.3.1 and
    /// 8.3.5).
    #[tactic(auto, unfolding(crate::specs::Wire::is_read))]
    pub fn is_read(self) -> bool
        ensures { result ≡ is_read self }
    {
        matches!(self, Mark::Whole | Mark::PreLost)
    }
}

/// A packet of the host, and what damage did to it.
#[derive(Debug, Drop)]
pub struct Outgoing {
    /// The packet as it was sent.
    pub packet: Packet,
    /// What damage did to it.
    pub mark: Mark,
}
