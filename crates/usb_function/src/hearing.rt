//! What is heard of the answers to a packet, as it comes.
ghost use Rattle.std.specs.Prelude.{◌≡◌};
ghost use Rattle.usb_device.specs.declared.delivery.Heard.TheVariants.{NoAnswer};
ghost use Rattle.usb_device.specs.Hearings.{heard_with, pid_heard};

use arrayvec::ArrayVec;
use std::marker::Model;
use usb_device::{Heard, HeardPid};

/// What is heard so far after a packet went out, as `Heard` has it; the bytes of data are in one
/// room, into which the devices put them.
#[derive(Debug, Drop)]
pub struct Hearing {
    pub(crate) pid: HeardPid,
    pub(crate) room: ArrayVec<u8, 64>,
}

impl Model for Hearing {
    ghost use Rattle.usb_device.specs.declared.delivery.Heard.{Heard};
    ghost use Rattle.usb_device.specs.Hearings.{heard_with};

    ghost Value = { Heard };

    ghost view = { λ h. heard_with h.pid h.room };
}

impl Hearing {
    /// Nothing is heard yet.
    pub fn nothing() -> Self
        ensures { result ≡ NoAnswer }
    {
        Hearing {
            pid: HeardPid::Nothing,
            room: ArrayVec::new(),
        }
    }

    /// The packet identifier that was heard.
    #[tactic(auto, using(usb_device::proofs::packets::Hearings::hearings))]
    pub fn pid(&self) -> HeardPid
        ensures { result ≡ pid_heard self.now }
    {
        self.pid
    }

    /// The bytes in the room: they are those of data.
    #[tactic(auto, using(usb_device::proofs::packets::Hearings::hearings))]
    pub fn bytes(&self) -> &ArrayVec<u8, 64>
        ensures { heard_with (pid_heard self.now) result.now ≡ self.now }
    {
        &self.room
    }

    /// Nothing is heard from here on. What is in the room stays, and does not count.
    pub fn clear(&mut self)
        ensures { self.new ≡ NoAnswer }
    {
        self.pid = HeardPid::Nothing;
    }

    /// The room: its bytes are those of data.
    #[tactic(auto, using(usb_device::proofs::packets::Hearings::hearings))]
    pub fn into_bytes(self) -> ArrayVec<u8, 64>
        ensures { heard_with (pid_heard self) result ≡ self }
    {
        self.room
    }

    /// What was heard.
    pub fn into_heard(self) -> Heard
        ensures { result ≡ self }
    {
        match self.pid {
            HeardPid::Nothing => Heard::NoAnswer,
            HeardPid::One(pid) => Heard::One(pid.with_bytes(self.room)),
            HeardPid::Collision => Heard::Collision,
        }
    }
}
