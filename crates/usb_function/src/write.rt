//! A control write, packet by packet (8.5.3).
ghost use Rattle.std.specs.Prelude.{◌≡◌, List, ℕ};
ghost use Rattle.usb_device.specs.DeviceSpecs.{Spec};
ghost use Rattle.usb_device.specs.Code.{stage_of};
ghost use Rattle.usb_device.specs.Transfer.{Write, writes, ends_if};

use std::alloc::{AllocError, Global};
use std::marker::Model;
use usb_device::{Progress, WriteData};
use usb_packet::Toggle;

/// A control write: what the host said would come, and what has come.
#[derive(Debug, Drop)]
pub struct ControlWrite {
    /// In bytes: wLength (9.3.5).
    wanted: u16,
    got: Vec<u8>,
    /// The toggle of the next packet.
    toggle: Toggle,
    /// Whether the bytes are kept, or refused at the status stage.
    kept: bool,
}

impl Model for ControlWrite {
    ghost use Rattle.usb_device.specs.Transfer.{Write};

    ghost Value = { Write };

    ghost view = { λ w. record {
      wanted = w.wanted;
      got = w.got.items;
      toggle = w.toggle;
      kept = w.kept;
    } };
}

fn end_if(kept: bool) -> Progress
    ensures { (s : Spec) (taken : List ℕ) (w : Write) → stage_of s taken w result ≡ ends_if kept }
{
    if kept {
        Progress::Ending(None)
    } else {
        Progress::Refused
    }
}

impl ControlWrite {
    ghost use Rattle.std.specs.Prelude.{OnOk, OnErr, false};
    ghost use Rattle.usb_device.specs.Transfer.{first_write, judged, written_on, has_all, is_done};
    ghost use Rattle.usb_device.specs.Transfer.{taken_with};

    /// None has begun: nothing is wanted, and nothing would be kept.
    pub fn none(alloc: Global) -> Self
        ensures { result ≡ first_write 0 false }
    {
        ControlWrite {
            wanted: 0,
            got: Vec::new(alloc),
            toggle: Toggle::One,
            kept: false,
        }
    }

    /// A request begins one of `wanted` bytes; if there are none, its status stage comes at once.
    pub fn begin(&mut self, wanted: u16, kept: bool) -> Progress
        ensures { (s : Spec) (taken : List ℕ) → stage_of s taken self.new result
            ≡ writes wanted kept }
    {
        if wanted == 0 {
            return end_if(kept);
        }
        self.wanted = wanted;
        self.got.clear();
        self.toggle = Toggle::One;
        self.kept = kept;
        Progress::Writing
    }

    /// What a packet is to it, if none may have more than `max` bytes.
    pub fn judged(&self, max: u8, toggle: Toggle, bytes: &[u8]) -> WriteData
        ensures { result ≡ judged max self.now toggle bytes.now }
    {
        if bytes.is_empty() {
            WriteData::Wrong
        } else if usize::from(max) < bytes.len() {
            WriteData::TooLong
        } else if !toggle.is_same(self.toggle) {
            WriteData::Repeat
        } else if usize::from(self.wanted).saturating_sub(self.got.len()) < bytes.len() {
            WriteData::Wrong
        } else {
            WriteData::Next
        }
    }

    /// Whether all bytes have come.
    fn has_all(&self) -> bool
        ensures { result ≡ has_all self.now }
    {
        self.got.len() == usize::from(self.wanted)
    }

    /// Whether its status stage is good (8.5.3.1).
    pub fn is_done(&self) -> bool
        ensures { result ≡ is_done self.now }
    {
        self.has_all() && self.kept
    }

    /// The next packet. If it is the last, the bytes join those that earlier writes have brought,
    /// unless the write is refused.
    ///
    /// # Errors
    ///
    /// Memory was refused, and nothing changes.
    pub fn take(&mut self, bytes: &[u8], taken: &mut Vec<u8>) -> Result<(), AllocError>
        ensures further { OnOk result (self.new ≡ written_on self.old bytes.now) }
        ensures joined { OnOk result (taken.new.items
            ≡ taken_with taken.old.items (written_on self.old bytes.now)) }
        ensures refused { OnErr result
            ((self.new ≡ self.old) × (taken.new.items ≡ taken.old.items)) }
    {
        let before = self.got.len();
        self.got.extend_from_slice(bytes)?;
        if self.is_done() && taken.extend_from_slice(self.got.as_slice()).is_err() {
            self.got.truncate(before);
            return Err(AllocError);
        }
        self.toggle = self.toggle.other();
        Ok(())
    }
}
