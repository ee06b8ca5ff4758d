//! What a data packet of a control write is to the device (8.5.3).
ghost use Rattle.std.specs.Prelude.{◌≡◌};
ghost use Rattle.usb_device.specs.Transfer.{is_next};

/// What a packet of the host is to a control write.
#[derive(Clone, Copy, Debug)]
pub enum WriteData {
    /// It is empty, or more than the host said would come.
    Wrong,
    /// It is longer than a packet may be.
    TooLong,
    /// It has come before.
    Repeat,
    /// It is the next one.
    Next,
}

impl WriteData {
    /// Whether it is the next one.
    pub fn is_next(self) -> bool
        ensures { result ≡ is_next self }
    {
        matches!(self, WriteData::Next)
    }
}
