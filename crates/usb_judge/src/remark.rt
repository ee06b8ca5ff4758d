//! Remarks on an attempt.
ghost use Rattle.std.specs.Prelude.{◌≡◌};
ghost use Rattle.usb_judge.specs.Texts.{is_fault, remark_words};

/// What is to be said of a host's attempt.
#[derive(Clone, Copy, Debug, PartialEq, Eq)]
pub enum Remark {
    /// Two devices that packets reach hold the address (9.1.2, 9.4.6).
    TwoDevices,
    /// The device does not read packets of this speed (8.6.5).
    OtherSpeed,
    /// The packet is longer than the endpoint's maximum packet (9.6.1, 9.6.6).
    TooLong,
    /// The device took the packet for a repeated one: the toggle is not the one that is due (8.6).
    OtherToggle,
    /// The packet before it had no answer, and was not sent again with its toggle (8.6.4).
    SkippedRetry,
    /// No device that packets reach holds the address. It may just have left.
    Nobody,
    /// The device's packet is longer than the host asked for, which reads nothing of it (8.7.4).
    Babble,
}

impl Remark {
    /// Whether the host is at fault; else it is a note.
    pub fn is_fault(self) -> bool
        ensures { result ≡ is_fault self }
    {
        match self {
            Remark::Nobody | Remark::Babble => false,
            Remark::TwoDevices
            | Remark::OtherSpeed
            | Remark::TooLong
            | Remark::OtherToggle
            | Remark::SkippedRetry => true,
        }
    }

    /// Its words in a line.
    #[tactic(auto, unfolding(crate::specs::Texts::remark_words))]
    pub(crate) fn words(self) -> &'static str
        ensures { result.now ≡ remark_words self }
    {
        match self {
            Remark::TwoDevices => "two devices",
            Remark::OtherSpeed => "other speed",
            Remark::TooLong => "packet too long",
            Remark::OtherToggle => "toggle",
            Remark::SkippedRetry => "no retry",
            Remark::Nobody => "nobody",
            Remark::Babble => "babble",
        }
    }
}
