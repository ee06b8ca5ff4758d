//! Whether a pipe may move packets.
ghost use Rattle.std.specs.Prelude.{◌≡◌};
ghost use Rattle.usb_transfer.specs.EndpointPipes.{is_broken, after_fault, after_transfer};
ghost use Rattle.usb_transfer.specs.EndpointPipes.{after_failed_clear};

use crate::PipeFault;

/// What the last `send`, `receive` or clear that made an attempt leaves a pipe in.
#[derive(Clone, Copy, Debug, PartialEq, Eq)]
pub(crate) enum Condition {
    /// Both ends agree on which packets were moved.
    Ready,
    /// The endpoint answered STALL, and both ends agree all the same.
    Halted,
    /// It is not known whether the last packet was moved.
    Broken,
}

impl Condition {
    pub(crate) fn is_broken(self) -> bool
        ensures { result ≡ is_broken self }
    {
        match self {
            Condition::Ready | Condition::Halted => false,
            Condition::Broken => true,
        }
    }

    /// After a transfer that made an attempt.
    pub(crate) fn after_transfer<T>(self, answer: &Result<T, PipeFault>) -> Self
        ensures { result ≡ after_transfer self answer.now }
    {
        match answer {
            Ok(_) => Condition::Ready,
            Err(fault) => self.after_fault(*fault),
        }
    }

    /// After a request to clear the endpoint's halt that failed: a stalled one changes nothing.
    pub(crate) fn after_failed_clear(self, fault: PipeFault) -> Self
        ensures { result ≡ after_failed_clear self fault }
    {
        match fault {
            PipeFault::Stalled => self,
            PipeFault::Busy => Condition::Broken,
            PipeFault::NoAnswer => Condition::Broken,
            PipeFault::Broken => self,
            PipeFault::Bus(_) => self,
            PipeFault::Memory => Condition::Broken,
        }
    }

    /// After a transfer that failed.
    fn after_fault(self, fault: PipeFault) -> Self
        ensures { result ≡ after_fault self fault }
    {
        match fault {
            PipeFault::Stalled => Condition::Halted,
            PipeFault::Busy => Condition::Broken,
            PipeFault::NoAnswer => Condition::Broken,
            PipeFault::Broken => self,
            PipeFault::Bus(_) => self,
            PipeFault::Memory => Condition::Broken,
        }
    }
}
