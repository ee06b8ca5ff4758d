//! What goes over the bus.
ghost use Rattle.std.specs.Prelude.{◌≡◌};
ghost use Rattle.usb_world.specs.declared.types.BusFault.TheVariants.{Failed as trace_failed, Memory as memory};

use arrayvec::ArrayVec;
use std::alloc::AllocError;
use thiserror::Error;
use usb_packet::{Speed, Toggle, TokenKind};
use usb_watch::WriteFailed;

/// The endpoint that an attempt is for, and how it is reached.
#[derive(Clone, Copy, Debug, PartialEq, Eq)]
pub struct Destination {
    /// The device's address, 0 to 127.
    pub address: u8,
    /// The endpoint's number, 0 to 15.
    pub number: u8,
    /// How fast the device is, and whether it is below a hub (8.6.5).
    pub speed: Speed,
    /// The endpoint's maximum packet in bytes, 1 to 64.
    pub max: u8,
}

/// One transaction attempt (8.5).
#[derive(Debug, Drop)]
pub enum Attempt {
    /// SETUP, with setup data in DATA0 (8.5.3).
    Setup {
        /// Where it goes.
        to: Destination,
        /// The setup data (9.3).
        bytes: [u8; 8],
    },
    /// OUT, with data (8.5.1).
    Out {
        /// Where it goes.
        to: Destination,
        /// DATA0 or DATA1.
        toggle: Toggle,
        /// The data, no more than the endpoint's maximum packet.
        bytes: ArrayVec<u8, 64>,
    },
    /// IN: it asks for data (8.5.1).
    In {
        /// Where it goes.
        to: Destination,
    },
}

impl Attempt {
    ghost use Rattle.usb_world.specs.PlainAttempts.{attempt_kind, destination_of};

    /// The token that it begins with.
    pub fn kind(&self) -> TokenKind
        ensures { result ≡ attempt_kind self.now }
    {
        match self {
            Attempt::Setup { .. } => TokenKind::SetupTok,
            Attempt::Out { .. } => TokenKind::OutTok,
            Attempt::In { .. } => TokenKind::InTok,
        }
    }

    /// Where it goes.
    pub fn destination(&self) -> Destination
        ensures { result ≡ destination_of self.now }
    {
        match self {
            Attempt::Setup { to, .. } | Attempt::Out { to, .. } | Attempt::In { to } => *to,
        }
    }
}

/// What the host got in an attempt.
#[derive(Debug, Drop)]
pub enum Outcome {
    /// Data, which the bus has acknowledged.
    Payload(Toggle, ArrayVec<u8, 64>),
    /// The data came through (8.4.5).
    Ack,
    /// Nothing to give, or no room now (8.4.5).
    Nak,
    /// The endpoint is halted, or the request refused (8.4.5).
    Stall,
    /// No good answer came.
    Nothing,
}

/// Why a bus has failed, in the order in which the reasons are reported.
#[derive(Clone, Copy, Debug, PartialEq, Eq, Error)]
pub enum BusFault {
    /// The attempts made equal the limit.
    #[error("limit reached")]
    Limit,
    /// Memory was refused.
    #[error("out of memory")]
    Memory,
    /// The bus itself failed: the trace's writer of a simulated one, the controller side of one over two pipes, the
    /// controller of a real one.
    #[error("trace failed")]
    Failed,
}

impl From<AllocError> for BusFault {
    ghost from_gives = { λ _ fault. fault ≡ memory };

    fn from(_error: AllocError) -> BusFault {
        BusFault::Memory
    }
}

impl From<WriteFailed> for BusFault {
    ghost from_gives = { λ _ fault. fault ≡ trace_failed };

    fn from(_error: WriteFailed) -> BusFault {
        BusFault::Failed
    }
}
