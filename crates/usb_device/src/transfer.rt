//! How far a control transfer is, and what a device remembers of a packet (8.5.3).
ghost use Rattle.std.specs.Prelude.{◌<◌};

use crate::request::Source;

/// An endpoint that gives data, of which an ACK is then awaited.
#[derive(Clone, Copy, Debug)]
pub enum InEndpoint {
    /// Endpoint 0.
    Control,
    /// The bulk IN endpoint with this number.
    Bulk(u8),
    /// The status endpoint of a hub.
    Changes,
}

/// What a device remembers of the packet before.
#[derive(Clone, Copy, Debug)]
pub enum RememberedPacket {
    /// Nothing that matters for the packet that comes next.
    Nothing,
    /// A SETUP token, whose data come next.
    SetupSeen,
    /// An OUT token for an endpoint, whose data come next.
    OutSeen(u8),
    /// Data of the device, whose ACK comes next.
    AckAwaited(InEndpoint),
}

/// How far a control transfer is.
#[derive(Clone, Copy, Debug)]
pub enum Progress {
    /// There is none, or one without a data stage is over.
    Idle,
    /// The request is refused.
    Refused,
    /// A control read: the host requested n bytes, and acknowledged k packets.
    Reading {
        /// What is read.
        source: Source,
        /// In bytes: wLength (9.3.5).
        wanted: u16,
        /// In packets.
        given: u32,
    },
    /// A control read is over.
    Read,
    /// The status stage of a transfer without a data stage, and the address that is taken at its
    /// end.
    Ending(Option<u8>),
    /// A control write; how far it is, is kept beside.
    Writing,
}
