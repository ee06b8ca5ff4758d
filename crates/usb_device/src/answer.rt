//! What a device answers.
ghost use Rattle.std.specs.Prelude.{◌≡◌};
ghost use Rattle.usb_device.specs.ReceivedBytes.{packet_of};
ghost use Rattle.usb_device.specs.AnswerPids.{answer_from_pid};

use arrayvec::ArrayVec;
use usb_packet::{Packet, Toggle};

/// The packets that a device sends.
#[derive(Debug, Drop)]
pub enum Answer {
    /// The data came through (8.4.5).
    Ack,
    /// Nothing to give, or no room now (8.4.5).
    Nak,
    /// The endpoint is halted, or the request refused (8.4.5).
    Stall,
    /// Data (8.4.4).
    Data {
        /// Which of the two data PIDs the packet has (8.6).
        toggle: Toggle,
        /// 0 to 64 bytes.
        bytes: ArrayVec<u8, 64>,
    },
}

impl Answer {
    /// The packet itself.
    pub fn into_packet(self) -> Packet
        ensures { result ≡ packet_of self }
    {
        match self {
            Answer::Ack => Packet::Ack,
            Answer::Nak => Packet::Nak,
            Answer::Stall => Packet::Stall,
            Answer::Data { toggle, bytes } => Packet::Payload { toggle, bytes },
        }
    }
}

/// The packet identifier of an answer (8.3.1). The bytes of data are in a room beside it.
#[derive(Clone, Copy, Debug)]
pub enum AnswerPid {
    /// ACK.
    Ack,
    /// NAK.
    Nak,
    /// STALL.
    Stall,
    /// DATA0 or DATA1.
    Data(Toggle),
}

impl AnswerPid {
    /// The answer, which has these bytes where it is data.
    pub fn with_bytes(self, bytes: ArrayVec<u8, 64>) -> Answer
        ensures { result ≡ answer_from_pid self bytes }
    {
        match self {
            AnswerPid::Ack => Answer::Ack,
            AnswerPid::Nak => Answer::Nak,
            AnswerPid::Stall => Answer::Stall,
            AnswerPid::Data(toggle) => Answer::Data { toggle, bytes },
        }
    }

    /// The packet itself, which has these bytes where it is data.
    pub fn into_packet(self, bytes: ArrayVec<u8, 64>) -> Packet
        ensures { result ≡ packet_of (answer_from_pid self bytes) }
    {
        match self {
            AnswerPid::Ack => Packet::Ack,
            AnswerPid::Nak => Packet::Nak,
            AnswerPid::Stall => Packet::Stall,
            AnswerPid::Data(toggle) => Packet::Payload { toggle, bytes },
        }
    }
}
