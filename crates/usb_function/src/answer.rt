//! The bytes of an answer.
ghost use Rattle.usb_device.specs.ReceivedBytes.{Answers};
ghost use Rattle.usb_device.specs.AnswerPids.{answer_with};

use arrayvec::ArrayVec;
use usb_device::AnswerPid;
use usb_packet::encode;

/// The bytes of an answer.
pub fn spelled(pid: Option<AnswerPid>, bytes: ArrayVec<u8, 64>) -> Option<ArrayVec<u8, 67>>
    ensures { Answers result (answer_with pid bytes) }
{
    Some(encode(&pid?.into_packet(bytes)))
}
