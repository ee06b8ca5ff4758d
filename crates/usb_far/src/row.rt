//! What is left of a row of attempts.
ghost use Rattle.std.specs.Prelude.{◌≡◌, ◌≤◌, IfSome, length, take};
ghost use Rattle.usb_wire.specs.Questions.{IsEndpoint, IsMost, IsQuestion, IsRow};
ghost use Rattle.usb_far.specs.FarEnd.{brings_full, ins_behind, is_taken, outs_behind, rest_behind};

use arrayvec::ArrayVec;
use usb_packet::{Speed, Toggle};
use usb_wire::{Answer, DataPacket, Endpoint, Question, ROW_LIMIT};

/// The first packet of a row of OUTs.
pub(crate) fn first_of(bytes: &[u8], most: u8) -> &[u8]
    ensures value { result.now ≡ take most bytes.now }
    ensures few { length result.now ≤ most }
{
    &bytes[..bytes.len().min(usize::from(most))]
}

/// What is left of a row after its first attempt was answered: `None` if that moved no packet, or was
/// the last one. No other question has anything left.
pub(crate) fn rest_behind(question: &Question, answer: &Answer) -> Option<Question>
    requires { IsQuestion question.now }
    ensures value { result ≡ rest_behind question.now answer.now }
    ensures asks { IfSome result IsQuestion }
{
    match question {
        Question::Ins {
            speed,
            endpoint,
            most,
            toggle,
            packets,
        } => ins_behind(*speed, *endpoint, *most, *toggle, *packets, answer),
        Question::Outs {
            speed,
            endpoint,
            most,
            toggle,
            bytes,
        } => outs_behind(*speed, *endpoint, *most, *toggle, bytes.as_slice(), answer),
        _ => None,
    }
}

/// The INs left of a row, from the other toggle on. None if the answer brings no full packet of the
/// toggle that is due, or was the last of the row.
fn ins_behind(
    speed: Speed,
    endpoint: Endpoint,
    most: u8,
    toggle: Toggle,
    packets: u8,
    answer: &Answer,
) -> Option<Question>
    requires row { IsEndpoint endpoint × IsMost most × IsMost packets }
    ensures value { result ≡ ins_behind speed endpoint most toggle packets answer.now }
    ensures asks { IfSome result IsQuestion }
{
    if !brings_full(answer, most, toggle) || packets <= 1 {
        return None;
    }
    Some(Question::Ins {
        speed,
        endpoint,
        most,
        toggle: toggle.other(),
        packets: packets - 1,
    })
}

/// The OUTs left of a row, from the other toggle on. None if the packet was not taken, or was the
/// last of the row.
fn outs_behind(
    speed: Speed,
    endpoint: Endpoint,
    most: u8,
    toggle: Toggle,
    bytes: &[u8],
    answer: &Answer,
) -> Option<Question>
    requires row { IsEndpoint endpoint × IsMost most × IsRow bytes.now }
    ensures value { result ≡ outs_behind speed endpoint most toggle bytes.now answer.now }
    ensures asks { IfSome result IsQuestion }
{
    if !is_taken(answer) || bytes.len() <= usize::from(most) {
        return None;
    }
    let mut rest = ArrayVec::<u8, ROW_LIMIT>::new();
    rest.try_extend_from_slice(&bytes[usize::from(most)..])
        .unwrap();
    Some(Question::Outs {
        speed,
        endpoint,
        most,
        toggle: toggle.other(),
        bytes: rest,
    })
}

/// Whether an answer brings a full packet of the toggle that is due.
fn brings_full(answer: &Answer, most: u8, due: Toggle) -> bool
    ensures { result ≡ brings_full most due answer.now }
{
    match answer {
        Answer::Data(DataPacket { toggle, bytes }) => {
            due.is_same(*toggle) && bytes.len() == usize::from(most)
        }
        _ => false,
    }
}

/// Whether the data were taken.
fn is_taken(answer: &Answer) -> bool
    ensures { result ≡ is_taken answer.now }
{
    matches!(answer, Answer::Ack)
}
