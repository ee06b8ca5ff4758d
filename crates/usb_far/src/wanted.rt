//! What events request of the host, as it is reported.
ghost use Rattle.std.specs.Prelude.{◌≡◌, ◌≤◌, length};
ghost use Rattle.usb_far.specs.Sends.{fits_line, line_limit};
ghost use Rattle.usb_far.specs.Requested.{alone, asked_wanted, due_wanted, part_wanted, send_answer, write_wanted};

use arrayvec::ArrayVec;
use std::marker::Model;
use usb_port::PortPath;
use usb_request::EndpointAddress;
use usb_sim::{Ask, SentBytes, WriteRequest};
use usb_wire::{Answer, ControlWrite, SEND_LIMIT, SEND_ROOM, SEND_TO_LIMIT, WRITE_LIMIT};

/// The bytes of each part of a send but the last: a multiple of each bulk packet's maximum (5.8.3), so that the packets
/// are those of one send.
const PART_SIZE: usize = 448;

/// An answer to `wait`, and what is left to send after it.
#[derive(Drop)]
pub(crate) struct Wanted {
    pub(crate) answer: Answer,
    pub(crate) sending: Option<Sending>,
}

/// Bytes that are still to go to the device at a port.
#[derive(Drop)]
pub(crate) struct Sending {
    path: PortPath,
    /// None: to the first bulk endpoint.
    endpoint: Option<EndpointAddress>,
    bytes: SentBytes,
    /// This number of them is sent.
    sent: usize,
}

impl Model for Sending {
    ghost use Rattle.std.specs.Prelude.{◌≤◌, drop, length};
    ghost use Rattle.usb_far.specs.Sends.{ToSend};

    ghost Value = { ToSend };

    ghost view = { λ s. record {
      path = s.path;
      endpoint = s.endpoint;
      bytes = drop s.sent s.bytes;
    } };

    ghost invariant = { λ s. s.sent ≤ length s.bytes };
}

impl Sending {
    ghost use Rattle.std.specs.Prelude.{◌≡◌, ◌≤◌, drop, length, IsTrue};

    /// All of a send.
    fn new(path: PortPath, endpoint: Option<EndpointAddress>, bytes: SentBytes) -> Sending
        ensures { result ≡ record { path = path; endpoint = endpoint; bytes = bytes } }
    {
        Sending {
            path,
            endpoint,
            bytes,
            sent: 0,
        }
    }

    /// What is left.
    fn rest(&self) -> &[u8]
        ensures { result.now ≡ self.now.bytes }
    {
        &self.bytes.as_slice()[self.sent..]
    }

    /// Whether one line has room for all that is left.
    #[tactic(auto, unfolding(crate::specs::Sends::fits_line))]
    fn fits_line(&self) -> bool
        ensures value { result ≡ fits_line self.now }
        ensures few { IsTrue result → length self.now.bytes ≤ line_limit self.now.endpoint }
    {
        let count = self.rest().len();
        count <= line_limit(self.endpoint) && self.path.text().len() + 2 * count <= SEND_ROOM
    }

    /// The answer that requests to send a part of it.
    fn request(&self, part: &[u8]) -> Answer
        requires { length part.now ≤ line_limit self.now.endpoint }
        ensures { result ≡ send_answer self.now.path self.now.endpoint part.now }
    {
        send_answer(self.path.duplicate(), self.endpoint, part)
    }

    /// The same without its first bytes.
    fn without(self, count: usize) -> Sending
        requires { count ≤ length self.bytes }
        ensures { result ≡ record self { bytes = drop count self.bytes } }
    {
        let left = self.rest().len() - count;
        Sending {
            sent: self.bytes.as_slice().len() - left,
            ..self
        }
    }
}

/// The next part of a send, and what is left after it.
pub(crate) fn next_part(sending: Sending) -> Wanted
    ensures { result ≡ part_wanted sending }
{
    let rest = sending.rest();
    if sending.fits_line() {
        return Wanted {
            answer: sending.request(rest),
            sending: None,
        };
    }
    let count = PART_SIZE.min(rest.len());
    Wanted {
        answer: sending.request(&rest[..count]),
        sending: Some(sending.without(count)),
    }
}

/// The most bytes of one line.
fn line_limit(endpoint: Option<EndpointAddress>) -> usize
    ensures { result ≡ line_limit endpoint }
{
    match endpoint {
        None => SEND_LIMIT,
        Some(_) => SEND_TO_LIMIT,
    }
}

/// The answer that requests a send.
fn send_answer(path: PortPath, endpoint: Option<EndpointAddress>, part: &[u8]) -> Answer
    requires { length part.now ≤ line_limit endpoint }
    ensures { result ≡ send_answer path endpoint part.now }
{
    match endpoint {
        None => {
            let mut bytes = ArrayVec::new();
            bytes.try_extend_from_slice(part).unwrap();
            Answer::Send { path, bytes }
        }
        Some(endpoint) => {
            let mut bytes = ArrayVec::new();
            bytes.try_extend_from_slice(part).unwrap();
            Answer::SendTo {
                path,
                endpoint,
                bytes,
            }
        }
    }
}

/// What an event requests, as it is reported; `None` if it writes more than a line has room for.
pub(crate) fn due_wanted(due: Option<Option<Ask>>) -> Option<Wanted>
    ensures { result ≡ due_wanted due }
{
    match due {
        None => alone(Answer::End),
        Some(None) => alone(Answer::Done),
        Some(Some(ask)) => asked_wanted(ask),
    }
}

/// What this requests, as it is reported; None for a write of more than 480 bytes.
fn asked_wanted(ask: Ask) -> Option<Wanted>
    ensures { result ≡ asked_wanted ask }
{
    match ask {
        Ask::Show { .. } => alone(Answer::Show),
        Ask::Send(path, bytes) => Some(next_part(Sending::new(path, None, bytes))),
        Ask::Receive(path, packets) => alone(Answer::Receive { path, packets }),
        Ask::Clear(path) => alone(Answer::Clear(path)),
        Ask::SendTo(path, endpoint, bytes) => {
            Some(next_part(Sending::new(path, Some(endpoint), bytes)))
        }
        Ask::ReceiveFrom(path, endpoint, packets) => alone(Answer::ReceiveFrom {
            path,
            endpoint,
            packets,
        }),
        Ask::Poll(path, endpoint) => alone(Answer::Poll { path, endpoint }),
        Ask::ClearOf(path, endpoint) => alone(Answer::ClearOf { path, endpoint }),
        Ask::SetInterface(path, interface, setting) => alone(Answer::Interface {
            path,
            interface,
            setting,
        }),
        Ask::ControlIn(path, request) => alone(Answer::ControlIn { path, request }),
        Ask::ControlOut(path, request) => write_wanted(path, &request),
        Ask::Look(path) => alone(Answer::Look(path)),
        Ask::News => alone(Answer::News),
    }
}

/// This answer, after which nothing is left to send.
fn alone(answer: Answer) -> Option<Wanted>
    ensures { result ≡ Some (alone answer) }
{
    Some(Wanted {
        answer,
        sending: None,
    })
}

/// What is to be written, if a line has room for it.
#[tactic(auto, unfolding(crate::specs::Requested::write_wanted))]
fn write_wanted(path: PortPath, request: &WriteRequest) -> Option<Wanted>
    ensures { result ≡ write_wanted path request.now }
{
    if request.bytes().len() > WRITE_LIMIT {
        return None;
    }
    let mut bytes = ArrayVec::new();
    bytes.try_extend_from_slice(request.bytes()).unwrap();
    let request = ControlWrite::new(request.setup(), bytes)?;
    alone(Answer::ControlOut { path, request })
}
