//! Questions to the controller side.
ghost use Rattle.std.specs.Prelude.{◌≡◌, ◌≤◌, ◌↔◌, IsTrue, length};
ghost use Rattle.usb_world.specs.declared.types.Attempt.{Attempt as AnAttempt};
ghost use Rattle.usb_dialogue.specs.Questions.{FitsQuestion, attempt_flags, attempt_head};
ghost use Rattle.usb_dialogue.specs.Questions.{call_head, flag, flags_by, is_one, question_bytes};
ghost use Rattle.usb_dialogue.specs.Questions.{question_record, row_head, sends_one, sent_bytes};
ghost use Rattle.usb_dialogue.specs.Questions.{token_number};

use crate::Answer;
use crate::answer::copied;
use arrayvec::ArrayVec;
use usb_bus::{Attempt, Destination, Outcome, Speed, Toggle};

/// What the controller side is to do.
#[derive(Debug, Drop)]
pub enum Question {
    /// One transaction attempt (8.5).
    Attempt(Attempt),
    /// A feature of a root port set (11.24.2.13): `usb_bus::Bus::root_set`.
    Set {
        /// The port, 1 to 7.
        port: u8,
        /// The feature, as in table 11-17.
        feature: u8,
    },
    /// A feature of a root port cleared (11.24.2.2): `usb_bus::Bus::root_clear`.
    Clear {
        /// The port, 1 to 7.
        port: u8,
        /// The feature, as in table 11-17.
        feature: u8,
    },
    /// An endpoint begins again at DATA0 (9.4.10): `usb_bus::Bus::restart_endpoint`.
    Restart {
        /// The device's address, 1 to 127.
        address: u8,
        /// bEndpointAddress (9.6.6): the number, and bit 7 of an IN endpoint.
        endpoint: u8,
    },
    /// INs of one endpoint, one after the other, until one is not answered by a full packet of
    /// the toggle that is due. At least one is made. The controller side may end the row after
    /// any of them.
    Ins {
        /// The endpoint. A full packet has its maximum.
        to: Destination,
        /// The toggle of the first packet. The others alternate.
        toggle: Toggle,
        /// The most packets, 1 to 64.
        most: u8,
    },
}

impl Question {
    /// The record of the question.
    ///
    /// | at | what |
    /// |---|---|
    /// | 0 | 1 SETUP, 2 OUT, 3 IN, 4 set a root port's feature, 5 clear it |
    /// | | 6 begin an endpoint again, 7 a row of INs |
    /// | 1 | the device's address, or the root port |
    /// | 2 | the endpoint's number, the feature, or of 6 bEndpointAddress |
    /// | 3 | of 1, 2, 3 and 7: 1 low speed, 2 PRE before each packet (8.6.5), 4 DATA1; their sum |
    /// | 4 | of 1, 2, 3 and 7: the endpoint's maximum packet, 1 to 64 |
    /// | 5 | the number of bytes that SETUP or OUT sends, 0 to 64 |
    /// | 6 | of 7: the most packets, 1 to 64 |
    /// | 7 | 0 |
    /// | 8 to 71 | the bytes that SETUP or OUT sends, then zeros |
    ///
    /// DATA1 is the toggle of an OUT's data, and of the first packet of a row.
    pub fn bytes(&self) -> [u8; 72]
        ensures { result ≡ question_bytes self.now }
    {
        match self {
            Question::Attempt(attempt) => laid_out(head_of(attempt), sent_bytes(attempt)),
            Question::Set { port, feature } => laid_out([4, *port, *feature, 0, 0, 0, 0, 0], &[]),
            Question::Clear { port, feature } => laid_out([5, *port, *feature, 0, 0, 0, 0, 0], &[]),
            Question::Restart { address, endpoint } => {
                laid_out([6, *address, *endpoint, 0, 0, 0, 0, 0], &[])
            }
            Question::Ins { to, toggle, most } => laid_out(row_head(*to, *toggle, *most), &[]),
        }
    }

    /// A second question of the same values.
    pub fn duplicate(&self) -> Question
        ensures { result ≡ self.now }
    {
        match self {
            Question::Attempt(attempt) => Question::Attempt(attempt_again(attempt)),
            Question::Set { port, feature } => Question::Set {
                port: *port,
                feature: *feature,
            },
            Question::Clear { port, feature } => Question::Clear {
                port: *port,
                feature: *feature,
            },
            Question::Restart { address, endpoint } => Question::Restart {
                address: *address,
                endpoint: *endpoint,
            },
            Question::Ins { to, toggle, most } => Question::Ins {
                to: *to,
                toggle: *toggle,
                most: *most,
            },
        }
    }

    /// Whether an answer has no more data than the endpoint's maximum packet (8.7.4).
    pub(crate) fn takes(&self, answer: &Answer) -> bool
        ensures { IsTrue result ↔ FitsQuestion self.now answer.now.outcome }
    {
        match (self, &answer.outcome) {
            (Question::Attempt(attempt), Outcome::Payload(_, bytes)) => {
                bytes.len() <= usize::from(attempt.destination().max)
            }
            (Question::Ins { to, .. }, Outcome::Payload(_, bytes)) => {
                bytes.len() <= usize::from(to.max)
            }
            _ => true,
        }
    }
}

/// The same attempt again.
pub(crate) fn attempt_again(attempt: &Attempt) -> Attempt
    ensures { result ≡ attempt.now }
{
    match attempt {
        Attempt::Setup { to, bytes } => Attempt::Setup {
            to: *to,
            bytes: *bytes,
        },
        Attempt::Out { to, toggle, bytes } => Attempt::Out {
            to: *to,
            toggle: *toggle,
            bytes: copied(bytes.as_slice()),
        },
        Attempt::In { to } => Attempt::In { to: *to },
    }
}

/// The first eight bytes of an attempt's record.
fn head_of(attempt: &Attempt) -> [u8; 8]
    ensures { result ≡ attempt_head attempt.now }
{
    let to = attempt.destination();
    let sent = sent_bytes(attempt).len() as u8;
    [
        token_number(attempt),
        to.address,
        to.number,
        flags_of(attempt),
        to.max,
        sent,
        0,
        0,
    ]
}

/// Byte 0 of an attempt's record: 1 SETUP, 2 OUT, 3 IN.
fn token_number(attempt: &Attempt) -> u8
    ensures { result ≡ token_number attempt.now }
{
    match attempt {
        Attempt::Setup { .. } => 1,
        Attempt::Out { .. } => 2,
        Attempt::In { .. } => 3,
    }
}

/// The bytes that an attempt sends.
fn sent_bytes(attempt: &Attempt) -> &[u8]
    ensures bytes { result.now ≡ sent_bytes attempt.now }
    ensures few { length result.now ≤ 64 }
{
    match attempt {
        Attempt::Setup { bytes, .. } => eight(bytes),
        Attempt::Out { bytes, .. } => bytes.as_slice(),
        Attempt::In { .. } => &[],
    }
}

/// Setup data as a slice.
fn eight(bytes: &[u8; 8]) -> &[u8]
    ensures value { result.now ≡ bytes.now }
    ensures size { length result.now ≡ 8 }
{
    bytes.as_slice()
}

/// The first eight bytes of a row's record.
fn row_head(to: Destination, toggle: Toggle, most: u8) -> [u8; 8]
    ensures { result ≡ row_head to toggle most }
{
    let flags = flags_by(to.speed, is_one(toggle));
    [7, to.address, to.number, flags, to.max, 0, most, 0]
}

/// Low speed, PRE and DATA1, of an attempt.
fn flags_of(attempt: &Attempt) -> u8
    ensures { result ≡ attempt_flags attempt.now }
{
    flags_by(attempt.destination().speed, sends_one(attempt))
}

/// Byte 3 of a record: 1 for low speed, 2 for PRE before each packet, 4 for DATA1; their sum.
fn flags_by(speed: Speed, is_one: bool) -> u8
    ensures { result ≡ flags_by speed is_one }
{
    flag(speed.is_low(), 1) + flag(speed.has_pre(), 2) + flag(is_one, 4)
}

/// Whether an OUT sends DATA1; false of SETUP and IN.
fn sends_one(attempt: &Attempt) -> bool
    ensures { result ≡ sends_one attempt.now }
{
    match attempt {
        Attempt::Out { toggle, .. } => is_one(*toggle),
        Attempt::Setup { .. } | Attempt::In { .. } => false,
    }
}

fn is_one(toggle: Toggle) -> bool
    ensures { result ≡ is_one toggle }
{
    match toggle {
        Toggle::Zero => false,
        Toggle::One => true,
    }
}

/// The bit of a flag that is set, else 0, to add to other flags.
fn flag(is_set: bool, bit: u8) -> u8
    ensures { result ≡ flag is_set bit }
{
    if is_set { bit } else { 0 }
}

/// Eight bytes, data, and zeros up to 72.
fn laid_out(head: [u8; 8], sent: &[u8]) -> [u8; 72]
    requires { length sent.now ≤ 64 }
    ensures { result ≡ question_record head sent.now }
{
    let mut bytes: ArrayVec<u8, 72> = ArrayVec::new();
    bytes.try_extend_from_slice(&head).unwrap();
    bytes.try_extend_from_slice(sent).unwrap();
    'zeros: for _ in sent.len()..64 {
        bytes.push(0);
    }
    bytes.into_inner().unwrap()
}
