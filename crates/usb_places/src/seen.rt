//! What a host does, as places count it.

ghost use Rattle.std.specs.Prelude.{◌≡◌};
ghost use Rattle.usb_places.specs.Deeds.{try_of};

use usb_port::{PortCall, PortPath};
use usb_request::Setup;
use usb_world::Attempt;

/// The token of an attempt (8.4.1), with the setup data behind SETUP.
#[derive(Clone, Copy, Debug, PartialEq, Eq)]
pub enum Token {
    /// SETUP (8.5.3).
    Setup(Setup),
    /// OUT.
    Out,
    /// IN.
    In,
}

/// An attempt: its token, and where that goes.
#[derive(Clone, Copy, Debug, PartialEq, Eq)]
pub struct Try {
    /// The device's address, 0 to 127.
    pub address: u8,
    /// The endpoint's number, 0 to 15.
    pub endpoint: u8,
    /// The token.
    pub token: Token,
}

impl Try {
    /// That of an attempt.
    pub fn of(attempt: &Attempt) -> Try
        ensures { result ≡ try_of attempt.now }
    {
        let (to, token) = match attempt {
            Attempt::Setup { to, bytes } => (*to, Token::Setup(Setup::from_bytes(*bytes))),
            Attempt::Out { to, .. } => (*to, Token::Out),
            Attempt::In { to } => (*to, Token::In),
        };
        Try {
            address: to.address,
            endpoint: to.number,
            token,
        }
    }
}

/// What a host does.
#[derive(Debug, Drop)]
pub enum Deed {
    /// It makes an attempt. Behind it is the path of the port whose device has that address, if one that can be
    /// reached has it.
    Attempt(Try, Option<PortPath>),
    /// It makes a call at the root port of this number, from 1.
    Call(u8, PortCall),
    /// It reads the status of the root port of this number, from 1.
    Status(u8),
    /// It waits, with nothing left to do.
    Wait,
}

/// What a host does, and how far the run is before that.
#[derive(Debug, Drop)]
pub struct Seen {
    /// How many attempts were made.
    pub attempts: u64,
    /// How many of these were made since the last event came, or since the start.
    pub since: u64,
    /// How many events came.
    pub taken: u64,
    /// What the host does.
    pub deed: Deed,
}
