//! An event of a plan: what is plugged or unplugged, or what is asked of the driver.
ghost use Rattle.std.specs.Prelude.{◌≡◌, IfOk};
ghost use Rattle.usb_world.specs.Steps.{waits, ask_of};

use std::alloc::{AllocError, Global};
use std::marker::Model;
use usb_port::PortPath;
use usb_request::endpoint_address::DIRECTION_IN;
use usb_request::{EndpointAddress, ReadRequest, Setup};

/// Bytes that an event sends.
#[derive(Debug, Drop)]
pub struct SentBytes {
    bytes: Vec<u8>,
}

impl Model for SentBytes {
    ghost use Rattle.std.specs.Prelude.{List, ℕ};

    ghost Value = { List ℕ };

    ghost view = { λ b. b.bytes.items };
}

impl SentBytes {
    /// The bytes themselves.
    pub fn new(bytes: Vec<u8>) -> Self
        ensures { result ≡ bytes.items }
    {
        SentBytes { bytes }
    }

    /// The bytes in their order.
    pub fn as_slice(&self) -> &[u8]
        ensures { result.now ≡ self.now }
    {
        self.bytes.as_slice()
    }

    /// The same bytes in memory of their own.
    ///
    /// # Errors
    ///
    /// Memory was refused.
    pub fn try_clone(&self, alloc: Global) -> Result<Self, AllocError>
        ensures { IfOk result (λ b. b ≡ self.now) }
    {
        Ok(SentBytes {
            bytes: self.bytes.as_slice().to_vec(alloc)?,
        })
    }
}

/// A request that writes: bit 7 of bmRequestType is clear (9.3.1), and wLength is the number of its
/// bytes.
#[derive(Debug, Drop)]
pub struct WriteRequest {
    setup: Setup,
    bytes: SentBytes,
}

impl Model for WriteRequest {
    ghost use Rattle.usb_world.specs.WriteRequests.{IsWrite, Write};

    ghost Value = { Write };

    ghost view = { λ r. record { setup = r.setup; bytes = r.bytes } };

    ghost invariant = { λ r. IsWrite (record { setup = r.setup; bytes = r.bytes }) };
}

impl WriteRequest {
    ghost use Rattle.std.specs.Prelude.{◌≡◌, IfSome, IfNone, IfOk};
    ghost use Rattle.usb_world.specs.WriteRequests.{IsWrite};

    /// The request of this setup data with these bytes; `None` if bit 7 is set, or wLength is not
    /// their number.
    pub fn new(setup: Setup, bytes: SentBytes) -> Option<WriteRequest>
        ensures some { IfSome result (λ r. r ≡ record { setup = setup; bytes = bytes }) }
        ensures none { IfNone result (IsWrite (record { setup = setup; bytes = bytes }) → ⊥) }
    {
        if setup.request_type < DIRECTION_IN
            && usize::from(setup.length) == bytes.as_slice().len()
        {
            Some(WriteRequest { setup, bytes })
        } else {
            None
        }
    }

    /// Its setup data.
    pub fn setup(&self) -> Setup
        ensures value { result ≡ self.now.setup }
        ensures writes { IsWrite self.now }
    {
        self.setup
    }

    /// Its bytes.
    pub fn bytes(&self) -> &[u8]
        ensures value { result.now ≡ self.now.bytes }
        ensures writes { IsWrite self.now }
    {
        self.bytes.as_slice()
    }

    /// The same request in memory of its own.
    ///
    /// # Errors
    ///
    /// Memory was refused.
    pub fn try_clone(&self, alloc: Global) -> Result<Self, AllocError>
        ensures { IfOk result (λ r. r ≡ self.now) }
    {
        Ok(WriteRequest {
            setup: self.setup,
            bytes: self.bytes.try_clone(alloc)?,
        })
    }
}

/// What an event does to what is plugged.
#[derive(Debug, Drop)]
pub enum Change {
    /// Plugs a device, by its index among the plan's devices, at a port.
    Plug(PortPath, usize),
    /// Unplugs the device at a port, and with it all that is plugged below it.
    Unplug(PortPath),
}

/// What an event asks of whoever drives the host.
#[derive(Debug, Drop)]
pub enum Ask {
    /// To list what the host found, with what the refused devices said of themselves or without.
    Show {
        /// The bytes of its device descriptor that a refused device gave are listed too.
        said: bool,
    },
    /// To send these bytes to the bulk endpoint of the device at a port (5.8).
    Send(PortPath, SentBytes),
    /// To receive at most this number of packets, 0 to 1,000, from the bulk endpoint of the device
    /// at a port (5.8).
    Receive(PortPath, u16),
    /// To clear the halts of the bulk endpoints of the device at a port (9.4.1).
    Clear(PortPath),
    /// To send these bytes to this endpoint of the device at a port (5.7, 5.8).
    SendTo(PortPath, EndpointAddress, SentBytes),
    /// To receive at most this number of packets, 0 to 1,000, from this endpoint of the device at a
    /// port (5.8).
    ReceiveFrom(PortPath, EndpointAddress, u16),
    /// To ask this interrupt endpoint of the device at a port once for a packet (5.7).
    Poll(PortPath, EndpointAddress),
    /// To clear the halt of this endpoint of the device at a port (9.4.1).
    ClearOf(PortPath, EndpointAddress),
    /// To choose an interface's alternate setting at the device at a port (9.4.10): first the
    /// interface's number, then the setting's.
    SetInterface(PortPath, u8, u8),
    /// To read from endpoint 0 of the device at a port (9.3).
    ControlIn(PortPath, ReadRequest),
    /// To write to endpoint 0 of the device at a port (9.3).
    ControlOut(PortPath, WriteRequest),
    /// To look once more at what is at a port.
    Look(PortPath),
    /// To say which devices left and which arrived since this was last asked.
    News,
}

/// What an event does.
#[derive(Debug, Drop)]
pub enum Action {
    /// Changes what is plugged.
    Change(Change),
    /// Asks something, and changes nothing.
    Ask(Ask),
}

impl Action {
    /// Whether it waits until the host has nothing left to do.
    pub fn waits(&self) -> bool
        ensures { result ≡ waits self.now }
    {
        match self {
            Action::Change(_) => false,
            Action::Ask(_) => true,
        }
    }

    /// What it asks, if it asks.
    #[tactic(auto, unfolding(crate::specs::Steps::ask_of))]
    pub fn into_ask(self) -> Option<Ask>
        ensures { result ≡ ask_of self }
    {
        match self {
            Action::Change(_) => None,
            Action::Ask(ask) => Some(ask),
        }
    }
}

/// What happens, and how many attempts after the former event, or after the start.
#[derive(Debug, Drop)]
pub struct Event {
    /// In attempts.
    pub after: u64,
    /// What happens.
    pub action: Action,
}
