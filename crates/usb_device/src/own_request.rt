//! Requests of a device's own: of its class, or of its vendor (9.3.1).
ghost use Rattle.std.specs.Prelude.{◌≡◌, IfOk};
ghost use Rattle.usb_device.specs.OwnRequests.{bytes_given, fits, goes_so, is_or_any, is_to_host, own_place};

use crate::lists::Bytes;
use std::alloc::{AllocError, Global};
use std::marker::Model;
use usb_request::Setup;
use usb_request::endpoint_address::DIRECTION_IN;

/// What a device does about a request of its own.
#[derive(Debug, Drop)]
pub enum OwnAnswer {
    /// It answers by STALL from the data stage on.
    RefuseData,
    /// It takes the host's data, and answers by STALL at the status stage.
    RefuseStatus,
    /// It gives these bytes.
    Give(Bytes<65535>),
    /// It gives what control writes have brought since the plug.
    GiveTaken,
    /// It takes the host's data and keeps them.
    Take,
}

impl OwnAnswer {
    /// The bytes that it gives, if they are fixed.
    pub fn bytes_given(&self) -> &[u8]
        ensures { result.now ≡ bytes_given self.now }
    {
        match self {
            OwnAnswer::Give(bytes) => bytes.as_slice(),
            OwnAnswer::RefuseData
            | OwnAnswer::RefuseStatus
            | OwnAnswer::GiveTaken
            | OwnAnswer::Take => &[],
        }
    }

    /// Whether it is an answer to data that go to the host, or to the device.
    fn goes_so(&self, to_host: bool) -> bool
        ensures { result ≡ goes_so self.now to_host }
    {
        match self {
            OwnAnswer::RefuseData => true,
            OwnAnswer::Give(_) | OwnAnswer::GiveTaken => to_host,
            OwnAnswer::RefuseStatus | OwnAnswer::Take => !to_host,
        }
    }

    /// The same answer in memory of its own.
    ///
    /// # Errors
    ///
    /// Memory was refused.
    pub fn try_clone(&self, alloc: Global) -> Result<Self, AllocError>
        ensures { IfOk result (λ answer. answer ≡ self.now) }
    {
        Ok(match self {
            OwnAnswer::RefuseData => OwnAnswer::RefuseData,
            OwnAnswer::RefuseStatus => OwnAnswer::RefuseStatus,
            OwnAnswer::Give(bytes) => OwnAnswer::Give(bytes.try_clone(alloc)?),
            OwnAnswer::GiveTaken => OwnAnswer::GiveTaken,
            OwnAnswer::Take => OwnAnswer::Take,
        })
    }
}

/// A row of a device's own requests.
#[derive(Debug, Drop)]
pub struct OwnRequest {
    /// bmRequestType, 0 to 255.
    pub request_type: u8,
    /// bRequest, 0 to 255.
    pub request: u8,
    /// wValue; None if any is meant.
    pub value: Option<u16>,
    /// wIndex; None if any is meant.
    pub index: Option<u16>,
    /// wLength, in bytes; None if any is meant.
    pub length: Option<u16>,
    /// What the device does about it.
    pub answer: OwnAnswer,
}

fn is_or_any(fixed: Option<u16>, number: u16) -> bool
    ensures { result ≡ is_or_any fixed number }
{
    match fixed {
        Some(fixed) => number == fixed,
        None => true,
    }
}

/// Whether the data of a request go to the host (9.3.1).
fn is_to_host(setup: &Setup) -> bool
    ensures { result ≡ is_to_host setup.now }
{
    setup.request_type >= DIRECTION_IN
}

impl OwnRequest {
    /// Whether the setup data are those of the row. A row that gives bytes is for requests that
    /// read, and one that takes them for requests that write (9.3.1).
    pub fn fits(&self, setup: &Setup) -> bool
        ensures { result ≡ fits self.now setup.now }
    {
        setup.request_type == self.request_type
            && setup.request == self.request
            && is_or_any(self.value, setup.value)
            && is_or_any(self.index, setup.index)
            && is_or_any(self.length, setup.length)
            && self.answer.goes_so(is_to_host(setup))
    }

    /// The same row in memory of its own.
    ///
    /// # Errors
    ///
    /// Memory was refused.
    pub fn try_clone(&self, alloc: Global) -> Result<Self, AllocError>
        ensures { IfOk result (λ row. row ≡ self.now) }
    {
        Ok(OwnRequest {
            request_type: self.request_type,
            request: self.request,
            value: self.value,
            index: self.index,
            length: self.length,
            answer: self.answer.try_clone(alloc)?,
        })
    }
}

fn copied(alloc: Global, rows: &[OwnRequest]) -> Result<Vec<OwnRequest>, AllocError>
    ensures { IfOk result (λ v. v.items ≡ rows.now) }
{
    let mut all = Vec::new(alloc);
    'rows: for row in rows {
        all.push(row.try_clone(alloc)?)?;
    }
    Ok(all)
}

/// The requests of a device's own, at most 64: the first row that a request fits says what the
/// device does.
#[derive(Debug, Drop)]
pub struct OwnRequests {
    rows: Vec<OwnRequest>,
}

impl Model for OwnRequests {
    ghost use Rattle.std.specs.Prelude.{List, ◌≤◌, length};
    ghost use Rattle.usb_device.specs.declared.own_request.OwnRequest.{OwnRequest};

    ghost Value = { List OwnRequest };

    ghost view = { λ r. r.rows.items };

    ghost invariant = { λ r. length r.rows.items ≤ 64 };
}

impl OwnRequests {
    ghost use Rattle.std.specs.Prelude.{◌<◌, ◌≤◌, [], ◌∷◌, ◌++◌, length, OnOk, OnErr};

    /// No rows.
    pub fn new(alloc: Global) -> Self
        ensures { result ≡ [] }
    {
        OwnRequests {
            rows: Vec::new(alloc),
        }
    }

    /// One row more, after the others.
    ///
    /// # Errors
    ///
    /// Memory was refused, and nothing changes.
    pub fn push(&mut self, row: OwnRequest) -> Result<(), AllocError>
        requires { length self.old < 64 }
        ensures ok { OnOk result (self.new ≡ self.old ++ row ∷ []) }
        ensures err { OnErr result (self.new ≡ self.old) }
    {
        Ok(self.rows.push(row)?)
    }

    /// The rows in their order.
    pub fn as_slice(&self) -> &[OwnRequest]
        ensures value { result.now ≡ self.now }
        ensures bound { length self.now ≤ 64 }
    {
        self.rows.as_slice()
    }

    /// The place of the first row that a request fits.
    pub fn place_of(&self, setup: &Setup) -> Option<usize>
        ensures { result ≡ own_place self.now setup.now }
    {
        self.rows.iter().position(|row| row.fits(setup))
    }

    /// The same rows in memory of their own.
    ///
    /// # Errors
    ///
    /// Memory was refused.
    pub fn try_clone(&self, alloc: Global) -> Result<Self, AllocError>
        ensures { IfOk result (λ r. r ≡ self.now) }
    {
        Ok(OwnRequests {
            rows: copied(alloc, self.rows.as_slice())?,
        })
    }
}
