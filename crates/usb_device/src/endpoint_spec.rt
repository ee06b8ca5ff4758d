//! What a plan says of an endpoint besides endpoint 0: what it gives, and how it hesitates.
ghost use Rattle.std.specs.Prelude.{◌≡◌, IfOk};
ghost use Rattle.usb_device.specs.EndpointSpecs.{endpoint_row};

use crate::lists::{Bytes, Packets};
use std::alloc::{AllocError, Global};
use std::marker::Model;
use usb_request::EndpointAddress;

/// What an IN endpoint gives.
#[derive(Debug, Drop)]
pub enum EndpointData {
    /// These bytes, in packets of the endpoint's maximum, of which the last can be shorter.
    Source(Bytes<65535>),
    /// These packets as they are.
    Packets(Packets),
}

impl EndpointData {
    /// The same data in memory of their own.
    ///
    /// # Errors
    ///
    /// Memory was refused.
    pub fn try_clone(&self, alloc: Global) -> Result<Self, AllocError>
        ensures { IfOk result (λ d. d ≡ self.now) }
    {
        Ok(match self {
            EndpointData::Source(bytes) => EndpointData::Source(bytes.try_clone(alloc)?),
            EndpointData::Packets(packets) => EndpointData::Packets(packets.try_clone(alloc)?),
        })
    }
}

/// An endpoint as a plan describes it.
#[derive(Debug, Drop)]
pub struct EndpointSpec {
    /// Its direction and its number.
    pub address: EndpointAddress,
    /// What it gives; an OUT endpoint gives nothing.
    pub data: EndpointData,
    /// After how many packets since the plug it halts once, if it ever does.
    pub halt_after: Option<u16>,
    /// How many NAKs it gives before each packet.
    pub naks: u16,
}

impl EndpointSpec {
    /// The same description in memory of its own.
    ///
    /// # Errors
    ///
    /// Memory was refused.
    pub fn try_clone(&self, alloc: Global) -> Result<Self, AllocError>
        ensures { IfOk result (λ row. row ≡ self.now) }
    {
        Ok(EndpointSpec {
            address: self.address,
            data: self.data.try_clone(alloc)?,
            halt_after: self.halt_after,
            naks: self.naks,
        })
    }
}

fn copied(alloc: Global, rows: &[EndpointSpec]) -> Result<Vec<EndpointSpec>, AllocError>
    ensures { IfOk result (λ v. v.items ≡ rows.now) }
{
    let mut all = Vec::new(alloc);
    'rows: for row in rows {
        all.push(row.try_clone(alloc)?)?;
    }
    Ok(all)
}

/// The endpoints of a device that a plan describes, at most 30. Of an address the first one counts.
#[derive(Debug, Drop)]
pub struct EndpointSpecs {
    rows: Vec<EndpointSpec>,
}

impl Model for EndpointSpecs {
    ghost use Rattle.std.specs.Prelude.{List, ◌≤◌, length};
    ghost use Rattle.usb_device.specs.declared.endpoint_spec.EndpointSpec.{EndpointSpec};

    ghost Value = { List EndpointSpec };

    ghost view = { λ e. e.rows.items };

    ghost invariant = { λ e. length e.rows.items ≤ 30 };
}

impl EndpointSpecs {
    ghost use Rattle.std.specs.Prelude.{◌<◌, ◌≤◌, [], ◌∷◌, ◌++◌, length, option_copied, OnOk, OnErr};

    /// No rows.
    pub fn new(alloc: Global) -> Self
        ensures { result ≡ [] }
    {
        EndpointSpecs {
            rows: Vec::new(alloc),
        }
    }

    /// One row more, after the others.
    ///
    /// # Errors
    ///
    /// Memory was refused, and nothing changes.
    pub fn push(&mut self, row: EndpointSpec) -> Result<(), AllocError>
        requires { length self.old < 30 }
        ensures ok { OnOk result (self.new ≡ self.old ++ row ∷ []) }
        ensures err { OnErr result (self.new ≡ self.old) }
    {
        Ok(self.rows.push(row)?)
    }

    /// The rows in their order.
    pub fn as_slice(&self) -> &[EndpointSpec]
        ensures value { result.now ≡ self.now }
        ensures bound { length self.now ≤ 30 }
    {
        self.rows.as_slice()
    }

    /// The row of an address, if there is one.
    pub fn row(&self, address: u8) -> Option<&EndpointSpec>
        ensures { option_copied result ≡ endpoint_row self.now address }
    {
        self.rows.iter().find(|row| row.address.get() == address)
    }

    /// The same rows in memory of their own.
    ///
    /// # Errors
    ///
    /// Memory was refused.
    pub fn try_clone(&self, alloc: Global) -> Result<Self, AllocError>
        ensures { IfOk result (λ e. e ≡ self.now) }
    {
        Ok(EndpointSpecs {
            rows: copied(alloc, self.rows.as_slice())?,
        })
    }
}
