//! What is at a port, with the host's pipes to it.
ghost use Rattle.std.specs.Prelude.{◌≡◌, IfOk, Some, option_copied};
ghost use Rattle.usb_table.specs.Findings.{IsSoundFinding};
ghost use Rattle.usb_table.specs.TablePipes.{ArePipesOf, new_pipes};
ghost use Rattle.usb_table.specs.Tables.{said_of};

use crate::pipes::{Pipes, pipes_to};
use arrayvec::ArrayVec;
use std::alloc::{AllocError, Global};
use usb_enum::Finding;

/// What was found at a port, with the host's pipes to it.
#[derive(Debug, Drop)]
pub(crate) struct Entry {
    pub finding: Finding,
    pub pipes: Pipes,
}

impl Entry {
    /// What was just found, with new pipes. What it said of itself is kept if it was refused.
    pub fn new(finding: Finding, below_hub: bool, said: ArrayVec<u8, 18>) -> Entry
        requires { IsSoundFinding finding }
        ensures value { result
            ≡ record { finding = finding; pipes = new_pipes finding below_hub said } }
        ensures fits { ArePipesOf finding below_hub result.pipes }
    {
        let pipes = match &finding {
            Finding::Device(device) => pipes_to(device, below_hub),
            Finding::Refused(_) => Pipes::Absent(said),
        };
        Entry { finding, pipes }
    }

    /// A second entry of the same value.
    ///
    /// # Errors
    ///
    /// Memory was refused.
    pub fn try_clone(&self, alloc: Global) -> Result<Entry, AllocError>
        ensures { IfOk result (λ entry. entry ≡ self.now) }
    {
        Ok(Entry {
            finding: self.finding.try_clone(alloc)?,
            pipes: self.pipes.duplicate(),
        })
    }

    /// What was found at the port.
    pub fn finding(&self) -> &Finding
        ensures { result.now ≡ self.now.finding }
    {
        &self.finding
    }

    /// What a refused device said of itself; `None` of an accepted one.
    pub fn said(&self) -> Option<&[u8]>
        ensures { option_copied result ≡ said_of (Some self.now.finding) self.now.pipes }
    {
        match &self.finding {
            Finding::Device(_) => None,
            Finding::Refused(_) => Some(self.pipes.said()),
        }
    }

    /// What was found at the port, without the pipes.
    pub fn into_finding(self) -> Finding
        ensures { result ≡ self.finding }
    {
        let Entry { finding, pipes: _ } = self;
        finding
    }
}
