//! The devices of a plan, and what they have said.
ghost use Rattle.std.specs.Prelude.{◌≤◌, length};

use crate::fault::OpenFault;
use crate::text::plan_of;
use std::alloc::Global;
use std::cmp::min;
use std::io::{Sink, sink};
use std::mem::replace;
use usb_far::{FarEnd, FarFault, serve};
use usb_sim::Tracer;
use usb_watch::Watched;

/// The devices of a plan as the controller side of a host's lines, and the bytes that they have
/// said and nobody has fetched.
#[derive(Drop)]
pub struct Devices {
    alloc: Global,
    far: FarEnd<Tracer<Sink>>,
    said: Vec<u8>,
    /// How many of those bytes were fetched.
    fetched: usize,
    /// Why nothing more is said.
    fault: Option<FarFault>,
    ghost within: { fetched ≤ length said.items },
}

impl Devices {
    ghost use Rattle.std.specs.Prelude.{◌≡◌, [], IfErr, IfOk};
    ghost use Rattle.usb_device_exports.specs.Linked.{Asks, Fetches, IsUnopened, Opens};
    ghost use Rattle.usb_device_exports.specs.Linked.{devices_state};

    /// The devices of the plan that a TOML text spells. Nothing was asked yet: all root ports are
    /// off.
    ///
    /// # Errors
    ///
    /// - `NoText`: the text is no UTF-8.
    /// - `Plan`: it is no plan, with the fault of `usb_plan::read_plan`.
    /// - `Memory`: memory was refused.
    pub fn open(alloc: Global, text: &[u8]) -> Result<Devices, OpenFault>
        ensures open { IfOk result (λ made. Opens text.now (devices_state made)) }
        ensures fault { IfErr result (IsUnopened text.now) }
    {
        let plan = plan_of(alloc, text)?;
        match FarEnd::new(alloc, &plan, Watched::new(sink())) {
            Ok(far) => Ok(Devices {
                alloc,
                far,
                said: Vec::new(alloc),
                fetched: 0,
                fault: None,
            }),
            Err(_) => Err(OpenFault::Memory),
        }
    }

    /// Asks lines of a host, each with its newline at its end. They are answered in order, as
    /// `usbplan far` does, and the answers wait.
    ///
    /// # Errors
    ///
    /// The fault of the first line that has one, as `usb_far::serve` says. The answers of the lines
    /// before it wait, and those to the first attempts of its row. Every later call reports the same
    /// fault, and does nothing.
    ///
    /// - `Write`: memory was refused. A prefix of one more answer waits.
    /// - `HostGone`: the last line has no newline.
    pub fn ask(&mut self, lines: &[u8]) -> Result<(), FarFault>
        ensures { Asks (devices_state self.old) lines.now result (devices_state self.new) }
    {
        if let Some(fault) = self.fault {
            return Err(fault);
        }
        let mut reader = Watched::new(lines);
        let mut writer = Watched::new(self.take_waiting());
        let served = serve(&mut self.far, &mut reader, &mut writer);
        self.said = writer.into_inner();
        match served {
            Ok(()) => Ok(()),
            Err((_, fault)) => {
                self.fault = Some(fault);
                Err(fault)
            }
        }
    }

    /// Moves as many of the bytes that wait into the room as it has space for, in order. Returns
    /// how many; the rest of the room stays as it was.
    pub fn fetch(&mut self, room: &mut [u8]) -> usize
        ensures { Fetches (devices_state self.old) room.old result (devices_state self.new)
            room.new }
    {
        let waiting = &self.said[self.fetched..];
        let count = min(waiting.len(), room.len());
        room[..count].copy_from_slice(&waiting[..count]);
        self.fetched += count;
        count
    }

    /// Takes the bytes that wait out.
    fn take_waiting(&mut self) -> Vec<u8>
        ensures waiting { result.items ≡ (devices_state self.old).waits }
        ensures left { devices_state self.new ≡ record (devices_state self.old) { waits = [] } }
        ensures none { self.new.fetched ≡ 0 }
    {
        let mut said = replace(&mut self.said, Vec::new(self.alloc));
        said.drain(..self.fetched);
        self.fetched = 0;
        said
    }
}
