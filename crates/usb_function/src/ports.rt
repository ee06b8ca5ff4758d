//! A row of ports, those of a hub or of the root, with the devices on them (4.1.1, 11.24).
ghost use Rattle.std.specs.Prelude.{◌≡◌, ◌≤◌, ◌==◌, ◌&&◌, [], None, Some, slice_get, IfOk, IsTrue, false};
ghost use Rattle.std.specs.Option.{option_copied};
ghost use Rattle.usb_port.specs.PortStates.{is_attached};
ghost use Rattle.usb_device.specs.Bulk.{changed_bit, low_changes, high_changes, change_bits};
ghost use Rattle.usb_port.specs.Calls.{is_reset};
ghost use Rattle.usb_device.specs.Tree.{new_ports, called, put, changed_at, changed_in, plugged_in, all_off, row_of, device_of};
ghost use Rattle.usb_function.specs.Places.{ports_kept, stood};

use crate::device::Device;
use std::alloc::{AllocError, Global};
use std::marker::Model;
use usb_port::{Port, PortCall};

/// A port, and the device on it.
#[cycle(tree)]
#[derive(Debug, Drop)]
pub(crate) struct Place {
    pub(crate) port: Port,
    pub(crate) device: Option<Device>,
}

/// A row of ports, the first one first, with the devices on them.
#[cycle(tree)]
#[derive(Debug, Drop)]
pub struct Ports {
    pub(crate) places: Vec<Place>,
}

impl Model for Ports {
    ghost use Rattle.std.proofs.Common.{arith};
    ghost use Rattle.std.proofs.Math.Nat.{le_refl};
    ghost use Rattle.usb_device.specs.Tree.{Ports as TreePorts};
    ghost use Rattle.std.specs.Coded.{codes};
    ghost use Rattle.usb_device.specs.TreeCodes.{ports_code, weight};

    ghost Value = { TreePorts };

    ghost coded = { ports_code (Prim.hlevel codes) };

    ghost use Rattle.usb_function.specs.Places.{ports_kept, falls};

    ghost view = { λ p. ports_kept p.places.items };

    ghost size = { weight };

    ghost size_decreases = { λ a h. falls _ (λ b. le_refl _) (λ b t. omega arith) a.places.items };
}

#[tactic(auto, using(crate::proofs::places::FirstPlaces::emptied))]
fn empty_places(alloc: Global, count: u8) -> Result<Vec<Place>, AllocError>
    ensures { IfOk result (λ places. ports_kept places.items ≡ new_ports count) }
{
    let mut places = Vec::new(alloc);
    'places: for _ in 0..count {
        places.push(Place {
            port: Port::new(),
            device: None,
        })?;
    }
    Ok(places)
}

/// Whether a call resets the device on the port: PORT_RESET of a powered port with something
/// attached.
fn resets(call: PortCall, port: &Port) -> bool
    ensures { result ≡ (is_reset call && (port.now.power && is_attached port.now.attached)) }
{
    match call {
        PortCall::SetReset => port.is_powered() && port.is_attached(),
        _ => false,
    }
}

impl Place {
    /// A call at the port.
    #[tactic(auto, using(crate::proofs::places::FirstPlaces::placing))]
    fn call(&mut self, call: PortCall)
        ensures { stood self.new ≡ called call (stood self.old) }
    {
        let resets = resets(call, &self.port);
        self.port.call(call);
        if let Some(device) = &mut self.device {
            if resets {
                device.reset();
            }
        }
    }

    /// Another device is plugged, or none stays there; what was there before is unplugged first,
    /// and handed back.
    fn put(&mut self, device: &mut Option<Device>)
        ensures before { device.new ≡ device_of (stood self.old) }
        ensures after { stood self.new ≡ put device.old (stood self.old) }
    {
        self.port.unplug();
        if let Some(device) = device {
            self.port.plug(device.is_low());
        }
        std::mem::swap(&mut self.device, device);
    }

    /// The same at the place, or below it where the path goes on, and whether there is such a port.
    #[cycle(put)]
    #[tactic(auto, using(usb_device::proofs::places::FirstPlaces::paths))]
    fn put_below(&mut self, path: &[u8], device: &mut Option<Device>) -> bool
        ensures before { IsTrue result → device.new ≡ plugged_in (stood self.old) path.now }
        ensures none { result ≡ false → plugged_in (stood self.old) path.now ≡ None }
        ensures after { stood self.new ≡ changed_in (put device.old) (stood self.old) path.now }
    {
        match path {
            [] => {
                self.put(device);
                true
            }
            [_, ..] => match &mut self.device {
                Some(above) => above.ports.put_at(path, device),
                None => false,
            },
        }
    }

    #[cycle(device_at)]
    #[tactic(auto, using(usb_device::proofs::places::FirstPlaces::paths))]
    fn device_below(&self, path: &[u8]) -> Option<&Device>
        ensures { option_copied result ≡ plugged_in (stood self.now) path.now }
    {
        match (&self.device, path) {
            (None, _) => None,
            (Some(device), []) => Some(device),
            (Some(device), [_, ..]) => device.ports.device_at(path),
        }
    }
}

#[cycle(turn_off)]
#[tactic(auto, using(crate::proofs::places::FirstPlaces::placing))]
fn turn_off(places: &mut [Place])
    ensures { ports_kept places.new ≡ all_off (ports_kept places.old) }
{
    if let Some((place, rest)) = places.split_first_mut() {
        place.port.power_off();
        turn_off(rest);
    }
}

impl Ports {
    ghost use Rattle.std.specs.Prelude.{◌∷◌, length};
    ghost use Rattle.usb_device.specs.Tree.{changed, device_there, numbered};

    /// So many ports, with nothing attached and no power.
    ///
    /// # Errors
    ///
    /// Memory was refused.
    pub fn new(alloc: Global, count: u8) -> Result<Self, AllocError>
        ensures { IfOk result (λ ports. ports ≡ new_ports count) }
    {
        Ok(Ports {
            places: empty_places(alloc, count)?,
        })
    }

    /// How many ports there are.
    #[tactic(auto, using(crate::proofs::places::FirstPlaces::placing))]
    pub fn count(&self) -> usize
        ensures { result ≡ length (row_of self.now) }
    {
        self.places.len()
    }

    /// A port by its number, counted from 1; None if there is none.
    pub fn port(&self, number: u8) -> Option<&Port>
        ensures { option_copied result ≡ numbered (row_of self.now) number }
    {
        if number == 0 {
            None
        } else {
            self.port_at(usize::from(number - 1))
        }
    }

    /// A port, counted from 0.
    #[tactic(auto, using(crate::proofs::places::NumberedPlaces::indexing))]
    pub(crate) fn port_at(&self, i: usize) -> Option<&Port>
        ensures { option_copied result ≡ slice_get (row_of self.now) i }
    {
        if i < self.places.len() {
            Some(&self.places[i].port)
        } else {
            None
        }
    }

    /// A call at the port of a number, counted from 1. PORT_RESET of a powered port with a device
    /// resets the device, whose own ports are then off. If there is no such port, nothing
    /// changes.
    #[tactic(auto, using(usb_device::proofs::places::FirstPlaces::paths))]
    pub fn call(&mut self, number: u8, call: PortCall)
        ensures { self.new ≡ changed (called call) self.old (number ∷ []) }
    {
        if number != 0 {
            self.call_at(usize::from(number - 1), call);
        }
    }

    /// A call at a port, counted from 0.
    #[tactic(auto, using(crate::proofs::places::NumberedPlaces::indexing))]
    pub(crate) fn call_at(&mut self, i: usize, call: PortCall)
        ensures { self.new ≡ changed_at (called call) self.old i [] }
    {
        if i < self.places.len() {
            self.places[i].call(call);
        }
    }

    /// No port has power any more.
    pub(crate) fn turn_off(&mut self)
        ensures { self.new ≡ all_off self.old }
    {
        turn_off(self.places.as_mut_slice());
    }

    /// A device is plugged at the port of a path. What was there is unplugged first, with all
    /// that was below it. If there is no such port, nothing changes.
    pub fn plug(&mut self, path: &[u8], device: Device)
        ensures { self.new ≡ changed (put (Some device)) self.old path.now }
    {
        let _ = self.put(path, Some(device));
    }

    /// The port of a path is left empty, and what was there is handed back. If there is no
    /// such port, nothing changes.
    pub fn unplug(&mut self, path: &[u8]) -> Option<Device>
        ensures before { result ≡ device_there self.old path.now }
        ensures after { self.new ≡ changed (put None) self.old path.now }
    {
        self.put(path, None)
    }

    fn put(&mut self, path: &[u8], device: Option<Device>) -> Option<Device>
        ensures before { result ≡ device_there self.old path.now }
        ensures after { self.new ≡ changed (put device) self.old path.now }
    {
        let mut device = device;
        if self.put_at(path, &mut device) {
            device
        } else {
            None
        }
    }

    /// The same with a place for both, and whether there is such a port.
    #[cycle(put)]
    #[tactic(auto, using(crate::proofs::places::NumberedPlaces::routing))]
    fn put_at(&mut self, path: &[u8], device: &mut Option<Device>) -> bool
        ensures before { IsTrue result → device.new ≡ device_there self.old path.now }
        ensures none { result ≡ false → device_there self.old path.now ≡ None }
        ensures after { self.new ≡ changed (put device.old) self.old path.now }
    {
        match path.split_first() {
            None => false,
            Some((number, rest)) => {
                let i = usize::from(*number);
                i != 0 && i <= self.places.len() && self.places[i - 1].put_below(rest, device)
            }
        }
    }

    /// The device at the port of a path; None if there is none.
    #[cycle(device_at)]
    #[tactic(auto, using(crate::proofs::places::NumberedPlaces::routing))]
    pub fn device_at(&self, path: &[u8]) -> Option<&Device>
        ensures { option_copied result ≡ device_there self.now path.now }
    {
        let (number, rest) = path.split_first()?;
        let i = usize::from(*number);
        if i == 0 || i > self.places.len() {
            None
        } else {
            self.places[i - 1].device_below(rest)
        }
    }

    /// Bit N is set if port N, counted from 1, of a hub of so many ports has a change bit set
    /// (11.12.4).
    #[tactic(auto, unfolding(usb_device::specs::Bulk::change_bits))]
    pub(crate) fn change_bits(&self, ports: u8) -> u16
        ensures { result ≡ change_bits ports (row_of self.now) }
    {
        let low = u16::from(self.low_changes());
        if ports > 7 {
            low + 256 * u16::from(self.high_changes())
        } else {
            low
        }
    }

    /// The same of the first seven ports.
    fn low_changes(&self) -> u8
        ensures { result ≡ low_changes (row_of self.now) }
    {
        self.changed_bit(0, 2)
            + self.changed_bit(1, 4)
            + self.changed_bit(2, 8)
            + self.changed_bit(3, 16)
            + self.changed_bit(4, 32)
            + self.changed_bit(5, 64)
            + self.changed_bit(6, 128)
    }

    /// The same of the next eight, from bit 0 on.
    fn high_changes(&self) -> u8
        ensures { result ≡ high_changes (row_of self.now) }
    {
        self.changed_bit(7, 1)
            + self.changed_bit(8, 2)
            + self.changed_bit(9, 4)
            + self.changed_bit(10, 8)
            + self.changed_bit(11, 16)
            + self.changed_bit(12, 32)
            + self.changed_bit(13, 64)
            + self.changed_bit(14, 128)
    }

    fn changed_bit(&self, i: usize, weight: u8) -> u8
        ensures value { result ≡ changed_bit (row_of self.now) i weight }
        ensures bound { result ≤ weight }
    {
        match self.port_at(i) {
            Some(port) if port.has_change() => weight,
            _ => 0,
        }
    }
}
