//! A plugged device with all that is plugged below it.
ghost use Rattle.std.specs.Prelude.{◌≡◌, ◌≤◌, ◌&&◌, not, length, None, IfOk, OnErr, true, is_some, option_map};
ghost use Rattle.std.specs.Option.{option_copied};
ghost use Rattle.usb_port.specs.PortStates.{status_of};
ghost use Rattle.usb_device.specs.Rows.{sink_grows, awaits_address, ends_with_address, is_busy, out_end};
ghost use Rattle.usb_device.specs.Tree.{new_device, first_ports, reset_whole, row_of, numbered, acted, child_of, with_child, without_child};
ghost use Rattle.usb_device.specs.AnswerPids.{answer_with};
ghost use Rattle.usb_device.specs.Effects.{asks};
ghost use Rattle.usb_device.specs.ReceivedBytes.{AnswersPacket, GrowsBy, received_by};

use crate::answer::spelled;
use crate::own::FunctionState;
use crate::ports::Ports;
use arrayvec::ArrayVec;
use std::alloc::{AllocError, Global};
use std::marker::Model;
use std::rc::Rc;
use usb_device::{AnswerPid, Effect, EndpointNumber};
use usb_packet::{Packet, decode};
use usb_scene::DeviceSpec;

/// A plugged device, with the devices on its ports: it takes one packet after the other, and
/// answers some of them (8.5).
#[cycle(tree)]
#[derive(Debug, Drop)]
pub struct Device {
    pub(crate) own: Box<FunctionState>,
    pub(crate) ports: Ports,
}

impl Model for Device {
    ghost use Rattle.std.proofs.Common.{arith};
    ghost use Rattle.usb_device.specs.Tree.{Plugged};
    ghost use Rattle.std.specs.Coded.{codes};
    ghost use Rattle.usb_device.specs.TreeCodes.{plugged_code, plugged_weight};

    ghost Value = { Plugged };

    ghost coded = { plugged_code (Prim.hlevel codes) };

    ghost view = { λ d. record { own = d.own.value; ports = d.ports } };

    ghost size = { plugged_weight };

    ghost size_decreases = { λ a h. omega arith };
}

#[tactic(auto, using(crate::proofs::places::FirstPlaces::emptied))]
fn first_ports(alloc: Global, spec: &DeviceSpec) -> Result<Ports, AllocError>
    ensures { IfOk result (λ ports. ports ≡ first_ports spec.now.hub) }
{
    match spec.hub() {
        Some(hub) => Ports::new(alloc, hub.ports()),
        None => Ports::new(alloc, 0),
    }
}

impl Device {
    /// A device that was just plugged; it shares its description, and its ports are off.
    ///
    /// # Errors
    ///
    /// Memory was refused, or the description has 2^64 - 1 owners.
    pub fn new(alloc: Global, spec: &Rc<DeviceSpec>) -> Result<Self, AllocError>
        ensures { IfOk result (λ d. d ≡ new_device spec.now.value) }
    {
        Ok(Device {
            own: FunctionState::new(alloc, spec)?,
            ports: first_ports(alloc, spec)?,
        })
    }

    /// What describes it.
    pub fn spec(&self) -> &DeviceSpec
        ensures { result.now ≡ self.now.own.spec }
    {
        self.own.spec()
    }

    /// Its address: 0 until SET_ADDRESS has ended (9.4.6).
    pub fn address(&self) -> u8
        ensures { result ≡ self.now.own.registers.address }
    {
        self.own.address()
    }

    /// The value of its configuration; 0 while it has none (9.4.7).
    pub fn configuration(&self) -> u8
        ensures { result ≡ self.now.own.registers.configuration }
    {
        self.own.configuration()
    }

    /// All bytes that the OUT endpoint with a number has taken since it was plugged.
    pub fn sink(&self, number: EndpointNumber) -> &[u8]
        ensures { result.now ≡ (out_end self.now.own number).sink }
    {
        self.own.sink(number)
    }

    /// All bytes that control writes have brought since it was plugged, and that it kept.
    pub fn taken(&self) -> &[u8]
        ensures { result.now ≡ self.now.own.taken }
    {
        self.own.taken()
    }

    /// Whether it gave the status stage of SET_ADDRESS, and takes its address at the host's ACK
    /// (9.4.6).
    pub fn awaits_address(&self) -> bool
        ensures { result ≡ awaits_address self.now.own }
    {
        self.own.awaits_address()
    }

    /// Whether it gives the status stage of SET_ADDRESS at the next IN of endpoint 0 (9.4.6).
    pub fn ends_with_address(&self) -> bool
        ensures { result
            ≡ (not (is_busy self.now.own) && ends_with_address self.now.own.stage) }
    {
        self.own.ends_with_address()
    }

    /// Whether it is a low-speed device; else it is a full-speed one.
    pub fn is_low(&self) -> bool
        ensures { result ≡ self.now.own.spec.low }
    {
        self.own.is_low()
    }

    /// A bus reset (9.1.1.3): the device has no address, no configuration and no transfer, and all
    /// its ports are off. What its endpoints besides endpoint 0 took and gave stays, and so do
    /// their states.
    pub fn reset(&mut self)
        ensures { self.new ≡ reset_whole self.old }
    {
        self.own.reset();
        self.ports.turn_off();
    }

    /// One packet in, its answer out (8.5.3), if there is one; the devices below do not get it.
    /// Bytes that spell no packet have no answer. It needs memory only if a packet joins the
    /// sink.
    ///
    /// # Errors
    ///
    /// Memory was refused, and nothing changes.
    pub fn receive(&mut self, bytes: &[u8]) -> Result<Option<ArrayVec<u8, 67>>, AllocError>
        ensures answer { IfOk result (λ answer. AnswersPacket bytes.now self.old answer self.new) }
        ensures refused { OnErr result (self.new ≡ self.old) }
        ensures grows { OnErr result (GrowsBy bytes.now self.old) }
    {
        match decode(bytes) {
            Ok(packet) => {
                let mut room = ArrayVec::new();
                let mut effect = Effect::Leaves;
                let pid = self.take(&packet, &mut room, &mut effect)?;
                Ok(spelled(pid, room))
            }
            Err(_) => {
                self.own.unread();
                Ok(None)
            }
        }
    }

    /// A packet at the device itself; the bytes of its answer are put into `room`, and what it asks
    /// of its ports into `effect`.
    pub(crate) fn take(
        &mut self,
        packet: &Packet,
        room: &mut ArrayVec<u8, 64>,
        effect: &mut Effect,
    ) -> Result<Option<AnswerPid>, AllocError>
        ensures answer { IfOk result (λ pid.
            (answer_with pid room.new, self.new) ≡ received_by self.old packet.now) }
        ensures asked { effect.new ≡ asks self.old.own packet.now }
        ensures refused { OnErr result (self.new ≡ self.old) }
        ensures grows { OnErr result (sink_grows self.old.own packet.now ≡ true) }
    {
        let pid = self.own.received(&self.ports, packet, room, effect)?;
        self.act(*effect);
        Ok(pid)
    }

    fn act(&mut self, effect: Effect)
        ensures { self.new ≡ record self.old { ports = acted effect self.old.ports } }
    {
        match effect {
            Effect::Leaves => {}
            Effect::Calls(call, port) => self.ports.call_at(port, call),
            Effect::PortsOff => self.ports.turn_off(),
        }
    }

    /// The status and the changes of a port (11.24.2.7), by its number, counted from 1; None where
    /// there is none.
    pub fn port_bytes(&self, port: u8) -> Option<[u8; 4]>
        ensures { option_map (λ bytes. bytes) result
            ≡ option_map status_of (numbered (row_of self.now.ports) port) }
    {
        Some(self.ports.port(port)?.status())
    }

    /// How many ports it has.
    pub fn port_count(&self) -> usize
        ensures { result ≡ length (row_of self.now.ports) }
    {
        self.ports.count()
    }

    /// The device on a port, by its number, counted from 1; None if nothing is.
    pub fn child(&self, port: u8) -> Option<&Device>
        ensures { option_copied result ≡ child_of self.now port }
    {
        self.ports.device_at(&[port])
    }

    /// Whether a device is on a port, by its number, counted from 1.
    pub(crate) fn has_child(&self, port: u8) -> bool
        ensures { result ≡ is_some (child_of self.now port) }
    {
        self.child(port).is_some()
    }

    /// A device is plugged at a port, by its number, counted from 1.
    pub fn plug_child(&mut self, port: u8, child: Device)
        requires least { 1 ≤ port }
        requires most { port ≤ length (row_of self.old.ports) }
        requires empty { child_of self.old port ≡ None }
        ensures { self.new ≡ with_child self.old port child }
    {
        self.ports.plug(&[port], child);
    }

    /// The device on a port is taken away, and handed back. If none is there, nothing changes.
    pub fn unplug_child(&mut self, port: u8) -> Option<Device>
        ensures before { result ≡ child_of self.old port }
        ensures after { self.new ≡ without_child self.old port }
    {
        if self.has_child(port) {
            self.ports.unplug(&[port])
        } else {
            None
        }
    }
}
