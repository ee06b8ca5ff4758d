//! A device without its ports: its transfers, packet by packet (8.5).
ghost use Rattle.std.specs.Prelude.{◌≡◌, ◌≤◌, ◌<◌, ◌==◌, ◌&&◌, ℕ, List, Option, None, Some, IfSome, nat_lt, if◌then◌else◌, is_some, length};
ghost use Rattle.usb_descriptor.specs.Usable.{IsPipeMost};
ghost use Rattle.usb_device.specs.Bulk.{change_bytes, is_last, is_numbered, served_at, with_interface};
ghost use Rattle.usb_device.specs.EndpointSpecs.{packet_in, place_behind};
ghost use Rattle.usb_device.specs.declared.endpoint_spec.EndpointData.TheVariants as EndpointData;
ghost use Rattle.usb_device.specs.DeviceSpecs.{Spec, hub_ports};
ghost use Rattle.usb_device.specs.Code.{source_bytes, hub_text, text_at, meaning_of, stage_of};
ghost use Rattle.usb_device.specs.OwnRequests.{own_bytes};
ghost use Rattle.usb_device.specs.Transfer.{max_packet, packet_at, put_if, reads, Write};
ghost use Rattle.usb_device.specs.Rows.{State, first_stage, told_bytes};
ghost use Rattle.usb_device.specs.Request.{flag_bytes, registers_at_setup, takes_setting, tells_halt};
ghost use Rattle.usb_device.specs.declared.bulk.ServedEndpoint.{ServedEndpoint as AnEndpoint};
ghost use Rattle.usb_device.specs.StrayPackets.{awaits_data, awaits_ack};
ghost use Rattle.usb_device.specs.Tree.{row_of};
ghost use Rattle.usb_device.specs.Effects.{effect_of_request};
ghost use Rattle.usb_device.specs.AnswerPids.{Room, answer_with};
ghost use Rattle.usb_device.specs.AloneAttempts.{after_ack};
ghost use Rattle.usb_packet.specs.declared.Packet.TheVariants.{Token as token};

use crate::bulk::{
    RESTED, ServedEndpoints, advanced, bulk_at, halted, is_last, is_numbered, none_served,
    served_endpoints, table_at, tells_changes, turned,
};
use crate::ends::{InEnds, OutEnds, given_on};
use crate::ports::Ports;
use crate::request::{at_reset, react};
use crate::transfer::{fill, has_packet, put_packet, toggle_at};
use crate::write::ControlWrite;
use arrayvec::ArrayVec;
use std::alloc::{AllocError, Global};
use std::marker::Model;
use std::rc::Rc;
use usb_descriptor::{Settings, UsableEndpoint};
use usb_device::{
    AnswerPid, Bytes, Effect, EndpointData, EndpointNumber, EndpointState, InEnd, InEndpoint,
    Progress, Reaction, Registers, RememberedPacket, ServedEndpoint, Source, WriteData,
};
use usb_packet::{Packet, Toggle, TokenKind};
use usb_request::Setup;
use usb_request::endpoint_address::DIRECTION_IN;
use usb_scene::DeviceSpec;

/// A plugged device, without its ports: it takes one packet after the other, and answers some of
/// them (8.5). It has endpoint 0, each endpoint of its configuration that a pipe can use, and a
/// status endpoint where it is a hub.
#[derive(Debug, Drop)]
pub struct FunctionState {
    spec: Rc<DeviceSpec>,
    registers: Registers,
    /// Whether an interface may have another setting than 0.
    is_set: bool,
    /// The endpoints of the configuration, if there is one.
    served: ServedEndpoints,
    /// What the packet before left.
    memory: RememberedPacket,
    /// How many NAKs are still to be given in this transfer.
    naks: u8,
    /// How far the control transfer is.
    progress: Progress,
    /// The OUT endpoints, by their numbers.
    outs: OutEnds,
    /// The IN endpoints, by their numbers.
    ins: InEnds,
    /// The status endpoint of a hub.
    changes: EndpointState,
    /// The bits that it gave, until their ACK is seen.
    held: Option<u16>,
    /// What control writes have brought since the plug.
    taken: Vec<u8>,
    /// The last control write.
    write: ControlWrite,
}

impl Model for FunctionState {
    ghost use Rattle.std.specs.Prelude.{◌≡◌, ◌==◌, false};
    ghost use Rattle.usb_descriptor.specs.Settings.{default_settings};
    ghost use Rattle.usb_device.specs.Rows.{State};
    ghost use Rattle.usb_device.specs.Code.{stage_of};
    ghost use Rattle.usb_function.specs.ServedBulk.{AreServed};

    ghost Value = { State };

    ghost view = { λ d. record {
      spec = d.spec.value;
      registers = d.registers;
      memory = d.memory;
      naks = d.naks;
      stage = stage_of d.spec.value d.taken.items d.write d.progress;
      outs = d.outs;
      ins = d.ins;
      changes = d.changes;
      held = d.held;
      taken = d.taken.items;
    } };

    ghost invariant = { λ d. ((d.registers.configuration == 0) ≡ false
        → AreServed d.spec.value d.registers d.served)
        × (d.is_set ≡ false → d.registers.settings ≡ default_settings) };
}

fn hub_text(spec: &DeviceSpec) -> &[u8]
    ensures { result.now ≡ hub_text spec.now.hub }
{
    match spec.hub() {
        Some(hub) => hub.descriptor(),
        None => &[],
    }
}

/// How many ports a device has.
fn hub_ports(spec: &DeviceSpec) -> u8
    ensures { result ≡ hub_ports spec.now.hub }
{
    match spec.hub() {
        Some(hub) => hub.ports(),
        None => 0,
    }
}

/// Puts the bytes into the room by which a hub of so many ports tells these bits (11.12.4).
fn fill_changes(ports: u8, bits: u16, room: &mut ArrayVec<u8, 64>)
    ensures { room.new.items ≡ change_bytes ports bits }
{
    let low = (bits % 256) as u8;
    if ports > 7 {
        fill(room, &[low, (bits / 256) as u8]);
    } else {
        fill(room, &[low]);
    }
}

fn text_at<const MAX: usize>(texts: &[Bytes<MAX>], i: usize) -> &[u8]
    ensures { result.now ≡ text_at texts.now i }
{
    match texts.get(i) {
        Some(text) => text.as_slice(),
        None => &[],
    }
}

/// The bytes of a request of the device's own, by its place.
fn own_bytes(spec: &DeviceSpec, place: usize) -> &[u8]
    ensures { result.now ≡ own_bytes spec.now.requests place }
{
    match spec.requests().as_slice().get(place) {
        Some(row) => row.answer.bytes_given(),
        None => &[],
    }
}

fn reading(source: Source, wanted: u16) -> Progress
    ensures { (s : Spec) (taken : List ℕ) (w : Write)
        → stage_of s taken w result ≡ reads wanted (source_bytes s taken source) }
{
    if wanted == 0 {
        Progress::Ending(None)
    } else {
        Progress::Reading {
            source,
            wanted,
            given: 0,
        }
    }
}

/// How far a transfer is that a request begins.
#[tactic(auto, using(usb_device::proofs::Answers::answers))]
fn first_progress(
    ports: &Ports,
    write: &mut ControlWrite,
    wanted: u16,
    reaction: &Reaction,
    halted: bool,
) -> Progress
    ensures { (d : State)
        → ((which : Option AnEndpoint) → meaning_of d.spec reaction.now ≡ tells_halt which
        → told_bytes d which ≡ flag_bytes halted)
        → stage_of d.spec d.taken write.new result
        ≡ first_stage (row_of ports.now) d wanted (meaning_of d.spec reaction.now) }
{
    match reaction {
        Reaction::Refuse => Progress::Refused,
        Reaction::Answer(source) => reading(*source, wanted),
        Reaction::TellPort(i) => match ports.port_at(*i) {
            Some(port) => reading(Source::Port(port.status()), wanted),
            None => Progress::Refused,
        },
        Reaction::TakeAddress(address) => Progress::Ending(Some(*address)),
        Reaction::TakeConfiguration(_)
        | Reaction::Halt(_)
        | Reaction::Unhalt(_)
        | Reaction::CallPort(..)
        | Reaction::TakeSetting(..) => Progress::Ending(None),
        Reaction::Take(kept) => write.begin(wanted, *kept),
        Reaction::TellHalt(_) => reading(Source::Flag(halted), wanted),
    }
}

/// What a request asks of the ports.
fn effect_of(reaction: &Reaction) -> Effect
    ensures { (s : Spec) → result ≡ effect_of_request (meaning_of s reaction.now) }
{
    match reaction {
        Reaction::CallPort(call, port) => Effect::Calls(*call, *port),
        Reaction::TakeConfiguration(_) => Effect::PortsOff,
        _ => Effect::Leaves,
    }
}

fn awaits_data(memory: RememberedPacket) -> bool
    ensures { result ≡ awaits_data memory }
{
    match memory {
        RememberedPacket::Nothing | RememberedPacket::AckAwaited(_) => false,
        RememberedPacket::SetupSeen | RememberedPacket::OutSeen(_) => true,
    }
}

fn awaits_ack(memory: RememberedPacket) -> bool
    ensures { result ≡ awaits_ack memory }
{
    match memory {
        RememberedPacket::Nothing | RememberedPacket::SetupSeen | RememberedPacket::OutSeen(_) =>
            false,
        RememberedPacket::AckAwaited(_) => true,
    }
}

/// Puts the packet of a source at a place into the room, and returns whether there is one.
fn put_source(source: &[u8], max: u8, place: usize, room: &mut ArrayVec<u8, 64>) -> bool
    requires most { max ≤ 64 }
    requires least { 1 ≤ max }
    ensures { put_if result room.new ≡ packet_in (EndpointData.Source source.now) max place }
{
    let rest = source.get(place..).unwrap_or(&[]);
    if rest.is_empty() {
        return false;
    }
    fill(room, &rest[..rest.len().min(usize::from(max))]);
    true
}

/// Puts the packet at a place into the room, and returns whether there is one.
fn put_data(data: &EndpointData, max: u8, place: usize, room: &mut ArrayVec<u8, 64>) -> bool
    requires most { max ≤ 64 }
    requires least { 1 ≤ max }
    ensures { put_if result room.new ≡ packet_in data.now max place }
{
    match data {
        EndpointData::Source(bytes) => put_source(bytes.as_slice(), max, place, room),
        EndpointData::Packets(packets) => match packets.as_slice().get(place) {
            Some(packet) => {
                fill(room, packet.as_slice());
                true
            }
            None => false,
        },
    }
}

/// The place behind the packet at a place.
fn behind_data(data: &EndpointData, max: u8, place: u16) -> u16
    ensures { result ≡ place_behind data.now max place }
{
    match data {
        EndpointData::Source(bytes) => advanced(place, max, bytes.as_slice().len() as u16),
        EndpointData::Packets(packets) => {
            if usize::from(place) < packets.as_slice().len() {
                place + 1
            } else {
                place
            }
        }
    }
}

impl FunctionState {
    ghost use Rattle.usb_device.specs.StrayPackets.{is_for};
    ghost use Rattle.std.specs.Prelude.{IfOk, OnErr, true, false, not, [], ◌∷◌};
    ghost use Rattle.usb_device.specs.declared.transfer.InEndpoint.TheVariants as by;
    ghost use Rattle.usb_device.specs.Effects.{asks, asked_by_data, asked_by_setup};
    ghost use Rattle.usb_device.specs.Rows.{received, unread, forgotten, awaits_address, ends_with_address, fresh, reset_state, accepted, configured, set_to, begun, is_busy, nak_row, gives, in_row, status_row, out_row, ack_row, token_row, setup_row, payload_row, answered, unless_busy, endpoint_state, with_endpoint_state, bulk_of, in_end, out_end, in_max, out_max, next_packet, next_place, out_halts, taken_row, begun_again, source_row, in_ack_row, acknowledged, sink_row, sinks, in_end_row, out_end_row, end_sinks, data_row, payload_sinks, out_sinks, stage_takes, sink_grows, is_other_out, after_memory, with_endpoints, in_other_row, changes_row, new_changes_row};

    /// A device that was just plugged; it shares its description.
    ///
    /// # Errors
    ///
    /// Memory was refused, or the description has 2^64 - 1 owners.
    #[tactic(auto, unfolding(usb_device::specs::Rows::fresh))]
    pub fn new(alloc: Global, spec: &Rc<DeviceSpec>) -> Result<Box<Self>, AllocError>
        ensures { IfOk result (λ d. d.value ≡ fresh spec.now.value) }
    {
        let shared = spec.clone()?;
        Ok(Box::new(
            alloc,
            FunctionState {
                spec: shared,
                registers: at_reset(),
                is_set: false,
                served: none_served(),
                memory: RememberedPacket::Nothing,
                naks: 0,
                progress: Progress::Idle,
                outs: OutEnds::new(alloc, spec),
                ins: InEnds::new(spec),
                changes: RESTED,
                held: None,
                taken: Vec::new(alloc),
                write: ControlWrite::none(alloc),
            },
        )?)
    }

    /// Its address: 0 until SET_ADDRESS has ended (9.4.6).
    pub fn address(&self) -> u8
        ensures { result ≡ self.now.registers.address }
    {
        self.registers.address
    }

    /// The value of its configuration; 0 while it has none (9.4.7).
    pub fn configuration(&self) -> u8
        ensures { result ≡ self.now.registers.configuration }
    {
        self.registers.configuration
    }

    /// All bytes that the OUT endpoint with a number has taken since it was plugged.
    pub fn sink(&self, number: EndpointNumber) -> &[u8]
        ensures { result.now ≡ (out_end self.now number).sink }
    {
        self.outs.sink(number)
    }

    /// All bytes that control writes have brought since it was plugged, and that it kept.
    pub fn taken(&self) -> &[u8]
        ensures { result.now ≡ self.now.taken }
    {
        self.taken.as_slice()
    }

    /// What describes it.
    pub fn spec(&self) -> &DeviceSpec
        ensures { result.now ≡ self.now.spec }
    {
        &self.spec
    }

    /// Whether it is a low-speed device; else it is a full-speed one.
    pub fn is_low(&self) -> bool
        ensures { result ≡ self.now.spec.low }
    {
        self.spec.is_low()
    }

    /// Whether it gave the status stage of SET_ADDRESS, and takes its address at the host's ACK
    /// (9.4.6).
    #[tactic(auto, unfolding(usb_device::specs::Rows::awaits_address))]
    pub fn awaits_address(&self) -> bool
        ensures { result ≡ awaits_address self.now }
    {
        matches!(
            (self.memory, self.progress),
            (
                RememberedPacket::AckAwaited(InEndpoint::Control),
                Progress::Ending(Some(_))
            )
        )
    }

    /// Whether it gives the status stage of SET_ADDRESS at the next IN of endpoint 0 (9.4.6).
    #[tactic(auto, unfolding(usb_device::specs::Rows::is_busy))]
    pub fn ends_with_address(&self) -> bool
        ensures { result ≡ (not (is_busy self.now) && ends_with_address self.now.stage) }
    {
        !self.is_busy() && matches!(self.progress, Progress::Ending(Some(_)))
    }

    /// A bus reset (9.1.1.3): the device has no address, no configuration and no transfer. What its
    /// OUT endpoints and control writes have brought stays, and so do their counts until they halt
    /// and the places of its IN endpoints in its source.
    #[tactic(auto, unfolding(usb_device::specs::Rows::reset_state))]
    pub fn reset(&mut self)
        ensures { self.new ≡ reset_state self.old }
    {
        self.attempt_over();
        self.configure(0);
        self.registers.address = 0;
        self.naks = 0;
        self.progress = Progress::Idle;
        self.held = None;
    }

    /// The end of an attempt: a token that waits for data and data that wait for an ACK are
    /// forgotten.
    pub fn attempt_over(&mut self)
        ensures { self.new ≡ forgotten self.old }
    {
        self.memory = RememberedPacket::Nothing;
    }

    /// Bytes come that spell no packet (8.3.1): what is remembered is forgotten. A silent device stays as it is.
    #[tactic(auto, unfolding(usb_device::specs::Rows::unread))]
    pub fn unread(&mut self)
        ensures { self.new ≡ unread self.old }
    {
        if !self.spec.is_silent() {
            self.attempt_over();
        }
    }

    /// Whether a packet is for this device: a token with its address, data after such a token, or
    /// the ACK that it awaits.
    pub fn is_for(&self, packet: &Packet) -> bool
        ensures { result ≡ is_for self.now self.now.memory packet.now }
    {
        match packet {
            Packet::Token {
                kind: _,
                addr,
                ep: _,
            } => *addr == self.registers.address,
            Packet::Payload {
                toggle: _,
                bytes: _,
            } => awaits_data(self.memory),
            Packet::Ack => awaits_ack(self.memory),
            Packet::Sof(_) | Packet::Nak | Packet::Stall | Packet::Pre => false,
        }
    }

    /// A packet at the device, by what its ports report. The bytes of its answer are put into `room`,
    /// and what it asks of the ports into `effect`.
    ///
    /// # Errors
    ///
    /// Memory was refused for a packet whose bytes the device takes, and the device is as it was.
    #[tactic(auto, unfolding(usb_device::specs::Rows::received, usb_device::specs::Effects::asks))]
    pub fn received(
        &mut self,
        ports: &Ports,
        packet: &Packet,
        room: &mut ArrayVec<u8, 64>,
        effect: &mut Effect,
    ) -> Result<Option<AnswerPid>, AllocError>
        ensures answer { IfOk result (λ pid. (answer_with pid room.new, self.new)
            ≡ received self.old (row_of ports.now) packet.now) }
        ensures asked { effect.new ≡ asks self.old packet.now }
        ensures refused { OnErr result (self.new ≡ self.old) }
        ensures grows { OnErr result (sink_grows self.old packet.now ≡ true) }
    {
        *effect = Effect::Leaves;
        if self.spec.is_silent() {
            return Ok(None);
        }
        match packet {
            Packet::Payload { toggle, bytes } => {
                self.payload(ports, *toggle, bytes.as_slice(), effect)
            }
            Packet::Token { kind, addr, ep } => {
                self.attempt_over();
                Ok(self.token(ports, *kind, *addr, *ep, room))
            }
            Packet::Ack => {
                self.acknowledged();
                Ok(None)
            }
            Packet::Sof(_) | Packet::Nak | Packet::Stall | Packet::Pre => {
                self.attempt_over();
                Ok(None)
            }
        }
    }

    /// A token at the device, as `received` takes it: no sink grows.
    #[tactic(auto, unfolding(usb_device::specs::Rows::received))]
    pub fn take_token(
        &mut self,
        ports: &Ports,
        kind: TokenKind,
        addr: u8,
        ep: u8,
        room: &mut ArrayVec<u8, 64>,
    ) -> Option<AnswerPid>
        ensures { (answer_with result room.new, self.new)
            ≡ received self.old (row_of ports.now) (token kind addr ep) }
    {
        if self.is_silent() {
            return None;
        }
        self.attempt_over();
        self.token(ports, kind, addr, ep, room)
    }

    /// The host's ACK at the device, in the same way.
    #[tactic(auto, unfolding(usb_device::specs::Rows::received))]
    pub fn take_ack(&mut self)
        ensures { self.new ≡ after_ack self.old }
    {
        if !self.is_silent() {
            self.acknowledged();
        }
    }

    /// Whether it never answers.
    fn is_silent(&self) -> bool
        ensures { result ≡ self.now.spec.silent }
    {
        self.spec.is_silent()
    }

    /// A token, which is for this device where it has its address.
    #[inline(always)]
    fn token(
        &mut self,
        ports: &Ports,
        kind: TokenKind,
        addr: u8,
        ep: u8,
        room: &mut ArrayVec<u8, 64>,
    ) -> Option<AnswerPid>
        ensures { (answer_with result room.new, self.new) ≡ (if addr == self.old.registers.address
            then token_row self.old (row_of ports.now) kind ep else (None, self.old)) }
    {
        if addr != self.registers.address {
            return None;
        }
        match kind {
            TokenKind::SetupTok => {
                if ep == 0 {
                    self.memory = RememberedPacket::SetupSeen;
                }
                None
            }
            TokenKind::OutTok => {
                self.memory = RememberedPacket::OutSeen(ep);
                None
            }
            TokenKind::InTok if ep == 0 => self.give_unless_busy(room),
            TokenKind::InTok => self.give_other(ports, ep, room),
        }
    }

    /// Data, by what the packet before left; of the ports something is asked by setup data alone.
    fn payload(
        &mut self,
        ports: &Ports,
        toggle: Toggle,
        bytes: &[u8],
        effect: &mut Effect,
    ) -> Result<Option<AnswerPid>, AllocError>
        requires { effect.old ≡ Effect.Leaves }
        ensures answer { IfOk result (λ pid. (room : Room) → (answer_with pid room, self.new)
            ≡ payload_row (forgotten self.old) (row_of ports.now) self.old.memory toggle
            bytes.now) }
        ensures asked { effect.new ≡ asked_by_data self.old self.old.memory toggle bytes.now }
        ensures refused { OnErr result (self.new ≡ self.old) }
        ensures grows { OnErr result
            (payload_sinks self.old self.old.memory toggle bytes.now ≡ true) }
    {
        match self.memory {
            RememberedPacket::OutSeen(ep) if ep != 0 => self.take_end(ep, toggle, bytes),
            memory => {
                self.attempt_over();
                let taken = self.control_payload(ports, memory, toggle, bytes, effect);
                if taken.is_err() {
                    self.memory = memory;
                }
                taken
            }
        }
    }

    /// Data on endpoint 0.
    fn control_payload(
        &mut self,
        ports: &Ports,
        memory: RememberedPacket,
        toggle: Toggle,
        bytes: &[u8],
        effect: &mut Effect,
    ) -> Result<Option<AnswerPid>, AllocError>
        requires memory { is_other_out memory ≡ false }
        requires effect { effect.old ≡ Effect.Leaves }
        ensures answer { IfOk result (λ pid. (room : Room) → (answer_with pid room, self.new)
            ≡ payload_row self.old (row_of ports.now) memory toggle bytes.now) }
        ensures asked { effect.new ≡ asked_by_data self.old memory toggle bytes.now }
        ensures refused { OnErr result (self.new ≡ self.old) }
        ensures grows { OnErr result
            (payload_sinks self.old memory toggle bytes.now ≡ true) }
    {
        match (memory, toggle) {
            (RememberedPacket::SetupSeen, Toggle::Zero) => {
                Ok(self.take_setup(ports, bytes, effect))
            }
            (RememberedPacket::OutSeen(_), toggle) => self.take_unless_busy(toggle, bytes),
            _ => Ok(None),
        }
    }

    /// Setup data.
    fn take_setup(&mut self, ports: &Ports, bytes: &[u8], effect: &mut Effect) -> Option<AnswerPid>
        requires { effect.old ≡ Effect.Leaves }
        ensures answer { (room : Room) → (answer_with result room, self.new)
            ≡ setup_row self.old (row_of ports.now) bytes.now }
        ensures asked { effect.new ≡ asked_by_data self.old RememberedPacket.SetupSeen Toggle.Zero
            bytes.now }
    {
        let setup = Setup::from_bytes(bytes.try_into().ok()?);
        *effect = self.accept(ports, &setup);
        Some(AnswerPid::Ack)
    }

    /// The host's ACK.
    #[inline(always)]
    fn acknowledged(&mut self)
        ensures { self.new ≡ after_memory (forgotten self.old) self.old.memory }
    {
        let memory = self.memory;
        self.attempt_over();
        if let RememberedPacket::AckAwaited(endpoint) = memory {
            self.acknowledge(endpoint);
        }
    }

    fn acknowledge(&mut self, endpoint: InEndpoint)
        ensures { self.new ≡ acknowledged self.old endpoint }
    {
        match endpoint {
            InEndpoint::Control => self.acknowledge_control(),
            InEndpoint::Bulk(ep) => self.acknowledge_end(ep),
            InEndpoint::Changes => self.acknowledge_changes(),
        }
    }

    #[inline(always)]
    fn give_unless_busy(&mut self, room: &mut ArrayVec<u8, 64>) -> Option<AnswerPid>
        ensures { (answer_with result room.new, self.new)
            ≡ unless_busy self.old (in_row self.old self.old.stage) }
    {
        if self.is_busy() {
            self.nak()
        } else {
            self.give(room)
        }
    }

    fn take_unless_busy(
        &mut self,
        toggle: Toggle,
        bytes: &[u8],
    ) -> Result<Option<AnswerPid>, AllocError>
        ensures answer { IfOk result (λ pid. (room : Room) → (answer_with pid room, self.new)
            ≡ unless_busy self.old (out_row self.old self.old.stage toggle bytes.now)) }
        ensures refused { OnErr result (self.new ≡ self.old) }
        ensures grows { OnErr result (out_sinks self.old 0 toggle bytes.now ≡ true) }
    {
        if self.is_busy() {
            Ok(self.nak())
        } else {
            self.take(toggle, bytes)
        }
    }

    fn is_busy(&self) -> bool
        ensures { result ≡ is_busy self.now }
    {
        self.spec.is_busy() || self.naks > 0
    }

    fn nak(&mut self) -> Option<AnswerPid>
        ensures { (room : Room) → (answer_with result room, self.new) ≡ nak_row self.old }
    {
        self.naks = self.naks.saturating_sub(1);
        Some(AnswerPid::Nak)
    }

    /// A request is accepted; what it asks of the ports is handed back.
    fn accept(&mut self, ports: &Ports, setup: &Setup) -> Effect
        ensures begun { self.new ≡ accepted self.old (row_of ports.now) setup.now }
        ensures asked { result ≡ asked_by_setup self.old setup.now }
    {
        let reaction = react(&self.spec, &self.registers, setup);
        self.begin(ports, setup.length, &reaction);
        effect_of(&reaction)
    }

    /// A request begins a transfer.
    fn begin(&mut self, ports: &Ports, wanted: u16, reaction: &Reaction)
        ensures { self.new
            ≡ begun self.old (row_of ports.now) wanted (meaning_of self.old.spec reaction.now) }
    {
        let halted = self.tells_halt(reaction);
        self.set_endpoints(reaction);
        self.set_registers(reaction);
        self.naks = self.spec.naks();
        self.progress = first_progress(ports, &mut self.write, wanted, reaction, halted);
    }

    /// Whether the endpoint that a request asks about is halted.
    fn tells_halt(&self, reaction: &Reaction) -> bool
        ensures { (which : Option AnEndpoint)
            → meaning_of self.now.spec reaction.now ≡ tells_halt which
            → told_bytes self.now which ≡ flag_bytes result }
    {
        match reaction {
            Reaction::TellHalt(Some(endpoint)) => self.endpoint(endpoint).halted,
            _ => false,
        }
    }

    /// What a request makes of the registers at once.
    fn set_registers(&mut self, reaction: &Reaction)
        ensures { self.new ≡ record self.old {
          registers = registers_at_setup self.old.registers
              (meaning_of self.old.spec reaction.now);
        } }
    {
        match reaction {
            Reaction::TakeConfiguration(value) => self.configure(*value),
            Reaction::TakeSetting(interface, setting) => self.set_interface(*interface, *setting),
            _ => {}
        }
    }

    /// A configuration is taken, and its endpoints are served from here on (9.4.7). Each interface
    /// has setting 0 (9.1.1.5).
    fn configure(&mut self, value: u8)
        ensures { self.new ≡ configured self.old value }
    {
        self.registers.configuration = value;
        if self.is_set {
            self.registers.settings = Settings::all_zero();
            self.is_set = false;
        }
        if value != 0 {
            self.served = served_endpoints(&self.spec, &self.registers);
        }
    }

    /// An interface takes a setting, and the endpoints of that are served from here on (9.4.10).
    fn set_interface(&mut self, interface: u8, setting: u8)
        ensures { self.new ≡ set_to self.old interface setting }
    {
        self.is_set = true;
        self.registers.settings.set(interface, setting);
        self.served = served_endpoints(&self.spec, &self.registers);
    }

    /// The registers once an interface has a setting.
    fn registers_set(&self, interface: u8, setting: u8) -> Registers
        ensures { result ≡ with_interface interface setting self.now.registers }
    {
        let mut registers = self.registers;
        registers.settings.set(interface, setting);
        registers
    }

    /// Each endpoint that an interface has before or after it takes a setting begins again
    /// (9.1.1.5).
    fn begin_setting(&mut self, interface: u8, setting: u8)
        ensures { self.new ≡ with_endpoints self.old (takes_setting interface setting) }
    {
        let registers = self.registers_set(interface, setting);
        let before = table_at(&self.spec, &self.registers);
        let after = table_at(&self.spec, &registers);
        self.outs.begin_setting(interface, &before, &after);
        self.ins.begin_setting(interface, &before, &after);
    }

    /// What a request makes of the endpoints.
    fn set_endpoints(&mut self, reaction: &Reaction)
        ensures { self.new ≡ with_endpoints self.old (meaning_of self.old.spec reaction.now) }
    {
        match reaction {
            Reaction::TakeConfiguration(_) => {
                self.outs.rest();
                self.ins.rest();
                self.changes = RESTED;
                self.held = None;
            }
            Reaction::Halt(endpoint) => {
                let state = halted(self.endpoint(endpoint));
                self.set_endpoint(endpoint, state);
            }
            Reaction::Unhalt(endpoint) => self.begin_again(endpoint),
            Reaction::TakeSetting(interface, setting) => {
                self.begin_setting(*interface, *setting);
            }
            Reaction::Refuse
            | Reaction::Answer(_)
            | Reaction::TakeAddress(_)
            | Reaction::TellPort(_)
            | Reaction::CallPort(..)
            | Reaction::Take(_)
            | Reaction::TellHalt(_) => {}
        }
    }

    /// What the device asks of its ports at a packet.
    #[tactic(auto, unfolding(usb_device::specs::Effects::asks))]
    pub fn asks(&self, packet: &Packet) -> Effect
        ensures { result ≡ asks self.now packet.now }
    {
        match packet {
            Packet::Payload { toggle, bytes } if !self.spec.is_silent() => {
                self.asks_by_data(*toggle, bytes.as_slice())
            }
            _ => Effect::Leaves,
        }
    }

    fn asks_by_data(&self, toggle: Toggle, bytes: &[u8]) -> Effect
        ensures { result ≡ asked_by_data self.now self.now.memory toggle bytes.now }
    {
        match (self.memory, toggle) {
            (RememberedPacket::SetupSeen, Toggle::Zero) => match bytes.try_into().ok() {
                Some(bytes) => self.asks_by_setup(&Setup::from_bytes(bytes)),
                None => Effect::Leaves,
            },
            _ => Effect::Leaves,
        }
    }

    fn asks_by_setup(&self, setup: &Setup) -> Effect
        ensures { result ≡ asked_by_setup self.now setup.now }
    {
        effect_of(&react(&self.spec, &self.registers, setup))
    }

    /// Puts a packet of the answer that the host reads into the room, and returns whether there is
    /// one.
    fn put_packet(&self, source: Source, wanted: u16, k: u32, room: &mut ArrayVec<u8, 64>) -> bool
        ensures { let answer = source_bytes self.now.spec self.now.taken source in
            put_if result room.new ≡ packet_at (max_packet self.now.spec) wanted answer k }
    {
        let max = usize::from(self.spec.max_packet());
        match source {
            Source::Descriptor => put_packet(max, wanted, self.spec.descriptor(), k, room),
            Source::Config(i) => put_packet(max, wanted, text_at(self.spec.configs(), i), k, room),
            Source::Text(i) => put_packet(max, wanted, text_at(self.spec.strings(), i), k, room),
            Source::Hub => put_packet(max, wanted, hub_text(&self.spec), k, room),
            Source::Status => put_packet(
                max,
                wanted,
                &[u8::from(self.spec.is_self_powered()), 0],
                k,
                room,
            ),
            Source::Byte(value) => put_packet(max, wanted, &[value], k, room),
            Source::Flag(flag) => put_packet(max, wanted, &[u8::from(flag), 0], k, room),
            Source::Port(bytes) => put_packet(max, wanted, &bytes, k, room),
            Source::Own(i) => put_packet(max, wanted, own_bytes(&self.spec, i), k, room),
            Source::Taken => put_packet(max, wanted, self.taken.as_slice(), k, room),
        }
    }

    /// How many bytes the answer has.
    fn length_of(&self, source: Source) -> usize
        ensures { result ≡ length (source_bytes self.now.spec self.now.taken source) }
    {
        match source {
            Source::Descriptor => self.spec.descriptor().len(),
            Source::Config(i) => text_at(self.spec.configs(), i).len(),
            Source::Text(i) => text_at(self.spec.strings(), i).len(),
            Source::Hub => hub_text(&self.spec).len(),
            Source::Status | Source::Flag(_) => 2,
            Source::Byte(_) => 1,
            Source::Port(bytes) => bytes.len(),
            Source::Own(i) => own_bytes(&self.spec, i).len(),
            Source::Taken => self.taken.len(),
        }
    }

    /// Whether the answer has a packet `k`.
    fn has_packet(&self, source: Source, wanted: u16, k: u32) -> bool
        ensures { let answer = source_bytes self.now.spec self.now.taken source in
            result ≡ is_some (packet_at (max_packet self.now.spec) wanted answer k) }
    {
        let max = usize::from(self.spec.max_packet());
        has_packet(max, wanted, self.length_of(source), k)
    }

    /// Data from the device, of which an ACK is awaited.
    fn give_data(&mut self, endpoint: InEndpoint, toggle: Toggle) -> Option<AnswerPid>
        ensures { (room : Room) → (answer_with result room, self.new)
            ≡ gives self.old endpoint toggle room.items }
    {
        self.memory = RememberedPacket::AckAwaited(endpoint);
        Some(AnswerPid::Data(toggle))
    }

    /// IN 0 of a device that is not busy.
    #[inline(never)]
    fn give(&mut self, room: &mut ArrayVec<u8, 64>) -> Option<AnswerPid>
        ensures { (answer_with result room.new, self.new) ≡ in_row self.old self.old.stage }
    {
        match self.progress {
            Progress::Idle | Progress::Read => None,
            Progress::Refused => Some(AnswerPid::Stall),
            Progress::Reading {
                source,
                wanted,
                given,
            } => {
                if self.put_packet(source, wanted, given, room) {
                    self.give_data(InEndpoint::Control, toggle_at(given))
                } else {
                    None
                }
            }
            Progress::Ending(_) => self.give_status(room),
            Progress::Writing if self.write.is_done() => self.give_status(room),
            Progress::Writing => Some(AnswerPid::Stall),
        }
    }

    /// The status stage of a request that does not read.
    fn give_status(&mut self, room: &mut ArrayVec<u8, 64>) -> Option<AnswerPid>
        ensures { (answer_with result room.new, self.new)
            ≡ gives self.old by.Control Toggle.One [] }
    {
        fill(room, &[]);
        self.give_data(InEndpoint::Control, Toggle::One)
    }

    /// OUT 0 with good data, of a device that is not busy.
    fn take(&mut self, toggle: Toggle, bytes: &[u8]) -> Result<Option<AnswerPid>, AllocError>
        ensures answer { IfOk result (λ pid. (room : Room) → (answer_with pid room, self.new)
            ≡ out_row self.old self.old.stage toggle bytes.now) }
        ensures refused { OnErr result (self.new ≡ self.old) }
        ensures grows { OnErr result (stage_takes self.old self.old.stage toggle bytes.now ≡ true) }
    {
        match self.progress {
            Progress::Idle | Progress::Ending(_) => Ok(None),
            Progress::Refused => Ok(Some(AnswerPid::Stall)),
            Progress::Reading { .. } | Progress::Read => Ok(self.take_status(toggle, bytes)),
            Progress::Writing => match self.write.judged(self.spec.max_packet(), toggle, bytes) {
                WriteData::Wrong => Ok(Some(AnswerPid::Stall)),
                WriteData::TooLong => Ok(None),
                WriteData::Repeat => Ok(Some(AnswerPid::Ack)),
                WriteData::Next => {
                    self.write.take(bytes, &mut self.taken)?;
                    Ok(Some(AnswerPid::Ack))
                }
            },
        }
    }

    /// The status stage of a control read.
    fn take_status(&mut self, toggle: Toggle, bytes: &[u8]) -> Option<AnswerPid>
        ensures { (room : Room) → (answer_with result room, self.new)
            ≡ status_row self.old toggle bytes.now }
    {
        match toggle {
            Toggle::Zero => Some(AnswerPid::Ack),
            Toggle::One if bytes.is_empty() => {
                self.progress = Progress::Read;
                Some(AnswerPid::Ack)
            }
            Toggle::One => Some(AnswerPid::Stall),
        }
    }

    /// The host's ACK of what was given on endpoint 0.
    fn acknowledge_control(&mut self)
        ensures { self.new ≡ ack_row self.old self.old.stage }
    {
        match self.progress {
            Progress::Idle | Progress::Refused | Progress::Read => {}
            Progress::Reading {
                source,
                wanted,
                given,
            } => {
                if self.has_packet(source, wanted, given) {
                    self.progress = Progress::Reading {
                        source,
                        wanted,
                        given: given + 1,
                    };
                }
            }
            Progress::Ending(address) => {
                if let Some(address) = address {
                    self.registers.address = address;
                }
                self.progress = Progress::Idle;
            }
            Progress::Writing => self.progress = Progress::Idle,
        }
    }

    fn endpoint(&self, endpoint: &ServedEndpoint) -> EndpointState
        ensures { result ≡ endpoint_state self.now endpoint.now }
    {
        match endpoint {
            ServedEndpoint::BulkOut(number) => self.outs.state(*number),
            ServedEndpoint::BulkIn(number) => self.ins.get(*number).state,
            ServedEndpoint::Changes => self.changes,
        }
    }

    fn set_endpoint(&mut self, endpoint: &ServedEndpoint, state: EndpointState)
        ensures { self.new ≡ with_endpoint_state self.old endpoint.now state }
    {
        match endpoint {
            ServedEndpoint::BulkOut(number) => self.outs.set_state(*number, state),
            ServedEndpoint::BulkIn(number) => {
                let end = self.ins.get(*number);
                self.ins.set(*number, InEnd { state, ..end });
            }
            ServedEndpoint::Changes => self.changes = state,
        }
    }

    /// The endpoint begins again, as a configuration leaves it.
    fn begin_again(&mut self, endpoint: &ServedEndpoint)
        ensures { self.new ≡ begun_again self.old endpoint.now }
    {
        match endpoint {
            ServedEndpoint::BulkOut(number) => self.outs.begin_again(*number),
            ServedEndpoint::BulkIn(number) => self.ins.begin_again(*number),
            ServedEndpoint::Changes => self.changes = RESTED,
        }
    }

    /// The endpoint with a number and a direction, if it is served.
    fn served_end(&self, number: u8, is_in: bool) -> Option<UsableEndpoint>
        ensures value { result ≡ served_at self.now.spec self.now.registers is_in number }
        ensures number { IfSome result (λ end. number < 16) }
        ensures most { IfSome result IsPipeMost }
    {
        if self.registers.configuration == 0 {
            None
        } else {
            self.served.table.get(number, is_in)
        }
    }

    /// What an IN endpoint gives that no row of the plan names.
    fn source_of(&self, number: EndpointNumber) -> &[u8]
        ensures value { result.now ≡ (if is_numbered number (bulk_of self.now true)
            then self.now.spec.source else []) }
        ensures bound { length result.now ≤ 65535 }
    {
        if self.registers.configuration != 0 && is_numbered(number.get(), self.served.bulk_in) {
            self.spec.source()
        } else {
            &[]
        }
    }

    /// Puts the next packet of an IN endpoint into the room, and returns whether there is one.
    fn put_next(&self, number: EndpointNumber, max: u8, room: &mut ArrayVec<u8, 64>) -> bool
        requires most { max ≤ 64 }
        requires least { 1 ≤ max }
        ensures { put_if result room.new
            ≡ next_packet self.now number max (in_end self.now number).place }
    {
        let place = usize::from(self.ins.get(number).place);
        match self.spec.endpoints().row(DIRECTION_IN + number.get()) {
            Some(row) => put_data(&row.data, max, place, room),
            None => put_source(self.source_of(number), max, place, room),
        }
    }

    /// The place of an IN endpoint behind its next packet.
    fn place_behind(&self, number: EndpointNumber, max: u8) -> u16
        ensures { result ≡ next_place self.now number max (in_end self.now number).place }
    {
        let place = self.ins.get(number).place;
        match self.spec.endpoints().row(DIRECTION_IN + number.get()) {
            Some(row) => behind_data(&row.data, max, place),
            None => advanced(place, max, self.source_of(number).len() as u16),
        }
    }

    /// IN of an endpoint that is not endpoint 0.
    fn give_other(
        &mut self,
        ports: &Ports,
        ep: u8,
        room: &mut ArrayVec<u8, 64>,
    ) -> Option<AnswerPid>
        ensures { (answer_with result room.new, self.new)
            ≡ in_other_row self.old (row_of ports.now) ep }
    {
        if !tells_changes(&self.spec, &self.registers) {
            self.give_end(ep, room)
        } else if ep == self.served.status {
            self.give_changes(ports, room)
        } else {
            self.give_end(ep, room)
        }
    }

    /// IN of a configured hub's status endpoint.
    fn give_changes(&mut self, ports: &Ports, room: &mut ArrayVec<u8, 64>) -> Option<AnswerPid>
        ensures { (answer_with result room.new, self.new)
            ≡ changes_row self.old (row_of ports.now) }
    {
        if self.changes.halted {
            return Some(AnswerPid::Stall);
        }
        match self.held {
            Some(bits) => self.give_bits(bits, room),
            None => {
                let bits = ports.change_bits(hub_ports(&self.spec));
                self.give_new_changes(bits, room)
            }
        }
    }

    fn give_bits(&mut self, bits: u16, room: &mut ArrayVec<u8, 64>) -> Option<AnswerPid>
        ensures { let bytes = change_bytes (hub_ports self.old.spec.hub) bits in
            (answer_with result room.new, self.new)
            ≡ gives self.old by.Changes self.old.changes.toggle bytes }
    {
        fill_changes(hub_ports(&self.spec), bits, room);
        self.give_data(InEndpoint::Changes, self.changes.toggle)
    }

    fn give_new_changes(&mut self, bits: u16, room: &mut ArrayVec<u8, 64>) -> Option<AnswerPid>
        ensures { (answer_with result room.new, self.new) ≡ new_changes_row self.old bits }
    {
        if bits == 0 {
            return Some(AnswerPid::Nak);
        }
        self.held = Some(bits);
        self.give_bits(bits, room)
    }

    /// The host's ACK of what a hub's status endpoint gave.
    fn acknowledge_changes(&mut self)
        ensures { self.new ≡ acknowledged self.old by.Changes }
    {
        self.changes = turned(self.changes);
        self.held = None;
    }

    /// IN of an endpoint that is neither endpoint 0 nor a hub's status endpoint.
    fn give_end(&mut self, ep: u8, room: &mut ArrayVec<u8, 64>) -> Option<AnswerPid>
        ensures { (answer_with result room.new, self.new)
            ≡ in_end_row self.old ep (in_max self.old ep) }
    {
        match self.served_end(ep, true) {
            Some(end) => self.give_source(EndpointNumber::new(ep), end.max, room),
            None => None,
        }
    }

    /// IN of an endpoint that is served.
    fn give_source(
        &mut self,
        number: EndpointNumber,
        max: u8,
        room: &mut ArrayVec<u8, 64>,
    ) -> Option<AnswerPid>
        requires most { max ≤ 64 }
        requires least { 1 ≤ max }
        ensures { (answer_with result room.new, self.new) ≡ source_row self.old number max }
    {
        let end = self.ins.get(number);
        if end.state.halted {
            return Some(AnswerPid::Stall);
        }
        if !self.put_next(number, max, room) {
            return Some(AnswerPid::Nak);
        }
        if end.pace.naks > 0 {
            self.ins.hesitate(number);
            return Some(AnswerPid::Nak);
        }
        self.give_data(InEndpoint::Bulk(number.get()), end.state.toggle)
    }

    /// The host's ACK of what an IN endpoint gave.
    fn acknowledge_end(&mut self, ep: u8)
        ensures { self.new ≡ in_ack_row self.old ep (in_max self.old ep) }
    {
        if let Some(end) = self.served_end(ep, true) {
            let number = EndpointNumber::new(ep);
            let given = given_on(self.place_behind(number, end.max), self.ins.get(number));
            self.ins.set(number, given);
        }
    }

    /// OUT of an endpoint that is not endpoint 0.
    fn take_end(
        &mut self,
        ep: u8,
        toggle: Toggle,
        bytes: &[u8],
    ) -> Result<Option<AnswerPid>, AllocError>
        ensures answer { IfOk result (λ pid. (room : Room) → (answer_with pid room, self.new)
            ≡ out_end_row (forgotten self.old) ep (out_max self.old ep) toggle bytes.now) }
        ensures refused { OnErr result (self.new ≡ self.old) }
        ensures grows { OnErr result
            (end_sinks self.old ep (out_max self.old ep) toggle bytes.now ≡ true) }
    {
        match self.served_end(ep, false) {
            Some(end) => self.take_data(EndpointNumber::new(ep), end.max, toggle, bytes),
            None => {
                self.attempt_over();
                Ok(None)
            }
        }
    }

    /// OUT of an endpoint that is served. What is remembered is forgotten once its sink has grown.
    fn take_data(
        &mut self,
        number: EndpointNumber,
        max: u8,
        toggle: Toggle,
        bytes: &[u8],
    ) -> Result<Option<AnswerPid>, AllocError>
        ensures answer { IfOk result (λ pid. (room : Room) → (answer_with pid room, self.new)
            ≡ sink_row (forgotten self.old) number max toggle bytes.now) }
        ensures refused { OnErr result (self.new ≡ self.old) }
        ensures grows { OnErr result (sinks self.old number max toggle bytes.now ≡ true) }
    {
        let state = self.outs.state(number);
        if state.halted {
            self.attempt_over();
            return Ok(Some(AnswerPid::Stall));
        }
        if usize::from(max) < bytes.len() {
            self.attempt_over();
            return Ok(None);
        }
        let answer = if toggle.is_same(state.toggle) {
            self.take_next(number, bytes)?
        } else {
            AnswerPid::Ack
        };
        self.attempt_over();
        Ok(Some(answer))
    }

    /// The next packet for an OUT endpoint that is not halted.
    fn take_next(&mut self, number: EndpointNumber, bytes: &[u8]) -> Result<AnswerPid, AllocError>
        ensures answer { IfOk result (λ pid. (room : Room)
            → (answer_with (Some pid) room, self.new) ≡ taken_row self.old number bytes.now) }
        ensures refused { OnErr result (self.new ≡ self.old) }
        ensures grows { OnErr result (nat_lt 0 (out_end self.old number).pace.naks ≡ false) }
    {
        if self.outs.pace(number).naks > 0 {
            self.outs.hesitate(number);
            return Ok(AnswerPid::Nak);
        }
        let halts = self.halts_next(number);
        self.outs.take(number, halts, bytes)?;
        Ok(AnswerPid::Ack)
    }

    /// Whether the plan says when an OUT endpoint halts.
    fn out_halts(&self, number: EndpointNumber) -> bool
        ensures { result ≡ out_halts self.now number }
    {
        self.spec.endpoints().row(number.get()).is_some()
            || is_numbered(number.get(), bulk_at(&self.spec, &self.registers, false))
    }

    /// Whether an OUT endpoint halts with its next packet.
    fn halts_next(&self, number: EndpointNumber) -> bool
        ensures { result ≡ (is_last (out_end self.now number).pace.until_halt
            && out_halts self.now number) }
    {
        is_last(self.outs.pace(number).until_halt) && self.out_halts(number)
    }
}
