//! Pipes to bulk and interrupt endpoints (5.7, 5.8).
ghost use Rattle.std.specs.Prelude.{◌≡◌, ◌<◌, true};
ghost use Rattle.usb_transfer.specs.EndpointPipes.{halt_address};

use crate::condition::Condition;
use crate::control::control_none;
use crate::rows::{receive_from, send_to};
use crate::{Bus, EndpointKind, PipeFault, Setup, Target, UsableEndpoint, poll_in};
use arrayvec::ArrayVec;
use std::alloc::Global;
use std::marker::Model;
use usb_packet::Toggle;
use usb_request::endpoint_address::DIRECTION_IN;

/// A pipe to one bulk or interrupt endpoint of a device: it moves packets one way, each once and in
/// their order.
///
/// It is made after the device was configured, before the endpoint moved a packet, and is the only
/// pipe to it. After `Busy`, `NoAnswer` and `Memory` of any call but `poll` it is broken, since
/// nobody knows whether the last packet was moved. Then `send`, `receive` and `poll` answer `Broken`
/// and make no attempt, until `clear_halt` or `clear` succeeds.
#[derive(Clone, Copy, Debug)]
pub struct EndpointPipe {
    target: Target,
    ep: u8,
    kind: EndpointKind,
    max: u8,
    is_in: bool,
    toggle: Toggle,
    condition: Condition,
}

impl Model for EndpointPipe {
    ghost use Rattle.usb_transfer.specs.EndpointPipes.{PipeState};
    ghost use Rattle.usb_transfer.specs.End.{IsEnd};

    ghost Value = { PipeState };

    ghost view = { λ p. record { target = p.target; ep = p.ep; kind = p.kind; max = p.max; is_in = p.is_in; toggle = p.toggle; condition = p.condition } };

    ghost invariant = { λ p. IsEnd p.target p.ep p.max };

    ghost inverse = { λ p. record { target = p.target; ep = p.ep; kind = p.kind; max = p.max; is_in = p.is_in; toggle = p.toggle; condition = p.condition } };
}

impl EndpointPipe {
    ghost use Rattle.std.specs.Prelude.{◌≡◌, ◌*◌, ◌<◌, ◌≤◌, true, false, length, Err, IfOk, IfSome};
    ghost use Rattle.std.specs.Int.{div_ceil};
    ghost use Rattle.usb_packet.specs.declared.Toggle.TheVariants.{Zero};
    ghost use Rattle.usb_bus.specs.Traces.{Spends, Steps};
    ghost use Rattle.usb_transfer.specs.Transactions.{IsTarget, transaction_bound};
    ghost use Rattle.usb_transfer.specs.declared.condition.Condition.TheVariants.{Ready};
    ghost use Rattle.usb_transfer.specs.declared.fault.PipeFault.TheVariants.{Broken as IsBroken};
    ghost use Rattle.usb_transfer.specs.EndpointPipes.{PipeState, is_broken, needs_clear};
    ghost use Rattle.usb_transfer.specs.EndpointPipes.{pipe_made};
    ghost use Rattle.usb_transfer.specs.Control.{BusToldIt, write_bound};
    ghost use Rattle.usb_transfer.specs.End.{packet_target};
    ghost use Rattle.usb_transfer.specs.Transfers.{PipeSend, PipeReceive, PipePoll, PipeClear};

    /// A pipe to an endpoint, 1 to 15, of a kind and with a maximum packet, 1 to 64 bytes. It reads
    /// if `is_in`, and else writes.
    ///
    /// The target's own maximum is that of endpoint 0, which `clear` and `clear_halt` ask.
    pub fn new(target: Target, ep: u8, endpoint: UsableEndpoint, is_in: bool) -> Self
        requires target { IsTarget target }
        requires endpoint { ep < 16 }
        requires least { 1 ≤ endpoint.max }
        requires most { endpoint.max ≤ 64 }
        ensures { result ≡ record {
          target = target;
          ep = ep;
          kind = endpoint.kind;
          max = endpoint.max;
          is_in = is_in;
          toggle = Zero;
          condition = Ready;
        } }
    {
        EndpointPipe {
            target,
            ep,
            kind: endpoint.kind,
            max: endpoint.max,
            is_in,
            toggle: Toggle::Zero,
            condition: Condition::Ready,
        }
    }

    /// How the endpoint moves data: in bulk, or by interrupts.
    pub fn kind(&self) -> EndpointKind
        ensures { result ≡ self.now.kind }
    {
        self.kind
    }

    /// The endpoint's number, 1 to 15.
    pub fn number(&self) -> u8
        ensures value { result ≡ self.now.ep }
        ensures bound { result < 16 }
    {
        self.ep
    }

    /// Whether the pipe reads.
    pub fn is_in(&self) -> bool
        ensures { result ≡ self.now.is_in }
    {
        self.is_in
    }

    /// Sends bytes, cut into packets of the maximum; no empty packet is added. No bytes are sent
    /// with no attempt.
    ///
    /// # Errors
    ///
    /// - `Stalled`, `Busy`, `NoAnswer`: the transaction of a packet ended so. The packets before it
    ///   were taken, and after `Busy` and `NoAnswer` perhaps it too.
    /// - `Broken`: the pipe is broken, also for no bytes.
    /// - `Bus`: the bus has failed. A prefix of the bytes was taken.
    ///
    /// It never returns `Memory`.
    #[tactic(auto, using(usb_bus::proofs::Interface::went_wider, usb_bus::proofs::Interface::went_none))]
    pub fn send<B: Bus>(&mut self, bus: &mut B, bytes: &[u8]) -> Result<(), PipeFault>
        requires writes { self.old.is_in ≡ false }
        ensures same { pipe_made self.new ≡ pipe_made self.old }
        ensures any_bus { Spends B.spent B.ports
            (transaction_bound * div_ceil (length bytes.now) self.old.max) bus.old bus.new
            × BusToldIt result (B.failed bus.new)
            × (div_ceil (length bytes.now) self.old.max ≤ length bytes.now) }
        ensures broken { is_broken self.old.condition ≡ true
            → (result ≡ Err IsBroken) × (self.new ≡ self.old) × (bus.new ≡ bus.old) }
        ensures steps { B.modelled ≡ true → Steps B.world B.trace
            (transaction_bound * div_ceil (length bytes.now) self.old.max) bus.old bus.new }
        ensures transfer { B.modelled ≡ true → PipeSend bytes.now self.old
            (B.world bus.old) result self.new (B.world bus.new) }
    {
        if self.condition.is_broken() {
            return Err(PipeFault::Broken);
        }
        if bytes.is_empty() {
            return Ok(());
        }
        let mut toggle = self.toggle;
        let target = self.packet_target();
        let sent = send_to(self.kind, bus, target, self.ep, &mut toggle, bytes);
        self.toggle = toggle;
        self.condition = self.condition.after_transfer(&sent);
        sent
    }

    /// Receives so many packets, or fewer where one of them is shorter than the maximum, and
    /// answers their bytes. No packets are received with no attempt.
    ///
    /// # Errors
    ///
    /// What came before is dropped.
    ///
    /// - `Stalled`, `Busy`, `NoAnswer`: the transaction of a packet ended so.
    /// - `Memory`: the bytes find no room.
    /// - `Broken`: the pipe is broken, also for no packets.
    /// - `Bus`: the bus has failed.
    #[tactic(auto, using(usb_bus::proofs::Interface::went_wider, usb_bus::proofs::Interface::went_none))]
    pub fn receive<B: Bus>(
        &mut self,
        alloc: Global,
        bus: &mut B,
        packets: u16,
    ) -> Result<Vec<u8>, PipeFault>
        requires reads { self.old.is_in ≡ true }
        ensures same { pipe_made self.new ≡ pipe_made self.old }
        ensures any_bus { Spends B.spent B.ports (transaction_bound * packets) bus.old bus.new
            × BusToldIt result (B.failed bus.new)
            × IfOk result (λ bytes. length bytes.items ≤ packets * self.old.max) }
        ensures broken { is_broken self.old.condition ≡ true
            → (result ≡ Err IsBroken) × (self.new ≡ self.old) × (bus.new ≡ bus.old) }
        ensures steps { B.modelled ≡ true
            → Steps B.world B.trace (transaction_bound * packets) bus.old bus.new }
        ensures transfer { B.modelled ≡ true → PipeReceive packets self.old
            (B.world bus.old) result self.new (B.world bus.new) }
    {
        if self.condition.is_broken() {
            return Err(PipeFault::Broken);
        }
        if packets == 0 {
            return Ok(Vec::new(alloc));
        }
        let mut toggle = self.toggle;
        let received = receive_from(
            self.kind,
            alloc,
            bus,
            self.packet_target(),
            self.ep,
            &mut toggle,
            packets,
        );
        self.toggle = toggle;
        self.condition = self.condition.after_transfer(&received);
        received
    }

    /// Asks the endpoint once whether it has a packet (5.7): the packet, which may be empty, or None
    /// at NAK.
    ///
    /// It asks again after an error, and after a repeat, which is discarded. After a fault the pipe
    /// goes on where it was: no packet is lost by one, and none comes twice.
    ///
    /// # Errors
    ///
    /// - `Stalled`: the endpoint answered STALL.
    /// - `Busy`: it gave 256 repeats.
    /// - `NoAnswer`: there were three errors in a row.
    /// - `Broken`: the pipe is broken.
    /// - `Bus`: the bus has failed.
    ///
    /// It never returns `Memory`.
    #[tactic(auto, using(usb_bus::proofs::Interface::went_wider, usb_bus::proofs::Interface::went_none))]
    pub fn poll<B: Bus>(&mut self, bus: &mut B) -> Result<Option<ArrayVec<u8, 64>>, PipeFault>
        requires reads { self.old.is_in ≡ true }
        ensures same { pipe_made self.new ≡ pipe_made self.old }
        ensures any_bus { Spends B.spent B.ports transaction_bound bus.old bus.new
            × BusToldIt result (B.failed bus.new)
            × IfOk result (λ got. IfSome got (λ packet. length packet.items ≤ self.old.max)) }
        ensures broken { is_broken self.old.condition ≡ true
            → (result ≡ Err IsBroken) × (self.new ≡ self.old) × (bus.new ≡ bus.old) }
        ensures steps { B.modelled ≡ true
            → Steps B.world B.trace transaction_bound bus.old bus.new }
        ensures transfer { B.modelled ≡ true → PipePoll self.old
            (B.world bus.old) result self.new (B.world bus.new) }
    {
        if self.condition.is_broken() {
            return Err(PipeFault::Broken);
        }
        let mut toggle = self.toggle;
        let polled = poll_in(bus, self.packet_target(), self.ep, &mut toggle);
        self.toggle = toggle;
        Ok(polled?.map(|done| done.into_packet()))
    }

    /// Clears the endpoint's halt (9.4.5) where the pipe is broken or its last call that made an
    /// attempt was answered by STALL; on any other pipe it does nothing. Both ends begin again at
    /// DATA0.
    ///
    /// # Errors
    ///
    /// - `Stalled`: the device refused the request. The pipe is as it was.
    /// - `Busy`, `NoAnswer`: a transaction ended so. The pipe is broken, as the device may have
    ///   cleared its halt.
    /// - `Bus`: the bus has failed.
    ///
    /// It never returns `Broken` or `Memory`.
    #[tactic(auto, using(usb_bus::proofs::Interface::went_wider, usb_bus::proofs::Interface::went_none))]
    pub fn clear_halt<B: Bus>(&mut self, bus: &mut B) -> Result<(), PipeFault>
        ensures same { pipe_made self.new ≡ pipe_made self.old }
        ensures any_bus { Spends B.spent B.ports write_bound bus.old bus.new
            × BusToldIt result (B.failed bus.new) }
        ensures steps { B.modelled ≡ true → Steps B.world B.trace write_bound bus.old bus.new }
        ensures transfer { B.modelled ≡ true → PipeClear (needs_clear self.old) self.old
            (B.world bus.old) result self.new (B.world bus.new) }
    {
        match self.condition {
            Condition::Ready => Ok(()),
            Condition::Halted | Condition::Broken => self.clear(bus),
        }
    }

    /// Clears the endpoint's halt (9.4.5) whatever the pipe saw. Both ends begin again at DATA0, and
    /// an endpoint that gives packets goes on with the first whose ACK it has not seen.
    ///
    /// # Errors
    ///
    /// - `Stalled`: the device refused the request. The pipe is as it was.
    /// - `Busy`, `NoAnswer`: a transaction ended so. The pipe is broken, as the device may have
    ///   cleared its halt.
    /// - `Bus`: the bus has failed.
    ///
    /// It never returns `Broken` or `Memory`.
    pub fn clear<B: Bus>(&mut self, bus: &mut B) -> Result<(), PipeFault>
        ensures same { pipe_made self.new ≡ pipe_made self.old }
        ensures any_bus { Spends B.spent B.ports write_bound bus.old bus.new
            × BusToldIt result (B.failed bus.new) }
        ensures steps { B.modelled ≡ true → Steps B.world B.trace write_bound bus.old bus.new }
        ensures transfer { B.modelled ≡ true → PipeClear true self.old
            (B.world bus.old) result self.new (B.world bus.new) }
    {
        let request = Setup::clear_endpoint_halt(halt_address(self.ep, self.is_in));
        let cleared = control_none(bus, self.target, request);
        match cleared {
            Ok(()) => {
                self.toggle = Toggle::Zero;
                self.condition = Condition::Ready;
            }
            Err(fault) => self.condition = self.condition.after_failed_clear(fault),
        }
        cleared
    }

    /// The device as the endpoint sees it.
    fn packet_target(&self) -> Target
        ensures value { result ≡ packet_target self.now.target self.now.max }
        ensures fits { IsTarget result }
        ensures endpoint { self.now.ep < 16 }
    {
        Target {
            max: self.max,
            ..self.target
        }
    }
}

/// The address of an endpoint, 0 to 15: bit 7 is set for IN (9.6.6).
fn halt_address(ep: u8, is_in: bool) -> u8
    requires { ep < 16 }
    ensures { result ≡ halt_address ep is_in }
{
    if is_in { DIRECTION_IN + ep } else { ep }
}
