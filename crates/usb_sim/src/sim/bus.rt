//! The simulated bus as the host sees it.
ghost use Rattle.std.specs.Prelude.{◌≡◌, ◌+◌, ◌-◌, ◌<◌, ◌≤◌, ◌∷◌, [], length, slice_index_or, true, false, None, Some, IfOk, IfErr, OnOk, refl};
ghost use Rattle.usb_port.specs.PortStates.{off, status_of};
ghost use Rattle.usb_function.specs.HolderIndex.{IsIndexOf};
ghost use Rattle.usb_device.specs.Tree.{row_of, changed, called};
ghost use Rattle.usb_port.specs.Calls.{IsSetFeature, IsClearFeature};
ghost use Rattle.usb_world.specs.Exchanges.{outcome_of};
ghost use Rattle.usb_world.specs.PlainAttempts.{attempt_data};
ghost use Rattle.usb_world.specs.Worlds.{Attempted, FitsMaximum, IsAttempt, roots_of};
ghost use Rattle.usb_world.specs.Steps.{AttemptFails, SetsRoot, ClearsRoot, after, root_call};
ghost use Rattle.usb_bus.specs.Traces.{Attempts, Spends};
ghost use Rattle.usb_world.specs.declared.types.BusFault.TheVariants.{Failed};
ghost use Rattle.usb_bus.specs.OutcomeKinds.{outcome_with, result_with};

use super::SimBus;
use crate::Trace;
use arrayvec::ArrayVec;
use usb_bus::{Bus, OutcomeKind};
use usb_device::{AnswerPid, HeardPid, keeps_enable};
use usb_exchange::{ExchangeRoom, damage_of, make_exchange_by};
use usb_function::{Holders, Ports};
use usb_port::PortCall;
use usb_world::{Attempt, BusFault, Outcome};

impl<T: Trace> Bus for SimBus<T> {
    ghost use Rattle.usb_sim.specs.Parts.{LeavesAttempt};
    ghost use Rattle.usb_sim.specs.Sim.{world_of, tracer_of, trace_of};

    ghost modelled = { true };

    ghost world = { world_of };

    ghost trace = { trace_of };

    ghost spent = { λ bus. (world_of bus).attempts };

    ghost failed = { λ bus. (world_of bus).fault };

    ghost ports = { λ bus. roots_of (world_of bus) };

    fn attempt(&mut self, attempt: &Attempt) -> Result<Outcome, BusFault>
        requires { IsAttempt (attempt_data attempt.now) }
        ensures attempts { Attempts (attempt_data attempt.now) (world_of self.old)
            (trace_of self.old) result (world_of self.new) (trace_of self.new) }
        ensures spends { Spends (λ bus. (world_of bus).attempts) (λ bus. roots_of (world_of bus)) 1
            self.old self.new }
        ensures fits { IfOk result (FitsMaximum (attempt_data attempt.now).max) }
        ensures told { IfErr result (λ fault. (world_of self.new).fault ≡ Some fault) }
        ensures leaves { LeavesAttempt (attempt_data attempt.now) self.old result self.new }
    {
        let mut room = ArrayVec::new();
        match self.attempt_into(attempt, &mut room) {
            Ok(kind) => Ok(kind.with_bytes(room)),
            Err(fault) => Err(fault),
        }
    }

    fn attempt_into(
        &mut self,
        attempt: &Attempt,
        room: &mut ArrayVec<u8, 64>,
    ) -> Result<OutcomeKind, BusFault>
        requires { IsAttempt (attempt_data attempt.now) }
        ensures attempts { Attempts (attempt_data attempt.now) (world_of self.old)
            (trace_of self.old) (result_with result room.new)
            (world_of self.new) (trace_of self.new) }
        ensures spends { Spends (λ bus. (world_of bus).attempts) (λ bus. roots_of (world_of bus)) 1
            self.old self.new }
        ensures fits { IfOk (result_with result room.new)
            (FitsMaximum (attempt_data attempt.now).max) }
        ensures told { IfErr result (λ fault. (world_of self.new).fault ≡ Some fault) }
        ensures leaves { LeavesAttempt (attempt_data attempt.now) self.old
            (result_with result room.new) self.new }
    {
        if let Some(fault) = self.fault {
            return Err(fault);
        }
        if self.attempts == self.limit {
            self.fault = Some(BusFault::Limit);
            return Err(BusFault::Limit);
        }
        self.make_attempt(attempt)?;
        let max = attempt.destination().max;
        Ok(put_outcome(&self.exchange, max, room))
    }

    fn root_ports(&self) -> u8 {
        self.roots.count() as u8
    }

    #[tactic(auto, unfolding(usb_world::specs::Worlds::root_port_at))]
    fn root_status(&self, port: u8) -> [u8; 4] {
        status_of(&self.roots, port)
    }

    #[tactic(auto, using(usb_world::proofs::Interface::set_call_root, usb_world::proofs::Interface::set_none))]
    fn root_set(&mut self, port: u8, feature: u16) {
        if let Some(call) = PortCall::of_set(feature) {
            self.call_root(port, call);
        }
    }

    #[tactic(auto, using(usb_world::proofs::Interface::clear_ends, usb_world::proofs::Interface::clear_none))]
    fn root_clear(&mut self, port: u8, feature: u16) {
        if let Some(call) = PortCall::of_clear(feature) {
            self.call_root(port, call);
        }
    }

    /// The host's toggles come with its attempts.
    fn restart_endpoint(&mut self, _address: u8, _number: u8, _is_in: bool)
        ensures { self.new ≡ self.old }
    {}

    ghost counted = { λ known bus. refl };

    ghost settled = { λ known bus. bus.settled };

    ghost between = { λ known bus working.
        record { settled = bus.settled; sane = bus.sane working; ruled = bus.ruled } };
}

impl<T: Trace> SimBus<T> {
    ghost use Rattle.usb_sim.specs.Parts.{AttemptMade, answered_by, answered_in};
    ghost use Rattle.usb_sim.specs.Sim.{world_of, tracer_of, trace_of};

    /// A call at a root port.
    #[tactic(auto, unfolding(usb_world::specs::Steps::after))]
    fn call_root(&mut self, port: u8, call: PortCall)
        ensures world { world_of self.new ≡ after (root_call call port) (world_of self.old) }
        ensures tracer { tracer_of self.new ≡ tracer_of self.old }
        ensures unspent { (world_of self.new).attempts ≡ (world_of self.old).attempts }
        ensures roots { roots_of (world_of self.new) ≡ roots_of (world_of self.old) }
    {
        call_at(&mut self.roots, &mut self.holders, port, call);
        self.losses = self.losses.after_clearing(call.clears_connection_change());
    }

    /// The events that are due, and then an attempt and its line. What came of it is in the exchange.
    #[tactic(auto, unfolding(usb_world::specs::Steps::at_attempt, usb_world::specs::Steps::with_attempt, usb_world::specs::Steps::outcome_in, usb_bus::specs::Lines::step_lines))]
    fn make_attempt(&mut self, attempt: &Attempt) -> Result<(), BusFault>
        requires attempt { IsAttempt (attempt_data attempt.now) }
        requires sound { (world_of self.old).fault ≡ None }
        requires within { (world_of self.old).attempts < (world_of self.old).limit }
        ensures made { let x = self.new.exchange in
            AttemptMade (attempt_data attempt.now) (world_of self.old) (trace_of self.old) result
            (outcome_of x.answer x.answer_mark (attempt_data attempt.now).max)
            (world_of self.new) (trace_of self.new) }
        ensures answered { OnOk result (answered_by self.new
            ≡ answered_in (attempt_data attempt.now) (world_of self.old)) }
        ensures trace { result ≡ Err Failed → T.failed (tracer_of self.new) ≡ true }
    {
        self.take_due_events()?;
        self.shared |= self.holders.is_shared();
        let damage = damage_of(&self.damages, self.attempts + 1);
        // Where memory is refused, some devices had the host's data and others had not: the fault stands before they
        // go.
        self.fault = Some(BusFault::Memory);
        make_exchange_by(
            &mut self.roots,
            &mut self.holders,
            attempt,
            &damage,
            &mut self.exchange,
        )?;
        // All went: only the line can fail.
        self.fault = Some(BusFault::Failed);
        self.attempts += 1;
        self.losses.count(
            self.exchange.is_change_cleared(),
            self.exchange.is_address_lost(),
        );
        let pre = attempt.destination().speed.has_pre();
        self.tracer.put_attempt(self.attempts, pre, &self.exchange)?;
        self.fault = None;
        Ok(())
    }
}

/// What the host gets of an answer; its data are put into the room.
#[tactic(auto, unfolding(usb_world::specs::Exchanges::outcome_of))]
fn put_outcome(exchange: &ExchangeRoom, max: u8, room: &mut ArrayVec<u8, 64>) -> OutcomeKind
    ensures value { outcome_with result room.new
        ≡ outcome_of exchange.now.answer exchange.now.answer_mark max }
    ensures fits { FitsMaximum max (outcome_with result room.new) }
{
    if !exchange.answer_mark().is_read() {
        return OutcomeKind::Nothing;
    }
    let heard = exchange.heard();
    match heard.pid() {
        HeardPid::One(AnswerPid::Data(toggle)) => {
            let bytes = heard.bytes();
            if bytes.len() > usize::from(max) {
                return OutcomeKind::Nothing;
            }
            room.clear();
            room.try_extend_from_slice(bytes.as_slice()).unwrap();
            OutcomeKind::Payload(toggle)
        }
        HeardPid::One(AnswerPid::Ack) => OutcomeKind::Ack,
        HeardPid::One(AnswerPid::Nak) => OutcomeKind::Nak,
        HeardPid::One(AnswerPid::Stall) => OutcomeKind::Stall,
        HeardPid::Nothing | HeardPid::Collision => OutcomeKind::Nothing,
    }
}

/// A call at the port of a number, counted from 1; `holders` is the index of the ports.
fn call_at(roots: &mut Ports, holders: &mut Holders, port: u8, call: PortCall)
    requires { IsIndexOf holders.old roots.old }
    ensures called { roots.new ≡ changed (called call) roots.old (port ∷ []) }
    ensures index { IsIndexOf holders.new roots.new }
{
    if keeps_enable(call) {
        roots.call(port, call);
        return;
    }
    let forgotten = holders.forget(roots, &[port]);
    roots.call(port, call);
    if forgotten {
        holders.note(roots, &[port]);
    } else {
        holders.renew(roots);
    }
}

/// The status of the port of a number, counted from 1.
fn status_of(roots: &Ports, port: u8) -> [u8; 4]
    requires least { 1 ≤ port }
    requires most { port ≤ length (row_of roots.now) }
    ensures { result ≡ status_of (slice_index_or (row_of roots.now) (port - 1) off) }
{
    roots.port(port).unwrap().status()
}
