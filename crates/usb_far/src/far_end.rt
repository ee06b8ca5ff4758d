//! What the controller side does at each question.
ghost use Rattle.std.specs.Prelude.{◌≡◌, ◌≤◌, ◌⊎◌, ◌∷◌, [], false, true, Err, IfErr, IfOk, OnErr, OnOk};
ghost use Rattle.usb_sim.specs.{answered_by, is_alike};
ghost use Rattle.usb_sim.specs.declared.sim.follow.FollowFault.TheVariants.{Unlike};
ghost use Rattle.usb_world.specs.Steps.{after, opening, root_call};
ghost use Rattle.usb_world.specs.PlainAttempts.{attempt_data};
ghost use Rattle.usb_world.specs.Worlds.{IsAttempt, IsRootPort};
ghost use Rattle.usb_watch.specs.Watch.{has_failed};
ghost use Rattle.usb_sim.specs.Sim.{trace_of, tracer_of, world_of};
ghost use Rattle.usb_watch.specs.Pipes.{pipe_of};
ghost use Rattle.usb_wire.specs.Questions.{IsEndpoint, IsQuestion};
ghost use Rattle.usb_far.specs.FarEnd.{IsEventGivenUp, IsGivenUp, HasNoPort, IsDone, IsUnanswered, SendsTooMuch, attempt_done, call_done, done, is_damaged, restart_done, statuses, unseen_in, wait_done};

use crate::attempt::{answer_of, in_attempt, is_poll, out_attempt, packet_attempt, setup_attempt};
use crate::fault::FarFault;
use crate::row::first_of;
use crate::wanted::{Sending, due_wanted, next_part};
use arrayvec::ArrayVec;
use std::alloc::{AllocError, Global};
use std::io::Write;
use usb_bus::{Attempt, Bus};
use usb_exchange::damage_of;
use usb_port::PortCall;
use usb_request::feature::{
    C_PORT_CONNECTION, C_PORT_ENABLE, C_PORT_RESET, PORT_ENABLE, PORT_POWER, PORT_RESET,
};
use usb_sim::{FollowFault, Plan, SimBus, Trace, Tracer, Untraced};
use usb_watch::Watched;
use usb_wire::{Answer, Endpoint, Question};

/// The statuses of root ports, port 1 first.
pub type Statuses = ArrayVec<[u8; 4], 7>;

/// What the host does.
#[derive(Clone, Copy, Debug, PartialEq, Eq)]
pub enum Phase {
    /// It has not said the hello.
    New,
    /// It asks.
    Asks,
    /// It reports a listing, or news.
    Tells,
}

/// A simulated bus as the controller side.
#[derive(Drop)]
pub struct FarEnd<T: Trace> {
    pub(crate) bus: SimBus<T>,
    /// What the status of each root port was when it was last reported.
    pub(crate) told: Statuses,
    /// The host may not have seen an event: one came in the polls that brought nothing since the last other question,
    /// or one of these polls was damaged.
    pub(crate) unseen: bool,
    /// What is left of a send that takes several lines.
    pub(crate) sending: Option<Sending>,
    pub(crate) phase: Phase,
}

impl<W: Write + Drop> FarEnd<Tracer<W>> {
    ghost use Rattle.usb_far.specs.FarEnd.{far_begun, far_of, played_of};

    /// The controller side of a plan, before anything came: all root ports are off. Its trace goes to a writer.
    ///
    /// # Errors
    ///
    /// Memory was refused.
    pub fn new(alloc: Global, plan: &Plan, writer: Watched<W>) -> Result<Self, AllocError>
        requires { has_failed writer ≡ false }
        ensures far { IfOk result (λ far. far_of far ≡ far_begun (opening plan.now)) }
        ensures trace { IfOk result (λ far.
            (played_of far).trace ≡ pipe_of W.contents writer) }
    {
        match SimBus::new(alloc, plan, writer) {
            Ok(bus) => Ok(FarEnd::begun(bus)),
            Err((error, _)) => Err(error),
        }
    }
}

impl FarEnd<Untraced> {
    ghost use Rattle.usb_far.specs.FarEnd.{far_begun, far_of};

    /// The same, which makes no line of its trace.
    ///
    /// # Errors
    ///
    /// Memory was refused.
    pub fn untraced(alloc: Global, plan: &Plan) -> Result<FarEnd<Untraced>, AllocError>
        ensures { IfOk result (λ far. far_of far ≡ far_begun (opening plan.now)) }
    {
        Ok(FarEnd::begun(SimBus::untraced(alloc, plan)?))
    }
}

impl<T: Trace> FarEnd<T> {
    ghost use Rattle.usb_far.specs.FarEnd.{Follows, PutsLine, far_begun, far_of, played_of};

    /// The controller side of a bus, before the first question.
    fn begun(bus: SimBus<T>) -> Self
        ensures far { far_of result ≡ far_begun (world_of bus) }
        ensures trace { (played_of result).trace
            ≡ record { bytes = trace_of bus; failed = T.failed (tracer_of bus) } }
    {
        FarEnd {
            told: statuses(&bus),
            bus,
            unseen: false,
            sending: None,
            phase: Phase::New,
        }
    }

    /// The bus, as it is now.
    pub fn bus(&self) -> &SimBus<T>
        ensures world { world_of result.now ≡ (far_of self.now).world }
        ensures trace { (played_of self.now).trace
            ≡ record { bytes = trace_of result.now; failed = T.failed (tracer_of result.now) } }
        ensures answered { (played_of self.now).answered ≡ answered_by result.now }
    {
        &self.bus
    }

    /// Plays another plan from now on: its events behind as many as came are to come, and its damages. All else stays.
    ///
    /// # Errors
    ///
    /// Nothing changes then.
    ///
    /// - `Unlike`: the plan has another number of devices, or of damages to the attempts so far.
    /// - `Memory`: memory was refused.
    pub fn follow(&mut self, alloc: Global, plan: &Plan) -> Result<(), FollowFault>
        ensures follows { OnOk result (Follows plan.now (played_of self.old) (played_of self.new)) }
        ensures alike { OnOk result (is_alike plan.now (far_of self.old).world ≡ true) }
        ensures unlike { result ≡ Err Unlike → is_alike plan.now (far_of self.old).world ≡ false }
        ensures kept { OnErr result (self.new ≡ self.old) }
    {
        match self.bus.follow(alloc, plan) {
            Ok(()) => Ok(()),
            Err(fault) => Err(fault),
        }
    }

    /// The status of each root port as it was last reported, port 1 first.
    pub fn told(&self) -> Statuses
        ensures { result.items ≡ (far_of self.now).told }
    {
        let mut copy = Statuses::new();
        copy.try_extend_from_slice(self.told.as_slice()).unwrap();
        copy
    }

    /// What the host does now.
    pub fn phase(&self) -> Phase
        ensures { result ≡ (far_of self.now).phase }
    {
        self.phase
    }

    /// Writes a line of report to the trace, given without its newline. It takes no memory.
    ///
    /// # Errors
    ///
    /// `Bus`, with the fault that the bus reported before, and nothing is written. Or with `Failed` if the trace failed
    /// in this call, and a prefix of the line is written.
    pub fn put_line(&mut self, line: &[u8]) -> Result<(), FarFault>
        ensures { PutsLine line.now (played_of self.old) result (played_of self.new) }
    {
        match self.bus.put_line(line) {
            Ok(()) => Ok(()),
            Err(fault) => Err(FarFault::Bus(fault)),
        }
    }

    /// Does what is asked, and answers it; of a row, its first attempt.
    pub(crate) fn answer(&mut self, question: &Question) -> Result<Answer, FarFault>
        requires { IsQuestion question.now }
        ensures done { IfOk result (λ answer.
            IsDone (done question.now (far_of self.old)) (played_of self.old) answer
            (played_of self.new)) }
        ensures fault { IfErr result (λ fault.
            IsUnanswered question.now (played_of self.old) fault (played_of self.new)) }
    {
        match question {
            Question::Hello => Ok(Answer::RootsAndRows(self.bus.root_ports())),
            Question::Setup {
                speed,
                endpoint,
                setup,
            } => self.attempt(&setup_attempt(*speed, *endpoint, *setup)),
            Question::Out {
                speed,
                endpoint,
                sent,
            } => self.attempt(&out_attempt(*speed, *endpoint, sent)),
            Question::Outs {
                speed,
                endpoint,
                most,
                toggle,
                bytes,
            } => {
                let packet = first_of(bytes.as_slice(), *most);
                self.attempt(&packet_attempt(*speed, *endpoint, *toggle, packet))
            }
            Question::In {
                speed,
                endpoint,
                most,
            }
            | Question::Ins {
                speed,
                endpoint,
                most,
                ..
            } => self.attempt(&in_attempt(*speed, *endpoint, *most)),
            Question::Port { number, call } => self.call(*number, *call),
            Question::Restart { endpoint, is_in } => Ok(self.restart(*endpoint, *is_in)),
            Question::Wait => self.wait(),
        }
    }

    /// Makes an attempt.
    fn attempt(&mut self, attempt: &Attempt) -> Result<Answer, FarFault>
        requires { IsAttempt (attempt_data attempt.now) }
        ensures done { IfOk result (λ answer.
            IsDone (attempt_done (attempt_data attempt.now) (far_of self.old))
            (played_of self.old) answer (played_of self.new)) }
        ensures fault { IfErr result (λ fault.
            IsGivenUp (attempt_data attempt.now) (played_of self.old) fault (played_of self.new)) }
    {
        let taken = self.bus.events_taken();
        let outcome = match self.bus.attempt(attempt) {
            Ok(outcome) => outcome,
            Err(fault) => return Err(FarFault::Bus(fault)),
        };
        let poll = is_poll(attempt, &outcome);
        self.unseen = unseen_in(poll, self.unseen, taken, &self.bus);
        Ok(answer_of(outcome))
    }

    /// Makes a call at a root port, if there is one of that number.
    fn call(&mut self, number: u8, call: PortCall) -> Result<Answer, FarFault>
        ensures done { IfOk result (λ answer.
            IsDone (call_done number call (far_of self.old)) (played_of self.old) answer
            (played_of self.new)) }
        ensures fault { IfErr result (λ fault.
            HasNoPort number (played_of self.old) fault (played_of self.new)) }
    {
        if number < 1 || number > self.bus.root_ports() {
            return Err(FarFault::BadNumber);
        }
        call_root(&mut self.bus, number, call);
        self.unseen = false;
        Ok(Answer::Done)
    }

    /// Makes an endpoint begin again.
    fn restart(&mut self, endpoint: Endpoint, is_in: bool) -> Answer
        requires endpoint { IsEndpoint endpoint }
        requires least { 1 ≤ endpoint.number }
        ensures { IsDone (restart_done (far_of self.old)) (played_of self.old) result
            (played_of self.new) }
    {
        self.bus
            .restart_endpoint(endpoint.address, endpoint.number, is_in);
        self.unseen = false;
        Answer::Done
    }

    /// Returns what is requested: nothing if the host may not have seen an event, else the next part of a send, or
    /// what the next event asks.
    fn wait(&mut self) -> Result<Answer, FarFault>
        ensures done { IfOk result (λ answer.
            IsDone (wait_done (far_of self.old)) (played_of self.old) answer (played_of self.new)) }
        ensures fault { IfErr result (λ fault.
            IsEventGivenUp (played_of self.old) fault (played_of self.new)
            ⊎ SendsTooMuch (played_of self.old) fault (played_of self.new)) }
    {
        if self.unseen {
            self.unseen = false;
            return Ok(Answer::Done);
        }
        if let Some(sending) = self.sending.take() {
            let wanted = next_part(sending);
            self.sending = wanted.sending;
            return Ok(wanted.answer);
        }
        match self.bus.apply_next_event() {
            Ok(due) => match due_wanted(due) {
                Some(wanted) => {
                    self.sending = wanted.sending;
                    Ok(wanted.answer)
                }
                None => Err(FarFault::LongSend),
            },
            Err(fault) => Err(FarFault::Bus(fault)),
        }
    }
}

/// Whether the host may not have seen an event: it is so from before, or it is so of this poll that brought nothing.
fn unseen_in<T: Trace>(poll: bool, unseen: bool, before: u64, bus: &SimBus<T>) -> bool
    ensures { result ≡ unseen_in poll unseen before (world_of bus.now) }
{
    match (poll, unseen) {
        (false, _) => false,
        (true, true) => true,
        (true, false) => bus.events_taken() != before || is_damaged(bus),
    }
}

/// Whether the plan damages the attempt that was made last.
fn is_damaged<T: Trace>(bus: &SimBus<T>) -> bool
    ensures { result ≡ is_damaged (world_of bus.now) }
{
    damage_of(bus.damages(), bus.attempts()).is_some()
}

/// The statuses of all root ports.
pub(crate) fn statuses<T: Trace>(bus: &SimBus<T>) -> Statuses
    ensures { result.items ≡ statuses (world_of bus.now) }
{
    let mut all = Statuses::new();
    'ports: for before in 0..bus.root_ports() {
        all.push(bus.root_status(before + 1));
    }
    all
}

/// Makes a call at a root port, by its feature (11.24).
fn call_root<T: Trace>(bus: &mut SimBus<T>, port: u8, call: PortCall)
    requires { IsRootPort (world_of bus.old) port }
    ensures world { world_of bus.new ≡ after (root_call call port) (world_of bus.old) }
    ensures silent { trace_of bus.new ≡ trace_of bus.old }
{
    match call {
        PortCall::SetPower => bus.root_set(port, PORT_POWER),
        PortCall::SetReset => bus.root_set(port, PORT_RESET),
        PortCall::ClearEnable => bus.root_clear(port, PORT_ENABLE),
        PortCall::ClearPower => bus.root_clear(port, PORT_POWER),
        PortCall::ClearConnectionChange => bus.root_clear(port, C_PORT_CONNECTION),
        PortCall::ClearEnableChange => bus.root_clear(port, C_PORT_ENABLE),
        PortCall::ClearResetChange => bus.root_clear(port, C_PORT_RESET),
    }
}
