//! What a host does on the bus.
ghost use Rattle.std.specs.Prelude.{◌≡◌, ◌<◌, ◌++◌, IfErr, IfOk, OnOk, Some};
ghost use Rattle.usb_world.specs.PlainAttempts.{destination_of};
ghost use Rattle.usb_sim.specs.Sim.{world_of};
ghost use Rattle.usb_wire.specs.Questions.{IsQuestion};
ghost use Rattle.usb_far.specs.FarEnd.{played_of};
ghost use Rattle.usb_bench.specs.Attempts.{EmptyNoted, Foreseen, IsSeen, IsUnforeseen, Judged, babbled, faults_with, holder_in, remark_lines, taken_on};
ghost use Rattle.usb_bench.specs.Said.{IsUnsaid, Says};

use crate::asked::{attempt_of, outcome_of};
use crate::coming::Coming;
use crate::fault::BenchFault;
use crate::judge::Judge;
use crate::received::begin_anew;
use crate::said::put;
use std::alloc::{AllocError, Global};
use usb_far::{Came, FarEnd};
use usb_judge::{PluggedDevice, Remark, empty_line, judge_attempt, remark_line, resets_empty};
use usb_port::{PortCall, PortPath};
use usb_sim::{EndpointNumber, SimBus, Trace};
use usb_verdict::plugged;
use usb_wire::Question;
use usb_world::Attempt;

impl Judge {
    /// Writes what is wrong with what a question asks for, before that is done.
    pub(crate) fn before<T: Trace>(
        &mut self,
        alloc: Global,
        far: &mut FarEnd<T>,
        last: u64,
        question: &Question,
    ) -> Result<Option<Coming>, BenchFault>
        requires { IsQuestion question.now }
        ensures foreseen { IfOk result (λ coming. Foreseen last question.now self.old
            (played_of far.old) coming self.new (played_of far.new)) }
        ensures fault { IfErr result
            (IsUnforeseen last question.now (played_of far.old) (played_of far.new)) }
    {
        match attempt_of(question) {
            Some(_) if far.bus().attempts() >= last => Err(BenchFault::NoRest),
            Some(attempt) => {
                let coming = look_at(alloc, far.bus(), attempt)?;
                let number = far.bus().attempts().saturating_add(1);
                self.put(alloc, far, number, &coming.attempt, coming.remark)?;
                let skipped = self.outs.before(&coming.attempt);
                self.put(alloc, far, number, &coming.attempt, skipped)?;
                Ok(Some(coming))
            }
            None => {
                put_empty(alloc, far, question)?;
                Ok(None)
            }
        }
    }

    /// Writes what was wrong with an attempt that was made.
    pub(crate) fn after<T: Trace>(
        &mut self,
        alloc: Global,
        far: &mut FarEnd<T>,
        coming: &Coming,
        came: Came,
    ) -> Result<(), BenchFault>
        ensures judged { OnOk result (Judged (Some coming.now) came self.old (played_of far.old)
            self.new (played_of far.new)) }
        ensures fault { IfErr result (IsUnsaid (played_of far.new)) }
    {
        let taken = taken_at(far.bus(), &coming.holder, &coming.attempt);
        let babble = babbled(&coming.attempt, far.bus().answered());
        let outcome = outcome_of(came);
        let remark = self
            .outs
            .after(&coming.attempt, &outcome, coming.taken, taken)?;
        begin_anew(self.receipts.as_mut_slice(), &coming.attempt);
        let number = far.bus().attempts();
        self.put_both(alloc, far, number, &coming.attempt, remark, babble)
    }

    /// Writes two remarks on the attempt of a number, as far as there are some, and counts those that are faults.
    fn put_both<T: Trace>(
        &mut self,
        alloc: Global,
        far: &mut FarEnd<T>,
        number: u64,
        attempt: &Attempt,
        first: Option<Remark>,
        second: Option<Remark>,
    ) -> Result<(), BenchFault>
        ensures said { OnOk result (Says (played_of far.old) (remark_lines number attempt.now first
            ++ remark_lines number attempt.now second) (played_of far.new)) }
        ensures counted { OnOk result (self.new ≡ record self.old {
          faults = faults_with second (faults_with first self.old.faults);
        }) }
        ensures fault { IfErr result (IsUnsaid (played_of far.new)) }
    {
        self.put(alloc, far, number, attempt, first)?;
        self.put(alloc, far, number, attempt, second)?;
        Ok(())
    }

    /// Writes a remark on the attempt of a number, if there is one, and counts it if it is a fault.
    fn put<T: Trace>(
        &mut self,
        alloc: Global,
        far: &mut FarEnd<T>,
        number: u64,
        attempt: &Attempt,
        remark: Option<Remark>,
    ) -> Result<(), BenchFault>
        ensures said { OnOk result (Says (played_of far.old)
            (remark_lines number attempt.now remark) (played_of far.new)) }
        ensures counted { OnOk result
            (self.new ≡ record self.old { faults = faults_with remark self.old.faults }) }
        ensures fault { IfErr result (IsUnsaid (played_of far.new)) }
    {
        let Some(remark) = remark else {
            return Ok(());
        };
        let line = remark_line(alloc, number, attempt.destination().address, remark)?;
        put(far, line.as_slice())?;
        if remark.is_fault() {
            self.faults = self.faults.saturating_add(1);
        }
        Ok(())
    }
}

/// An attempt, seen before it is made.
fn look_at<T: Trace>(alloc: Global, bus: &SimBus<T>, attempt: Attempt) -> Result<Coming, AllocError>
    requires { (destination_of attempt).number < 16 }
    ensures { IfOk result (IsSeen attempt (world_of bus.now)) }
{
    let devices = plugged(alloc, bus)?;
    let holder = holder_in(devices.as_slice(), attempt.destination().address);
    let taken = taken_at(bus, &holder, &attempt);
    let remark = judge_attempt(devices.as_slice(), &attempt);
    Ok(Coming {
        attempt,
        holder,
        taken,
        remark,
    })
}

/// `Babble` of an IN that was answered by more data than the host asked for.
fn babbled(attempt: &Attempt, answered: usize) -> Option<Remark>
    ensures { result ≡ babbled attempt.now answered }
{
    match attempt {
        Attempt::In { to } if answered > usize::from(to.max) => Some(Remark::Babble),
        _ => None,
    }
}

/// The port of the first device that packets reach and that holds an address.
pub(crate) fn holder_in(devices: &[PluggedDevice<'_>], address: u8) -> Option<PortPath>
    ensures { result ≡ holder_in devices.now address }
{
    match devices
        .iter()
        .find(|device| device.reached && device.address == address)
    {
        Some(device) => Some(device.path.duplicate()),
        None => None,
    }
}

/// How many bytes the OUT endpoint of an attempt has taken, of the device at a port.
fn taken_at<T: Trace>(bus: &SimBus<T>, path: &Option<PortPath>, attempt: &Attempt) -> usize
    requires { (destination_of attempt.now).number < 16 }
    ensures { result ≡ taken_on (world_of bus.now) path.now attempt.now }
{
    let number = EndpointNumber::new(attempt.destination().number);
    let Some(path) = path else {
        return 0;
    };
    match bus.sink(path, number) {
        Some(bytes) => bytes.len(),
        None => 0,
    }
}

/// Notes a reset of a root port where nothing is plugged.
fn put_empty<T: Trace>(
    alloc: Global,
    far: &mut FarEnd<T>,
    question: &Question,
) -> Result<(), BenchFault>
    ensures noted { OnOk result
        (EmptyNoted question.now (played_of far.old) (played_of far.new)) }
    ensures fault { IfErr result (IsUnsaid (played_of far.new)) }
{
    let Question::Port {
        number,
        call: PortCall::SetReset,
    } = question
    else {
        return Ok(());
    };
    let is_empty = resets_empty(plugged(alloc, far.bus())?.as_slice(), *number);
    if is_empty {
        let line = empty_line(alloc, far.bus().attempts(), *number)?;
        put(far, line.as_slice())?;
    }
    Ok(())
}
