//! The places of a plan, found in what the host does.
ghost use Rattle.std.specs.Prelude.{◌≡◌, ◌+◌, ◌≤◌, IfErr, IfOk, OnErr, OnOk, length};
ghost use Rattle.usb_world.specs.{attempt_most};
ghost use Rattle.usb_sim.specs.Sim.{world_of};
ghost use Rattle.usb_wire.specs.Questions.{IsQuestion};
ghost use Rattle.usb_far.specs.FarEnd.{Follows, far_of, played_of};
ghost use Rattle.usb_places.specs.{after_seen, plan_in, seen_at};
ghost use Rattle.usb_bench.specs.Attempts.{attempt_asked};
ghost use Rattle.usb_bench.specs.Placing.{DeedPlaced, IsDeedIn, IsUnfollowed, IsUnmoved, IsUnplaced, Placed, QuestionPlaced, deed_of, told_at, told_beside, told_from, try_in};

use crate::asked::attempt_of;
use crate::attempt::holder_in;
use crate::fault::BenchFault;
use crate::judge::Judge;
use std::alloc::{AllocError, Global};
use usb_far::{FarEnd, Statuses};
use usb_judge::PluggedDevice;
use usb_places::{Deed, Places, Seen, Try};
use usb_sim::{FollowFault, SimBus, Trace};
use usb_verdict::plugged;
use usb_wire::Question;

impl Judge {
    /// Sees what a question has the host do. If that is a place of the plan, what is there comes next.
    ///
    /// # Errors
    ///
    /// - `Memory`: memory was refused.
    /// - `OtherPlan`: the plan that is played has another number of devices, or of damages so far.
    pub(crate) fn place<T: Trace>(
        &mut self,
        alloc: Global,
        far: &mut FarEnd<T>,
        question: &Question,
    ) -> Result<(), BenchFault>
        requires { IsQuestion question.now }
        ensures placed { OnOk result
            (Placed question.now self.old (played_of far.old) self.new (played_of far.new)) }
        ensures fault { IfErr result (IsUnplaced question.now self.old (played_of far.old)) }
        ensures kept { OnErr result (far.new ≡ far.old) }
    {
        match &mut self.places {
            Some(places) => place_in(alloc, far, places, question),
            None => Ok(()),
        }
    }

    /// Sees the statuses of root ports that were told since they were these.
    pub(crate) fn see_told<T: Trace>(&mut self, far: &FarEnd<T>, before: &Statuses)
        ensures { self.new ≡ told_beside (far_of far.now) before.now.items self.old }
    {
        if let Some(places) = &mut self.places {
            see_from(
                far.bus(),
                1,
                before.as_slice(),
                far.told().as_slice(),
                places,
            );
        }
    }
}

/// Sees what a question has the host do, and plays what is there if that is one of these places.
fn place_in<T: Trace>(
    alloc: Global,
    far: &mut FarEnd<T>,
    places: &mut Places,
    question: &Question,
) -> Result<(), BenchFault>
    requires { IsQuestion question.now }
    ensures placed { OnOk result (QuestionPlaced question.now places.old (played_of far.old)
        places.new (played_of far.new)) }
    ensures fault { IfErr result (IsUnmoved question.now places.old (played_of far.old)) }
    ensures kept { OnErr result (far.new ≡ far.old) }
{
    match deed_at(alloc, far.bus(), question) {
        Ok(Some(deed)) => see(alloc, far, places, deed),
        Ok(None) => Ok(()),
        Err(_) => Err(BenchFault::Memory),
    }
}

/// Sees what the host is about to do, and plays what is there if that is one of these places.
fn see<T: Trace>(
    alloc: Global,
    far: &mut FarEnd<T>,
    places: &mut Places,
    deed: Deed,
) -> Result<(), BenchFault>
    ensures placed { OnOk result (DeedPlaced deed places.old (played_of far.old) places.new
        (played_of far.new)) }
    ensures fault { IfErr result (IsUnfollowed
        (plan_in (after_seen (seen_at (far_of far.old).world deed) places.old))
        (played_of far.old)) }
    ensures kept { OnErr result (far.new ≡ far.old) }
{
    if places.see(&seen_at(far.bus(), deed)) {
        follow(alloc, far, places)
    } else {
        Ok(())
    }
}

/// Plays the plan from now on, as far as its places are known.
fn follow<T: Trace>(alloc: Global, far: &mut FarEnd<T>, places: &Places) -> Result<(), BenchFault>
    ensures follows { OnOk result
        (Follows (plan_in places.now) (played_of far.old) (played_of far.new)) }
    ensures fault { IfErr result (IsUnfollowed (plan_in places.now) (played_of far.old)) }
    ensures kept { OnErr result (far.new ≡ far.old) }
{
    match places.plan(alloc) {
        Ok(plan) => match far.follow(alloc, &plan) {
            Ok(()) => Ok(()),
            Err(FollowFault::Unlike) => Err(BenchFault::OtherPlan),
            Err(FollowFault::Memory) => Err(BenchFault::Memory),
        },
        Err(_) => Err(BenchFault::Memory),
    }
}

/// What a question has the host do, as places count it; None if it is no such thing.
fn deed_at<T: Trace>(
    alloc: Global,
    bus: &SimBus<T>,
    question: &Question,
) -> Result<Option<Deed>, AllocError>
    requires { IsQuestion question.now }
    ensures { IfOk result (IsDeedIn question.now (world_of bus.now)) }
{
    let devices = plugged(alloc, bus)?;
    Ok(deed_of(devices.as_slice(), question))
}

/// The same beside the devices that are plugged.
fn deed_of(devices: &[PluggedDevice<'_>], question: &Question) -> Option<Deed>
    requires { IsQuestion question.now }
    ensures { result ≡ deed_of devices.now question.now }
{
    match question {
        Question::Port { number, call } => Some(Deed::Call(*number, *call)),
        Question::Wait => Some(Deed::Wait),
        Question::Hello | Question::Restart { .. } => None,
        Question::Setup { .. }
        | Question::Out { .. }
        | Question::Outs { .. }
        | Question::In { .. }
        | Question::Ins { .. } => try_of(devices, question),
    }
}

/// The attempt of a question, as places count it.
fn try_of(devices: &[PluggedDevice<'_>], question: &Question) -> Option<Deed>
    requires { IsQuestion question.now }
    ensures { result ≡ try_in devices.now (attempt_asked question.now) }
{
    let attempt = attempt_of(question)?;
    let holder = holder_in(devices, attempt.destination().address);
    Some(Deed::Attempt(Try::of(&attempt), holder))
}

/// What the host does, and how far the run is before that.
fn seen_at<T: Trace>(bus: &SimBus<T>, deed: Deed) -> Seen
    ensures seen { result ≡ seen_at (world_of bus.now) deed }
    ensures most { result.attempts ≤ attempt_most }
{
    Seen {
        attempts: bus.attempts(),
        since: bus.attempts_since(),
        taken: bus.events_taken(),
        deed,
    }
}

/// Sees the statuses of root ports that are others now, from this number on.
#[cycle(told_from)]
#[tactic(auto, unfolding(crate::specs::Placing::told_from))]
fn see_from<T: Trace>(
    bus: &SimBus<T>,
    number: u8,
    before: &[[u8; 4]],
    now: &[[u8; 4]],
    places: &mut Places,
)
    requires { number + length before.now ≤ 255 }
    ensures { places.new ≡ told_from (world_of bus.now) number before.now now.now places.old }
{
    match (before.split_first(), now.split_first()) {
        (Some((first, before)), Some((second, now))) => {
            see_status(bus, number, first, second, places);
            see_from(bus, number + 1, before, now, places);
        }
        _ => {}
    }
}

/// Sees the status of a root port, if it is another one now.
fn see_status<T: Trace>(
    bus: &SimBus<T>,
    number: u8,
    before: &[u8; 4],
    now: &[u8; 4],
    places: &mut Places,
)
    ensures { places.new ≡ told_at (world_of bus.now) number before.now now.now places.old }
{
    if before != now {
        places.see(&seen_at(bus, Deed::Status(number)));
    }
}
