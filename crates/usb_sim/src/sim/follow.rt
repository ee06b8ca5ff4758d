//! A bus that follows another plan.
ghost use Rattle.std.specs.Prelude.{◌≡◌, ◌≤◌, Err, IfOk, OnErr, OnOk, drop, false, length, true};
ghost use Rattle.usb_sim.specs.Follow.{followed, is_alike};
ghost use Rattle.usb_sim.specs.declared.sim.follow.FollowFault.TheVariants.{Memory, Unlike};
ghost use Rattle.usb_world.specs.{damages_until};

use super::SimBus;
use crate::{Damage, Event, Plan, Trace};
use std::alloc::{AllocError, Global};
use std::collections::VecDeque;
use usb_scene::event_copies;

/// Why a bus does not follow a plan.
#[derive(Clone, Copy, Debug, PartialEq, Eq)]
pub enum FollowFault {
    /// The plan has another number of devices, or of damages to the attempts so far.
    Unlike,
    /// Memory was refused.
    Memory,
}

impl From<AllocError> for FollowFault {
    ghost from_gives = { λ _ fault. fault ≡ Memory };

    fn from(_error: AllocError) -> FollowFault {
        FollowFault::Memory
    }
}

impl<T: Trace> SimBus<T> {
    ghost use Rattle.usb_sim.specs.Sim.{tracer_of, world_of};

    /// Follows another plan from now on: its events behind as many as came are to come, and its damages. All that is
    /// plugged stays as it is, and so does the limit of attempts.
    ///
    /// # Errors
    ///
    /// Nothing changes then.
    ///
    /// - `Unlike`: the plan has another number of devices, or of damages to the attempts so far.
    /// - `Memory`: memory was refused.
    pub fn follow(&mut self, alloc: Global, plan: &Plan) -> Result<(), FollowFault>
        ensures world { OnOk result (world_of self.new ≡ followed plan.now (world_of self.old)) }
        ensures tracer { tracer_of self.new ≡ tracer_of self.old }
        ensures alike { OnOk result (is_alike plan.now (world_of self.old) ≡ true) }
        ensures unlike { result ≡ Err Unlike → is_alike plan.now (world_of self.old) ≡ false }
        ensures kept { OnErr result (self.new ≡ self.old) }
    {
        if !self.is_alike(plan) {
            return Err(FollowFault::Unlike);
        }
        let left = events_behind(alloc, plan.events(), self.taken)?;
        let damages = damage_copies(alloc, plan.damages())?;
        self.left = left;
        self.damages = damages;
        Ok(())
    }

    /// Whether another plan has as many devices, and the same damages up to the attempts that were made.
    fn is_alike(&self, plan: &Plan) -> bool
        ensures { result ≡ is_alike plan.now (world_of self.now) }
    {
        plan.devices().len() == self.devices.count()
            && damages_until(self.attempts, plan.damages())
                == damages_until(self.attempts, self.damages.as_slice())
    }
}

/// Copies of the events behind that number of them.
fn events_behind(alloc: Global, events: &[Event], taken: u64) -> Result<VecDeque<Event>, AllocError>
    ensures { IfOk result (λ left. left.items ≡ drop taken events.now) }
{
    let first = events
        .len()
        .min(usize::try_from(taken).unwrap_or(usize::MAX));
    Ok(VecDeque::from(event_copies(alloc, &events[first..])?))
}

/// The same damages, in a vector of their own.
fn damage_copies(alloc: Global, damages: &[Damage]) -> Result<Vec<Damage>, AllocError>
    ensures { IfOk result (λ copies. copies.items ≡ damages.now) }
{
    damages.to_vec(alloc)
}

/// How many damages are to attempts up to this one.
#[cycle(damages_until)]
#[tactic(auto, unfolding(usb_world::specs::Wire::damages_until))]
fn damages_until(attempt: u64, damages: &[Damage]) -> usize
    ensures value { result ≡ damages_until attempt damages.now }
    ensures most { result ≤ length damages.now }
{
    match damages.split_first() {
        None => 0,
        Some((first, rest)) if first.attempt <= attempt => 1 + damages_until(attempt, rest),
        Some((_, rest)) => damages_until(attempt, rest),
    }
}
